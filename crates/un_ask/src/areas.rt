//! Lists of what lies at places.
use un_defs::TopoError;
use un_geom::{Point, Rect};
use un_schema::Items;

/// A list of dirty areas with their numbers.
pub type Areas = Items<(u64, Rect)>;

/// A list of errors of the topology with their points.
pub type PlacedErrors = Items<(Point, TopoError)>;

/// A list of points.
pub type Points = Items<Point>;
