//! Differences as values.
use std::sync::Arc;
use un_defs::Star;
use un_geom::Point;
use un_schema::Items;

/// The star that a point has in the newer of two topologies, or none if no star is left there.
#[derive(Drop)]
pub struct Change {
    pub at: Point,
    pub star: Option<Arc<Star>>,
}

/// A list of changes.
pub type Pairs = Items<Change>;

/// Some of the differences between two topologies.
#[derive(Drop)]
pub struct Page {
    pub pairs: Pairs,
    /// Whether there are further differences, at points after those of this page.
    pub more: bool,
}

/// A page, and what it was asked for: the reply to a query for changes.
#[derive(Drop)]
pub struct Changes {
    pub page: Page,
    /// The point after which the page begins, or none for the first page.
    pub after: Option<Point>,
    /// The version of the older topology.
    pub since: u64,
    /// The version of the newer topology.
    pub upto: u64,
    /// The version of the network that answered.
    pub version: u64,
}
