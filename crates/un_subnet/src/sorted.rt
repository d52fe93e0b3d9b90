//! Sorted lists, with equal elements once, in place.

ghost use Rattle.std.specs.Prelude.{◌≡◌};
ghost use Rattle.std.specs.Ordering.{nat_cmp};
ghost use Rattle.un_geom.specs.Places.{point_cmp};
ghost use Rattle.un_defs.specs.Orders.{rising};

use un_geom::Point;

/// The points sorted, equal ones once. It takes no memory.
pub(crate) fn sorted_points(mut points: Vec<Point>) -> Vec<Point>
    ensures { result.items ≡ rising point_cmp points.items }
{
    points.sort_unstable();
    points.dedup();
    points
}

/// The ids sorted, equal ones once. It takes no memory.
pub(crate) fn sorted_ids(mut ids: Vec<u64>) -> Vec<u64>
    ensures { result.items ≡ rising nat_cmp ids.items }
{
    ids.sort_unstable();
    ids.dedup();
    ids
}
