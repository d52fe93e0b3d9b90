//! The calls of a map from points that no crate above makes.

use std::alloc::Global;
use std::sync::Arc;
use un_geom::{Point, Rect};
use un_points::PointMap;

const WEST: Point = Point { x: 0, y: 0, z: 5 };

const EAST: Point = Point { x: 10, y: 10, z: 1 };

// The first value under a square that covers both points, after the one in the west was taken out.
fn value_left(alloc: Global) -> Option<u64> {
    let square = Rect::new(0, 0, 10, 10)?;
    let west = PointMap::new()
        .with(alloc, WEST, Arc::new(alloc, 2u64).ok()?)
        .ok()?;
    let both = west.with(alloc, EAST, Arc::new(alloc, 4u64).ok()?).ok()?;
    let east = both.without(alloc, WEST).ok()?;
    let (_, value) = east.next_under(&square, None)?;
    Some(**value)
}

#[test]
fn a_point_is_taken_out(rt: HostRuntime) {
    assert_eq!(rt; value_left(rt.alloc()), Some(4));
}
