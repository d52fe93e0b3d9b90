//! The points under the areas that meet an extent, where these are many and lie in it.
//!
//! Where there are at least as many areas as features, most of what stands in the extent lies under one of them, and most of the areas cover a
//! point or two. So the points in the extent are taken as a whole, and each is kept that a dirty area covers: one that covers a point of the
//! extent meets it.
ghost use Rattle.std.specs.Prelude.{◌≡◌, ◌&&◌, true, filter, int_le, IfOk};
ghost use Rattle.std.specs.List.Sorted.{IsStrictlySortedBy};
ghost use Rattle.un_geom.specs.Places.{point_cmp};
ghost use Rattle.un_rebuild.specs.Rebuilding.{is_under, met, ArePoints};
ghost use Rattle.un_rebuild.specs.Inside.{lies_in, AreWithin};

use crate::gathered::Gathered;
use crate::points::points_under;
use std::alloc::{AllocError, Global};
use un_dirty::Dirty;
use un_facts::Facts;
use un_geom::{Point, Rect};
use un_index::Index;

// The one span lies in the other.
fn is_part(one: (i32, i32), other: (i32, i32)) -> bool
    ensures { result ≡ (int_le other.0 one.0 && int_le one.1 other.1) }
{
    other.0 <= one.0 && one.1 <= other.1
}

// Its least and greatest x.
fn width(rect: Rect) -> (i32, i32)
    ensures { result ≡ (rect.x0, rect.x1) }
{
    let [x0, _, x1, _] = rect.sides();
    (x0, x1)
}

// Its least and greatest y.
fn height(rect: Rect) -> (i32, i32)
    ensures { result ≡ (rect.y0, rect.y1) }
{
    let [_, y0, _, y1] = rect.sides();
    (y0, y1)
}

// The one rectangle lies in the other.
fn is_within(one: Rect, other: Rect) -> bool
    ensures { result ≡ lies_in one other }
{
    let across = is_part(width(one), width(other));
    let along = is_part(height(one), height(other));
    across && along
}

// Each of the areas lies in the extent.
fn are_within(areas: &[(u64, Rect)], extent: Rect) -> bool
    ensures { result ≡ true → AreWithin areas.now extent }
{
    for (_, area) in areas {
        if !is_within(*area, extent) {
            return false;
        }
    }
    true
}

// A dirty area covers the point.
fn is_dirty(dirty: &Dirty, p: Point) -> bool
    ensures { result ≡ is_under dirty.now.areas p }
{
    dirty.least_at(p).is_some()
}

// Those of the points that a dirty area covers.
fn under_dirt(alloc: Global, dirty: &Dirty, points: &[Point]) -> Result<Vec<Point>, AllocError>
    ensures { IfOk result (λ list. list.items ≡ filter (is_under dirty.now.areas) points.now) }
{
    points
        .iter()
        .copied()
        .filter(|p| is_dirty(dirty, *p))
        .collect(alloc)
}

// The points under the areas, which lie in the extent.
fn points_inside(
    alloc: Global,
    facts: &Facts,
    kept: &Index,
    dirty: &Dirty,
    extent: Rect,
) -> Result<Vec<Point>, AllocError>
    requires { AreWithin (met extent dirty.now.areas) extent }
    ensures points { IfOk result
        (λ points. ArePoints facts.now kept.now (met extent dirty.now.areas) points.items) }
    ensures sorted { IfOk result (λ points. IsStrictlySortedBy point_cmp points.items) }
{
    // For the proof alone.
    let _setup = facts.setup();
    let standing = facts.points(alloc, extent)?;
    let stars = kept.points(alloc, extent)?;
    let mut gathered = Gathered::new(alloc);
    gathered.add(&under_dirt(alloc, dirty, &standing)?)?;
    gathered.add(&under_dirt(alloc, dirty, &stars)?)?;
    Ok(gathered.into_points())
}

/// The points under the dirty areas that meet the extent at which something stands or a star is kept, by x, y and z. The areas are given.
pub(crate) fn points_met(
    alloc: Global,
    facts: &Facts,
    kept: &Index,
    dirty: &Dirty,
    extent: Rect,
    areas: &[(u64, Rect)],
) -> Result<Vec<Point>, AllocError>
    requires { areas.now ≡ met extent dirty.now.areas }
    ensures points { IfOk result
        (λ points. ArePoints facts.now kept.now (met extent dirty.now.areas) points.items) }
    ensures sorted { IfOk result (λ points. IsStrictlySortedBy point_cmp points.items) }
{
    if facts.len() <= areas.len() as u64 && are_within(areas, extent) {
        points_inside(alloc, facts, kept, dirty, extent)
    } else {
        points_under(alloc, facts, kept, areas)
    }
}
