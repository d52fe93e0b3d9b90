//! The pairs under a rectangle, one after another.
//!
//! The walk goes over the pairs from the left side of the rectangle on. A column is the points with one x. After some points in a row that
//! the rectangle does not cover, the walk looks up where to go on: at the rectangle's bottom if it is below it in its column, and at the
//! next column if it is above it.
ghost use Rattle.std.specs.Prelude.{◌≡◌};
ghost use Rattle.std.specs.Iterator.{item_count};
ghost use Rattle.std.specs.Map.Iter.{TakesFirst};
ghost use Rattle.un_pages.specs.Pairs.{pair_held};
ghost use Rattle.un_points.specs.PointMaps.{covered, IsRun};

use crate::strip::{before, is_beyond, skip};
use std::marker::Model;
use std::ops::Bound;
use std::sync::Arc;
use un_geom::{Point, Rect};
use un_pages::{Paged, Range};

/// How many points in a row are passed over one by one before a look-up, which takes about as long as so many steps.
const MOST_MISSES: u32 = 16;

/// An iterator over the pairs of a map whose points a rectangle covers, by x, then y, then z.
#[derive(Drop)]
pub struct Under<'a, V: Drop> {
    pairs: &'a Paged<Point, V>,
    rest: Range<'a, Point, V>,
    passed: Option<Point>,
    extent: Rect,
}

impl<'a, V: Drop> Model for Under<'a, V> {
    ghost use Rattle.std.specs.Prelude.{List};
    ghost use Rattle.un_geom.specs.declared.point.Point.{Point};
    ghost use Rattle.un_points.specs.PointMaps.{covered, IsRun};

    ghost Value = { List (Point × V) };

    ghost view = { λ u. covered u.extent u.rest };

    ghost invariant = { λ u. IsRun u.pairs.now u.passed u.rest };
}

impl<'a, V: Drop> Under<'a, V> {
    pub(crate) fn new(pairs: &'a Paged<Point, V>, extent: &Rect) -> Under<'a, V>
        ensures { result ≡ covered extent.now pairs.now }
    {
        // For the proof alone.
        let _len = pairs.len();
        let first = before(extent);
        Under {
            pairs,
            rest: pairs.range(Bound::Excluded(first)),
            passed: Some(first),
            extent: *extent,
        }
    }
}

// The next covered pair.
fn next_covered<'a, V: Drop>(
    pairs: &'a Paged<Point, V>,
    rest: &mut Range<'a, Point, V>,
    passed: &mut Option<Point>,
    extent: &Rect,
) -> Option<(Point, &'a Arc<V>)>
    requires { IsRun pairs.now passed.old rest.old }
    ensures run { IsRun pairs.now passed.new rest.new }
    ensures taken { TakesFirst pair_held (covered extent.now rest.old) result (covered extent.now rest.new) }
{
    let mut misses = 0u32;
    while let Some((point, value)) = rest.next() {
        *passed = Some(point);
        if extent.covers(point) {
            return Some((point, value));
        }
        if is_beyond(extent, point) {
            return None;
        }
        if misses < MOST_MISSES {
            misses += 1;
        } else {
            let last = skip(extent, point);
            *passed = Some(last);
            *rest = pairs.range(Bound::Excluded(last));
            misses = 0;
        }
    }
    None
}

impl<'a, V: Drop> Iterator for Under<'a, V> {
    type Item = (Point, &'a Arc<V>);

    ghost next_gives = { TakesFirst pair_held };

    ghost remaining = { item_count (λ r. r) };

    fn next(&mut self) -> Option<(Point, &'a Arc<V>)> {
        next_covered(self.pairs, &mut self.rest, &mut self.passed, &self.extent)
    }
}
