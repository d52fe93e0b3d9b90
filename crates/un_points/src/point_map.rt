// The map.
ghost use Rattle.std.specs.Prelude.{◌≡◌, [], None, Some, map, length, IfOk, OnOk, OnErr, IfSome, IfNone};
ghost use Rattle.std.specs.Option.{option_copied};
ghost use Rattle.std.specs.Arc.{arc_value};
ghost use Rattle.std.specs.Map.{remove_entry};
ghost use Rattle.std.specs.BTreeMap.{is_at, insert_entry};
ghost use Rattle.un_geom.specs.Places.{point_cmp};
ghost use Rattle.un_pages.specs.Pairs.{pair_held, IsOrdered};
ghost use Rattle.un_points.specs.PointMaps.{value_at, covered, covered_past, IsChangedAt, IsNextCovered};

use crate::strip::{is_beyond, start};
use crate::walk::Under;
use std::alloc::{AllocError, Global};
use std::marker::Model;
use std::sync::Arc;
use un_geom::{Point, Rect};
use un_pages::Paged;

/// A map from points. `with` and `without` give a new map, which shares its pages with this one; `put` and `take` change the map itself, and
/// none of those that share its pages.
#[derive(Drop)]
pub struct PointMap<V: Drop> {
    pairs: Paged<Point, V>,
}

impl<V: Drop> Model for PointMap<V> {
    ghost use Rattle.std.specs.Prelude.{List};
    ghost use Rattle.un_geom.specs.declared.point.Point.{Point};

    ghost Value = { List (Point × V) };

    ghost view = { λ m. m.pairs };
}

impl<V: Drop> PointMap<V> {
    /// The empty map, which takes no memory.
    pub fn new() -> PointMap<V>
        ensures { result ≡ [] }
    {
        PointMap {
            pairs: Paged::new(),
        }
    }

    /// How many points have a value.
    pub fn len(&self) -> u64
        ensures len { result ≡ length self.now }
        ensures ordered { IsOrdered point_cmp self.now }
    {
        self.pairs.len()
    }

    /// The value at the point.
    pub fn get(&self, p: Point) -> Option<&V>
        ensures { option_copied result ≡ value_at p self.now }
    {
        self.pairs.get(&p)
    }

    /// The map with the value at the point.
    pub fn with(&self, alloc: Global, p: Point, value: Arc<V>) -> Result<PointMap<V>, AllocError>
        ensures list { IfOk result (λ m. m ≡ insert_entry point_cmp self.now p (arc_value value)) }
        ensures values { IfOk result (λ m. IsChangedAt p (Some (arc_value value)) self.now m) }
    {
        Ok(PointMap {
            pairs: self.pairs.with_shared(alloc, p, value)?,
        })
    }

    /// The map without the point: an equal map, where the point has no value.
    pub fn without(&self, alloc: Global, p: Point) -> Result<PointMap<V>, AllocError>
        ensures list { IfOk result (λ m. m ≡ remove_entry (is_at (point_cmp p)) self.now) }
        ensures values { IfOk result (λ m. IsChangedAt p None self.now m) }
    {
        // For the proof alone.
        let _len = self.pairs.len();
        Ok(PointMap {
            pairs: self.pairs.without(alloc, &p)?,
        })
    }

    /// `with`, in the map itself: pages that no other map shares are changed in place, and the others copied. After an `Err` the map is as
    /// it was.
    pub fn put(&mut self, alloc: Global, p: Point, value: Arc<V>) -> Result<(), AllocError>
        ensures list { OnOk result (self.new ≡ insert_entry point_cmp self.old p (arc_value value)) }
        ensures values { OnOk result (IsChangedAt p (Some (arc_value value)) self.old self.new) }
        ensures err { OnErr result (self.new ≡ self.old) }
    {
        self.pairs.put(alloc, p, value)?;
        Ok(())
    }

    /// `without`, in the map itself: pages that no other map shares are changed in place, and the others copied. After an `Err` the map is
    /// as it was.
    pub fn take(&mut self, alloc: Global, p: Point) -> Result<(), AllocError>
        ensures list { OnOk result (self.new ≡ remove_entry (is_at (point_cmp p)) self.old) }
        ensures values { OnOk result (IsChangedAt p None self.old self.new) }
        ensures err { OnErr result (self.new ≡ self.old) }
    {
        // For the proof alone.
        let _len = self.pairs.len();
        self.pairs.take(alloc, &p)?;
        Ok(())
    }

    /// An equal map, which shares all pages.
    pub fn share(&self) -> Result<PointMap<V>, AllocError>
        ensures { IfOk result (λ m. m ≡ self.now) }
    {
        Ok(PointMap {
            pairs: self.pairs.share()?,
        })
    }

    /// The pairs by their points, sorted by x, then y, then z. It takes no memory.
    pub fn pairs(&self) -> &Paged<Point, V>
        ensures { result.now ≡ self.now }
    {
        &self.pairs
    }

    /// The first pair past the point, or of all, whose point the rectangle covers.
    pub fn next_under(&self, extent: &Rect, after: Option<Point>) -> Option<(Point, &Arc<V>)>
        ensures rest { IfSome result (λ e. IsNextCovered extent.now after self.now (pair_held e)) }
        ensures last { IfNone result (covered_past extent.now after self.now ≡ []) }
    {
        // For the proof alone.
        let _len = self.pairs.len();
        let mut passed = start(extent, after);
        while let Some((point, value)) = self.pairs.next(passed) {
            if is_beyond(extent, point) {
                return None;
            }
            if extent.covers(point) {
                return Some((point, value));
            }
            passed = Some(point);
        }
        None
    }

    /// The pairs whose points the rectangle covers, sorted by x, then y, then z.
    pub fn under(&self, extent: &Rect) -> Under<'_, V>
        ensures { result ≡ covered extent.now self.now }
    {
        Under::new(&self.pairs, extent)
    }

    /// The points that the rectangle covers, sorted by x, then y, then z.
    pub fn points(&self, alloc: Global, extent: &Rect) -> Result<Vec<Point>, AllocError>
        ensures { IfOk result (λ points. points.items ≡ map (λ e. e.0) (covered extent.now self.now)) }
    {
        let mut points = Vec::new(alloc);
        for (point, _) in self.under(extent) {
            points.push(point)?;
        }
        Ok(points)
    }
}
