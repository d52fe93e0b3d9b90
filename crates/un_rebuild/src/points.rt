//! The points at which a star may have to be built.
ghost use Rattle.std.specs.Prelude.{◌≡◌, IfOk, OnOk, fold};
ghost use Rattle.std.specs.List.Sorted.{IsStrictlySortedBy};
ghost use Rattle.std.specs.BTreeSet.{insert_key};
ghost use Rattle.un_geom.specs.Places.{point_cmp};
ghost use Rattle.un_rebuild.specs.Rebuilding.{ArePoints};

use crate::gathered::Gathered;
use std::alloc::{AllocError, Global};
use std::collections::BTreeSet;
use un_facts::Facts;
use un_geom::{Point, Rect};
use un_index::Index;

/// Puts the points into the set.
pub fn add_all(set: &mut BTreeSet<Point>, points: &[Point]) -> Result<(), AllocError>
    ensures { OnOk result (set.new.keys ≡ fold (insert_key point_cmp) set.old.keys points.now) }
{
    for point in points {
        set.insert(*point)?;
    }
    Ok(())
}

/// The points under the areas at which something stands or a star is kept, by x, y and z.
pub fn points_under(
    alloc: Global,
    facts: &Facts,
    kept: &Index,
    areas: &[(u64, Rect)],
) -> Result<Vec<Point>, AllocError>
    ensures points { IfOk result (λ points. ArePoints facts.now kept.now areas.now points.items) }
    ensures sorted { IfOk result (λ points. IsStrictlySortedBy point_cmp points.items) }
{
    // For the proof alone.
    let _setup = facts.setup();
    let mut gathered = Gathered::new(alloc);
    for (_, area) in areas {
        gathered.add(&facts.points(alloc, *area)?)?;
        gathered.add(&kept.points(alloc, *area)?)?;
    }
    Ok(gathered.into_points())
}
