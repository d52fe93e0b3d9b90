//! The stars under the areas that meet an extent.
ghost use Rattle.std.specs.Prelude.{◌≡◌, ◌+◌, length, IfOk, IfSome};
ghost use Rattle.std.specs.List.{sum_by};
ghost use Rattle.std.specs.Arc.{arc_value};
ghost use Rattle.un_rebuild.specs.Rebuilding.{fresh_at, met, AreRebuilt, IsKept};
ghost use Rattle.un_rebuild.specs.Renewed.{IsRebuilt};
ghost use Rattle.un_rebuild.specs.Preparing.{AreUsable};

use crate::inside::points_met;
use crate::usable::Usable;
use std::alloc::{AllocError, Global};
use std::sync::Arc;
use un_defs::Star;
use un_dirty::Dirty;
use un_facts::Facts;
use un_geom::{Point, Rect};
use un_index::Index;
use un_star::build;

/// What is kept once some points have the stars of all features, and how many errors these stars have.
#[derive(Drop)]
struct Replaced {
    kept: Index,
    errors: u64,
}

/// The topology that is fresh under the areas that meet an extent.
#[derive(Drop)]
pub struct Rebuilt {
    pub kept: Index,
    /// The points under the areas at which something stands or a star was kept, by x, y and z.
    pub points: Vec<Point>,
    /// How many areas meet the extent.
    pub areas: u64,
    /// How many errors the stars at the points have.
    pub errors: u64,
}

// One star's errors more. A count that is too great is one of errors that no memory holds.
fn with_errors(errors: u64, star: &Star) -> Result<u64, AllocError>
    ensures { IfOk result (λ n. n ≡ errors + length star.now.errors) }
{
    match errors.checked_add(star.errors.as_slice().len() as u64) {
        Some(sum) => Ok(sum),
        None => Err(AllocError),
    }
}

// The star of the features at a point, built now.
fn built(alloc: Global, facts: &Facts, p: Point) -> Result<Arc<Star>, AllocError>
    ensures { IfOk result (λ star. arc_value star ≡ fresh_at facts.now p) }
{
    Ok(Arc::new(alloc, build(alloc, &facts.live(), p)?)?)
}

// The star of the features at a point, built beforehand or now.
fn star_at(
    alloc: Global,
    facts: &Facts,
    usable: Option<&Usable>,
    p: Point,
) -> Result<Arc<Star>, AllocError>
    requires { IfSome usable (λ u. AreUsable facts.now u.now) }
    ensures { IfOk result (λ star. arc_value star ≡ fresh_at facts.now p) }
{
    if let Some(usable) = usable
        && let Some(star) = usable.star(p)
    {
        return Arc::try_clone(star);
    }
    built(alloc, facts, p)
}

// What is kept once these points have the stars of all features.
fn put_stars(
    alloc: Global,
    facts: &Facts,
    kept: &Index,
    points: &[Point],
    usable: Option<&Usable>,
) -> Result<Replaced, AllocError>
    requires { IfSome usable (λ u. AreUsable facts.now u.now) }
    ensures stars { IfOk result (λ r. AreRebuilt facts.now kept.now points.now r.kept) }
    ensures kept { IfOk result (λ r. IsKept r.kept) }
    ensures errors { IfOk result (λ r. r.errors ≡ sum_by (λ p. length (fresh_at facts.now p).errors) points.now) }
{
    let mut fresh = kept.share()?;
    let mut errors = 0;
    for point in points {
        let star = star_at(alloc, facts, usable, *point)?;
        errors = with_errors(errors, &star)?;
        fresh.put(alloc, *point, star)?;
    }
    // For the proof alone.
    let _len = fresh.len();
    Ok(Replaced {
        kept: fresh,
        errors,
    })
}

/// The kept topology once it is fresh under each area that meets the extent. The kept one stays as it is.
///
/// Stars that were built beforehand change nothing of the result.
pub fn rebuild(
    alloc: Global,
    facts: &Facts,
    kept: &Index,
    dirty: &Dirty,
    extent: Rect,
    usable: Option<&Usable>,
) -> Result<Rebuilt, AllocError>
    requires { IfSome usable (λ u. AreUsable facts.now u.now) }
    ensures { IfOk result (IsRebuilt facts.now kept.now (met extent dirty.now.areas)) }
{
    let areas = dirty.meeting(alloc, extent)?;
    let points = points_met(alloc, facts, kept, dirty, extent, &areas)?;
    let Replaced { kept, errors } = put_stars(alloc, facts, kept, &points, usable)?;
    Ok(Rebuilt {
        kept,
        points,
        areas: areas.len() as u64,
        errors,
    })
}
