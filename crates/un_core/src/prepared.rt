//! Validations that are prepared beside editors.
//!
//! # What is to be found
//!
//! A validation builds the star of the features at each point under the dirty areas that meet its extent. That is most of its work, and it
//! reads nothing but the features. So it can be done in advance, at a state that is published, while editors go on; the validation itself
//! commits at a later state, and has to do there exactly what it would do without this help.
//!
//! # How it is found
//!
//! At the commit the areas are found anew, and so are their points. Where a star was prepared for a point and no command since has made the
//! point dirty, the prepared star is used; at any other point the star is built then.
//!
//! # Why that is enough
//!
//! A command changes the stars of the features only under the rectangles that it makes dirty (`steps_are_local`), and each entry of the log
//! keeps these as its mark. So a star outside all marks since is the one of the features now. Areas that validations cleared since do not
//! matter: a validation changes no feature.
//!
//! # What it costs
//!
//! At the commit, the rectangles since then are sorted by place once, which costs a part of what the commands that made them did. Each point
//! takes a look-up among them and one among the prepared stars, which are shared: none is copied.
ghost use Rattle.std.specs.Prelude.{◌≡◌, map, flat_map, IfOk, OnOk, IfSome};
ghost use Rattle.un_rebuild.specs.Preparing.{AreFresh, AreUsable};
ghost use Rattle.un_machine.specs.Logs.{Since};
ghost use Rattle.un_core.specs.State.{State, fresh_star, known};
ghost use Rattle.un_core.specs.Commands.{step};
ghost use Rattle.un_core.specs.Preparing.{IsPreparedAt};

use crate::net::Net;
use std::alloc::{AllocError, Global};
use std::collections::BTreeMap;
use std::sync::Arc;
use std::thread::Threads;
use un_defs::Star;
use un_geom::{Point, Rect};
use un_machine::Entry;
use un_rebuild::{Marks, Usable, points_under};
use un_validate::stars;

/// Stars that were built in advance for the validation of an extent.
#[derive(Drop)]
pub struct Prepared {
    /// The version of the features of which they are.
    pub(crate) version: u64,
    pub(crate) extent: Rect,
    pub(crate) stars: BTreeMap<Point, Arc<Star>>,
}

// Puts the star of a point among those of other points.
fn put_star(
    alloc: Global,
    stars: &mut BTreeMap<Point, Arc<Star>>,
    p: Point,
    star: Star,
) -> Result<(), AllocError>
    ensures { OnOk result ((s : State) → star ≡ fresh_star s p → AreFresh (known s) stars.old → AreFresh (known s) stars.new) }
{
    stars.insert(p, Arc::new(alloc, star)?)?;
    Ok(())
}

// The rectangles that the commands made dirty.
fn rects_of(alloc: Global, since: &[Entry<Net>]) -> Result<Vec<Rect>, AllocError>
    ensures { IfOk result (λ rects. rects.items ≡ flat_map (λ e. e.mark) since.now) }
{
    let mut rects = Vec::new(alloc);
    for entry in since {
        rects.extend_from_slice(entry.mark.as_slice())?;
    }
    Ok(rects)
}

impl Net {
    // The stars of the features at some points, built on several threads.
    fn stars_at<R: Threads + Sync>(
        &self,
        rt: &R,
        alloc: Global,
        points: &[Point],
    ) -> Result<Vec<Star>, AllocError>
        ensures { IfOk result (λ built. built.items ≡ map (fresh_star self.now) points.now) }
    {
        stars(rt, alloc, &self.facts.live(), points)
    }

    // These stars by their points.
    fn by_point(
        &self,
        alloc: Global,
        points: &[Point],
        built: Vec<Star>,
    ) -> Result<BTreeMap<Point, Arc<Star>>, AllocError>
        requires { built.items ≡ map (fresh_star self.now) points.now }
        ensures { IfOk result (AreFresh (known self.now)) }
    {
        let mut stars = BTreeMap::new(alloc);
        for (point, star) in points.iter().zip(built) {
            put_star(alloc, &mut stars, *point, star)?;
        }
        Ok(stars)
    }

    /// The stars under the dirty areas that meet the extent, built in advance on several threads. The network stays as it is.
    ///
    /// The only error is want of memory.
    pub fn prepare<R: Threads + Sync>(
        &self,
        rt: &R,
        alloc: Global,
        extent: Rect,
    ) -> Result<Prepared, AllocError>
        ensures { IfOk result (λ prepared. IsPreparedAt prepared self.now) }
    {
        // For the proof alone.
        let _rules = self.facts.setup().schema.rules();
        let areas = self.dirty.meeting(alloc, extent)?;
        let points = points_under(alloc, &self.facts, &self.kept, &areas)?;
        let built = self.stars_at(rt, alloc, &points)?;
        let stars = self.by_point(alloc, &points, built)?;
        Ok(Prepared {
            version: self.version,
            extent,
            stars,
        })
    }

    /// What still holds of what was prepared.
    pub(crate) fn usable<'a>(
        &self,
        alloc: Global,
        hint: Option<&'a Prepared>,
        since: &[Entry<Net>],
    ) -> Result<Option<Usable<'a>>, AllocError>
        requires { IfSome hint (λ h. Since step IsPreparedAt h.now since.now self.now) }
        ensures { IfOk result (λ usable. IfSome usable (AreUsable (known self.now))) }
    {
        let Some(prepared) = hint else {
            return Ok(None);
        };
        let rects = rects_of(alloc, since)?;
        Ok(Some(Usable {
            stars: &prepared.stars,
            marks: Marks::of(alloc, &rects)?,
        }))
    }
}
