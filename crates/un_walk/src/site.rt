//! What a ground has at a point.

ghost use Rattle.std.specs.Prelude.{◌≡◌, ◌≤◌, ◌+◌, slice_get};
ghost use Rattle.std.specs.List.{sum_by};
ghost use Rattle.std.specs.Option.{option_copied};
ghost use Rattle.un_walk.specs.Site.{star_of, ties_away, IsSite};

use crate::traversal::is_same_point;
use un_defs::{Ground, PackedSpot, Star};
use un_geom::Point;
use un_steps::Steps;

/// A point with its star, if it has one, and the least dirty area that covers it.
#[derive(Clone, Copy)]
pub(crate) struct Site<'a> {
    pub(crate) at: Point,
    pub(crate) area: Option<u64>,
    pub(crate) star: Option<&'a Star>,
}

impl<'a> Site<'a> {
    /// The entries of the star.
    pub(crate) fn spots(&self) -> &'a [PackedSpot]
        ensures { result.now ≡ (star_of self.now).spots }
    {
        match self.star {
            Some(star) => star.spots.as_slice(),
            None => &[],
        }
    }

    /// How many links lead from the entries of the star to other points, or 2^64 - 1 where there are more.
    ///
    /// The links of a star that a walk comes to are read one by one soon after. Here they are read in one short loop, so that those which no
    /// cache holds are fetched side by side.
    pub(crate) fn links_away(&self) -> usize
        ensures { result ≤ sum_by (ties_away self.now.at) (star_of self.now).spots }
    {
        let mut count: usize = 0;
        for spot in self.spots() {
            count = count.saturating_add(ties_away(spot, self.at));
        }
        count
    }

    /// The entry at a place of the star.
    pub(crate) fn spot_at(&self, place: usize) -> Option<&'a PackedSpot>
        ensures { option_copied result ≡ slice_get (star_of self.now).spots place }
    {
        self.spots().get(place)
    }
}

// How many links lead from the entry to other points than this one.
fn ties_away(spot: &PackedSpot, at: Point) -> usize
    ensures { result ≡ ties_away at spot.now }
{
    spot.ties()
        .iter()
        .filter(|tie| !is_same_point(tie.to().at, at))
        .count()
}

/// What the ground has at the point. `steps` counts the star.
pub(crate) fn looked_up<'a, G: Ground, L>(over: &'a G, at: Point, steps: &mut Steps<L>) -> Site<'a>
    ensures site { IsSite (G.stars_and_areas over.now) result }
    ensures at { result.at ≡ at }
    ensures once { steps.new ≤ steps.old + 1 }
    ensures never_falls { steps.old ≤ steps.new }
{
    steps.tick();
    Site {
        at,
        area: over.dirty(at),
        star: over.star(at),
    }
}
