//! The topology that is kept and the dirty areas, as traces go over them.
ghost use Rattle.std.proofs.Props.{props};
ghost use Rattle.un_defs.specs.Ground.{AreNumbered};

use un_defs::{Ground, Star};
use un_dirty::Dirty;
use un_geom::Point;
use un_index::Index;

/// The kept stars, and the areas.
#[derive(Clone, Copy)]
pub(crate) struct Kept<'a> {
    pub(crate) stars: &'a Index,
    pub(crate) dirty: &'a Dirty,
    ghost numbered: { AreNumbered dirty.now.areas } by { Prim.hlevel props },
}

impl Ground for Kept<'_> {
    ghost use Rattle.un_index.specs.Kept.{stars_of};

    ghost stars_and_areas = { λ k. record { stars = stars_of k.stars.now; areas = k.dirty.now.areas } };

    fn star(&self, p: Point) -> Option<&Star> {
        self.stars.star(p)
    }

    fn dirty(&self, p: Point) -> Option<u64> {
        self.dirty.least_at(p)
    }

    ghost numbered = { λ k. k.numbered };
}
