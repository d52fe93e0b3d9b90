//! Stars that were built beforehand.
ghost use Rattle.std.specs.Prelude.{◌≡◌, IfSome};
ghost use Rattle.std.specs.Arc.{arc_value};
ghost use Rattle.un_facts.specs.Known.{Known};
ghost use Rattle.un_rebuild.specs.Rebuilding.{fresh_at};
ghost use Rattle.un_rebuild.specs.Preparing.{AreUsable};

use crate::marks::Marks;
use std::collections::BTreeMap;
use std::sync::Arc;
use un_defs::Star;
use un_geom::Point;

/// Stars by their points, each of which holds where the marks of what was done since miss its point.
#[derive(Drop)]
pub struct Usable<'a> {
    pub stars: &'a BTreeMap<Point, Arc<Star>>,
    pub marks: Marks,
}

impl<'a> Usable<'a> {
    /// The star of a point, if one was built and still holds.
    pub(crate) fn star(&self, p: Point) -> Option<&'a Arc<Star>>
        ensures { (K : Known) → AreUsable K self.now
            → IfSome result (λ star. arc_value star.now ≡ fresh_at K p) }
    {
        if self.marks.miss(p) {
            self.stars.get(&p)
        } else {
            None
        }
    }
}
