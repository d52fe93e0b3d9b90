//! The rectangles that were made dirty since a moment.
ghost use Rattle.std.specs.Prelude.{◌≡◌, IfOk, IfSome};
ghost use Rattle.un_dirty.specs.Areas.{added, no_areas};
ghost use Rattle.un_rebuild.specs.Preparing.{misses, AreMarksOf};

use std::alloc::{AllocError, Global};
use un_dirty::{Dirty, DirtyFault};
use un_geom::{Point, Rect};

/// The most rectangles that are kept: as many as a network has dirty areas.
const MOST_RECTANGLES: usize = 65_536;

/// Rectangles, found by place.
#[derive(Drop)]
pub struct Marks {
    /// `None` where there are too many. Each point counts as dirty then.
    areas: Option<Dirty>,
}

// The rectangles by place, unless there are too many.
fn areas_of(alloc: Global, rects: &[Rect]) -> Result<Option<Dirty>, AllocError>
    ensures { IfOk result (λ areas. IfSome areas (λ d. d ≡ added no_areas rects.now)) }
{
    if rects.len() > MOST_RECTANGLES {
        return Ok(None);
    }
    match Dirty::new(alloc).add(alloc, rects) {
        Ok(areas) => Ok(Some(areas)),
        Err(DirtyFault::Full) => Ok(None),
        Err(DirtyFault::Memory) => Err(AllocError),
    }
}

impl Marks {
    /// The marks of these rectangles.
    pub fn of(alloc: Global, rects: &[Rect]) -> Result<Marks, AllocError>
        ensures { IfOk result (AreMarksOf rects.now) }
    {
        Ok(Marks {
            areas: areas_of(alloc, rects)?,
        })
    }

    /// Whether it is certain that none of the rectangles covers the point.
    pub fn miss(&self, p: Point) -> bool
        ensures { result ≡ misses self.now p }
    {
        match &self.areas {
            Some(areas) => areas.least_at(p).is_none(),
            None => false,
        }
    }
}
