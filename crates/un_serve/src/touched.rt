//! What the entries between two versions say of where the topology may have changed.
ghost use Rattle.std.specs.Prelude.{◌≡◌, ◌++◌, [], flat_map, OnOk};

use std::alloc::{AllocError, Global};
use un_core::Net;
use un_desk::span::Gathers;
use un_geom::Rect;
use un_machine::Entry;

/// The rectangles that commands made dirty, in the order of the commands.
#[derive(Drop)]
pub struct Touched {
    rects: Vec<Rect>,
}

impl Touched {
    /// Nothing yet. It takes no memory.
    pub(crate) fn new(alloc: Global) -> Touched
        ensures { result.rects.items ≡ [] }
    {
        Touched {
            rects: Vec::new(alloc),
        }
    }

    /// The rectangles.
    pub(crate) fn rects(&self) -> &[Rect]
        ensures { result.now ≡ self.now.rects.items }
    {
        self.rects.as_slice()
    }
}

// Adds the rectangles of the entries.
#[tactic(auto, using(crate::proofs::Gathering::entry_one, crate::proofs::Gathering::entry_all))]
fn add_marks(rects: &mut Vec<Rect>, entries: &[Entry<Net>]) -> Result<(), AllocError>
    ensures { OnOk result (rects.new.items ≡ rects.old.items ++ flat_map (λ e. e.mark) entries.now) }
{
    for entry in entries {
        rects.extend_from_slice(entry.mark.as_slice())?;
    }
    Ok(())
}

impl Gathers<Net> for Touched {
    ghost use Rattle.un_serve.specs.Touching.{AreMarks};

    ghost stands = { λ t es. AreMarks t.rects.items es };

    #[tactic(auto, using(crate::proofs::Gathering::gathered_more))]
    fn gather(&mut self, _alloc: Global, entries: &[Entry<Net>]) -> Result<(), AllocError> {
        add_marks(&mut self.rects, entries)
    }
}
