//! The places that walks reach, by a worklist.

ghost use Rattle.std.specs.Prelude.{◌≡◌, ◌<◌, ◌↔◌, ℕ, [], ◌∷◌, length, replicate, Contains, true, false, IfOk, OnOk};
ghost use Rattle.un_isolate.specs.Links.{LeadInside};
ghost use Rattle.un_isolate.specs.Spread.{mark_at, AreListed, AreReached, Adds};

use crate::links::Ends;
use std::alloc::{AllocError, Global};

/// Marks on the places found so far, and these places in the order in which they were found.
#[derive(Drop)]
pub(crate) struct Found {
    pub(crate) marks: Vec<bool>,
    pub(crate) order: Vec<usize>,
}

impl Found {
    fn new(alloc: Global, count: usize) -> Result<Self, AllocError>
        ensures { IfOk result (λ f. (f.marks.items ≡ replicate count false) × (f.order.items ≡ [])) }
    {
        Ok(Found {
            marks: vec![in alloc; false; count]?,
            order: Vec::new(alloc),
        })
    }

    fn add(&mut self, place: usize) -> Result<(), AllocError>
        requires inside { place < length self.old.marks.items }
        requires listed { AreListed self.old.marks.items self.old.order.items }
        ensures { OnOk result (Adds self.old self.new (place ∷ [])) }
    {
        if !self.marks[place] {
            self.marks[place] = true;
            self.order.push(place)?;
        }
        Ok(())
    }

    /// Adds each of the places that was not found yet.
    fn add_all(&mut self, places: &[usize]) -> Result<(), AllocError>
        requires inside { (i : ℕ) → Contains places.now i → i < length self.old.marks.items }
        requires listed { AreListed self.old.marks.items self.old.order.items }
        ensures { OnOk result (Adds self.old self.new places.now) }
    {
        for place in places {
            self.add(*place)?;
        }
        Ok(())
    }
}

fn marked_places(alloc: Global, marks: &[bool]) -> Result<Vec<usize>, AllocError>
    ensures { IfOk result (λ places. (i : ℕ) → Contains places.items i ↔ (mark_at marks.now i ≡ true)) }
{
    let mut places = Vec::new(alloc);
    for place in 0..marks.len() {
        if marks[place] {
            places.push(place)?;
        }
    }
    Ok(places)
}

/// Marks exactly the places that walks reach from the marked starts. A walk may end in a closed place, but does not go on from it.
pub(crate) fn spread(
    alloc: Global,
    links: &[Ends],
    starts: &[bool],
    closed: &[bool],
) -> Result<Vec<bool>, AllocError>
    requires starts { length starts.now ≡ length links.now }
    requires closed { length closed.now ≡ length links.now }
    requires inside { LeadInside links.now }
    ensures { IfOk result (λ marks. AreReached links.now starts.now closed.now marks.items) }
{
    let mut found = Found::new(alloc, links.len())?;
    found.add_all(&marked_places(alloc, starts)?)?;
    let mut next = 0;
    while next < found.order.len() {
        let place = found.order[next];
        if !closed[place] {
            found.add_all(links[place].as_slice())?;
        }
        next += 1;
    }
    let Found { marks, order: _ } = found;
    Ok(marks)
}
