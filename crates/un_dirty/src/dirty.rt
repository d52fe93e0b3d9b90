// The list of areas.
ghost use Rattle.std.specs.Prelude.{◌≡◌, ◌↔◌, ◌<◌, ◌≤◌, ◌+◌, ◌^◌, ◌++◌, true, map, filter, find, length, IfOk, IsErrOf};
ghost use Rattle.std.specs.Option.{option_map};
ghost use Rattle.std.specs.List.{enumerate_from, AllByRecursion};
ghost use Rattle.un_geom.specs.Places.{meets, covers};
ghost use Rattle.un_dirty.specs.Cells.{KeepsBelow, IsIndexed};
ghost use Rattle.un_dirty.specs.Areas.{no_areas, added, cleared, emptied, least_number, has_area, areas_gone, without_all as all_removed, IsNumbered};

use crate::cells::{Cells, least_over, put_area, without_areas};
use std::alloc::{AllocError, Global};
use std::marker::Model;
use std::ops::Bound;
use std::sync::Arc;
use thiserror::Error;
use un_geom::{Point, Rect};
use un_pages::{Memory, Paged};

/// The most areas that a list has.
pub const MOST_AREAS: u64 = 65_536;

/// The numbered list of dirty areas. `with` takes it, and changes in place what no other list shares; no other call changes a list.
#[derive(Drop)]
pub struct Dirty {
    areas: Paged<u64, Rect>,
    next: u64,
    cells: Cells,
    // Each area's level is below this number.
    levels: u32,
}

impl Model for Dirty {
    ghost use Rattle.un_dirty.specs.Cells.{KeepsBelow, IsIndexed};
    ghost use Rattle.un_dirty.specs.Areas.{DirtyList};
    ghost use Rattle.un_dirty.specs.Cells.{IsKept};

    ghost Value = { DirtyList };

    ghost view = { λ d. record { areas = d.areas; next = d.next } };

    ghost invariant = { λ d. IsKept d.areas d.next d.cells d.levels };
}

/// Why rectangles do not become areas.
#[derive(Clone, Copy, Debug, PartialEq, Eq, Error)]
pub enum DirtyFault {
    /// With them there would be more than 65,536 areas.
    #[error("too many dirty areas")]
    Full,
    /// Out of memory.
    #[error("out of memory")]
    Memory,
}

impl From<AllocError> for DirtyFault {
    ghost use Rattle.std.specs.Prelude.{◌≡◌};
    ghost use Rattle.un_dirty.specs.declared.dirty.DirtyFault.TheVariants.{Memory};

    ghost from_gives = { λ _ e. e ≡ Memory };

    fn from(_error: AllocError) -> DirtyFault {
        DirtyFault::Memory
    }
}

impl Dirty {
    /// The list without areas, which takes no memory. Its first area gets number 1.
    pub fn new(_alloc: Global) -> Dirty
        ensures { result ≡ no_areas }
    {
        Dirty {
            areas: Paged::new(),
            next: 1,
            cells: Paged::new(),
            levels: 0,
        }
    }

    /// The number that the next area gets.
    pub fn next_number(&self) -> u64
        ensures next { result ≡ self.now.next }
        ensures numbered { IsNumbered self.now }
    {
        // For the proof alone.
        let _len = self.areas.len();
        self.next
    }

    /// How many areas there are.
    pub fn len(&self) -> u64
        ensures len { result ≡ length self.now.areas }
        ensures few { length self.now.areas ≤ 65536 }
    {
        self.areas.len()
    }

    /// An equal list, which shares all pages.
    pub fn share(&self) -> Result<Dirty, Memory>
        ensures { IfOk result (λ d. d ≡ self.now) }
    {
        Ok(Dirty {
            areas: self.areas.share()?,
            next: self.next,
            cells: self.cells.share()?,
            levels: self.levels,
        })
    }

    /// Whether there is room for so many more areas.
    pub fn has_room(&self, count: u64) -> bool
        requires { count < 2 ^ 32 }
        ensures { result ≡ true ↔ (length self.now.areas + count ≤ 65536) }
    {
        self.areas.len() + count <= MOST_AREAS
    }

    /// The list with the rectangles after its areas, in this order, numbered on, for which there is room. It takes the list, and changes in
    /// place what no other list shares.
    pub fn with(self, alloc: Global, rects: &[Rect]) -> Result<Dirty, Memory>
        requires next { self.next < 9_000_000_000_100_000 }
        requires room { length self.areas + length rects.now ≤ 65536 }
        ensures { IfOk result (λ d. d ≡ added self rects.now) }
    {
        let Dirty {
            areas,
            next,
            cells,
            levels,
        } = self;
        let (areas, cells, levels) = extended(alloc, areas, cells, levels, next, rects)?;
        Ok(Dirty {
            areas,
            next: next + rects.len() as u64,
            cells,
            levels,
        })
    }

    /// The list with the rectangles after its areas, in this order, numbered on.
    pub fn add(&self, alloc: Global, rects: &[Rect]) -> Result<Dirty, DirtyFault>
        requires next { self.now.next < 9_000_000_000_100_000 }
        requires few { length rects.now < 2 ^ 32 }
        ensures list { IfOk result (λ d. d ≡ added self.now rects.now) }
        ensures full { IsErrOf result DirtyFault.Full ↔ (65536 < length self.now.areas + length rects.now) }
    {
        if !self.has_room(rects.len() as u64) {
            return Err(DirtyFault::Full);
        }
        Ok(self.share()?.with(alloc, rects)?)
    }

    /// The areas that meet the rectangle, with their numbers, rising.
    pub fn meeting(&self, alloc: Global, extent: Rect) -> Result<Vec<(u64, Rect)>, Memory>
        ensures { IfOk result (λ met. met.items ≡ filter (λ a. meets a.1 extent) self.now.areas) }
    {
        areas_meeting(&self.areas, alloc, &extent)
    }

    /// The list without the areas that meet the rectangle. Their numbers are not given again.
    pub fn clear_meeting(&self, alloc: Global, extent: Rect) -> Result<Dirty, Memory>
        ensures { IfOk result (λ d. d ≡ cleared self.now extent) }
    {
        let met = areas_meeting(&self.areas, alloc, &extent)?;
        if met.len() as u64 == self.areas.len() {
            return Ok(self.emptied());
        }
        Ok(Dirty {
            areas: without_all(&self.areas, alloc, &met)?,
            next: self.next,
            cells: without_areas(&self.cells, alloc, &met)?,
            levels: self.levels,
        })
    }

    // The list without its areas, numbered on, which takes no memory.
    fn emptied(&self) -> Dirty
        ensures { result ≡ emptied self.now }
    {
        Dirty {
            areas: Paged::new(),
            next: self.next,
            cells: Paged::new(),
            levels: 0,
        }
    }

    /// The areas that a later list no longer has, with their numbers, rising. Areas compare by their numbers.
    pub fn gone(&self, alloc: Global, later: &Dirty) -> Result<Vec<(u64, Rect)>, Memory>
        ensures { IfOk result (λ gone. gone.items ≡ areas_gone self.now.areas later.now.areas) }
    {
        areas_gone(&self.areas, alloc, &later.areas)
    }

    /// The least number of an area that covers the point.
    pub fn least_at(&self, p: Point) -> Option<u64>
        ensures first { result ≡ option_map (λ a. a.0) (find (λ a. covers a.1 p) self.now.areas) }
        ensures least { result ≡ least_number (map (λ a. a.0) (filter (λ a. covers a.1 p) self.now.areas)) }
    {
        // For the proof alone.
        let _len = self.areas.len();
        least_over(&self.areas, &self.cells, self.levels, p)
    }
}

// The areas, with the rectangles after them, numbered from the first number on; the cells with these; and how many levels are in use.
fn extended(
    alloc: Global,
    areas: Paged<u64, Rect>,
    cells: Cells,
    levels: u32,
    first: u64,
    rects: &[Rect],
) -> Result<(Paged<u64, Rect>, Cells, u32), Memory>
    requires under { AllByRecursion (λ a. a.0 < first) areas }
    requires few { levels ≤ 20 }
    requires room { first + length rects.now < 2 ^ 64 }
    ensures areas { IfOk result (λ r. r.0 ≡ areas ++ enumerate_from first rects.now) }
    ensures few { IfOk result (λ r. r.2 ≤ 20) }
    ensures rising { IfOk result (λ r. levels ≤ r.2) }
    ensures kept { IfOk result (λ r. KeepsBelow first cells r.1) }
    ensures each { IfOk result (λ r. AllByRecursion (IsIndexed r.1 r.2) (enumerate_from first rects.now)) }
{
    let mut extended = areas;
    let mut filled = cells;
    let mut used = levels;
    let mut number = first;
    for rect in rects {
        let shared = Arc::new(alloc, *rect)?;
        let level = put_area(&mut filled, alloc, number, &shared)?;
        extended.put(alloc, number, shared)?;
        used = used.max(level + 1);
        number += 1;
    }
    Ok((extended, filled, used))
}

fn areas_meeting(
    areas: &Paged<u64, Rect>,
    alloc: Global,
    extent: &Rect,
) -> Result<Vec<(u64, Rect)>, Memory>
    ensures { IfOk result (λ met. met.items ≡ filter (λ a. meets a.1 extent.now) areas.now) }
{
    let mut met = Vec::new(alloc);
    for (number, rect) in areas.range(Bound::Unbounded) {
        if rect.meets(extent) {
            met.push((number, **rect))?;
        }
    }
    Ok(met)
}

fn has_area(areas: &Paged<u64, Rect>, number: u64) -> bool
    ensures { result ≡ has_area areas.now number }
{
    areas.get(&number).is_some()
}

// The areas of which no later one has the number.
fn areas_gone(
    areas: &Paged<u64, Rect>,
    alloc: Global,
    later: &Paged<u64, Rect>,
) -> Result<Vec<(u64, Rect)>, Memory>
    ensures { IfOk result (λ gone. gone.items ≡ areas_gone areas.now later.now) }
{
    let mut gone = Vec::new(alloc);
    for (number, rect) in areas.range(Bound::Unbounded) {
        if !has_area(later, number) {
            gone.push((number, **rect))?;
        }
    }
    Ok(gone)
}

// The areas without those with these numbers.
fn without_all(
    areas: &Paged<u64, Rect>,
    alloc: Global,
    gone: &[(u64, Rect)],
) -> Result<Paged<u64, Rect>, Memory>
    ensures { IfOk result (λ m. m ≡ all_removed areas.now gone.now) }
{
    let mut left = areas.share()?;
    for area in gone {
        left.take(alloc, &area.0)?;
    }
    Ok(left)
}
