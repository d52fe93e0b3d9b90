//! Which areas lie where: the numbers of the areas by cells of the plane.
//!
//! The plane is cut into square cells, once for each of 20 levels: those of level 0 have sides of 4,096 mm, and those of each further level
//! sides twice as long as those of the level before. An area belongs to the least level whose cells are longer than its longer side, so it
//! lies in at most four cells of its level. For each of them one ordered map has an entry, whose key is the cell and the area's number, and
//! whose value is the area's rectangle. Keys compare by cell first, so the entries of one cell follow one another in the map, by rising number.
//!
//! A point lies in one cell of each level. An area that covers it has an entry in the point's cell of the area's level. So the least number
//! of an area over the point is found among the entries of the point's cells: of each cell it is the first whose rectangle covers the point.
//! That area is looked up by its number, so nothing rests on a cell having no other entries.
//!
//! An area's entries share its rectangle with the map of the areas, so an entry takes no memory but its place in a page.
ghost use Rattle.std.specs.Prelude.{◌≡◌, ◌≢◌, ◌&&◌, ℕ, ◌+◌, ◌<◌, ◌≤◌, ◌^◌, true, length, IfOk, OnOk, IfSome};
ghost use Rattle.std.specs.Arc.{arc_value};
ghost use Rattle.std.specs.List.{AllByRecursion};
ghost use Rattle.un_geom.specs.declared.point.Point.{Point};
ghost use Rattle.un_geom.specs.Rectangle.{IsBounded};
ghost use Rattle.un_geom.specs.Places.{covers};
ghost use Rattle.un_dirty.specs.declared.cells.Cell.{Cell};
ghost use Rattle.un_dirty.specs.Cells.{first_entry, same_cell, level_of, cell_index, cell_at, covers_at, lesser_of, IsLeastIn, IsLeastOver, IsIndexed, FillsRow, FillsBlock, FillsCells, IsIn, KeepsFor, KeepsOthers, KeepsBut};

use std::alloc::Global;
use std::ops::Bound;
use std::sync::Arc;
use un_geom::{Point, Rect};
use un_pages::{Memory, Paged};

/// The side of a cell of level 0, in millimetres.
const SIDE: u32 = 4096;

/// The highest level.
const HIGHEST: u32 = 19;

/// A square of the plane.
#[derive(Clone, Copy, PartialEq, Eq, PartialOrd, Ord)]
pub(crate) struct Cell {
    level: u32,
    column: u32,
    row: u32,
}

/// A cell, and the number of an area that lies in it.
#[derive(Clone, Copy, PartialEq, Eq, PartialOrd, Ord)]
pub(crate) struct Entry {
    cell: Cell,
    number: u64,
}

/// The cells in which areas lie, with the numbers of the areas and their rectangles.
pub(crate) type Cells = Paged<Entry, Rect>;

// The level to which an area belongs.
#[tactic(auto, unfolding(crate::specs::Cells::level_of))]
fn level(rect: &Rect) -> u32
    ensures level { result ≡ level_of rect.now }
    ensures bound { result ≤ 19 }
{
    let [x0, y0, x1, y1] = rect.sides();
    let longer = x1.abs_diff(x0).max(y1.abs_diff(y0));
    let bits = u32::BITS.saturating_sub((longer / SIDE).leading_zeros());
    bits.min(HIGHEST)
}

// The column of an x, or the row of a y.
fn index(level: u32, place: i32) -> u32
    requires { level ≤ 19 }
    ensures index { result ≡ cell_index level place }
    ensures bound { result < 1_048_576 }
{
    (place.abs_diff(i32::MIN) / SIDE) >> level
}

fn cell_of(level: u32, p: Point) -> Cell
    requires { level ≤ 19 }
    ensures { result ≡ cell_at level p }
{
    Cell {
        level,
        column: index(level, p.x),
        row: index(level, p.y),
    }
}

// The cell of the corner with the least x and y.
fn low_cell(level: u32, rect: &Rect) -> Cell
    requires { level ≤ 19 }
    ensures level { result.level ≡ level }
    ensures column { result.column ≡ cell_index level rect.now.x0 }
    ensures row { result.row ≡ cell_index level rect.now.y0 }
    ensures bounded { IsBounded rect.now }
{
    let [x0, y0, _, _] = rect.sides();
    Cell {
        level,
        column: index(level, x0),
        row: index(level, y0),
    }
}

// The cell of the corner with the greatest x and y.
fn high_cell(level: u32, rect: &Rect) -> Cell
    requires { level ≤ 19 }
    ensures column { result.column ≡ cell_index level rect.now.x1 }
    ensures row { result.row ≡ cell_index level rect.now.y1 }
    ensures column_bound { result.column < 1_048_576 }
    ensures row_bound { result.row < 1_048_576 }
{
    let [_, _, x1, y1] = rect.sides();
    Cell {
        level,
        column: index(level, x1),
        row: index(level, y1),
    }
}

// Puts the number of an area into a cell.
fn put(
    cells: &mut Cells,
    alloc: Global,
    cell: Cell,
    area: u64,
    rect: &Arc<Rect>,
) -> Result<(), Memory>
    ensures here { OnOk result (IsIn cell area (arc_value rect.now) cells.new) }
    ensures kept { OnOk result (KeepsFor area (arc_value rect.now) cells.old cells.new) }
{
    let entry = Entry { cell, number: area };
    cells.put(alloc, entry, Arc::try_clone(rect)?)?;
    Ok(())
}

// Puts the number of an area into the cells of a row, from the first one to a column.
fn put_row(
    cells: &mut Cells,
    alloc: Global,
    first: Cell,
    last: u32,
    area: u64,
    rect: &Arc<Rect>,
) -> Result<(), Memory>
    requires { last < 1_048_576 }
    ensures all { OnOk result (FillsRow area (arc_value rect.now) first last cells.new) }
    ensures kept { OnOk result (KeepsFor area (arc_value rect.now) cells.old cells.new) }
{
    for column in first.column..last + 1 {
        put(
            cells,
            alloc,
            Cell {
                level: first.level,
                column,
                row: first.row,
            },
            area,
            rect,
        )?;
    }
    Ok(())
}

// Puts the number of an area into the cells from one corner to the other.
fn put_block(
    cells: &mut Cells,
    alloc: Global,
    low: Cell,
    high: Cell,
    area: u64,
    rect: &Arc<Rect>,
) -> Result<(), Memory>
    requires column { high.column < 1_048_576 }
    requires row { high.row < 1_048_576 }
    ensures all { OnOk result (FillsBlock area (arc_value rect.now) low high cells.new) }
    ensures kept { OnOk result (KeepsFor area (arc_value rect.now) cells.old cells.new) }
{
    for row in low.row..high.row + 1 {
        put_row(
            cells,
            alloc,
            Cell {
                level: low.level,
                column: low.column,
                row,
            },
            high.column,
            area,
            rect,
        )?;
    }
    Ok(())
}

/// Puts the number of an area into the cells in which it lies. The area's level.
pub(crate) fn put_area(
    cells: &mut Cells,
    alloc: Global,
    area: u64,
    rect: &Arc<Rect>,
) -> Result<u32, Memory>
    ensures level { IfOk result (λ level. level ≡ level_of (arc_value rect.now)) }
    ensures bound { IfOk result (λ level. level ≤ 19) }
    ensures all { OnOk result (FillsCells area (arc_value rect.now) cells.new) }
    ensures kept { OnOk result (KeepsFor area (arc_value rect.now) cells.old cells.new) }
{
    let sides = **rect;
    let level = level(&sides);
    let low = low_cell(level, &sides);
    let high = high_cell(level, &sides);
    put_block(cells, alloc, low, high, area, rect)?;
    Ok(level)
}

// Takes the number of an area out of a cell.
fn take(cells: &mut Cells, alloc: Global, cell: Cell, area: u64) -> Result<(), Memory>
    ensures { OnOk result (KeepsOthers area cells.old cells.new) }
{
    let entry = Entry { cell, number: area };
    cells.take(alloc, &entry)?;
    Ok(())
}

// Takes the number of an area out of the cells of a row, from the first one to a column.
fn take_row(
    cells: &mut Cells,
    alloc: Global,
    first: Cell,
    last: u32,
    area: u64,
) -> Result<(), Memory>
    requires { last < 1_048_576 }
    ensures { OnOk result (KeepsOthers area cells.old cells.new) }
{
    for column in first.column..last + 1 {
        take(
            cells,
            alloc,
            Cell {
                level: first.level,
                column,
                row: first.row,
            },
            area,
        )?;
    }
    Ok(())
}

// Takes the number of an area out of the cells in which it lies.
fn take_area(cells: &mut Cells, alloc: Global, rect: &Rect, area: u64) -> Result<(), Memory>
    ensures { OnOk result (KeepsOthers area cells.old cells.new) }
{
    let level = level(rect);
    let low = low_cell(level, rect);
    let high = high_cell(level, rect);
    for row in low.row..high.row + 1 {
        take_row(
            cells,
            alloc,
            Cell {
                level,
                column: low.column,
                row,
            },
            high.column,
            area,
        )?;
    }
    Ok(())
}

/// The cells without the numbers of some areas.
pub(crate) fn without_areas(
    cells: &Cells,
    alloc: Global,
    gone: &[(u64, Rect)],
) -> Result<Cells, Memory>
    ensures { IfOk result (λ r. KeepsBut gone.now cells.now r) }
{
    let mut left = cells.share()?;
    for area in gone {
        take_area(&mut left, alloc, &area.1, area.0)?;
    }
    Ok(left)
}

fn is_over(areas: &Paged<u64, Rect>, number: u64, p: Point) -> bool
    ensures { result ≡ covers_at p number areas.now }
{
    match areas.get(&number) {
        Some(rect) => rect.covers(p),
        None => false,
    }
}

// The rectangle of an entry covers the point, and so does the area that has the entry's number.
fn covers_point(areas: &Paged<u64, Rect>, number: u64, rect: &Rect, p: Point) -> bool
    ensures { result ≡ (covers rect.now p && covers_at p number areas.now) }
{
    rect.covers(p) && is_over(areas, number, p)
}

// Where the entries of a cell begin.
fn first_entry(cell: Cell) -> Bound<Entry>
    ensures { result ≡ Bound.Included (first_entry cell) }
{
    Bound::Included(Entry { cell, number: 0 })
}

impl Entry {
    fn is_in(self, cell: Cell) -> bool
        ensures { result ≡ same_cell self.cell cell }
    {
        self.cell == cell
    }
}

// The least of the numbers in the cell whose area covers the point.
fn least_in(areas: &Paged<u64, Rect>, cells: &Cells, cell: Cell, p: Point) -> Option<u64>
    ensures sound { IfSome result (λ n. covers_at p n areas.now ≡ true) }
    ensures least { IsLeastIn cell p areas.now cells.now result }
{
    // For the proof alone.
    let _len = cells.len();
    for (entry, rect) in cells.range(first_entry(cell)) {
        if !entry.is_in(cell) {
            return None;
        }
        if covers_point(areas, entry.number, rect, p) {
            return Some(entry.number);
        }
    }
    None
}

fn lesser(a: Option<u64>, b: Option<u64>) -> Option<u64>
    ensures { result ≡ lesser_of a b }
{
    match (a, b) {
        (Some(m), Some(n)) => Some(m.min(n)),
        (Some(m), None) => Some(m),
        (None, other) => other,
    }
}

/// The least of the numbers in the point's cells whose area covers the point.
pub(crate) fn least_over(
    areas: &Paged<u64, Rect>,
    cells: &Cells,
    levels: u32,
    p: Point,
) -> Option<u64>
    requires { levels ≤ 20 }
    ensures sound { IfSome result (λ n. covers_at p n areas.now ≡ true) }
    ensures least { IsLeastOver levels p areas.now cells.now result }
{
    let mut least = None;
    for level in 0..levels {
        let found = least_in(areas, cells, cell_of(level, p), p);
        least = lesser(least, found);
    }
    least
}
