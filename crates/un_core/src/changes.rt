//! The points at which two versions of a network may keep different stars.
//!
//! # What is to be found
//!
//! The kept topology of an older version and of a newer one of the same log differ at few points. Asked for are points that have all of
//! these, so that whoever compares the two looks at no others.
//!
//! # How it is found
//!
//! A point is a candidate where an area over it was cleared in between, or a command made it dirty. The cleared areas are those of the older
//! version whose numbers the newer one no longer has; what commands made dirty are the marks of the log's entries. These rectangles are
//! sorted, and equal ones taken once, since editing one feature many times makes the same rectangle dirty each time. Under each rectangle
//! the points at which either version keeps a star are collected.
//!
//! # Why that is enough
//!
//! A validation alone changes what is kept, and only under the areas that it clears (`kept_elsewhere`). Such an area was there in the older
//! version, and then its number is gone, since no number is given twice; or a command in between made it, and then it is a rectangle of that
//! command's mark.
//!
//! # What it costs
//!
//! A look-up for each dirty area of the older version, of which there are at most 65,536; and for each rectangle the points whose x is between
//! its sides, in both versions. So it grows with what was cleared and made dirty in between, and not with what is kept.
ghost use Rattle.std.specs.Prelude.{◌≡◌, ◌↔◌, ◌++◌, map, Contains, IfOk, OnOk};
ghost use Rattle.std.specs.List.Sorted.{IsStrictlySortedBy};
ghost use Rattle.un_geom.specs.Rectangle.{Rectangle};
ghost use Rattle.un_geom.specs.Places.{point_cmp};
ghost use Rattle.un_core.specs.Changes.{HasChanged, HasRectangles, HasKept};

use crate::net::Net;
use std::alloc::{AllocError, Global};
use std::collections::BTreeSet;
use un_geom::{Point, Rect};
use un_index::Index;
use un_rebuild::points::add_all;

// Adds the rectangles of the areas.
fn add_rects(rects: &mut Vec<Rect>, areas: &[(u64, Rect)]) -> Result<(), AllocError>
    ensures { OnOk result (rects.new.items ≡ rects.old.items ++ map (λ a. a.1) areas.now) }
{
    for (_, area) in areas {
        rects.push(*area)?;
    }
    Ok(())
}

// Leaves one of equal rectangles.
fn dedup(rects: &mut Vec<Rect>)
    ensures { (r : Rectangle) → Contains rects.new.items r ↔ Contains rects.old.items r }
{
    rects.sort_unstable();
    rects.dedup();
}

// The points under the rectangles at which one of the two keeps a star, by x, y and z.
fn points_kept(
    alloc: Global,
    older: &Index,
    newer: &Index,
    rects: &[Rect],
) -> Result<Vec<Point>, AllocError>
    ensures whole { IfOk result (λ points. HasKept older.now newer.now rects.now points.items) }
    ensures sorted { IfOk result (λ points. IsStrictlySortedBy point_cmp points.items) }
{
    let mut set = BTreeSet::new(alloc);
    for rect in rects {
        add_all(&mut set, &older.points(alloc, *rect)?)?;
        add_all(&mut set, &newer.points(alloc, *rect)?)?;
    }
    let all: Vec<Point> = set.into_iter().collect(alloc)?;
    Ok(all)
}

impl Net {
    // The rectangles of the areas that were cleared since the older version, and of the marks.
    fn rects_since(
        &self,
        alloc: Global,
        older: &Net,
        marks: &[Rect],
    ) -> Result<Vec<Rect>, AllocError>
        ensures { IfOk result (λ rects. HasRectangles older.now marks.now self.now rects.items) }
    {
        let gone = older.dirty.gone(alloc, &self.dirty)?;
        let mut rects = Vec::new(alloc);
        rects.extend_from_slice(marks)?;
        add_rects(&mut rects, &gone)?;
        dedup(&mut rects);
        Ok(rects)
    }

    /// The points at which this version may keep another star than an older one, by x, y and z. `marks` are the rectangles that the commands
    /// between the two versions made dirty.
    pub fn changed_points(
        &self,
        alloc: Global,
        older: &Net,
        marks: &[Rect],
    ) -> Result<Vec<Point>, AllocError>
        ensures whole { IfOk result (λ points. HasChanged older.now marks.now self.now points.items) }
        ensures sorted { IfOk result (λ points. IsStrictlySortedBy point_cmp points.items) }
    {
        // For the proof alone.
        let _catalog = older.schema();
        let _older = older.version();
        let _newer = self.version();
        let rects = self.rects_since(alloc, older, marks)?;
        let points = points_kept(alloc, older.kept(), self.kept(), &rects)?;
        Ok(points)
    }
}
