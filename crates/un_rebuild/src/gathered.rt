//! Points that are put together from lists which have points in common.
//!
//! Wanted is each point once, in order, with memory in proportion to the distinct points, however often each comes. The points stand in one
//! list, as they come. When they are more than a limit, the list is sorted and keeps each point once, and the limit is set to four times the
//! points that are left, and 1,024 more.
//!
//! So the list never has more points than the limit and those that were put in last. At least three of four points that are sorted came in
//! since the sort before, so `n` points take time in proportion to `n log n`, and little more than one sort of them all.
ghost use Rattle.std.specs.Prelude.{◌≡◌, ◌++◌, [], OnOk};
ghost use Rattle.std.specs.List.Sorted.{IsStrictlySortedBy};
ghost use Rattle.un_geom.specs.Places.{point_cmp};
ghost use Rattle.un_rebuild.specs.Gathered.{HaveSame};

use std::alloc::{AllocError, Global};
use std::marker::Model;
use un_geom::Point;

/// How many points the list may have for each distinct one.
const TIMES: usize = 4;

/// How many more it may have.
const SPARE: usize = 1024;

/// Points, some of them perhaps more than once, in no order.
#[derive(Drop)]
pub(crate) struct Gathered {
    points: Vec<Point>,
    limit: usize,
}

impl Model for Gathered {
    ghost use Rattle.std.specs.Prelude.{List};
    ghost use Rattle.un_geom.specs.declared.point.Point.{Point};

    ghost Value = { List Point };

    ghost view = { λ g. g.points.items };
}

impl Gathered {
    /// No points.
    pub(crate) fn new(alloc: Global) -> Gathered
        ensures { result ≡ [] }
    {
        Gathered {
            points: Vec::new(alloc),
            limit: SPARE,
        }
    }

    /// Puts the points in.
    pub(crate) fn add(&mut self, points: &[Point]) -> Result<(), AllocError>
        ensures { OnOk result (HaveSame (self.old ++ points.now) self.new) }
    {
        self.points.extend_from_slice(points)?;
        if self.points.len() > self.limit {
            self.thin();
        }
        Ok(())
    }

    // Keeps each point once.
    fn thin(&mut self)
        ensures same { HaveSame self.old self.new }
        ensures sorted { IsStrictlySortedBy point_cmp self.new }
    {
        self.points.sort_unstable();
        self.points.dedup();
        let distinct = self.points.len();
        self.limit = distinct.saturating_mul(TIMES).saturating_add(SPARE);
    }

    /// The points, each once, by x, y and z.
    pub(crate) fn into_points(self) -> Vec<Point>
        ensures same { HaveSame self result.items }
        ensures sorted { IsStrictlySortedBy point_cmp result.items }
    {
        let mut gathered = self;
        gathered.thin();
        gathered.points
    }
}
