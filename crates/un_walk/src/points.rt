//! The points at which a walk has found nodes, with their numbers.

ghost use Rattle.std.specs.Prelude.{◌≡◌, [], IfOk, OnOk};
ghost use Rattle.un_walk.specs.Found.{number_of, with_point};

use crate::hasher::NumberHasher;
use indexmap::IndexSet;
use std::alloc::{AllocError, Global};
use std::hash::BuildHasherDefault;
use std::marker::Model;
use un_geom::Point;

/// Distinct points, numbered from 0 in the order in which they came.
#[derive(Drop)]
pub(crate) struct Points {
    points: IndexSet<Point, BuildHasherDefault<NumberHasher>>,
}

impl Model for Points {
    ghost use Rattle.std.specs.Prelude.{List};
    ghost use Rattle.un_geom.specs.declared.point.Point.{Point};

    ghost Value = { List Point };

    ghost view = { λ p. p.points.keys };
}

impl Points {
    pub(crate) fn new(alloc: Global) -> Self
        ensures { result ≡ [] }
    {
        Points {
            points: IndexSet::with_hasher(alloc, BuildHasherDefault::new()),
        }
    }

    /// The number of a point, which is the next one where it had none.
    pub(crate) fn number(&mut self, at: Point) -> Result<usize, AllocError>
        ensures points { OnOk result (self.new ≡ with_point self.old at) }
        ensures number { IfOk result (λ number. number ≡ number_of self.old at) }
    {
        let (number, _is_new) = self.points.insert_full(at)?;
        Ok(number)
    }
}
