//! The features as stars are built of them.
ghost use Rattle.std.specs.Prelude.{refl};
ghost use Rattle.std.proofs.Props.{props};
ghost use Rattle.un_defs.specs.Sound.{IsSound};
ghost use Rattle.un_facts.specs.Known.{in_force};

use crate::facts::Facts;
use std::alloc::{AllocError, Global};
use un_defs::{Assoc, Controller, Port, Row, Rows};
use un_geom::Point;
use un_schema::Schema;

/// Features that are lent, with what holds of them.
#[derive(Clone, Copy)]
pub struct Live<'a> {
    pub(crate) facts: &'a Facts,
    ghost sound: { IsSound (in_force facts.now) facts.now.features } by { Prim.hlevel props },
}

impl Rows for Live<'_> {
    ghost catalog = { λ l. in_force l.facts.now };

    ghost features = { λ l. l.facts.now.features };

    fn schema(&self) -> &Schema {
        self.facts.schema()
    }

    fn row(&self, id: u64) -> Option<&Row> {
        self.facts.row(id)
    }

    fn ports_at(&self, p: Point) -> &[Port] {
        self.facts.ports_at(p)
    }

    fn assocs_of(&self, alloc: Global, id: u64) -> Result<Vec<Assoc>, AllocError> {
        self.facts.assocs_of(alloc, id)
    }

    fn controller_at(&self, port: Port) -> Option<&Controller> {
        self.facts.controller_at(port)
    }

    ghost sound = { λ l. l.sound };

    ghost same_rules = { λ l. refl };
}
