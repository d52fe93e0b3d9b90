//! The features, and the look-ups of them.
ghost use Rattle.std.specs.Prelude.{◌≡◌, length, IfOk};
ghost use Rattle.std.specs.Option.{option_copied};
ghost use Rattle.un_defs.specs.Features.{row as row_with, associations_of};
ghost use Rattle.un_defs.specs.Ports.{ports};
ghost use Rattle.un_defs.specs.Star.{controller_at};
ghost use Rattle.std.specs.Arc.{arc_value};
ghost use Rattle.un_grid.specs.Grids.{IsGridOf};
ghost use Rattle.un_facts.specs.Known.{features_of, known_of, opening, settled_at, in_force};
ghost use Rattle.un_facts.specs.Places.{ArePlaces};
ghost use Rattle.un_facts.specs.Standing.{IsKnown};

use crate::frame::Frame;
use crate::live::Live;
use std::alloc::{AllocError, Global};
use std::marker::Model;
use std::sync::Arc;
use un_assoc::Assocs;
use un_defs::{Assoc, Controller, Directory, Port, Row};
use un_geom::{Point, Rect};
use un_grid::Grid;
use un_schema::Schema;
use un_store::Store;
use un_tiers::{Setup, Tiers};

/// The schema and the tiers, the rules in force, the rows, the associations and controllers, and which ports stand where. Features
/// that share their parts never change: what an edit leaves is put in place of the parts that nobody else shares, or of a copy of them.
#[derive(Drop)]
pub struct Facts {
    parts: Arc<Parts>,
}

/// What features are made of, with the ports of all rows in the grid.
#[derive(Drop)]
pub(crate) struct Parts {
    pub(crate) frame: Arc<Frame>,
    pub(crate) rows: Store,
    pub(crate) assocs: Assocs,
    pub(crate) grid: Grid,
}

impl Parts {
    // The same parts.
    fn share(&self) -> Result<Parts, AllocError>
        ensures frame { IfOk result (λ p. arc_value p.frame ≡ arc_value self.now.frame) }
        ensures rows { IfOk result (λ p. p.rows ≡ self.now.rows) }
        ensures assocs { IfOk result (λ p. p.assocs ≡ self.now.assocs) }
        ensures grid { IfOk result (λ p. p.grid ≡ self.now.grid) }
    {
        Ok(Parts {
            frame: self.frame.clone()?,
            rows: self.rows.share()?,
            assocs: self.assocs.share()?,
            grid: self.grid.share()?,
        })
    }
}

impl Model for Facts {
    ghost use Rattle.std.specs.Arc.{arc_value};
    ghost use Rattle.std.specs.Coded.{codes};
    ghost use Rattle.un_grid.specs.Grids.{IsGridOf};
    ghost use Rattle.un_facts.specs.Known.{Known, features_of, known_of};
    ghost use Rattle.un_facts.specs.Standing.{IsKnown};
    ghost use Rattle.un_tiers.specs.contracts.setup.Setup as setup_row;

    ghost Value = { Known };

    ghost coded = { Prim.hlevel (codes, setup_row.the_row.coded) };

    ghost view = { λ f. known_of (arc_value (arc_value f.parts).frame) (arc_value f.parts).rows (arc_value f.parts).assocs };

    ghost invariant = { λ f. IsKnown (known_of (arc_value (arc_value f.parts).frame) (arc_value f.parts).rows (arc_value f.parts).assocs)
        × IsGridOf (arc_value f.parts).grid (features_of (arc_value (arc_value f.parts).frame).rules (arc_value f.parts).rows (arc_value f.parts).assocs) };
}

impl Facts {
    /// The features that these parts are.
    pub(crate) fn of(alloc: Global, parts: Parts) -> Result<Facts, AllocError>
        requires known { IsKnown (known_of (arc_value parts.frame) parts.rows parts.assocs) }
        requires grid { IsGridOf parts.grid
            (features_of (arc_value parts.frame).rules parts.rows parts.assocs) }
        ensures { IfOk result (λ facts. facts ≡ known_of (arc_value parts.frame) parts.rows parts.assocs) }
    {
        Ok(Facts {
            parts: Arc::new(alloc, parts)?,
        })
    }

    /// What these features are made of.
    pub(crate) fn parts(&self) -> &Parts
        ensures value { known_of (arc_value result.now.frame) result.now.rows result.now.assocs ≡ self.now }
        ensures known { IsKnown
            (known_of (arc_value result.now.frame) result.now.rows result.now.assocs) }
        ensures grid { IsGridOf result.now.grid
            (features_of (arc_value result.now.frame).rules result.now.rows result.now.assocs) }
    {
        &self.parts
    }

    /// What these features are made of, which no other features share.
    pub(crate) fn into_parts(self) -> Result<Parts, AllocError>
        ensures value { IfOk result (λ p. known_of (arc_value p.frame) p.rows p.assocs ≡ self) }
        ensures known { IfOk result (λ p. IsKnown (known_of (arc_value p.frame) p.rows p.assocs)) }
        ensures grid { IfOk result (λ p. IsGridOf p.grid
            (features_of (arc_value p.frame).rules p.rows p.assocs)) }
    {
        match Arc::try_unwrap(self.parts) {
            Ok(parts) => Ok(parts),
            Err(shared) => shared.share(),
        }
    }

    /// No features yet, under a schema and tiers.
    pub fn open(alloc: Global, schema: Schema, tiers: Tiers) -> Result<Facts, AllocError>
        ensures { IfOk result (λ facts. facts ≡ opening (record { schema = schema; tiers = tiers })) }
    {
        let parts = Parts {
            frame: Arc::new(alloc, Frame::new(alloc, schema, tiers)?)?,
            rows: Store::new(alloc),
            assocs: Assocs::new(alloc),
            grid: Grid::new(alloc),
        };
        Facts::of(alloc, parts)
    }

    /// The same features.
    pub fn share(&self) -> Result<Facts, AllocError>
        ensures { IfOk result (λ facts. facts ≡ self.now) }
    {
        Ok(Facts {
            parts: self.parts.clone()?,
        })
    }

    /// The schema and the tiers that the network was opened with.
    pub fn setup(&self) -> &Setup
        ensures setup { result.now ≡ self.now.setup }
        ensures known { IsKnown self.now }
    {
        self.parts().frame.setup()
    }

    /// The row with this id, if there is one.
    pub fn row(&self, id: u64) -> Option<&Row>
        ensures { option_copied result ≡ row_with self.now.features id }
    {
        self.parts().rows.row(id)
    }

    /// The schema with the rules in force.
    pub fn schema(&self) -> &Schema
        ensures schema { result.now ≡ in_force self.now }
        ensures known { IsKnown self.now }
    {
        self.parts().frame.schema()
    }

    /// The ports that stand at a point, rising.
    pub fn ports_at(&self, p: Point) -> &[Port]
        ensures { result.now ≡ ports self.now.features p }
    {
        self.parts().grid.at(p)
    }

    /// The associations of which the row is an end, by rising id.
    pub fn assocs_of(&self, alloc: Global, id: u64) -> Result<Vec<Assoc>, AllocError>
        ensures { IfOk result (λ found. found.items ≡ associations_of self.now.features id) }
    {
        let found = self.parts().assocs.of(alloc, id)?;
        Ok(found)
    }

    /// The controller on a terminal, if there is one.
    pub fn controller_at(&self, port: Port) -> Option<&Controller>
        ensures { option_copied result ≡ controller_at self.now.features port }
    {
        self.parts().assocs.controller_at(port)
    }

    /// The features as stars are built of them.
    pub fn live(&self) -> Live<'_>
        ensures { result.facts.now ≡ self.now }
    {
        // For the proof alone.
        let _parts = self.parts();
        Live { facts: self }
    }

    /// How many rows there are.
    pub fn len(&self) -> u64
        ensures { result ≡ length self.now.features.rows }
    {
        self.parts().rows.len()
    }

    /// The points at which something stands and that the rectangle covers, by x, y and z.
    pub fn points(&self, alloc: Global, extent: Rect) -> Result<Vec<Point>, AllocError>
        ensures { IfOk result (λ points. ArePlaces self.now.features extent points.items) }
    {
        let points = self.parts().grid.points(alloc, extent)?;
        Ok(points)
    }

    /// The features once the rows with these ids have the moment.
    pub fn settle(&self, alloc: Global, ids: &[u64], moment: u64) -> Result<Facts, AllocError>
        ensures { IfOk result (λ facts. facts ≡ settled_at self.now ids.now moment) }
    {
        let parts = self.parts();
        let settled = Parts {
            frame: parts.frame.clone()?,
            rows: parts.rows.settle(alloc, ids, moment)?,
            assocs: parts.assocs.share()?,
            grid: parts.grid.share()?,
        };
        let facts = Facts::of(alloc, settled)?;
        Ok(facts)
    }
}

impl Directory for Facts {
    ghost use Rattle.un_facts.specs.Known.{Known};

    ghost features = { λ (k : Known). k.features };

    fn row(&self, id: u64) -> Option<&Row> {
        Facts::row(self, id)
    }

    /// All controllers are looked at.
    fn controllers_of(
        &self,
        alloc: Global,
        tier: u8,
        subnet: &str,
    ) -> Result<Vec<Port>, AllocError> {
        let ports = self.parts().assocs.controllers_of(alloc, tier, subnet)?;
        Ok(ports)
    }
}
