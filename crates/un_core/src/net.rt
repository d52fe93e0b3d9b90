//! The network.
ghost use Rattle.std.specs.Prelude.{◌≡◌, ◌<◌, [], ◌∷◌, Some, None, length, IfOk, OnOk, IfErr};
ghost use Rattle.un_schema.specs.Sound.{IsCatalog};
ghost use Rattle.un_core.specs.State.{State, next_ids, opening};
ghost use Rattle.un_core.specs.Cover.{IsState};
ghost use Rattle.un_core.specs.Refusals.{numbers_refusal};

use std::alloc::{AllocError, Global};
use std::marker::Model;
use un_defs::{Limit, Refusal};
use un_dirty::Dirty;
use un_facts::{Facts, NextIds};
use un_index::Index;
use un_schema::Schema;
use un_subnet::StoredRows;
use un_tiers::Tiers;

/// From here on a version, an id or an area's number is none.
const LAST_NUMBER: u64 = 9_000_000_000_000_000;

/// The state of a network. `step` leaves it as it is: a command that is accepted gives a new one, which shares with it what stays. `stepped` takes
/// it, and changes in place what no other network shares.
#[derive(Drop)]
pub struct Net {
    pub(crate) facts: Facts,
    pub(crate) kept: Index,
    pub(crate) dirty: Dirty,
    pub(crate) stored: StoredRows,
    pub(crate) version: u64,
    pub(crate) ids: NextIds,
}

impl Model for Net {
    ghost use Rattle.std.specs.Coded.{codes};
    ghost use Rattle.un_tiers.specs.contracts.setup.Setup as setup_row;
    ghost use Rattle.un_core.specs.State.{State};
    ghost use Rattle.un_core.specs.Held.{held};
    ghost use Rattle.un_core.specs.Cover.{IsState};

    ghost Value = { State };

    ghost coded = { Prim.hlevel (codes, setup_row.the_row.coded) };

    ghost view = { λ n. held n.facts n.kept n.dirty n.stored n.version n.ids };

    ghost invariant = { λ n. IsState (held n.facts n.kept n.dirty n.stored n.version n.ids) };
}

impl Net {
    /// The network without features under a schema and tiers.
    pub fn open(alloc: Global, schema: Schema, tiers: Tiers) -> Result<Net, AllocError>
        ensures { IfOk result (λ net. net ≡ opening (record { schema = schema; tiers = tiers })) }
    {
        Ok(Net {
            facts: Facts::open(alloc, schema, tiers)?,
            kept: Index::new(alloc),
            dirty: Dirty::new(alloc),
            stored: StoredRows::new(alloc)?,
            version: 0,
            ids: NextIds {
                feature: 1,
                association: 1,
            },
        })
    }

    /// The same network, which shares what it holds.
    pub fn share(&self) -> Result<Net, AllocError>
        ensures { IfOk result (λ net. net ≡ self.now) }
    {
        self.with_stored(self.stored.share()?, self.version)
    }

    /// How many commands were accepted.
    pub fn version(&self) -> u64
        ensures version { result ≡ self.now.version }
        ensures state { IsState self.now }
    {
        self.version
    }

    /// How many features there are.
    pub fn rows(&self) -> u64
        ensures { result ≡ length self.now.features.rows }
    {
        self.facts.len()
    }

    /// The schema that the network was opened with.
    pub fn schema(&self) -> &Schema
        ensures schema { result.now ≡ self.now.setup.schema }
        ensures catalog { IsCatalog self.now.setup.schema }
    {
        let schema = &self.facts.setup().schema;
        // For the proof alone.
        let _rules = schema.rules();
        schema
    }

    /// The tiers that the network was opened with.
    pub fn tiers(&self) -> &Tiers
        ensures { result.now ≡ self.now.setup.tiers }
    {
        &self.facts.setup().tiers
    }

    /// The kept topology.
    pub fn kept(&self) -> &Index
        ensures { result.now ≡ self.now.kept }
    {
        &self.kept
    }

    /// How many rules are in force.
    pub(crate) fn rules(&self) -> u64
        ensures { result ≡ length self.now.features.rules }
    {
        self.facts.schema().rules().len() as u64
    }

    /// The ids that the next edit gives.
    pub(crate) fn next_ids(&self) -> NextIds
        ensures { result ≡ next_ids self.now }
    {
        self.ids
    }

    /// Refuses where the versions, the ids or the numbers of areas are used up.
    pub(crate) fn check_numbers(&self) -> Result<(), Refusal>
        ensures good { OnOk result (numbers_refusal self.now ≡ None) }
        ensures bad { IfErr result (λ refusal. numbers_refusal self.now ≡ Some refusal) }
        ensures version { OnOk result (self.now.version < 9_000_000_000_000_000) }
        ensures feature { OnOk result (self.now.next_feature < 9_000_000_000_000_000) }
        ensures association { OnOk result (self.now.next_association < 9_000_000_000_000_000) }
        ensures area { OnOk result (self.now.next_area < 9_000_000_000_000_000) }
    {
        if self.version >= LAST_NUMBER
            || self.ids.feature >= LAST_NUMBER
            || self.ids.association >= LAST_NUMBER
            || self.dirty.next_number() >= LAST_NUMBER
        {
            return Err(Refusal::Full {
                what: Limit::Numbers,
            });
        }
        Ok(())
    }
}
