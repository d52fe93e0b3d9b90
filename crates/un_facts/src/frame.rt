//! What a network was opened with, and the rules in force.
ghost use Rattle.std.specs.Prelude.{◌≡◌, IsTrue, IfOk, OnOk, IfErr};
ghost use Rattle.un_schema.specs.Fits.{has_classes};
ghost use Rattle.un_schema.specs.RuleFaults.{CanAdd, IsFirstFault};
ghost use Rattle.un_facts.specs.Frames.{schema_of, with_rule};

use std::alloc::{AllocError, Global};
use std::marker::Model;
use std::sync::Arc;
use un_schema::{Rule, RuleFault, Schema};
use un_tiers::{Setup, Tiers};

/// The schema and the tiers, and the schema with the rules in force once there are more of these. An edit of a feature leaves it as it is.
#[derive(Drop)]
pub(crate) struct Frame {
    setup: Arc<Setup>,
    grown: Option<Schema>,
}

impl Model for Frame {
    ghost use Rattle.std.specs.Prelude.{◌≡◌, IfSome};
    ghost use Rattle.std.specs.Arc.{arc_value};
    ghost use Rattle.std.specs.Coded.{codes};
    ghost use Rattle.un_facts.specs.Frames.{Framed, rules_of};
    ghost use Rattle.un_tiers.specs.contracts.setup.Setup as setup_row;

    ghost Value = { Framed };

    ghost coded = { Prim.hlevel (codes, setup_row.the_row.coded) };

    ghost view = { λ f. record { setup = arc_value f.setup; rules = rules_of (arc_value f.setup) f.grown } };

    ghost invariant = { λ f. IfSome f.grown (λ schema. schema ≡ record (arc_value f.setup).schema { rules = schema.rules }) };
}

impl Frame {
    /// The rules in force are those of the schema.
    pub(crate) fn new(alloc: Global, schema: Schema, tiers: Tiers) -> Result<Frame, AllocError>
        ensures { IfOk result (λ frame. frame
            ≡ record { setup = record { schema = schema; tiers = tiers }; rules = schema.rules }) }
    {
        Ok(Frame {
            setup: Arc::new(alloc, Setup { schema, tiers })?,
            grown: None,
        })
    }

    /// The schema and the tiers that the network was opened with.
    pub(crate) fn setup(&self) -> &Setup
        ensures { result.now ≡ self.now.setup }
    {
        &self.setup
    }

    /// The schema with the rules in force.
    pub(crate) fn schema(&self) -> &Schema
        ensures { result.now ≡ schema_of self.now }
    {
        match &self.grown {
            Some(schema) => schema,
            None => &self.setup.schema,
        }
    }

    /// The same with one rule more in force.
    pub(crate) fn with_rule(&self, alloc: Global, rule: &Rule) -> Result<Frame, RuleFault>
        requires { IsTrue (has_classes (schema_of self.now) rule.now) }
        ensures ok { IfOk result (λ frame. frame ≡ with_rule self.now rule.now) }
        ensures good { OnOk result (CanAdd (schema_of self.now) rule.now) }
        ensures err { IfErr result (IsFirstFault (schema_of self.now) rule.now) }
    {
        let schema = self.schema().with_rule(alloc, rule)?;
        Ok(Frame {
            setup: self.setup.clone()?,
            grown: Some(schema),
        })
    }
}
