//! The built-in schema.
ghost use Rattle.std.specs.Prelude.{◌≡◌, IfOk, IfErr, Ok, Err, Some, codes, [], ◌∷◌};
ghost use Rattle.serde_json.specs.View.{view};
ghost use Rattle.un_schema.specs.Raw.{catalog_from};
ghost use Rattle.un_schema.specs.SchemaFaults.{OnBadSchema};
ghost use Rattle.un_schema.specs.declared.raw.RawRule.TheVariants.{JunctionEdge};
ghost use Rattle.un_schema_json.specs.Table.{joint, pipe, built_in};
ghost use Rattle.un_schema_json.specs.Lines.{built_in_by};

use crate::members::refuse_others;
use serde_json::Value;
use std::alloc::{AllocError, Global};
use un_conds::Text;
use un_schema::{
    Class, Format, Items, Place, Policy, RawKind, RawRule, RawSchema, Schema, SchemaFault,
};
use un_tiers::Tiers;

fn text(alloc: Global, text: &str) -> Result<Text, AllocError>
    ensures { IfOk result (λ own. own ≡ text.now) }
{
    Ok(Text::new(String::from_str(alloc, text)?))
}

fn joint(alloc: Global) -> Result<RawKind, AllocError>
    ensures { IfOk result (λ kind. kind ≡ joint) }
{
    Ok(RawKind {
        name: text(alloc, "joint")?,
        class: Class::Junction,
        group: 1,
        asset_type: 1,
        policy: Policy::NoLine,
        config: text(alloc, "")?,
        categories: Items::new(Vec::new(alloc)),
        controller: false,
    })
}

fn pipe(alloc: Global) -> Result<RawKind, AllocError>
    ensures { IfOk result (λ kind. kind ≡ pipe) }
{
    Ok(RawKind {
        name: text(alloc, "pipe")?,
        class: Class::Line,
        group: 1,
        asset_type: 1,
        policy: Policy::EndVertex,
        config: text(alloc, "")?,
        categories: Items::new(Vec::new(alloc)),
        controller: false,
    })
}

fn kinds(alloc: Global) -> Result<Items<RawKind>, AllocError>
    ensures { IfOk result (λ kinds. kinds ≡ joint ∷ pipe ∷ []) }
{
    let mut kinds = Vec::with_capacity(alloc, 2)?;
    kinds.push(joint(alloc)?)?;
    kinds.push(pipe(alloc)?)?;
    Ok(Items::new(kinds))
}

fn rules(alloc: Global) -> Result<Items<RawRule>, AllocError>
    ensures { IfOk result (λ rules. rules ≡ JunctionEdge (codes "joint") 0 (codes "pipe") ∷ []) }
{
    let mut rules = Vec::with_capacity(alloc, 1)?;
    rules.push(RawRule::JunctionEdge {
        junction: text(alloc, "joint")?,
        terminal: 0,
        line: text(alloc, "pipe")?,
    })?;
    Ok(Items::new(rules))
}

fn raw_schema(alloc: Global) -> Result<RawSchema, AllocError>
    ensures { IfOk result (λ raw. raw ≡ built_in) }
{
    Ok(RawSchema {
        format: Format::One,
        attributes: Some(Items::new(Vec::new(alloc))),
        categories: Some(Items::new(Vec::new(alloc))),
        configs: Some(Items::new(Vec::new(alloc))),
        kinds: Some(kinds(alloc)?),
        rules: Some(rules(alloc)?),
    })
}

fn schema(alloc: Global) -> Result<Schema, SchemaFault>
    ensures ok { IfOk result (λ schema. schema ≡ catalog_from built_in) }
    ensures memory { IfErr result (λ fault. fault ≡ SchemaFault.Memory) }
{
    let raw = raw_schema(alloc)?;
    Schema::new(alloc, &raw)
}

fn no_tiers(alloc: Global, schema: &Schema) -> Result<Tiers, SchemaFault>
    ensures ok { IfOk result (λ tiers. tiers ≡ []) }
    ensures memory { IfErr result (λ fault. fault ≡ SchemaFault.Memory) }
{
    match Tiers::new(alloc, &[], schema) {
        Ok(tiers) => Ok(tiers),
        Err(_) => Err(SchemaFault::Memory),
    }
}

/// The built-in schema, which has no tiers. Its line has no member besides the number.
pub(crate) fn read_built_in(alloc: Global, object: &Value) -> Result<(Schema, Tiers), SchemaFault>
    ensures ok { IfOk result (λ both. built_in_by (view object.now) ≡ Ok both) }
    ensures bad { IfErr result
        (λ fault. OnBadSchema fault (λ place. built_in_by (view object.now) ≡ Err place)) }
{
    refuse_others(object, &[Place::Schema])?;
    let schema = schema(alloc)?;
    let tiers = no_tiers(alloc, &schema)?;
    Ok((schema, tiers))
}
