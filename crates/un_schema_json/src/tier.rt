//! Tiers.
ghost use Rattle.std.specs.Prelude.{◌≡◌, IfOk, IfErr, Ok, Err, map, option_map};
ghost use Rattle.serde_json.specs.View.{view, items_view};
ghost use Rattle.un_json.specs.Forms.{each_item, list_from_to, barriers_of};
ghost use Rattle.un_schema.specs.SchemaFaults.{OnBadSchema};
ghost use Rattle.un_tiers.specs.Raw.{written_tier, written_barrier};
ghost use Rattle.un_schema_json.specs.Lines.{tiers_over};
ghost use Rattle.un_schema_json.specs.Parts.{tier_of, tier_parts};
ghost use Rattle.un_schema_json.specs.Table.{tiers_of};

use crate::list::read_text;
use serde_json::Value;
use std::alloc::{AllocError, Global};
use un_conds::RawCond;
use un_json::condition::read_condition;
use un_schema::{Place, Schema, SchemaFault};
use un_tiers::{RawTier, TierFault, Tiers};

/// A condition, or null for none.
fn read_barrier(alloc: Global, value: &Value) -> Result<Option<Option<RawCond>>, AllocError>
    ensures { IfOk result (λ barrier. option_map written_barrier barrier ≡ barriers_of (view value.now)) }
{
    if value.is_null() {
        return Ok(Some(None));
    }
    match read_condition(alloc, value)? {
        Some(condition) => Ok(Some(Some(condition))),
        None => Ok(None),
    }
}

#[tactic(auto, using(crate::proofs::Lengths::not_tier))]
fn read_tier(alloc: Global, value: &Value) -> Result<Option<RawTier>, AllocError>
    ensures { IfOk result (λ tier. option_map written_tier tier ≡ tier_of (view value.now)) }
{
    let Some(items) = value.as_array() else {
        return Ok(None);
    };
    let [name, barrier, disjoint] = items.as_slice() else {
        return Ok(None);
    };
    read_parts(alloc, name, barrier, disjoint)
}

fn read_parts(
    alloc: Global,
    name: &Value,
    barrier: &Value,
    disjoint: &Value,
) -> Result<Option<RawTier>, AllocError>
    ensures { IfOk result (λ tier. option_map written_tier tier
        ≡ tier_parts (view name.now) (view barrier.now) (view disjoint.now)) }
{
    let Some(disjoint) = disjoint.as_bool() else {
        return Ok(None);
    };
    let Some(name) = read_text(alloc, name)? else {
        return Ok(None);
    };
    match read_barrier(alloc, barrier)? {
        Some(barrier) => Ok(Some(RawTier {
            name,
            barrier,
            disjoint,
        })),
        None => Ok(None),
    }
}

#[tactic(auto, using(crate::proofs::TierLists::read_on, crate::proofs::TierLists::read_none, crate::proofs::TierLists::read_all))]
fn read_items(alloc: Global, values: &[Value]) -> Result<Option<Vec<RawTier>>, AllocError>
    ensures { IfOk result
        (λ tiers. option_map (λ v. map written_tier v.items) tiers ≡ each_item tier_of (items_view values.now)) }
{
    let mut tiers = Vec::with_capacity(alloc, values.len())?;
    for value in values {
        match read_tier(alloc, value)? {
            Some(tier) => tiers.push(tier)?,
            None => return Ok(None),
        }
    }
    Ok(Some(tiers))
}

/// At most 16 tiers.
#[tactic(auto, using(crate::proofs::Lengths::too_long, crate::proofs::Lengths::short_items))]
fn read_list(alloc: Global, value: &Value) -> Result<Option<Vec<RawTier>>, AllocError>
    ensures { IfOk result
        (λ tiers. option_map (λ v. map written_tier v.items) tiers ≡ list_from_to 0 16 tier_of (view value.now)) }
{
    let Some(values) = value.as_array() else {
        return Ok(None);
    };
    let values = values.as_slice();
    if values.len() > 16 {
        return Ok(None);
    }
    read_items(alloc, values)
}

/// The tiers of an object, or `None` if it has none in the right form.
fn tiers_at(alloc: Global, object: &Value) -> Result<Option<Vec<RawTier>>, AllocError>
    ensures { IfOk result
        (λ tiers. option_map (λ v. map written_tier v.items) tiers ≡ tiers_of (view object.now)) }
{
    match object.get(Place::Tiers.text()) {
        Some(value) => read_list(alloc, value),
        None => Ok(None),
    }
}

/// The tiers of an object over the attributes and the categories of a schema.
pub(crate) fn read_tiers(
    alloc: Global,
    object: &Value,
    schema: &Schema,
) -> Result<Tiers, SchemaFault>
    ensures ok { IfOk result (λ tiers. tiers_over schema.now (tiers_of (view object.now)) ≡ Ok tiers) }
    ensures bad { IfErr result
        (λ fault. OnBadSchema fault (λ place. tiers_over schema.now (tiers_of (view object.now)) ≡ Err place)) }
{
    let bad = SchemaFault::BadSchema {
        place: Place::Tiers,
    };
    let Some(tiers) = tiers_at(alloc, object)? else {
        return Err(bad);
    };
    match Tiers::new(alloc, tiers.as_slice(), schema) {
        Ok(tiers) => Ok(tiers),
        Err(TierFault::BadTier { .. }) => Err(bad),
        Err(TierFault::Memory) => Err(SchemaFault::Memory),
    }
}
