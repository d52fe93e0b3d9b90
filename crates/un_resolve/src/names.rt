//! Conditions, functions and the tier, by the schema's names.

ghost use Rattle.std.specs.Prelude.{◌≡◌, map, None, IfOk, OnOk};
ghost use Rattle.un_defs.specs.Refusing.{Refuses};
ghost use Rattle.un_resolve.specs.Starts.{tier_of};
ghost use Rattle.un_resolve.specs.Resolved.{condition_of, bad_condition, conditions_refusal, tier_barrier, tier_disjoint, func_of};

use std::alloc::{AllocError, Global};
use un_ask::{Func, NamedFunc, RawCondition, TraceAsk};
use un_conds::{Cond, CondFault};
use un_defs::Refusal;
use un_schema::{Name, Place, Schema};
use un_tiers::Setup;

/// The conditions of a trace: which devices isolate, and which entries are barriers.
#[derive(Drop)]
pub(crate) struct Conditions {
    pub(crate) isolators: Option<Cond>,
    pub(crate) barriers: Option<Cond>,
}

/// The condition by numbers, if one is given. One with an unknown name, or too deep or too large, is refused with its place.
pub(crate) fn condition(
    alloc: Global,
    schema: &Schema,
    given: &Option<RawCondition>,
    place: Place,
) -> Result<Option<Cond>, Refusal>
    ensures found { IfOk result (λ cond. cond ≡ condition_of schema.now given.now) }
    ensures good { OnOk result (bad_condition schema.now given.now place ≡ None) }
    ensures bad { Refuses result (bad_condition schema.now given.now place) }
{
    let Some(given) = given else {
        return Ok(None);
    };
    match Cond::resolve(alloc, given.raw(), schema) {
        Ok(cond) => Ok(Some(cond)),
        Err(CondFault::BadCondition) => Err(Refusal::BadCondition { place }),
        Err(CondFault::Memory) => Err(Refusal::Memory),
    }
}

/// The conditions of a trace, or the first refusal of the two.
pub(crate) fn conditions_of(
    alloc: Global,
    schema: &Schema,
    ask: &TraceAsk,
) -> Result<Conditions, Refusal>
    ensures isolators { IfOk result (λ c. c.isolators ≡ condition_of schema.now ask.now.isolators) }
    ensures barriers { IfOk result (λ c. c.barriers ≡ condition_of schema.now ask.now.barriers) }
    ensures good { OnOk result (conditions_refusal schema.now ask.now ≡ None) }
    ensures bad { Refuses result (conditions_refusal schema.now ask.now) }
{
    let isolators = condition(alloc, schema, &ask.isolators, Place::Isolators)?;
    let barriers = condition(alloc, schema, &ask.barriers, Place::Barriers)?;
    Ok(Conditions {
        isolators,
        barriers,
    })
}

/// A copy of the name, if there is one.
pub(crate) fn copy_name(alloc: Global, name: &Option<Name>) -> Result<Option<Name>, AllocError>
    ensures { IfOk result (λ copy. copy ≡ name.now) }
{
    match name {
        Some(name) => Ok(Some(name.copy(alloc)?)),
        None => Ok(None),
    }
}

/// What bounds the subnetworks of the trace's tier.
pub(crate) fn tier_barrier(
    alloc: Global,
    setup: &Setup,
    ask: &TraceAsk,
    tier: Option<u8>,
) -> Result<Option<Cond>, AllocError>
    requires { tier ≡ tier_of setup.now ask.now }
    ensures { IfOk result (λ cond. cond ≡ tier_barrier setup.now.tiers tier) }
{
    let Some(tier) = tier else {
        return Ok(None);
    };
    match setup.tiers.barrier(tier) {
        Some(cond) => Ok(Some(cond.copy(alloc)?)),
        None => Ok(None),
    }
}

/// Whether controllers of a subnetwork of the trace's tier may stand apart.
pub(crate) fn tier_disjoint(setup: &Setup, ask: &TraceAsk, tier: Option<u8>) -> bool
    requires { tier ≡ tier_of setup.now ask.now }
    ensures { result ≡ tier_disjoint setup.now.tiers tier }
{
    match tier {
        Some(tier) => setup.tiers.disjoint(tier),
        None => false,
    }
}

/// The function with its attribute by number.
fn func_of(schema: &Schema, named: &NamedFunc) -> Func
    ensures { result ≡ func_of schema.now named.now }
{
    match named {
        NamedFunc::Count => Func::Count,
        NamedFunc::Sum(name) => Func::Sum(schema.attribute(name.text())),
        NamedFunc::Least(name) => Func::Least(schema.attribute(name.text())),
        NamedFunc::Greatest(name) => Func::Greatest(schema.attribute(name.text())),
    }
}

/// The functions with their attributes by number.
pub(crate) fn functions(
    alloc: Global,
    schema: &Schema,
    named: &[NamedFunc],
) -> Result<Vec<Func>, AllocError>
    ensures { IfOk result (λ funcs. funcs.items ≡ map (func_of schema.now) named.now) }
{
    let mut funcs = Vec::new(alloc);
    for function in named {
        funcs.push(func_of(schema, function))?;
    }
    Ok(funcs)
}
