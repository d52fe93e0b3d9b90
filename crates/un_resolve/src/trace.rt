//! The call that looks up the names of a trace.

ghost use Rattle.std.specs.Prelude.{◌≡◌, None, IsSome, IsTrue, IfOk, OnOk};
ghost use Rattle.un_defs.specs.Refusing.{Refuses};
ghost use Rattle.un_resolve.specs.Kinds.{needs_tier};
ghost use Rattle.un_resolve.specs.Starts.{tier_of, start_nodes, StartsAreNodes};
ghost use Rattle.un_resolve.specs.Resolved.{condition_of, barriers_of, resolved, resolving_refusal, HasIsolators, StartsAreClear};

use crate::kinds::{is_always_consistent, lacking};
use crate::names::{Conditions, conditions_of, copy_name, functions, tier_barrier, tier_disjoint};
use crate::starts::{Starts, given_starts, starts_of};
use crate::valves::check_valves;
use std::alloc::{AllocError, Global};
use un_ask::{Funcs, TraceAsk, TypedAsk};
use un_conds::Cond;
use un_defs::port::{Nodes, Ports};
use un_defs::{Barriers, Directory, Refusal};
use un_tiers::Setup;

/// Where the walks of a trace stop, given its tier and its barrier condition.
fn barriers(
    alloc: Global,
    setup: &Setup,
    ask: &TraceAsk,
    tier: Option<u8>,
    request: Option<Cond>,
) -> Result<Barriers, AllocError>
    requires tier { tier ≡ tier_of setup.now ask.now }
    requires request { request ≡ condition_of setup.now.schema ask.now.barriers }
    ensures { IfOk result (λ barriers. barriers ≡ barriers_of setup.now ask.now) }
{
    let of_tier = tier_barrier(alloc, setup, ask, tier)?;
    let stops = ask.stops.as_slice().to_vec(alloc)?;
    Ok(Barriers {
        request,
        of_tier,
        stops: Ports::new(stops),
        tier,
        consistent: is_always_consistent(ask.kind) || ask.consistent,
    })
}

/// The trace, given its starts and its conditions.
fn built<D: Directory>(
    alloc: Global,
    setup: &Setup,
    features: &D,
    ask: &TraceAsk,
    starts: Starts,
    conditions: Conditions,
) -> Result<TypedAsk, AllocError>
    requires nodes { starts.nodes.items ≡ start_nodes setup.now (D.features features.now) ask.now }
    requires tier { starts.tier ≡ tier_of setup.now ask.now }
    requires isolators { conditions.isolators ≡ condition_of setup.now.schema ask.now.isolators }
    requires barriers { conditions.barriers ≡ condition_of setup.now.schema ask.now.barriers }
    ensures { IfOk result (λ typed. typed ≡ resolved setup.now (D.features features.now) ask.now) }
{
    let Starts { nodes, tier } = starts;
    let barriers = barriers(alloc, setup, ask, tier, conditions.barriers)?;
    let subnet = copy_name(alloc, &ask.subnet)?;
    let functions = functions(alloc, &setup.schema, ask.functions.as_slice())?;
    Ok(TypedAsk {
        kind: ask.kind,
        starts: Nodes::new(nodes),
        barriers,
        isolators: conditions.isolators,
        subnet,
        disjoint: tier_disjoint(setup, ask, tier),
        include: ask.include,
        functions: Funcs::new(functions),
    })
}

/// The trace with its names looked up, and its starts as nodes of the features as they are now.
///
/// In this order it is refused: `BadRequest` where it lacks a member that its kind needs, with the member; `NoSuchFeature` for the first given
/// start whose feature is not live; `NoSuchTier`; `NoSuchSubnetwork` where a subnetwork trace finds no controller of the tier and name;
/// `NoStart` for the first given start that its feature has not; `BadCondition` for the isolating devices, and then for the barriers;
/// `StartIsValve` for the first given start on an isolating device. It answers `Memory` only for want of memory.
#[tactic(auto, using(crate::proofs::Tiers::has_tier, crate::proofs::Isolating::has_isolators))]
pub fn resolve<D: Directory>(
    alloc: Global,
    setup: &Setup,
    features: &D,
    ask: &TraceAsk,
) -> Result<TypedAsk, Refusal>
    ensures typed { IfOk result (λ typed. typed ≡ resolved setup.now (D.features features.now) ask.now) }
    // Each start is a node of the features.
    ensures starts { OnOk result (StartsAreNodes setup.now (D.features features.now) ask.now) }
    ensures good { OnOk result (resolving_refusal setup.now (D.features features.now) ask.now ≡ None) }
    // A trace that walks in a tier has one.
    ensures tier { OnOk result (IsTrue (needs_tier ask.now.kind) → IsSome (tier_of setup.now ask.now)) }
    // A trace for isolation has a condition for isolating devices, and starts on none.
    ensures isolators { OnOk result (HasIsolators setup.now ask.now) }
    ensures clear { OnOk result (StartsAreClear setup.now (D.features features.now) ask.now) }
    ensures bad { Refuses result (resolving_refusal setup.now (D.features features.now) ask.now) }
{
    if let Some(refusal) = lacking(ask) {
        return Err(refusal);
    }
    let starts = starts_of(alloc, setup, features, ask)?;
    let conditions = conditions_of(alloc, &setup.schema, ask)?;
    let given = given_starts(ask);
    check_valves(&setup.schema, features, &conditions.isolators, given)?;
    let typed = built(alloc, setup, features, ask, starts, conditions)?;
    Ok(typed)
}
