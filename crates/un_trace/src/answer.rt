//! The trace itself.

ghost use Rattle.std.specs.Prelude.{◌≡◌, ◌≤◌, ◌+◌, false, List, [], flat_map, None, IsSome, IfOk, IfSome, OnOk, if◌then◌else◌};
ghost use Rattle.std.specs.Ordering.{nat_cmp};
ghost use Rattle.std.specs.List.{list_any};
ghost use Rattle.std.specs.List.Sorted.{IsStrictlySortedBy};
ghost use Rattle.un_defs.specs.declared.port.Node.{Node};
ghost use Rattle.un_defs.specs.Ground.{Ground};
ghost use Rattle.un_defs.specs.Orders.{node_cmp, rising};
ghost use Rattle.un_walk.specs.Found.{nodes, IsFoundOver};
ghost use Rattle.un_trace.specs.Seen.{spots_of, nodes_of, HaveEntries};
ghost use Rattle.un_trace.specs.Included.{ids_of};
ghost use Rattle.un_trace.specs.Ports.{includes_any, reads_entries, tells_entries};
ghost use Rattle.un_trace.specs.TraceReply.{OnReachCount, IsAnswerable, IsAnswer, mode_of, where_asked, parts, result_of, nodes_in_result, lists_controllers, controllers_reply, result_reply, clean_reply};

use crate::controllers::controllers_of;
use crate::features::{Features, features_of};
use crate::functions::totals;
use crate::included::{Inclusion, included};
use crate::nodes::seen_in_result;
use crate::ports::parts_found;
use std::alloc::{AllocError, Global};
use un_ask::{Func, Include, Part, Parts, Reply, ResultReply, TraceKind, TypedAsk};
use un_defs::{Barriers, Dirt, Ground, Ids, Mode};
use un_steps::Steps;
use un_walk::{Found, Order, Seen, reach_found};

fn mode_of(kind: TraceKind) -> Mode
    ensures { result ≡ mode_of kind }
{
    match kind {
        TraceKind::Upstream => Mode::Against,
        TraceKind::Downstream => Mode::Along,
        TraceKind::Connected
        | TraceKind::Subnetwork
        | TraceKind::Controllers
        | TraceKind::Loops
        | TraceKind::Isolation => Mode::Any,
    }
}

/// In consistent mode the dirt that a walk met matters, and else none does.
fn dirt_that_matters(barriers: &Barriers, dirt: Option<Dirt>) -> Option<Dirt>
    ensures { result ≡ (if barriers.now.consistent then dirt else None) }
{
    if barriers.consistent { dirt } else { None }
}

/// The ids that the entries give where they are asked for, and else none.
fn where_asked(
    alloc: Global,
    asked: bool,
    seen: &[Seen],
    inclusion: Inclusion,
) -> Result<Ids, AllocError>
    ensures { IfOk result (λ ids. ids
        ≡ where_asked asked (rising nat_cmp (flat_map (ids_of inclusion) (spots_of seen.now)))) }
{
    if asked {
        included(alloc, seen, inclusion)
    } else {
        Ok(no_ids(alloc))
    }
}

/// The result of a trace that reached these nodes. The ground is there for the contract alone.
fn result_of<G: Ground>(
    alloc: Global,
    _over: &G,
    ask: &TypedAsk,
    reached: Vec<Seen>,
) -> Result<ResultReply, AllocError>
    requires entries { HaveEntries (G.stars_and_areas _over.now) reached.items }
    requires sorted { IsStrictlySortedBy node_cmp (nodes_of reached.items) }
    ensures { IfOk result (λ r. r ≡ result_of (G.stars_and_areas _over.now) ask.now
        (nodes_in_result (G.stars_and_areas _over.now) ask.now (nodes_of reached.entry.items))) }
{
    let nodes = seen_in_result(reached, &ask.barriers, ask.include.barriers);
    let seen = nodes.as_slice();
    let features = features_of(alloc, seen)?;
    let functions = totals(
        alloc,
        features.firsts.as_slice(),
        features.parts.len(),
        ask.functions.as_slice(),
    )?;
    let include = ask.include;
    let containers = where_asked(alloc, include.containers, seen, Inclusion::Containers)?;
    let content = where_asked(alloc, include.content, seen, Inclusion::Content)?;
    let structures = where_asked(alloc, include.structures, seen, Inclusion::Structures)?;
    let Features { parts, firsts: _ } = features;
    Ok(ResultReply {
        containers,
        content,
        features: Parts::new(parts),
        functions,
        kind: ask.kind,
        structures,
    })
}

fn lists_controllers(kind: TraceKind) -> bool
    ensures { result ≡ lists_controllers kind }
{
    matches!(kind, TraceKind::Controllers)
}

fn controllers_reply<G: Ground>(
    alloc: Global,
    over: &G,
    ask: &TypedAsk,
    reached: &[Seen],
) -> Result<Reply, AllocError>
    requires tier { IsSome ask.now.barriers.tier }
    requires entries { HaveEntries (G.stars_and_areas over.now) reached.now }
    ensures { IfOk result (λ r. r
        ≡ controllers_reply (G.stars_and_areas over.now) ask.now (nodes_of reached.now)) }
{
    let Some(tier) = ask.barriers.tier else {
        unreachable!()
    };
    let controllers = controllers_of(alloc, over, tier, reached)?;
    Ok(Reply::Controllers {
        controllers,
        version: 0,
    })
}

fn result_reply<G: Ground>(
    alloc: Global,
    over: &G,
    ask: &TypedAsk,
    reached: Vec<Seen>,
) -> Result<Reply, AllocError>
    requires entries { HaveEntries (G.stars_and_areas over.now) reached.items }
    requires sorted { IsStrictlySortedBy node_cmp (nodes_of reached.items) }
    ensures { IfOk result (λ r. r
        ≡ result_reply (G.stars_and_areas over.now) ask.now (nodes_of reached.entry.items)) }
{
    let result = result_of(alloc, over, ask, reached)?;
    Ok(Reply::Traced { result, version: 0 })
}

/// The answer of a trace that reached these nodes, where no dirt matters.
fn clean_reply<G: Ground>(
    alloc: Global,
    over: &G,
    ask: &TypedAsk,
    reached: Vec<Seen>,
) -> Result<Reply, AllocError>
    requires kind { IsAnswerable ask.now.kind ask.now.barriers.tier }
    requires entries { HaveEntries (G.stars_and_areas over.now) reached.items }
    requires sorted { IsStrictlySortedBy node_cmp (nodes_of reached.items) }
    ensures { IfOk result (λ r. r
        ≡ clean_reply (G.stars_and_areas over.now) ask.now (nodes_of reached.entry.items)) }
{
    if lists_controllers(ask.kind) {
        controllers_reply(alloc, over, ask, reached.as_slice())
    } else {
        result_reply(alloc, over, ask, reached)
    }
}

/// Whether the function is taken over the entries of features.
fn reads_entries(function: Func) -> bool
    ensures { result ≡ reads_entries function }
{
    match function {
        Func::Count => false,
        Func::Sum(_) | Func::Least(_) | Func::Greatest(_) => true,
    }
}

fn any_reads_entries(functions: &[Func]) -> bool
    ensures { result ≡ list_any reads_entries functions.now }
{
    functions.iter().any(|function| reads_entries(*function))
}

fn includes_any(include: Include) -> bool
    ensures { result ≡ includes_any include }
{
    include.containers || include.content || include.structures
}

/// Whether the answer tells what the entries of the result nodes have, and not their ports alone.
fn tells_entries(ask: &TypedAsk) -> bool
    ensures { result ≡ tells_entries ask.now }
{
    if includes_any(ask.include) {
        return true;
    }
    if lists_controllers(ask.kind) {
        return true;
    }
    any_reads_entries(ask.functions.as_slice())
}

fn no_ids(alloc: Global) -> Ids
    ensures { result ≡ [] }
{
    Ids::new(Vec::new(alloc))
}

/// The result with these features, where it tells nothing of entries.
fn ports_result(
    alloc: Global,
    ask: &TypedAsk,
    features: Vec<Part>,
) -> Result<ResultReply, AllocError>
    requires { tells_entries ask.now ≡ false }
    ensures { IfOk result (λ r. (g : Ground) (ns : List Node) → features.items ≡ parts ns
        → r ≡ result_of g ask.now ns) }
{
    let functions = totals(alloc, &[], features.len(), ask.functions.as_slice())?;
    let containers = no_ids(alloc);
    let content = no_ids(alloc);
    let structures = no_ids(alloc);
    Ok(ResultReply {
        containers,
        content,
        features: Parts::new(features),
        functions,
        kind: ask.kind,
        structures,
    })
}

/// The answer of a trace that found these nodes, where no dirt matters, if their ports alone suffice for it.
fn ports_reply<G: Ground>(
    alloc: Global,
    over: &G,
    ask: &TypedAsk,
    found: &Found,
) -> Result<Option<Reply>, AllocError>
    requires { IsFoundOver (G.stars_and_areas over.now) found.now }
    ensures { IfOk result (λ o. IfSome o (λ r. r
        ≡ clean_reply (G.stars_and_areas over.now) ask.now (rising node_cmp (nodes found.now)))) }
{
    if tells_entries(ask) {
        return Ok(None);
    }
    let Some(features) = parts_found(alloc, over, found, &ask.barriers, ask.include.barriers)?
    else {
        return Ok(None);
    };
    let result = ports_result(alloc, ask, features)?;
    Ok(Some(Reply::Traced { result, version: 0 }))
}

/// The answer of a trace that found these nodes, where no dirt matters.
fn found_reply<G: Ground>(
    alloc: Global,
    over: &G,
    ask: &TypedAsk,
    found: &Found,
) -> Result<Reply, AllocError>
    requires kind { IsAnswerable ask.now.kind ask.now.barriers.tier }
    requires over { IsFoundOver (G.stars_and_areas over.now) found.now }
    ensures { IfOk result (λ r. r
        ≡ clean_reply (G.stars_and_areas over.now) ask.now (rising node_cmp (nodes found.now))) }
{
    if let Some(reply) = ports_reply(alloc, over, ask, found)? {
        return Ok(reply);
    }
    let reached = found.sorted(alloc, over)?;
    clean_reply(alloc, over, ask, reached)
}

/// Answers a trace of the kinds connected, subnetwork, controllers, upstream and downstream over the ground. For controllers the ask has a
/// tier.
///
/// The version in the reply is 0: the caller puts in its own. `steps` counts the stars that are looked up. It answers an error only for
/// want of memory; the count may then have risen.
pub fn trace<G: Ground, L>(
    alloc: Global,
    over: &G,
    ask: &TypedAsk,
    steps: &mut Steps<L>,
) -> Result<Reply, AllocError>
    requires { IsAnswerable ask.now.kind ask.now.barriers.tier }
    // The reply is told of exactly the nodes in which a walk from a start ends: a refusal where dirt matters, and else what was asked for.
    ensures answer { IfOk result (IsAnswer (G.stars_and_areas over.now) ask.now) }

    // No more stars are looked up than nodes are reached.
    ensures ticks { OnReachCount (G.stars_and_areas over.now) ask.now
        (λ count. OnOk result (steps.new ≤ steps.old + count)) }
    ensures never_falls { steps.old ≤ steps.new }
{
    let mode = mode_of(ask.kind);
    let reached = reach_found(
        alloc,
        over,
        ask.starts.as_slice(),
        mode,
        &ask.barriers,
        Order::Breadth,
        steps,
    )?;
    match dirt_that_matters(&ask.barriers, reached.dirt) {
        Some(dirt) => Ok(Reply::on_dirty_ground(dirt)),
        None => found_reply(alloc, over, ask, &reached.found),
    }
}
