//! Whether a certificate is valid.

ghost use Rattle.std.specs.Prelude.{◌≡◌, ◌≤◌, ◌+◌, ◌<◌, map, length, Contains, None, IfOk, OnOk};
ghost use Rattle.std.specs.Bool.{MatchBool};
ghost use Rattle.std.specs.List.Sorted.{IsStrictlySortedBy};
ghost use Rattle.un_defs.specs.Orders.{node_cmp};
ghost use Rattle.un_defs.specs.declared.port.Node.{Node};
ghost use Rattle.un_defs.specs.declared.walk.Mode.TheVariants.{Any};
ghost use Rattle.un_defs.specs.Reach.{leads};
ghost use Rattle.un_path.specs.Answer.{OnReachCount, HaveOwnPortsOnCleanGround, IsValidOver, IsCheckAnswer};
ghost use Rattle.un_path.specs.Checking.{HaveCosts, KeepsHops, EndsAt, HasRightWalk};
ghost use Rattle.un_path.specs.Costs.{step_cost};
ghost use Rattle.un_path.specs.Hops.{IsAt, AreReached};
ghost use Rattle.un_path.specs.Paths.{ports_of, label_ports};
ghost use Rattle.un_path.specs.Valid.{KeepsSteps};

use crate::hops::{Hop, hops_from, place_of};
use crate::walks::{WalkEnd, walk_end};
use std::alloc::{AllocError, Global};
use un_ask::{CheckAsk, Label, Reply, Weight};
use un_defs::{Barriers, Ground, Mode, Node};
use un_steps::Steps;
use un_walk::{Seen, reach_seen};

/// Whether the labels have the ports of the nodes, in order.
fn have_ports(labels: &[Label], nodes: &[Node]) -> bool
    ensures { MatchBool result (label_ports labels.now ≡ ports_of nodes.now)
        (label_ports labels.now ≡ ports_of nodes.now → ⊥) }
{
    if labels.len() != nodes.len() {
        return false;
    }
    for i in 0..nodes.len() {
        if labels[i].port != nodes[i].port {
            return false;
        }
    }
    true
}

fn costs_of(alloc: Global, labels: &[Label]) -> Result<Vec<u128>, AllocError>
    ensures { IfOk result (λ costs. costs.items ≡ map (λ l. l.cost) labels.now) }
{
    labels.iter().map(|label| label.cost).collect(alloc)
}

/// Whether the places to which the hops lead have at most the cost given and the hop's.
fn keeps_hops(costs: &[u128], cost: u128, hops: &[Hop]) -> bool
    requires { (h : Hop) → Contains hops.now h → h.to < length costs.now }
    ensures { MatchBool result (KeepsHops costs.now cost hops.now)
        (KeepsHops costs.now cost hops.now → ⊥) }
{
    for hop in hops {
        if costs[hop.to].saturating_sub(u128::from(hop.cost)) > cost {
            return false;
        }
    }
    true
}

/// Whether each step keeps to the labels, whose costs are given by the places of their nodes. The labels are there for the contract alone.
fn keeps_steps<G: Ground>(
    alloc: Global,
    over: &G,
    barriers: &Barriers,
    weight: Weight,
    seen: &[Seen],
    nodes: &[Node],
    _labels: &[Label],
    costs: &[u128],
) -> Result<bool, AllocError>
    requires reached { AreReached (G.stars_and_areas over.now) barriers.now seen.now nodes.now }
    requires count { length costs.now ≡ length nodes.now }
    requires costs { HaveCosts nodes.now _labels.now costs.now }
    ensures { IfOk result (λ keeps. MatchBool keeps
        (KeepsSteps (leads (G.stars_and_areas over.now) barriers.now Any)
        (step_cost (G.stars_and_areas over.now) barriers.now weight) nodes.now _labels.now)
        (KeepsSteps (leads (G.stars_and_areas over.now) barriers.now Any)
        (step_cost (G.stars_and_areas over.now) barriers.now weight) nodes.now _labels.now → ⊥)) }
{
    for place in 0..nodes.len() {
        let hops = hops_from(alloc, over, barriers, weight, seen, nodes, place)?;
        if !keeps_hops(costs, costs[place], &hops) {
            return Ok(false);
        }
    }
    Ok(true)
}

/// Whether a walk ends at the node, and costs what stands at its place.
fn is_end(nodes: &[Node], costs: &[u128], end: WalkEnd, to: Node) -> bool
    requires rising { IsStrictlySortedBy node_cmp nodes.now }
    requires count { length costs.now ≡ length nodes.now }
    ensures { MatchBool result (EndsAt nodes.now costs.now end to)
        (EndsAt nodes.now costs.now end to → ⊥) }
{
    match place_of(nodes, to) {
        Some(place) => place == end.place && costs[place] == end.cost,
        None => false,
    }
}

/// Whether the ports are those of a walk that costs the label of its last node, or none where that is not reached.
fn has_right_walk<G: Ground>(
    alloc: Global,
    over: &G,
    ask: &CheckAsk,
    seen: &[Seen],
    nodes: &[Node],
    costs: &[u128],
    start: usize,
) -> Result<bool, AllocError>
    requires reached { AreReached (G.stars_and_areas over.now) ask.now.barriers seen.now nodes.now }
    requires count { length costs.now ≡ length nodes.now }
    requires costs { HaveCosts nodes.now ask.now.labels costs.now }
    requires start { IsAt nodes.now start ask.now.from }
    ensures { IfOk result (λ right. MatchBool right
        (HasRightWalk (leads (G.stars_and_areas over.now) ask.now.barriers Any)
        (step_cost (G.stars_and_areas over.now) ask.now.barriers ask.now.weight) nodes.now ask.now)
        (HasRightWalk (leads (G.stars_and_areas over.now) ask.now.barriers Any)
        (step_cost (G.stars_and_areas over.now) ask.now.barriers ask.now.weight) nodes.now ask.now → ⊥)) }
{
    let Some((first, rest)) = ask.nodes.as_slice().split_first() else {
        return Ok(place_of(nodes, ask.to).is_none());
    };
    if *first != ask.from.port {
        return Ok(false);
    }
    let end = walk_end(
        alloc,
        over,
        &ask.barriers,
        ask.weight,
        seen,
        nodes,
        start,
        rest,
    )?;
    match end {
        Some(end) => Ok(is_end(nodes, costs, end, ask.to)),
        None => Ok(false),
    }
}

/// Whether the certificate is valid, where no dirt was met.
fn is_valid<G: Ground>(
    alloc: Global,
    over: &G,
    ask: &CheckAsk,
    seen: &[Seen],
    nodes: &[Node],
) -> Result<bool, AllocError>
    requires reached { AreReached (G.stars_and_areas over.now) ask.now.barriers seen.now nodes.now }
    requires from { Contains nodes.now ask.now.from }
    ensures { IfOk result (λ valid. MatchBool valid (IsValidOver (G.stars_and_areas over.now) ask.now nodes.now)
        (IsValidOver (G.stars_and_areas over.now) ask.now nodes.now → ⊥)) }
{
    let labels = ask.labels.as_slice();
    if !have_ports(labels, nodes) {
        return Ok(false);
    }
    let costs = costs_of(alloc, labels)?;
    let Some(start) = place_of(nodes, ask.from) else {
        return Ok(false);
    };
    if costs[start] != 0 {
        return Ok(false);
    }
    if !keeps_steps(
        alloc,
        over,
        &ask.barriers,
        ask.weight,
        seen,
        nodes,
        labels,
        &costs,
    )? {
        return Ok(false);
    }
    has_right_walk(alloc, over, ask, seen, nodes, &costs, start)
}

/// The verdict on a certificate over the ground: whether it is valid.
///
/// The version in the reply is 0: the caller puts in its own. `steps` counts the stars that are looked up. It answers an error only for
/// want of memory; the count may then have risen.
pub fn check<G: Ground, L>(
    alloc: Global,
    over: &G,
    ask: &CheckAsk,
    steps: &mut Steps<L>,
) -> Result<Reply, AllocError>
    requires untiered { ask.now.barriers.tier ≡ None }
    requires own_ports { HaveOwnPortsOnCleanGround (G.stars_and_areas over.now)
        ask.now.barriers ask.now.from }
    // A refusal where the walks met dirt, and else whether the certificate is valid.
    ensures answer { IfOk result (IsCheckAnswer (G.stars_and_areas over.now) ask.now) }

    // No more stars are looked up than nodes are reached.
    ensures ticks { OnReachCount (G.stars_and_areas over.now) ask.now.barriers ask.now.from
        (λ count. OnOk result (steps.new ≤ steps.old + count)) }
    ensures never_falls { steps.old ≤ steps.new }
{
    let reached = reach_seen(alloc, over, &[ask.from], Mode::Any, &ask.barriers, steps)?;
    if let Some(dirt) = reached.dirt {
        return Ok(Reply::on_dirty_ground(dirt));
    }
    let nodes = reached.nodes(alloc)?;
    let valid = is_valid(alloc, over, ask, reached.seen.as_slice(), nodes.as_slice())?;
    Ok(Reply::Check { valid, version: 0 })
}
