//! The walk itself: the nodes that were found are taken in order, each once.

ghost use Rattle.std.specs.Prelude.{◌≡◌, ◌≤◌, ◌+◌, ◌&&◌, length, slice_get, Some, IfOk, OnOk};
ghost use Rattle.std.specs.List.Sorted.{IsPermutation, IsSorted};
ghost use Rattle.un_defs.specs.Ground.{entry};
ghost use Rattle.un_defs.specs.Orders.{node_cmp, rising};
ghost use Rattle.un_defs.specs.Reach.{IsReach, leads, dirt, meets_condition};
ghost use Rattle.un_walk.specs.Found.{nodes, IsFoundOver};
ghost use Rattle.un_walk.specs.Growth.{GrowsBy};
ghost use Rattle.un_walk.specs.Aways.{FollowsAll};
ghost use Rattle.un_walk.specs.Seen.{nodes_of, spot_of, HaveEntries};
ghost use Rattle.un_walk.specs.Site.{IsSite};
ghost use Rattle.un_walk.specs.Ticks.{IsLookedUpOnce};
ghost use Rattle.un_walk.specs.Traced.{IsTraced};

use crate::dirt::dirt_after;
use crate::found::Found;
use crate::order::Order;
use crate::seen::Seen;
use crate::site::Site;
use crate::traversal::{Away, Place, follow};
use std::alloc::{AllocError, Global};
use un_defs::port::Nodes;
use un_defs::{Barriers, Dirt, Ground, Mode, Node, PackedSpot};
use un_steps::Steps;

/// The nodes that walks reach, rising, and the dirt that they meet.
#[derive(Drop)]
pub struct Reached {
    pub nodes: Nodes,
    pub dirt: Option<Dirt>,
}

/// The nodes that walks reach, in the order in which they were found, and the dirt that they meet.
#[derive(Drop)]
pub struct ReachedFound<'a> {
    pub found: Found<'a>,
    pub dirt: Option<Dirt>,
}

/// The nodes that walks reach, rising, each with its entry, and the dirt that they meet.
#[derive(Drop)]
pub struct ReachedSeen<'a> {
    pub seen: Vec<Seen<'a>>,
    pub dirt: Option<Dirt>,
}

fn nodes_of(alloc: Global, seen: &[Seen]) -> Result<Nodes, AllocError>
    ensures { IfOk result (λ nodes. nodes ≡ nodes_of seen.now) }
{
    let mut nodes = Vec::with_capacity(alloc, seen.len())?;
    for one in seen {
        nodes.push(one.node)?;
    }
    Ok(Nodes::new(nodes))
}

impl ReachedSeen<'_> {
    /// The nodes alone.
    pub fn nodes(&self, alloc: Global) -> Result<Nodes, AllocError>
        ensures { IfOk result (λ nodes. nodes ≡ nodes_of self.now.seen.items) }
    {
        nodes_of(alloc, self.seen.as_slice())
    }
}

fn sort(nodes: &mut Vec<Node>)
    ensures permutation { IsPermutation nodes.old.items nodes.new.items }
    ensures sorted { IsSorted node_cmp nodes.new.items }
{
    nodes.sort_unstable();
}

fn is_shut_by_dirt(barriers: &Barriers, dirty_here: bool) -> bool
    ensures { result ≡ (barriers.now.consistent && dirty_here) }
{
    barriers.consistent && dirty_here
}

fn is_shut_by_barrier(barriers: &Barriers, spot: &PackedSpot) -> bool
    ensures { result ≡ meets_condition barriers.now spot.now }
{
    barriers.are_met_by(spot)
}

/// Follows the links by which a walk goes on from this node, which has the number among those found, or puts them off, as the order says.
fn visit<'a, G: Ground, L>(
    alloc: Global,
    over: &'a G,
    one: &Seen<'a>,
    number: usize,
    site: &Site<'a>,
    mode: Mode,
    barriers: &Barriers,
    order: Order,
    found: &mut Found<'a>,
    aways: &mut Vec<Away<'a>>,
    steps: &mut Steps<L>,
) -> Result<(), AllocError>
    requires over { IsFoundOver (G.stars_and_areas over.now) found.old }
    requires found { slice_get (nodes found.old) number ≡ Some one.now.node }
    requires site { IsSite (G.stars_and_areas over.now) site.now }
    requires at { site.now.at ≡ one.now.node.at }
    requires entry { spot_of one.now ≡ entry (G.stars_and_areas over.now) one.now.node }
    ensures over { OnOk result (IsFoundOver (G.stars_and_areas over.now) found.new) }
    ensures next { OnOk result (GrowsBy (nodes found.old) (nodes found.new)
        (leads (G.stars_and_areas over.now) barriers.now mode one.now.node)) }
    ensures follows { OnOk result (FollowsAll (G.stars_and_areas over.now) barriers.now mode found.old found.new
        aways.old.items aways.new.items one.now.node number) }
    ensures once { IsLookedUpOnce (G.stars_and_areas over.now) barriers.now
        → OnOk result (steps.new + length (nodes found.old) ≤ steps.old + length (nodes found.new)) }
    ensures never_falls { steps.old ≤ steps.new }
{
    let node = one.node;
    if is_shut_by_dirt(barriers, site.area.is_some()) {
        return Ok(());
    }
    if barriers.stop_at(node.port) {
        return Ok(());
    }
    let Some(spot) = one.spot else {
        return Ok(());
    };
    let Some(star) = site.star else {
        return Ok(());
    };
    if is_shut_by_barrier(barriers, spot) {
        return Ok(());
    }
    follow(
        alloc,
        over,
        &Place {
            node,
            number,
            star,
            spot,
        },
        mode,
        barriers,
        order,
        found,
        aways,
        steps,
    )
}

/// What walks from the starts reach, in the order in which it was found, and the dirt that they meet. Links are followed in the order that is
/// given.
///
/// `steps` counts the stars that are looked up. It answers an error only for want of memory; the count may then have risen.
pub fn reach_found<'a, G: Ground, L>(
    alloc: Global,
    over: &'a G,
    starts: &[Node],
    mode: Mode,
    barriers: &Barriers,
    order: Order,
    steps: &mut Steps<L>,
) -> Result<ReachedFound<'a>, AllocError>
    // In order, the nodes are exactly those in which a walk ends.
    ensures nodes { IfOk result
        (λ r. IsReach (leads (G.stars_and_areas over.now) barriers.now mode) starts.now
        (rising node_cmp (nodes r.found))) }
    ensures over { IfOk result (λ r. IsFoundOver (G.stars_and_areas over.now) r.found) }
    // The least area that covers one of them, and the least port of those that it covers.
    ensures dirt { IfOk result (λ r. r.dirt
        ≡ dirt (G.stars_and_areas over.now) (rising node_cmp (nodes r.found))) }
    // The links by which they were found, and the chords.
    ensures traced { IfOk result (λ r. IsTraced (G.stars_and_areas over.now) barriers.now mode r.found) }

    // No more stars are looked up than nodes are reached.
    ensures ticks { IsLookedUpOnce (G.stars_and_areas over.now) barriers.now
        → IfOk result
        (λ r. steps.new ≤ steps.old + length (rising node_cmp (nodes r.found))) }
    ensures never_falls { steps.old ≤ steps.new }
{
    let mut found = Found::new(alloc);
    let mut aways = Vec::new(alloc);
    let mut least = None;
    let mut begun = 0;
    let mut next = 0;
    while begun < starts.len() || next < found.len() || !aways.is_empty() {
        if next < found.len() {
            let (one, site) = found.at(over, next);
            least = dirt_after(least, site.area, one.node.port);
            visit(
                alloc, over, &one, next, &site, mode, barriers, order, &mut found, &mut aways,
                steps,
            )?;
            next += 1;
        } else if let Some(Away { from, to, tie }) = aways.pop() {
            found.add_far(alloc, over, to, from, Some(tie), steps)?;
        } else {
            found.add_far(alloc, over, starts[begun], next, None, steps)?;
            begun += 1;
        }
    }
    Ok(ReachedFound { found, dirt: least })
}

/// What walks from the starts reach, with the entries, and the dirt that they meet.
///
/// `steps` counts the stars that are looked up. It answers an error only for want of memory; the count may then have risen.
pub fn reach_seen<'a, G: Ground, L>(
    alloc: Global,
    over: &'a G,
    starts: &[Node],
    mode: Mode,
    barriers: &Barriers,
    steps: &mut Steps<L>,
) -> Result<ReachedSeen<'a>, AllocError>
    // The nodes are exactly those in which a walk ends, rising.
    ensures nodes { IfOk result
        (λ r. IsReach (leads (G.stars_and_areas over.now) barriers.now mode) starts.now (nodes_of r.seen.items)) }
    ensures entries { IfOk result (λ r. HaveEntries (G.stars_and_areas over.now) r.seen.items) }
    // The least area that covers one of them, and the least port of those that it covers.
    ensures dirt { IfOk result (λ r. r.dirt ≡ dirt (G.stars_and_areas over.now) (nodes_of r.seen.items)) }

    // No more stars are looked up than nodes are reached.
    ensures ticks { IsLookedUpOnce (G.stars_and_areas over.now) barriers.now
        → IfOk result (λ r. steps.new ≤ steps.old + length r.seen.items) }
    ensures never_falls { steps.old ≤ steps.new }
{
    let reached = reach_found(alloc, over, starts, mode, barriers, Order::Breadth, steps)?;
    let seen = reached.found.sorted(alloc, over)?;
    Ok(ReachedSeen {
        seen,
        dirt: reached.dirt,
    })
}

/// What walks from the starts reach, and the dirt that they meet.
///
/// `steps` counts the stars that are looked up. It answers an error only for want of memory; the count may then have risen.
pub fn reach<G: Ground, L>(
    alloc: Global,
    over: &G,
    starts: &[Node],
    mode: Mode,
    barriers: &Barriers,
    steps: &mut Steps<L>,
) -> Result<Reached, AllocError>
    // The nodes are exactly those in which a walk ends, rising.
    ensures nodes { IfOk result
        (λ r. IsReach (leads (G.stars_and_areas over.now) barriers.now mode) starts.now r.nodes) }
    // The least area that covers one of them, and the least port of those that it covers.
    ensures dirt { IfOk result (λ r. r.dirt ≡ dirt (G.stars_and_areas over.now) r.nodes) }

    // No more stars are looked up than nodes are reached.
    ensures ticks { IsLookedUpOnce (G.stars_and_areas over.now) barriers.now
        → IfOk result (λ r. steps.new ≤ steps.old + length r.nodes) }
    ensures never_falls { steps.old ≤ steps.new }
{
    let reached = reach_found(alloc, over, starts, mode, barriers, Order::Breadth, steps)?;
    let mut nodes = reached.found.nodes(alloc)?;
    sort(&mut nodes);
    Ok(Reached {
        nodes: Nodes::new(nodes),
        dirt: reached.dirt,
    })
}
