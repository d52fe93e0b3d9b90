//! The walk whose ports a certificate shows.

ghost use Rattle.std.specs.Prelude.{◌≡◌, ◌<◌, ℕ, length, Contains, IfOk};
ghost use Rattle.un_defs.specs.declared.port.Node.{Node};
ghost use Rattle.un_defs.specs.declared.walk.Mode.TheVariants.{Any};
ghost use Rattle.un_defs.specs.Reach.{leads};
ghost use Rattle.un_path.specs.Checking.{is_to, IsCheapest, IsEndOf};
ghost use Rattle.un_path.specs.Costs.{step_cost};
ghost use Rattle.un_path.specs.Hops.{IsAt, AreReached};

use crate::hops::{Hop, hops_from};
use std::alloc::{AllocError, Global};
use un_ask::Weight;
use un_defs::{Barriers, Ground, Node, Port};
use un_walk::Seen;

/// The place at which a walk ends, and what the walk costs.
#[derive(Clone, Copy)]
pub(crate) struct WalkEnd {
    pub(crate) place: usize,
    pub(crate) cost: u128,
}

fn is_to(nodes: &[Node], port: Port, hop: &Hop) -> bool
    ensures { result ≡ is_to nodes.now port hop.now }
{
    match nodes.get(hop.to) {
        Some(node) => node.port == port,
        None => false,
    }
}

/// The hop to the port that costs least, if one leads there.
fn cheapest(nodes: &[Node], port: Port, hops: &[Hop]) -> Option<Hop>
    ensures { IsCheapest nodes.now port hops.now result }
{
    let mut best: Option<Hop> = None;
    for hop in hops {
        if is_to(nodes, port, hop) {
            best = match best {
                Some(other) if other.cost <= hop.cost => Some(other),
                _ => Some(*hop),
            };
        }
    }
    best
}

/// Where the walk ends that goes from the node at a place over nodes with these ports, if there is one.
pub(crate) fn walk_end<G: Ground>(
    alloc: Global,
    over: &G,
    barriers: &Barriers,
    weight: Weight,
    seen: &[Seen],
    nodes: &[Node],
    start: usize,
    ports: &[Port],
) -> Result<Option<WalkEnd>, AllocError>
    requires reached { AreReached (G.stars_and_areas over.now) barriers.now seen.now nodes.now }
    requires inside { start < length nodes.now }
    ensures { IfOk result (λ end. (n : Node) → IsAt nodes.now start n
        → IsEndOf (leads (G.stars_and_areas over.now) barriers.now Any)
        (step_cost (G.stars_and_areas over.now) barriers.now weight) nodes.now n ports.now end) }
{
    let mut place = start;
    let mut cost: u128 = 0;
    for port in ports {
        let hops = hops_from(alloc, over, barriers, weight, seen, nodes, place)?;
        match cheapest(nodes, *port, &hops) {
            Some(hop) => {
                place = hop.to;
                cost += hop.price();
            }
            None => return Ok(None),
        }
    }
    Ok(Some(WalkEnd { place, cost }))
}
