//! The steps that lead from a reached node. A place is the number of a reached node, in their order.

ghost use Rattle.std.specs.Prelude.{◌≡◌, ◌<◌, ◌^◌, ◌↔◌, ℕ, length, Some, slice_get, IfOk};
ghost use Rattle.std.specs.List.Sorted.{IsStrictlySortedBy};
ghost use Rattle.un_defs.specs.declared.port.Node.{Node};
ghost use Rattle.un_defs.specs.Orders.{node_cmp};
ghost use Rattle.un_path.specs.Hops.{IsAt, AreHopsBy, AreReached, AreHops};

use crate::costs::link_cost;
use std::alloc::{AllocError, Global};
use un_ask::Weight;
use un_defs::{Barriers, Ground, Node, PackedSpot};
use un_walk::Seen;

/// A step by one link: the place that it leads to, and what the link costs.
#[derive(Clone, Copy)]
pub(crate) struct Hop {
    pub(crate) to: usize,
    pub(crate) cost: u64,
}

impl Hop {
    /// What the link costs, as a summand of what walks cost.
    pub(crate) fn price(self) -> u128
        ensures cost { result ≡ self.cost }
        ensures small { result < 2 ^ 64 }
    {
        u128::from(self.cost)
    }
}

/// The place of a node among the reached ones.
pub(crate) fn place_of(nodes: &[Node], node: Node) -> Option<usize>
    requires { IsStrictlySortedBy node_cmp nodes.now }
    ensures { (p : ℕ) → (result ≡ Some p) ↔ IsAt nodes.now p node }
{
    nodes.binary_search(&node).ok()
}

/// The hops by the links of an entry.
fn hops_by(
    alloc: Global,
    nodes: &[Node],
    weight: Weight,
    spot: &PackedSpot,
) -> Result<Vec<Hop>, AllocError>
    requires { IsStrictlySortedBy node_cmp nodes.now }
    ensures { IfOk result (λ hops. AreHopsBy weight nodes.now spot.now spot.now.ties hops.items) }
{
    let mut hops = Vec::new(alloc);
    for tie in spot.ties() {
        if let Some(to) = place_of(nodes, tie.to()) {
            hops.push(Hop {
                to,
                cost: link_cost(weight, spot, tie),
            })?;
        }
    }
    Ok(hops)
}

/// The hops from the node at a place. The ground is there for the contract alone.
pub(crate) fn hops_from<G: Ground>(
    alloc: Global,
    _over: &G,
    barriers: &Barriers,
    weight: Weight,
    seen: &[Seen],
    nodes: &[Node],
    place: usize,
) -> Result<Vec<Hop>, AllocError>
    requires reached { AreReached (G.stars_and_areas _over.now) barriers.now seen.now nodes.now }
    requires inside { place < length nodes.now }
    ensures { IfOk result (λ hops. (n : Node) → IsAt nodes.now place n
        → AreHops (G.stars_and_areas _over.now) barriers.now weight nodes.now n hops.items) }
{
    let one = seen[place];
    if one.is_barrier(barriers) {
        return Ok(Vec::new(alloc));
    }
    match one.spot {
        Some(spot) => hops_by(alloc, nodes, weight, spot),
        None => Ok(Vec::new(alloc)),
    }
}
