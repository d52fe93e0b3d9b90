//! Where the links of a reached node lead. A place is the number of a reached node, in their order.

ghost use Rattle.std.specs.Prelude.{◌≡◌, ◌<◌, ◌↔◌, ℕ, length, Contains, Some, IfOk};
ghost use Rattle.std.specs.List.Sorted.{IsStrictlySortedBy};
ghost use Rattle.un_defs.specs.declared.port.Node.{Node};
ghost use Rattle.un_defs.specs.Orders.{node_cmp};
ghost use Rattle.un_diagram.specs.Places.{IsAt, IsEndBy, AreReached, AreEnds};

use std::alloc::{AllocError, Global};
use un_defs::{Barriers, Ground, Node, PackedSpot};
use un_walk::Seen;

/// The place of a node among the reached ones.
fn place_of(nodes: &[Node], node: Node) -> Option<usize>
    requires { IsStrictlySortedBy node_cmp nodes.now }
    ensures { (p : ℕ) → (result ≡ Some p) ↔ IsAt nodes.now p node }
{
    nodes.binary_search(&node).ok()
}

/// The places to which the links of an entry lead.
fn ends_by(alloc: Global, nodes: &[Node], spot: &PackedSpot) -> Result<Vec<usize>, AllocError>
    requires { IsStrictlySortedBy node_cmp nodes.now }
    ensures { IfOk result (λ ends. (j : ℕ)
        → Contains ends.items j ↔ IsEndBy nodes.now spot.now.ties j) }
{
    let mut ends = Vec::new(alloc);
    for tie in spot.ties() {
        if let Some(end) = place_of(nodes, tie.to()) {
            ends.push(end)?;
        }
    }
    Ok(ends)
}

/// The places to which walks go on from the node at a place. The ground is there for the contract alone.
pub(crate) fn ends_from<G: Ground>(
    alloc: Global,
    _over: &G,
    barriers: &Barriers,
    seen: &[Seen],
    nodes: &[Node],
    place: usize,
) -> Result<Vec<usize>, AllocError>
    requires reached { AreReached (G.stars_and_areas _over.now) barriers.now seen.now nodes.now }
    requires inside { place < length nodes.now }
    ensures { IfOk result (λ ends. (n : Node) → IsAt nodes.now place n
        → AreEnds (G.stars_and_areas _over.now) barriers.now nodes.now n ends.items) }
{
    let one = seen[place];
    if one.is_barrier(barriers) {
        return Ok(Vec::new(alloc));
    }
    match one.spot {
        Some(spot) => ends_by(alloc, nodes, spot),
        None => Ok(Vec::new(alloc)),
    }
}
