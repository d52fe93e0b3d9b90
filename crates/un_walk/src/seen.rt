//! Reached nodes with their entries.

ghost use Rattle.std.specs.Prelude.{◌≡◌};
ghost use Rattle.std.specs.List.Sorted.{IsPermutation, IsSorted};
ghost use Rattle.un_defs.specs.Orders.{node_cmp};
ghost use Rattle.un_walk.specs.Seen.{nodes_of, is_barrier_by};

use un_defs::{Barriers, Node, PackedSpot};

/// A node and its entry, if it has one.
#[derive(Clone, Copy)]
pub struct Seen<'a> {
    pub node: Node,
    pub spot: Option<&'a PackedSpot>,
}

impl Seen<'_> {
    /// Whether the node is a barrier: its entry meets the condition of the request or of the tier, or its port is among the stops.
    pub fn is_barrier(&self, barriers: &Barriers) -> bool
        ensures { result ≡ is_barrier_by barriers.now self.now }
    {
        match self.spot {
            Some(spot) if barriers.are_met_by(spot) => true,
            _ => barriers.stop_at(self.node.port),
        }
    }
}

/// Sorts by node. The nodes are compared where they stand, since a sort by key copies two of them for each comparison.
pub(crate) fn sort_by_node(seen: &mut Vec<Seen>)
    ensures permutation { IsPermutation seen.old.items seen.new.items }
    ensures sorted { IsSorted node_cmp (nodes_of seen.new.items) }
{
    seen.sort_unstable_by(|a, b| a.node.cmp(&b.node));
}
