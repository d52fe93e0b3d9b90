//! The graph of the reached nodes by their places.

ghost use Rattle.std.specs.Prelude.{◌≡◌, map, None, IfOk};
ghost use Rattle.un_defs.specs.Reach.{dirt};
ghost use Rattle.un_isolate.specs.Answer.{IsReachOf, isolation_of};
ghost use Rattle.un_isolate.specs.Network.{IsNetworkOf};
ghost use Rattle.un_isolate.specs.Entries.{AreSeen, isolates_by, is_controlled_by};

use crate::entries::{controls, is_isolating};
use crate::links::{Ends, links_onward};
use crate::marks::start_marks;
use std::alloc::{AllocError, Global};
use un_ask::TypedAsk;
use un_conds::Cond;
use un_defs::{Ground, Node};
use un_walk::Seen;

/// Marks on the places of the reached nodes, and the links by which walks go on from each.
#[derive(Drop)]
pub(crate) struct Network {
    /// Starts of the trace.
    pub(crate) starts: Vec<bool>,
    /// Isolating ports.
    pub(crate) isolating: Vec<bool>,
    /// Nodes with a controller of the tier.
    pub(crate) controlled: Vec<bool>,
    pub(crate) onward: Vec<Ends>,
}

fn isolating_marks(
    alloc: Global,
    nodes: &[Seen],
    isolators: &Option<Cond>,
) -> Result<Vec<bool>, AllocError>
    ensures { IfOk result (λ marks. marks.items ≡ map (isolates_by isolators.now) nodes.now) }
{
    nodes
        .iter()
        .map(|one| is_isolating(isolators, one))
        .collect(alloc)
}

fn is_controlled(tier: Option<u8>, one: &Seen) -> bool
    ensures { result ≡ is_controlled_by tier one.now }
{
    match tier {
        Some(tier) => controls(tier, one),
        None => false,
    }
}

fn controlled_marks(
    alloc: Global,
    nodes: &[Seen],
    tier: Option<u8>,
) -> Result<Vec<bool>, AllocError>
    ensures { IfOk result (λ marks. marks.items ≡ map (is_controlled_by tier) nodes.now) }
{
    nodes
        .iter()
        .map(|one| is_controlled(tier, one))
        .collect(alloc)
}

/// The graph of the nodes that a trace reached, where it met no dirt. The ground is there for the contract alone.
pub(crate) fn network_of<G: Ground>(
    alloc: Global,
    _over: &G,
    ask: &TypedAsk,
    seen: &[Seen],
    reached: &[Node],
) -> Result<Network, AllocError>
    requires seen { AreSeen (G.stars_and_areas _over.now) reached.now seen.now }
    requires reach { IsReachOf (G.stars_and_areas _over.now) ask.now reached.now }
    requires clean { dirt (G.stars_and_areas _over.now) reached.now ≡ None }
    ensures { IfOk result
        (IsNetworkOf (isolation_of (G.stars_and_areas _over.now) ask.now) reached.now) }
{
    Ok(Network {
        starts: start_marks(alloc, reached, ask.starts.as_slice())?,
        isolating: isolating_marks(alloc, seen, &ask.isolators)?,
        controlled: controlled_marks(alloc, seen, ask.barriers.tier)?,
        onward: links_onward(alloc, seen, &ask.barriers)?,
    })
}
