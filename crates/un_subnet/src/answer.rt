//! The update itself.

ghost use Rattle.std.specs.Prelude.{◌≡◌, ◌≤◌, ◌+◌, ◌*◌, length, IfOk, OnOk};
ghost use Rattle.un_defs.specs.Reach.{dirt};
ghost use Rattle.un_walk.specs.Ticks.{IsLookedUpOnce};
ghost use Rattle.un_subnet.specs.Refusals.{dirt_refusal};
ghost use Rattle.un_subnet.specs.Answer.{IsReachOf, OnReachCount, IsForUpdate, walk_refusal, IsAnswer};

use crate::alone::disjoint_refusal;
use crate::conflict::conflict_refusal;
use crate::row::{row_of, subnet_of};
use std::alloc::{AllocError, Global};
use un_ask::{Reply, TypedAsk};
use un_defs::{Dirt, Ground, Mode, Refusal};
use un_steps::Steps;
use un_walk::{Reached, reach};

/// The refusal for the dirt that a walk met.
fn dirt_refusal(dirt: Option<Dirt>) -> Option<Refusal>
    ensures { result ≡ dirt_refusal dirt }
{
    dirt.map(|dirt| Refusal::DirtyGround {
        area: dirt.area,
        feature: dirt.port.feature,
        port: dirt.port.number,
    })
}

/// The first refusal for what the walk reached.
fn walk_refusal<G: Ground, L>(
    alloc: Global,
    over: &G,
    ask: &TypedAsk,
    reached: &Reached,
    steps: &mut Steps<L>,
) -> Result<Option<Refusal>, AllocError>
    requires ask { IsForUpdate ask.now }
    requires reach { IsReachOf (G.stars_and_areas over.now) ask.now reached.now.nodes }
    requires dirt { reached.now.dirt ≡ dirt (G.stars_and_areas over.now) reached.now.nodes }
    ensures refusal { IfOk result (λ refusal. refusal
        ≡ walk_refusal (G.stars_and_areas over.now) ask.now reached.now.nodes) }
    ensures ticks { IsLookedUpOnce (G.stars_and_areas over.now) ask.now.barriers
        → OnOk result (steps.new ≤ steps.old + 2 * length reached.now.nodes) }
    ensures never_falls { steps.old ≤ steps.new }
{
    if let Some(refusal) = dirt_refusal(reached.dirt) {
        return Ok(Some(refusal));
    }
    let (tier, subnet) = subnet_of(ask);
    let nodes = reached.nodes.as_slice();
    if let Some(refusal) = conflict_refusal(alloc, over, tier, subnet, nodes, steps)? {
        return Ok(Some(refusal));
    }
    disjoint_refusal(alloc, over, ask, steps)
}

/// Walks a subnetwork from its controllers, and answers what is to be stored of it.
///
/// It answers a refusal where the walk meets dirt, else where it reaches a controller of another subnetwork of the tier, and else where the
/// least controller does not reach each of the others and the tier does not allow that. The version in the reply and in the row is 0: the
/// caller puts in its own. `steps` counts the stars that are looked up. It answers an error only for want of memory; the count may then
/// have risen.
pub fn update<G: Ground, L>(
    alloc: Global,
    over: &G,
    ask: &TypedAsk,
    steps: &mut Steps<L>,
) -> Result<Reply, AllocError>
    requires { IsForUpdate ask.now }
    // The first refusal that is due of the nodes in which a walk from a controller ends, and else the row of exactly these.
    ensures answer { IfOk result (IsAnswer (G.stars_and_areas over.now) ask.now) }

    // For each node that is reached, one star is looked up for the walk, at most one for the controllers of other subnetworks, and at most
    // one for the walk from the least controller alone.
    ensures ticks { OnReachCount (G.stars_and_areas over.now) ask.now
        (λ count. OnOk result (steps.new ≤ steps.old + 3 * count)) }
    ensures never_falls { steps.old ≤ steps.new }
{
    let reached = reach(
        alloc,
        over,
        ask.starts.as_slice(),
        Mode::Any,
        &ask.barriers,
        steps,
    )?;
    match walk_refusal(alloc, over, ask, &reached, steps)? {
        Some(refusal) => Ok(Reply::Refused {
            refusal,
            edit: None,
            version: 0,
        }),
        None => Ok(Reply::Updated {
            row: Some(row_of(alloc, ask, reached.nodes.as_slice())?),
            version: 0,
        }),
    }
}
