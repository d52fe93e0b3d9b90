//! The trace itself.

ghost use Rattle.std.specs.Prelude.{◌≡◌, ◌≤◌, ◌+◌, None, IfOk, OnOk};
ghost use Rattle.un_defs.specs.declared.port.Node.{Node};
ghost use Rattle.un_defs.specs.Reach.{dirt};
ghost use Rattle.un_isolate.specs.Entries.{AreSeen};
ghost use Rattle.un_isolate.specs.Answer.{IsReachOf, OnReachCount, IsForIsolation, IsFit, IsFitOnCleanGround, not_isolable, isolation_given_dirt, IsAnswer};

use crate::cut::cut_off;
use crate::marks::{both_marks, marked_nodes};
use crate::network::network_of;
use crate::spread::spread;
use std::alloc::{AllocError, Global};
use un_ask::{Reply, TypedAsk};
use un_defs::{Ground, Mode, Node, Port, Refusal};
use un_steps::Steps;
use un_walk::{Seen, reach_seen};

/// The refusal that names the port of a controller that stands in the way.
fn not_isolable(port: Port) -> Reply
    ensures { result ≡ not_isolable port }
{
    Reply::Refused {
        refusal: Refusal::NotIsolable {
            feature: port.feature,
            terminal: port.number,
        },
        edit: None,
        version: 0,
    }
}

/// The answer among the nodes that the trace reached, where no dirt was met.
fn isolation_among<G: Ground>(
    alloc: Global,
    over: &G,
    ask: &TypedAsk,
    seen: &[Seen],
    reached: &[Node],
) -> Result<Reply, AllocError>
    requires seen { AreSeen (G.stars_and_areas over.now) reached.now seen.now }
    requires reach { IsReachOf (G.stars_and_areas over.now) ask.now reached.now }
    requires clean { dirt (G.stars_and_areas over.now) reached.now ≡ None }
    requires fit { IsFit (G.stars_and_areas over.now) ask.now reached.now }
    ensures { IfOk result (λ reply. reply
        ≡ isolation_given_dirt None (G.stars_and_areas over.now) ask.now reached.now) }
{
    let network = network_of(alloc, over, ask, seen, reached)?;
    let zone = spread(alloc, &network.onward, &network.starts, &network.isolating)?;
    let in_the_way = both_marks(alloc, &zone, &network.controlled)?;
    match marked_nodes(alloc, reached, &in_the_way)?.first() {
        Some(node) => Ok(not_isolable(node.port)),
        None => cut_off(alloc, &network, reached, &zone),
    }
}

/// Answers a trace for isolation over the ground: the ports to shut, so that no walk from the starts comes to a controller of the tier, and
/// the part that they cut off.
///
/// The version in the reply is 0: the caller puts in its own. `steps` counts the stars that are looked up. It answers an error only for
/// want of memory; the count may then have risen.
pub fn isolate<G: Ground, L>(
    alloc: Global,
    over: &G,
    ask: &TypedAsk,
    steps: &mut Steps<L>,
) -> Result<Reply, AllocError>
    requires kind { IsForIsolation ask.now }
    requires fit { IsFitOnCleanGround (G.stars_and_areas over.now) ask.now }
    // A refusal where the walks met dirt or a controller stands in the way, and else exactly the needed ports and the part.
    ensures answer { IfOk result (IsAnswer (G.stars_and_areas over.now) ask.now) }

    // No more stars are looked up than nodes are reached.
    ensures ticks { OnReachCount (G.stars_and_areas over.now) ask.now
        (λ count. OnOk result (steps.new ≤ steps.old + count)) }
    ensures never_falls { steps.old ≤ steps.new }
{
    let reached = reach_seen(
        alloc,
        over,
        ask.starts.as_slice(),
        Mode::Any,
        &ask.barriers,
        steps,
    )?;
    match reached.dirt {
        Some(dirt) => Ok(Reply::on_dirty_ground(dirt)),
        None => {
            let nodes = reached.nodes(alloc)?;
            isolation_among(alloc, over, ask, reached.seen.as_slice(), nodes.as_slice())
        }
    }
}
