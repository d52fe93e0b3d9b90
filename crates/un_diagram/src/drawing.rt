//! The query for a diagram.

ghost use Rattle.std.specs.Prelude.{◌≡◌, ◌≤◌, ◌+◌, filter_map, None, IfOk, OnOk};
ghost use Rattle.std.specs.List.{zip};
ghost use Rattle.un_defs.specs.declared.port.Node.{Node};
ghost use Rattle.un_diagram.specs.Answer.{OnReachCount, AreLinkedOnCleanGround, diagram_given_dirt, IsAnswer};
ghost use Rattle.un_diagram.specs.Places.{AreReached, port_if_kept};

use crate::colours::{Colouring, coloured};
use crate::edges::edges_of;
use crate::roles::{Role, roles_of};
use std::alloc::{AllocError, Global};
use un_ask::{DiagramAsk, Edges, Pieces, Reply};
use un_defs::port::Ports;
use un_defs::{Ground, Mode, Node, Port};
use un_steps::Steps;
use un_walk::{Seen, reach_seen};

fn port_if_kept(node: Node, role: Role) -> Option<Port>
    ensures { result ≡ port_if_kept node role }
{
    match role {
        Role::Kept => Some(node.port),
        _ => None,
    }
}

/// The ports of the kept nodes.
fn kept_ports(alloc: Global, nodes: &[Node], roles: &[Role]) -> Result<Vec<Port>, AllocError>
    ensures { IfOk result (λ ports. ports.items
        ≡ filter_map (λ pair. port_if_kept pair.0 pair.1) (zip nodes.now roles.now)) }
{
    nodes
        .iter()
        .zip(roles)
        .filter_map(|(node, role)| port_if_kept(*node, *role))
        .collect(alloc)
}

/// The reply with the diagram, where no dirt was met.
fn drawn<G: Ground>(
    alloc: Global,
    over: &G,
    ask: &DiagramAsk,
    seen: &[Seen],
    nodes: &[Node],
) -> Result<Reply, AllocError>
    requires { AreReached (G.stars_and_areas over.now) ask.now.barriers seen.now nodes.now }
    ensures { IfOk result (λ reply. reply
        ≡ diagram_given_dirt None (G.stars_and_areas over.now) ask.now nodes.now) }
{
    let roles = roles_of(alloc, ask, seen)?;
    let kept = kept_ports(alloc, nodes, roles.as_slice())?;
    let all = coloured(alloc, over, ask, seen, nodes, roles.as_slice())?;
    let edges = edges_of(
        alloc,
        over,
        ask,
        seen,
        nodes,
        roles.as_slice(),
        all.colours.as_slice(),
    )?;
    let Colouring { colours: _, pieces } = all;
    Ok(Reply::Diagram {
        edges: Edges::new(edges),
        kept: Ports::new(kept),
        pieces: Pieces::new(pieces),
        version: 0,
    })
}

/// The collapsed diagram of what walks from the starts reach over the ground.
///
/// The version in the reply is 0: the caller puts in its own. `steps` counts the stars that are looked up. It answers an error only for
/// want of memory; the count may then have risen.
pub fn diagram<G: Ground, L>(
    alloc: Global,
    over: &G,
    ask: &DiagramAsk,
    steps: &mut Steps<L>,
) -> Result<Reply, AllocError>
    requires untiered { ask.now.barriers.tier ≡ None }
    requires linked { AreLinkedOnCleanGround (G.stars_and_areas over.now) ask.now }
    // A refusal where the walks met dirt, and else exactly the kept ports, the pieces and the edges.
    ensures answer { IfOk result (IsAnswer (G.stars_and_areas over.now) ask.now) }

    // No more stars are looked up than nodes are reached.
    ensures ticks { OnReachCount (G.stars_and_areas over.now) ask.now
        (λ count. OnOk result (steps.new ≤ steps.old + count)) }
    ensures never_falls { steps.old ≤ steps.new }
{
    let reached = reach_seen(
        alloc,
        over,
        ask.starts.as_slice(),
        Mode::Any,
        &ask.barriers,
        steps,
    )?;
    if let Some(dirt) = reached.dirt {
        return Ok(Reply::on_dirty_ground(dirt));
    }
    let nodes = reached.nodes(alloc)?;
    drawn(alloc, over, ask, reached.seen.as_slice(), nodes.as_slice())
}
