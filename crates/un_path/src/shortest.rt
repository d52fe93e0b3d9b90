//! The query for the best walk.

ghost use Rattle.std.specs.Prelude.{◌≡◌, ◌≤◌, ◌+◌, ◌<◌, length, None, IfOk, OnOk};
ghost use Rattle.un_defs.specs.declared.port.Node.{Node};
ghost use Rattle.un_path.specs.Answer.{IsReachFrom, OnReachCount, HaveOwnPortsOnCleanGround, IsFoundOver, path_of, IsPathAnswer};
ghost use Rattle.un_path.specs.Hops.{IsAt, AreReached};
ghost use Rattle.un_path.specs.Search.{IsSettledAt, HasArrival, CanTrace, IsPlaceBefore, AreTraced, AreAllSettled, AreLabelsOf, IsFoundAt};
ghost use Rattle.std.specs.List.Sorted.{IsStrictlySortedBy};
ghost use Rattle.un_defs.specs.Orders.{node_cmp};

use crate::answer::PathFound;
use crate::hops::place_of;
use crate::search::{Arrival, best_arrivals};
use std::alloc::{AllocError, Global};
use un_ask::{Label, Labels, PathAsk, Reply};
use un_defs::port::Ports;
use un_defs::{Ground, Mode, Node, Port};
use un_steps::Steps;
use un_walk::{Seen, reach_seen};

fn arrival_at(arrivals: &[Option<Arrival>], place: usize) -> Arrival
    requires { IsSettledAt arrivals.now place }
    ensures { HasArrival arrivals.now place result }
{
    arrivals[place].unwrap()
}

/// The place before this one on its best walk, `None` where that takes no steps.
fn place_before(arrivals: &[Option<Arrival>], place: usize) -> Option<usize>
    requires { IsSettledAt arrivals.now place }
    ensures { IsPlaceBefore arrivals.now place result }
{
    let arrival = arrival_at(arrivals, place);
    if arrival.steps > 0 {
        Some(arrival.from)
    } else {
        None
    }
}

/// The ports of the best walk to a place, from the last to the first.
fn trace_back(
    alloc: Global,
    nodes: &[Node],
    arrivals: &[Option<Arrival>],
    to: usize,
) -> Result<Vec<Port>, AllocError>
    requires inside { to < length nodes.now }
    requires settled { IsSettledAt arrivals.now to }
    requires trace { CanTrace nodes.now arrivals.now }
    ensures { IfOk result (λ ports. (n : Node) → IsAt nodes.now to n
        → AreTraced nodes.now arrivals.now n ports.items) }
{
    let mut ports = Vec::new(alloc);
    ports.push(nodes[to].port)?;
    let mut place = to;
    while let Some(before) = place_before(arrivals, place) {
        ports.push(nodes[before].port)?;
        place = before;
    }
    Ok(ports)
}

/// The labels of all nodes.
fn labels_of(
    alloc: Global,
    nodes: &[Node],
    arrivals: &[Option<Arrival>],
) -> Result<Vec<Label>, AllocError>
    requires settled { AreAllSettled nodes.now arrivals.now }
    ensures { IfOk result (λ labels. AreLabelsOf nodes.now arrivals.now labels.items (length nodes.now)) }
{
    let mut labels = Vec::new(alloc);
    for i in 0..nodes.len() {
        labels.push(Label {
            port: nodes[i].port,
            cost: arrival_at(arrivals, i).cost,
        })?;
    }
    Ok(labels)
}

/// What is found of the best walk to a node.
fn found_to(
    alloc: Global,
    nodes: &[Node],
    arrivals: &[Option<Arrival>],
    to: Node,
    labels: Labels,
) -> Result<PathFound, AllocError>
    requires rising { IsStrictlySortedBy node_cmp nodes.now }
    requires settled { AreAllSettled nodes.now arrivals.now }
    requires trace { CanTrace nodes.now arrivals.now }
    ensures found { IfOk result (IsFoundAt nodes.now arrivals.now to) }
    ensures labels { IfOk result (λ found. found.labels ≡ labels) }
{
    let Some(place) = place_of(nodes, to) else {
        return Ok(PathFound {
            cost: None,
            nodes: Ports::new(Vec::new(alloc)),
            labels,
        });
    };
    let mut ports = trace_back(alloc, nodes, arrivals, place)?;
    ports.reverse();
    Ok(PathFound {
        cost: Some(arrival_at(arrivals, place).cost),
        nodes: Ports::new(ports),
        labels,
    })
}

/// The best walk, where no dirt was met.
fn path_among<G: Ground>(
    alloc: Global,
    over: &G,
    ask: &PathAsk,
    seen: &[Seen],
    nodes: &[Node],
) -> Result<PathFound, AllocError>
    requires reached { AreReached (G.stars_and_areas over.now) ask.now.barriers seen.now nodes.now }
    requires reach { IsReachFrom (G.stars_and_areas over.now) ask.now.barriers ask.now.from nodes.now }
    ensures { IfOk result (IsFoundOver (G.stars_and_areas over.now) ask.now nodes.now) }
{
    let start = place_of(nodes, ask.from).unwrap();
    let arrivals = best_arrivals(alloc, over, &ask.barriers, ask.weight, seen, nodes, start)?;
    let labels = if ask.certificate {
        labels_of(alloc, nodes, &arrivals)?
    } else {
        Vec::new(alloc)
    };
    found_to(alloc, nodes, &arrivals, ask.to, Labels::new(labels))
}

/// The reply that has what is found.
fn path_of(found: PathFound) -> Reply
    ensures { result ≡ path_of found }
{
    Reply::Path {
        cost: found.cost,
        labels: found.labels,
        nodes: found.nodes,
        version: 0,
    }
}

/// The best walk from one node to another over the ground, with the labels of the reached nodes if they are asked for.
///
/// The version in the reply is 0: the caller puts in its own. `steps` counts the stars that are looked up. It answers an error only for
/// want of memory; the count may then have risen.
pub fn path<G: Ground, L>(
    alloc: Global,
    over: &G,
    ask: &PathAsk,
    steps: &mut Steps<L>,
) -> Result<Reply, AllocError>
    requires untiered { ask.now.barriers.tier ≡ None }
    requires own_ports { HaveOwnPortsOnCleanGround (G.stars_and_areas over.now)
        ask.now.barriers ask.now.from }
    // A refusal where the walks met dirt, and else the best walk, or that there is none.
    ensures answer { IfOk result (IsPathAnswer (G.stars_and_areas over.now) ask.now) }

    // No more stars are looked up than nodes are reached.
    ensures ticks { OnReachCount (G.stars_and_areas over.now) ask.now.barriers ask.now.from
        (λ count. OnOk result (steps.new ≤ steps.old + count)) }
    ensures never_falls { steps.old ≤ steps.new }
{
    let reached = reach_seen(alloc, over, &[ask.from], Mode::Any, &ask.barriers, steps)?;
    if let Some(dirt) = reached.dirt {
        return Ok(Reply::on_dirty_ground(dirt));
    }
    let nodes = reached.nodes(alloc)?;
    let found = path_among(alloc, over, ask, reached.seen.as_slice(), nodes.as_slice())?;
    Ok(path_of(found))
}
