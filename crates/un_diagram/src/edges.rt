//! The edges between kept ports and pieces.

ghost use Rattle.std.specs.Prelude.{◌≡◌, ◌<◌, ◌↔◌, ℕ, length, Contains, Some, IfOk, OnOk};
ghost use Rattle.std.specs.List.Sorted.{IsStrictlySortedBy};
ghost use Rattle.un_ask.specs.declared.results.Edge.{Edge};
ghost use Rattle.un_diagram.specs.Diagram.{edge_cmp};
ghost use Rattle.un_diagram.specs.Edges.{port_at, kept_port, piece_name, kept_after, seen_as};
ghost use Rattle.un_diagram.specs.Places.{AreReached, AreRoles};
ghost use Rattle.un_diagram.specs.Colours.{AreColoured, AddsEdges, IsEdgeBelow};

use crate::ends::ends_from;
use crate::roles::Role;
use std::alloc::{AllocError, Global};
use un_ask::{DiagramAsk, Edge};
use un_defs::{Ground, Node, Port};
use un_walk::Seen;

fn port_at(nodes: &[Node], place: usize) -> Option<Port>
    ensures { result ≡ port_at nodes.now place }
{
    match nodes.get(place) {
        Some(node) => Some(node.port),
        None => None,
    }
}

/// The port of the node at a place, if it is kept.
fn kept_port(nodes: &[Node], roles: &[Role], place: usize) -> Option<Port>
    ensures { result ≡ kept_port nodes.now roles.now place }
{
    match roles.get(place) {
        Some(role) => match role {
            Role::Kept => port_at(nodes, place),
            _ => None,
        },
        None => None,
    }
}

/// The name of the piece of a place, which has a colour where its node is collapsed.
fn piece_name(nodes: &[Node], colours: &[Option<usize>], place: usize) -> Option<Port>
    ensures { result ≡ piece_name nodes.now colours.now place }
{
    match colours.get(place) {
        Some(colour) => match colour {
            Some(first) => port_at(nodes, *first),
            None => None,
        },
        None => None,
    }
}

/// The port of the node at a place, if it is kept and comes after another place.
fn kept_after(nodes: &[Node], roles: &[Role], from: usize, to: usize) -> Option<Port>
    ensures { result ≡ kept_after nodes.now roles.now from to }
{
    if from < to {
        kept_port(nodes, roles, to)
    } else {
        None
    }
}

/// What stands for the node at a place, seen from a kept node at another: its port if it is kept and further on, or the name of its piece.
fn seen_as(
    nodes: &[Node],
    roles: &[Role],
    colours: &[Option<usize>],
    from: usize,
    to: usize,
) -> Option<Port>
    ensures { result ≡ seen_as nodes.now roles.now colours.now from to }
{
    match kept_after(nodes, roles, from, to) {
        Some(port) => Some(port),
        None => piece_name(nodes, colours, to),
    }
}

/// Adds the edges from a kept node to the ends of its links. The ground and the query are there for the contract alone.
fn add_edges<G: Ground>(
    _over: &G,
    _ask: &DiagramAsk,
    nodes: &[Node],
    roles: &[Role],
    colours: &[Option<usize>],
    edges: &mut Vec<Edge>,
    from: usize,
    port: Port,
    ends: &[usize],
) -> Result<(), AllocError>
    requires roles { AreRoles (G.stars_and_areas _over.now) _ask.now nodes.now roles.now }
    requires colours { AreColoured (G.stars_and_areas _over.now) _ask.now nodes.now
        colours.now (length nodes.now) }
    requires port { port_at nodes.now from ≡ Some port }
    requires ends { (j : ℕ) → Contains ends.now j → j < length nodes.now }
    ensures { OnOk result (AddsEdges (G.stars_and_areas _over.now) _ask.now nodes.now
        colours.now from ends.now edges.old.items edges.new.items) }
{
    for end in ends {
        if let Some(to) = seen_as(nodes, roles, colours, from, *end) {
            edges.push(Edge { from: port, to })?;
        }
    }
    Ok(())
}

/// Sorts the edges, equal ones once.
fn sorted_edges(mut edges: Vec<Edge>) -> Vec<Edge>
    ensures rise { IsStrictlySortedBy edge_cmp result.items }
    ensures same { (e : Edge) → Contains result.items e ↔ Contains edges.items e }
{
    edges.sort_unstable();
    edges.dedup();
    edges
}

/// The edges of all kept nodes.
pub(crate) fn edges_of<G: Ground>(
    alloc: Global,
    over: &G,
    ask: &DiagramAsk,
    seen: &[Seen],
    nodes: &[Node],
    roles: &[Role],
    colours: &[Option<usize>],
) -> Result<Vec<Edge>, AllocError>
    requires reached { AreReached (G.stars_and_areas over.now) ask.now.barriers seen.now nodes.now }
    requires roles { AreRoles (G.stars_and_areas over.now) ask.now nodes.now roles.now }
    requires colours { AreColoured (G.stars_and_areas over.now) ask.now nodes.now
        colours.now (length nodes.now) }
    ensures rise { IfOk result (λ edges. IsStrictlySortedBy edge_cmp edges.items) }
    ensures exact { IfOk result (λ edges. (e : Edge) → Contains edges.items e
        ↔ IsEdgeBelow (G.stars_and_areas over.now) ask.now nodes.now colours.now (length nodes.now) e) }
{
    let mut edges = Vec::new(alloc);
    for from in 0..nodes.len() {
        if let Some(port) = kept_port(nodes, roles, from) {
            let ends = ends_from(alloc, over, &ask.barriers, seen, nodes, from)?;
            add_edges(
                over,
                ask,
                nodes,
                roles,
                colours,
                &mut edges,
                from,
                port,
                ends.as_slice(),
            )?;
        }
    }
    Ok(sorted_edges(edges))
}
