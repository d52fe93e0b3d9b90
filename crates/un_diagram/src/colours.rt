//! The pieces, found by a worklist that colours their places.

ghost use Rattle.std.specs.Prelude.{◌≡◌, ◌<◌, ℕ, length, Contains, IfOk, OnOk};
ghost use Rattle.std.specs.Bool.{MatchBool};
ghost use Rattle.std.specs.List.{filter_map};
ghost use Rattle.un_defs.specs.declared.port.Node.{Node};
ghost use Rattle.un_diagram.specs.Diagram.{features_of};
ghost use Rattle.un_diagram.specs.Places.{IsAt, AreReached, AreRoles};
ghost use Rattle.un_diagram.specs.Colours.{HasColour, IsBlank, Colours, nodes_at, feature_at, AreClosed, IsSpread, AreColoured, ArePieces};

use crate::ends::ends_from;
use crate::roles::Role;
use std::alloc::{AllocError, Global};
use un_ask::{DiagramAsk, Piece};
use un_defs::{Ground, Node};
use un_walk::Seen;

/// The colours of the places, `None` where a node is not collapsed, and the pieces.
#[derive(Drop)]
pub(crate) struct Colouring {
    pub(crate) colours: Vec<Option<usize>>,
    pub(crate) pieces: Vec<Piece>,
}

/// Whether the place is that of a collapsed node and has no colour.
fn is_blank(roles: &[Role], colours: &[Option<usize>], place: usize) -> bool
    requires role { place < length roles.now }
    requires colour { place < length colours.now }
    ensures { MatchBool result (IsBlank roles.now colours.now place)
        (IsBlank roles.now colours.now place → ⊥) }
{
    match roles[place] {
        Role::Collapsed => colours[place].is_none(),
        _ => false,
    }
}

/// Colours those of some places that are blank, and adds them to the list.
fn colour_ends(
    roles: &[Role],
    colours: &mut [Option<usize>],
    members: &mut Vec<usize>,
    ends: &[usize],
    colour: usize,
) -> Result<(), AllocError>
    requires count { length colours.old ≡ length roles.now }
    requires inside { (j : ℕ) → Contains ends.now j → j < length roles.now }
    ensures { OnOk result (Colours roles.now ends.now colour
        colours.old colours.new members.old.items members.new.items) }
{
    for end in ends {
        if is_blank(roles, colours, *end) {
            colours[*end] = Some(colour);
            members.push(*end)?;
        }
    }
    Ok(())
}

/// Colours the piece of the node at a place, and answers the places of its nodes.
fn colour_piece<G: Ground>(
    alloc: Global,
    over: &G,
    ask: &DiagramAsk,
    seen: &[Seen],
    nodes: &[Node],
    roles: &[Role],
    colours: &mut [Option<usize>],
    first: usize,
) -> Result<Vec<usize>, AllocError>
    requires reached { AreReached (G.stars_and_areas over.now) ask.now.barriers seen.now nodes.now }
    requires roles { AreRoles (G.stars_and_areas over.now) ask.now nodes.now roles.now }
    requires count { length colours.old ≡ length nodes.now }
    requires closed { AreClosed (G.stars_and_areas over.now) ask.now nodes.now colours.old }
    requires blank { IsBlank roles.now colours.old first }
    ensures { IfOk result (λ members. IsSpread (G.stars_and_areas over.now) ask.now nodes.now
        first colours.old colours.new members.items (length members.items)) }
{
    let mut members = Vec::new(alloc);
    colour_ends(roles, colours, &mut members, &[first], first)?;
    let mut next = 0;
    while next < members.len() {
        let place = members[next];
        let ends = ends_from(alloc, over, &ask.barriers, seen, nodes, place)?;
        colour_ends(roles, colours, &mut members, ends.as_slice(), first)?;
        next += 1;
    }
    Ok(members)
}

fn feature_at(nodes: &[Node], place: usize) -> Option<u64>
    ensures { result ≡ feature_at nodes.now place }
{
    match nodes.get(place) {
        Some(node) => Some(node.port.feature),
        None => None,
    }
}

/// The features of the nodes at the places.
fn features_at(alloc: Global, nodes: &[Node], places: &[usize]) -> Result<Vec<u64>, AllocError>
    ensures { IfOk result (λ features. features.items
        ≡ filter_map (feature_at nodes.now) places.now) }
{
    places
        .iter()
        .filter_map(|place| feature_at(nodes, *place))
        .collect(alloc)
}

/// How many features the nodes at the places are of.
fn feature_count(alloc: Global, nodes: &[Node], places: &[usize]) -> Result<usize, AllocError>
    ensures { IfOk result (λ count. count ≡ length (features_of (nodes_at nodes.now places.now))) }
{
    let mut features = features_at(alloc, nodes, places)?;
    features.sort_unstable();
    features.dedup();
    Ok(features.len())
}

/// The piece with the nodes at these places, of which the first is given.
fn piece_of(
    alloc: Global,
    nodes: &[Node],
    first: usize,
    members: &[usize],
) -> Result<Piece, AllocError>
    requires { first < length nodes.now }
    ensures name { IfOk result (λ piece. (n : Node) → IsAt nodes.now first n → piece.name ≡ n.port) }
    ensures nodes { IfOk result (λ piece. piece.nodes ≡ length members.now) }
    ensures features { IfOk result (λ piece. piece.features
        ≡ length (features_of (nodes_at nodes.now members.now))) }
{
    Ok(Piece {
        name: nodes[first].port,
        nodes: members.len(),
        features: feature_count(alloc, nodes, members)?,
    })
}

/// No colour for each of so many places.
fn no_colours(alloc: Global, count: usize) -> Result<Vec<Option<usize>>, AllocError>
    ensures count { IfOk result (λ colours. length colours.items ≡ count) }
    ensures none { IfOk result (λ colours. (i f : ℕ) → HasColour colours.items i f → ⊥) }
{
    let mut colours = Vec::with_capacity(alloc, count)?;
    for _place in 0..count {
        colours.push(None)?;
    }
    Ok(colours)
}

/// Colours all pieces, each from its least place, and answers them.
fn colour_all<G: Ground>(
    alloc: Global,
    over: &G,
    ask: &DiagramAsk,
    seen: &[Seen],
    nodes: &[Node],
    roles: &[Role],
    colours: &mut [Option<usize>],
) -> Result<Vec<Piece>, AllocError>
    requires reached { AreReached (G.stars_and_areas over.now) ask.now.barriers seen.now nodes.now }
    requires roles { AreRoles (G.stars_and_areas over.now) ask.now nodes.now roles.now }
    requires count { length colours.old ≡ length nodes.now }
    requires none { (i f : ℕ) → HasColour colours.old i f → ⊥ }
    ensures colours { OnOk result (AreColoured (G.stars_and_areas over.now) ask.now nodes.now
        colours.new (length nodes.now)) }
    ensures pieces { IfOk result (λ pieces. ArePieces (G.stars_and_areas over.now) ask.now nodes.now
        colours.new (length nodes.now) pieces.items) }
{
    let mut pieces = Vec::new(alloc);
    for first in 0..nodes.len() {
        if is_blank(roles, colours, first) {
            let members = colour_piece(alloc, over, ask, seen, nodes, roles, colours, first)?;
            pieces.push(piece_of(alloc, nodes, first, members.as_slice())?)?;
        }
    }
    Ok(pieces)
}

/// The colours of all places, and the pieces.
pub(crate) fn coloured<G: Ground>(
    alloc: Global,
    over: &G,
    ask: &DiagramAsk,
    seen: &[Seen],
    nodes: &[Node],
    roles: &[Role],
) -> Result<Colouring, AllocError>
    requires reached { AreReached (G.stars_and_areas over.now) ask.now.barriers seen.now nodes.now }
    requires roles { AreRoles (G.stars_and_areas over.now) ask.now nodes.now roles.now }
    ensures colours { IfOk result (λ all. AreColoured (G.stars_and_areas over.now) ask.now nodes.now
        all.colours.items (length nodes.now)) }
    ensures pieces { IfOk result (λ all. ArePieces (G.stars_and_areas over.now) ask.now nodes.now
        all.colours.items (length nodes.now) all.pieces.items) }
{
    let mut colours = no_colours(alloc, nodes.len())?;
    let pieces = colour_all(alloc, over, ask, seen, nodes, roles, &mut colours)?;
    Ok(Colouring { colours, pieces })
}
