//! The links between places, which walks go by. A place is the number of a reached node, in their order.

ghost use Rattle.std.specs.Prelude.{◌≡◌, ◌<◌, ◌↔◌, ℕ, length, Contains, Some, IfOk, OnOk};
ghost use Rattle.std.specs.List.Sorted.{IsStrictlySortedBy};
ghost use Rattle.un_defs.specs.Orders.{node_cmp};
ghost use Rattle.un_defs.specs.Reach.{is_path};
ghost use Rattle.un_isolate.specs.Entries.{nodes_of, is_shut_by, IsPlaceOf, IsEndOf, IsNextOf};
ghost use Rattle.un_isolate.specs.Links.{HasLink, LeadInside, AreLinksOf, AddsLink, AddsLinksTo, AreTurned};

use crate::entries::controls;
use smallvec::SmallVec;
use std::alloc::{AllocError, Global};
use un_defs::{Barriers, LinkName, Node, PackedTie};
use un_walk::Seen;

/// The places to which a place has links. Up to four lie in the value itself.
pub(crate) type Ends = SmallVec<usize, 4>;

fn is_path(name: LinkName) -> bool
    ensures { result ≡ is_path name }
{
    matches!(name, LinkName::Path { .. })
}

/// A walk with a tier does not go by the path between these nodes.
fn is_shut(tier: Option<u8>, name: LinkName, one: &Seen, other: &Seen) -> bool
    ensures { result ≡ is_shut_by tier name one.now other.now }
{
    match tier {
        Some(tier) if is_path(name) => controls(tier, one) || controls(tier, other),
        _ => false,
    }
}

/// The place of a node among the reached ones.
fn place_of(nodes: &[Seen], node: Node) -> Option<usize>
    requires { IsStrictlySortedBy node_cmp (nodes_of nodes.now) }
    ensures { (p : ℕ) → (result ≡ Some p) ↔ IsPlaceOf nodes.now node p }
{
    nodes.binary_search_by_key(&node, |one| one.node).ok()
}

/// The place to which a walk goes from the node by the link, if it does.
fn end_of(nodes: &[Seen], tier: Option<u8>, one: &Seen, tie: &PackedTie) -> Option<usize>
    requires { IsStrictlySortedBy node_cmp (nodes_of nodes.now) }
    ensures { (p : ℕ) → (result ≡ Some p) ↔ IsEndOf tier nodes.now one.now tie.now p }
{
    let end = place_of(nodes, tie.to())?;
    if is_shut(tier, tie.name(), one, &nodes[end]) {
        None
    } else {
        Some(end)
    }
}

/// The places to which a walk goes from the node.
fn ends_of(
    alloc: Global,
    nodes: &[Seen],
    barriers: &Barriers,
    one: &Seen,
) -> Result<Ends, AllocError>
    requires { IsStrictlySortedBy node_cmp (nodes_of nodes.now) }
    ensures { IfOk result (λ ends. (p : ℕ)
        → Contains ends.items p ↔ IsNextOf barriers.now nodes.now one.now p) }
{
    let mut ends = SmallVec::new(alloc);
    if one.is_barrier(barriers) {
        return Ok(ends);
    }
    let Some(spot) = one.spot else {
        return Ok(ends);
    };
    for tie in spot.ties() {
        if let Some(end) = end_of(nodes, barriers.tier, one, tie) {
            ends.push(end)?;
        }
    }
    Ok(ends)
}

/// The links by which walks go on.
pub(crate) fn links_onward(
    alloc: Global,
    nodes: &[Seen],
    barriers: &Barriers,
) -> Result<Vec<Ends>, AllocError>
    requires { IsStrictlySortedBy node_cmp (nodes_of nodes.now) }
    ensures { IfOk result (λ links. AreLinksOf barriers.now nodes.now links.items (length nodes.now)) }
{
    let mut links = Vec::with_capacity(alloc, nodes.len())?;
    for one in nodes {
        links.push(ends_of(alloc, nodes, barriers, one)?)?;
    }
    Ok(links)
}

fn no_links(alloc: Global, count: usize) -> Result<Vec<Ends>, AllocError>
    ensures count { IfOk result (λ links. length links.items ≡ count) }
    ensures empty { IfOk result (λ links. (i j : ℕ) → HasLink links.items i j → ⊥) }
{
    let mut links = Vec::with_capacity(alloc, count)?;
    for _place in 0..count {
        links.push(SmallVec::new(alloc))?;
    }
    Ok(links)
}

fn add_link(links: &mut [Ends], from: usize, to: usize) -> Result<(), AllocError>
    requires { from < length links.old }
    ensures { OnOk result (AddsLink links.old links.new from to) }
{
    links[from].push(to)?;
    Ok(())
}

/// Adds a link from each of the places to the one.
fn add_links_to(links: &mut [Ends], from: &[usize], to: usize) -> Result<(), AllocError>
    requires { (i : ℕ) → Contains from.now i → i < length links.old }
    ensures { OnOk result (AddsLinksTo links.old links.new from.now to) }
{
    for place in from {
        add_link(links, *place, to)?;
    }
    Ok(())
}

/// The links turned round.
pub(crate) fn links_back(alloc: Global, links: &[Ends]) -> Result<Vec<Ends>, AllocError>
    requires { LeadInside links.now }
    ensures { IfOk result (λ back. AreTurned links.now back.items (length links.now)) }
{
    let mut back = no_links(alloc, links.len())?;
    for place in 0..links.len() {
        add_links_to(&mut back, links[place].as_slice(), place)?;
    }
    Ok(back)
}
