//! What becomes of the reached nodes: each is kept or collapsed, or walks do not go on from it.

ghost use Rattle.std.specs.Prelude.{◌≡◌, map, IfOk};
ghost use Rattle.std.specs.List.{list_any};
ghost use Rattle.un_defs.specs.Orders.{same_node};
ghost use Rattle.un_diagram.specs.Diagram.{meets};
ghost use Rattle.un_diagram.specs.Places.{is_chosen_by, role_by};

use std::alloc::{AllocError, Global};
use un_ask::DiagramAsk;
use un_conds::{Cond, holds};
use un_defs::{Node, PackedSpot};
use un_walk::Seen;

/// What becomes of a reached node.
#[derive(Clone, Copy)]
pub(crate) enum Role {
    /// It is shown by its port.
    Kept,
    /// It is shown as part of a piece.
    Collapsed,
    /// It is a barrier, and not shown.
    Shut,
}

fn meets(keep: &Cond, spot: &PackedSpot) -> bool
    ensures { result ≡ meets keep.now spot.now }
{
    holds(keep, spot.attrs(), spot.cats().0)
}

/// Whether the node is a start, of which a request has few.
fn is_start(starts: &[Node], node: Node) -> bool
    ensures { result ≡ list_any (same_node node) starts.now }
{
    starts.iter().any(|start| node == *start)
}

fn is_chosen(ask: &DiagramAsk, one: &Seen) -> bool
    ensures { result ≡ is_chosen_by ask.now one.now }
{
    match one.spot {
        Some(spot) if meets(&ask.keep, spot) => true,
        _ => is_start(ask.starts.as_slice(), one.node),
    }
}

fn role_of(ask: &DiagramAsk, one: &Seen) -> Role
    ensures { result ≡ role_by ask.now one.now }
{
    if one.is_barrier(&ask.barriers) {
        Role::Shut
    } else if is_chosen(ask, one) {
        Role::Kept
    } else {
        Role::Collapsed
    }
}

/// The roles of the nodes, in their order.
pub(crate) fn roles_of(
    alloc: Global,
    ask: &DiagramAsk,
    seen: &[Seen],
) -> Result<Vec<Role>, AllocError>
    ensures { IfOk result (λ roles. roles.items ≡ map (role_by ask.now) seen.now) }
{
    seen.iter().map(|one| role_of(ask, one)).collect(alloc)
}
