//! Short lists of ports, rising.
ghost use Rattle.std.specs.Prelude.{◌≡◌, ◌≢◌, ◌≤◌, true, false, not, filter, IfOk, Some, slice_get, length, position};
ghost use Rattle.std.specs.Ordering.{is_gt};
ghost use Rattle.std.specs.List.{position_or_len};
ghost use Rattle.std.specs.BTreeSet.{insert_key};
ghost use Rattle.un_defs.specs.Orders.{port_cmp, same_port};

use std::alloc::{AllocError, Global};
use un_defs::Port;

fn first_not_below(ports: &[Port], port: Port) -> Option<usize>
    ensures { result ≡ position (λ q. not (is_gt (port_cmp port q))) ports.now }
{
    ports.iter().position(|other| port <= *other)
}

// The place of the first port that is not below this one, or the length.
#[tactic(auto, using(crate::proofs::Places::at_place, crate::proofs::Places::at_end))]
fn place_of(ports: &[Port], port: Port) -> usize
    ensures place { result ≡ position_or_len (λ q. not (is_gt (port_cmp port q))) ports.now }
    ensures within { result ≤ length ports.now }
{
    match first_not_below(ports, port) {
        Some(place) => place,
        None => ports.len(),
    }
}

fn copy_of(alloc: Global, ports: &[Port]) -> Result<Vec<Port>, AllocError>
    ensures { IfOk result (λ all. all.items ≡ ports.now) }
{
    ports.to_vec(alloc)
}

// Whether the port stands at this place.
fn stands_at(ports: &[Port], place: usize, port: Port) -> bool
    ensures yes { result ≡ true → slice_get ports.now place ≡ Some port }
    ensures no { result ≡ false → slice_get ports.now place ≢ Some port }
{
    match ports.get(place) {
        Some(other) => *other == port,
        None => false,
    }
}

// The list with one port more, which it has not, at this place.
#[tactic(auto, using(crate::proofs::Places::placed))]
fn with_new(
    alloc: Global,
    ports: &[Port],
    place: usize,
    port: Port,
) -> Result<Vec<Port>, AllocError>
    requires place { place ≡ position_or_len (λ q. not (is_gt (port_cmp port q))) ports.now }
    requires within { place ≤ length ports.now }
    requires new { slice_get ports.now place ≢ Some port }
    ensures { IfOk result (λ all. all.items ≡ insert_key port_cmp ports.now port) }
{
    let mut all = copy_of(alloc, ports)?;
    all.insert(place, port)?;
    Ok(all)
}

/// The list with one port more, at its place in the order.
#[tactic(auto, using(crate::proofs::Places::there))]
pub fn with_port(alloc: Global, ports: &[Port], port: Port) -> Result<Vec<Port>, AllocError>
    ensures { IfOk result (λ all. all.items ≡ insert_key port_cmp ports.now port) }
{
    let place = place_of(ports, port);
    if stands_at(ports, place, port) {
        return copy_of(alloc, ports);
    }
    with_new(alloc, ports, place, port)
}

/// The list without a port: an equal list, where the port is not in it.
pub fn without_port(alloc: Global, ports: &[Port], port: Port) -> Result<Vec<Port>, AllocError>
    ensures { IfOk result (λ rest. rest.items ≡ filter (λ q. not (same_port q port)) ports.now) }
{
    ports
        .iter()
        .copied()
        .filter(|other| *other != port)
        .collect(alloc)
}
