//! Whether two stars are one.

ghost use Rattle.std.specs.Prelude.{◌≡◌, ◌==◌};
ghost use Rattle.std.specs.List.{list_all, zip};
ghost use Rattle.std.specs.Option.{option_copied};
ghost use Rattle.std.specs.Cmp.Lexicographic.{pointwise};
ghost use Rattle.un_defs.specs.SameStar.{same_tie, same_value, same_controller, same_controllers, same_head, same_rest, same_spot, same_error, same_star};

use crate::assoc::Controller;
use crate::entry::PackedSpot;
use crate::link::PackedTie;
use crate::star::{Star, TopoError};

fn same_values(one: &[(u8, i64)], other: &[(u8, i64)]) -> bool
    ensures { result ≡ pointwise same_value one.now other.now }
{
    one == other
}

fn same_ids(one: &[u64], other: &[u64]) -> bool
    ensures { result ≡ pointwise ◌==◌ one.now other.now }
{
    one == other
}

fn same_tie(one: &PackedTie, other: &PackedTie) -> bool
    ensures { result ≡ same_tie one.now other.now }
{
    one.tie() == other.tie()
}

/// Whether each pair of links at one place is the same.
fn same_tie_pairs(one: &[PackedTie], other: &[PackedTie]) -> bool
    ensures { result ≡ list_all (λ pair. same_tie pair.0 pair.1) (zip one.now other.now) }
{
    one.iter()
        .zip(other)
        .all(|(tie, other_tie)| same_tie(tie, other_tie))
}

fn same_ties(one: &[PackedTie], other: &[PackedTie]) -> bool
    ensures { result ≡ pointwise same_tie one.now other.now }
{
    one.len() == other.len() && same_tie_pairs(one, other)
}

fn same_errors(one: &[TopoError], other: &[TopoError]) -> bool
    ensures { result ≡ pointwise same_error one.now other.now }
{
    one == other
}

fn same_controller(one: &Controller, other: &Controller) -> bool
    ensures { result ≡ same_controller one.now other.now }
{
    one.port == other.port && one.tier == other.tier && one.subnet.text() == other.subnet.text()
}

fn same_controllers(one: Option<&Controller>, other: Option<&Controller>) -> bool
    ensures { result ≡ same_controllers (option_copied one.entry) (option_copied other.entry) }
{
    match (one, other) {
        (Some(one), Some(other)) => same_controller(one, other),
        (None, None) => true,
        _ => false,
    }
}

/// The entries are of one port, of one kind, with the same categories and attributes.
fn same_head(one: &PackedSpot, other: &PackedSpot) -> bool
    ensures { result ≡ same_head one.now other.now }
{
    one.port() == other.port()
        && one.kind() == other.kind()
        && one.class() == other.class()
        && one.cats().0 == other.cats().0
        && same_values(one.attrs(), other.attrs())
}

/// The entries have the same links and associations.
fn same_rest(one: &PackedSpot, other: &PackedSpot) -> bool
    ensures { result ≡ same_rest one.now other.now }
{
    same_ties(one.ties(), other.ties())
        && same_controllers(one.controller(), other.controller())
        && one.container() == other.container()
        && same_ids(one.contents(), other.contents())
        && same_ids(one.structures(), other.structures())
}

fn same_spot(one: &PackedSpot, other: &PackedSpot) -> bool
    ensures { result ≡ same_spot one.now other.now }
{
    same_head(one, other) && same_rest(one, other)
}

/// Whether each pair of entries at one place is the same.
fn same_pairs(one: &[PackedSpot], other: &[PackedSpot]) -> bool
    ensures { result ≡ list_all (λ pair. same_spot pair.0 pair.1) (zip one.now other.now) }
{
    one.iter()
        .zip(other)
        .all(|(spot, other_spot)| same_spot(spot, other_spot))
}

fn same_spots(one: &[PackedSpot], other: &[PackedSpot]) -> bool
    ensures { result ≡ pointwise same_spot one.now other.now }
{
    one.len() == other.len() && same_pairs(one, other)
}

/// Whether the stars have the same entries and the same errors, in the same order.
pub fn is_same_star(one: &Star, other: &Star) -> bool
    ensures { result ≡ same_star one.now other.now }
{
    same_spots(one.spots.as_slice(), other.spots.as_slice())
        && same_errors(one.errors.as_slice(), other.errors.as_slice())
}
