//! Links and errors in their orders.

ghost use Rattle.std.specs.Prelude.{◌≡◌, IfOk, map, true};
ghost use Rattle.un_defs.specs.Orders.{rising, tie_cmp, error_cmp};
ghost use Rattle.un_star.specs.Named.{named};

use std::alloc::{AllocError, Global};
use un_defs::link::TieList;
use un_defs::order::rising;
use un_defs::{LinkName, PackedTie, TopoError};

/// A link as one of its two ends has it, which compares by the link's name.
#[derive(Clone, Copy)]
#[derive_where(PartialEq, Eq, PartialOrd, Ord)]
struct ByName {
    name: LinkName,
    #[derive_where(skip(EqHashOrd))]
    tie: PackedTie,
}

fn by_name(tie: &PackedTie) -> ByName
    ensures { result ≡ named tie.now }
{
    ByName {
        name: tie.name(),
        tie: *tie,
    }
}

fn with_names(alloc: Global, ties: &[PackedTie]) -> Result<Vec<ByName>, AllocError>
    ensures { IfOk result (λ all. all.items ≡ map named ties.now) }
{
    ties.iter().map(|tie| by_name(tie)).collect(alloc)
}

fn without_names(alloc: Global, all: &[ByName]) -> Result<Vec<PackedTie>, AllocError>
    ensures { IfOk result (λ ties. ties.items ≡ map (λ b. b.tie) all.now) }
{
    all.iter().map(|named| named.tie).collect(alloc)
}

/// Whether the name of each link is less than that of the next one.
#[tactic(auto, using(crate::proofs::OrdersAlike::names_alike))]
fn are_rising(ties: &[PackedTie]) -> bool
    ensures { result ≡ true → rising tie_cmp ties.now ≡ ties.now }
{
    let count = ties.len();
    for done in 1..count {
        if ties[count - done - 1]
            .name()
            .cmp(&ties[count - done].name())
            .is_ge()
        {
            return false;
        }
    }
    true
}

/// The links in the order of their names. Links that rise already stay as they are.
pub(crate) fn rising_ties(alloc: Global, ties: TieList) -> Result<TieList, AllocError>
    ensures { IfOk result (λ in_order. in_order.items ≡ rising tie_cmp ties.items) }
{
    if are_rising(ties.as_slice()) {
        return Ok(ties);
    }
    let all = with_names(alloc, ties.as_slice())?;
    let all = rising(alloc, all.as_slice())?;
    let sorted = without_names(alloc, all.as_slice())?;
    Ok(TieList::from_vec(sorted))
}

/// The errors in their order.
pub(crate) fn rising_errors(
    alloc: Global,
    errors: &[TopoError],
) -> Result<Vec<TopoError>, AllocError>
    ensures { IfOk result (λ in_order. in_order.items ≡ rising error_cmp errors.now) }
{
    let errors = rising(alloc, errors)?;
    Ok(errors)
}
