//! What the entries of a result's nodes tell: containers, content and structures.

ghost use Rattle.std.specs.Prelude.{◌≡◌, [], fold, flat_map, IfOk, OnOk};
ghost use Rattle.std.specs.Ordering.{nat_cmp};
ghost use Rattle.std.specs.BTreeSet.{insert_key};
ghost use Rattle.std.specs.Option.{option_map_or};
ghost use Rattle.un_defs.specs.Orders.{rising};
ghost use Rattle.un_trace.specs.Seen.{spot_of, spots_of};
ghost use Rattle.un_trace.specs.Included.{ids_of};

use std::alloc::{AllocError, Global};
use std::collections::BTreeSet;
use un_defs::{Ids, PackedSpot};
use un_walk::Seen;

/// What a result tells of the entries of its nodes.
#[derive(Clone, Copy)]
pub(crate) enum Inclusion {
    Containers,
    Content,
    Structures,
}

/// The ids that an entry gives.
fn ids_of(inclusion: Inclusion, spot: &PackedSpot) -> &[u64]
    ensures { result.now ≡ ids_of inclusion spot.now }
{
    match inclusion {
        Inclusion::Containers => spot.containers(),
        Inclusion::Content => spot.contents(),
        Inclusion::Structures => spot.structures(),
    }
}

/// The ids that the entry of a node gives; a node without an entry gives none.
fn ids_seen<'a>(inclusion: Inclusion, one: &Seen<'a>) -> &'a [u64]
    ensures { result.now ≡ option_map_or (ids_of inclusion) (spot_of one.now) [] }
{
    match one.spot {
        Some(spot) => ids_of(inclusion, spot),
        None => &[],
    }
}

fn add_all(set: &mut BTreeSet<u64>, ids: &[u64]) -> Result<(), AllocError>
    ensures { OnOk result (set.new.keys ≡ fold (insert_key nat_cmp) set.old.keys ids.now) }
{
    for id in ids {
        set.insert(*id)?;
    }
    Ok(())
}

/// The ids that the entries give, rising, each once.
pub(crate) fn included(
    alloc: Global,
    seen: &[Seen],
    inclusion: Inclusion,
) -> Result<Ids, AllocError>
    ensures { IfOk result (λ ids. ids ≡ rising nat_cmp (flat_map (ids_of inclusion) (spots_of seen.now))) }
{
    let mut set = BTreeSet::new(alloc);
    for one in seen {
        add_all(&mut set, ids_seen(inclusion, one))?;
    }
    let ids: Vec<u64> = set.into_iter().collect(alloc)?;
    Ok(Ids::new(ids))
}
