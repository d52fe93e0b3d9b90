//! The features of a result.

ghost use Rattle.std.specs.Prelude.{◌≡◌, ◌==◌, [], ◌∷◌, ◌++◌, map, filter_map, length, slice_get, take_while, IfOk, OnOk};
ghost use Rattle.std.specs.Ordering.{nat_cmp};
ghost use Rattle.std.specs.List.{cons_option};
ghost use Rattle.std.specs.Option.{option_copied};
ghost use Rattle.std.specs.List.Sorted.{IsSorted, IsStrictlySortedBy};
ghost use Rattle.std.specs.Map.Iter.{deref};
ghost use Rattle.un_defs.specs.Orders.{rising, node_cmp};
ghost use Rattle.un_defs.specs.Result.{feature_ids};
ghost use Rattle.un_trace.specs.Seen.{nodes_of, spots_of, first_spot};
ghost use Rattle.un_trace.specs.TraceReply.{parts};

use smallvec::SmallVec;
use std::alloc::{AllocError, Global};
use un_ask::{Numbers, Part};
use un_defs::PackedSpot;
use un_walk::Seen;

/// The features of a result, rising, and the first entry of each feature that has one.
#[derive(Drop)]
pub(crate) struct Features<'a> {
    pub(crate) parts: Vec<Part>,
    pub(crate) firsts: Vec<&'a PackedSpot>,
}

impl<'a> Features<'a> {
    /// Adds a feature with its nodes, which rise.
    fn add(&mut self, alloc: Global, feature: u64, run: &[Seen<'a>]) -> Result<(), AllocError>
        requires { IsSorted nat_cmp (map (λ s. s.node.port.number) run.now) }
        ensures parts { OnOk result (self.new.parts.items ≡ self.old.parts.items
            ++ record { feature = feature; numbers = rising nat_cmp (map (λ s. s.node.port.number) run.now) } ∷ []) }
        ensures firsts { OnOk result (map deref self.new.firsts.items ≡ map deref self.old.firsts.items
            ++ cons_option (slice_get (spots_of run.now) 0) []) }
    {
        let numbers = numbers_of(alloc, run)?;
        self.parts.push(Part { feature, numbers })?;
        if let Some(spot) = first_entry(run) {
            self.firsts.push(spot)?;
        }
        Ok(())
    }
}

/// How many of the first nodes are of the feature.
fn run_len(seen: &[Seen], feature: u64) -> usize
    ensures { result ≡ length (take_while (λ s. s.node.port.feature == feature) seen.now) }
{
    seen.iter()
        .take_while(|one| one.node.port.feature == feature)
        .count()
}

/// The numbers of the ports of one feature, whose nodes rise.
fn numbers_of(alloc: Global, run: &[Seen]) -> Result<Numbers, AllocError>
    requires { IsSorted nat_cmp (map (λ s. s.node.port.number) run.now) }
    ensures { IfOk result (λ numbers. numbers ≡ rising nat_cmp (map (λ s. s.node.port.number) run.now)) }
{
    let mut numbers: SmallVec<u8, 16> = run.iter().map(|one| one.node.port.number).collect(alloc)?;
    numbers.dedup();
    Ok(Numbers::new(numbers))
}

/// The first entry of some nodes.
fn first_entry<'a>(run: &[Seen<'a>]) -> Option<&'a PackedSpot>
    ensures { option_copied result ≡ slice_get (spots_of run.now) 0 }
{
    for one in run {
        if one.spot.is_some() {
            return one.spot;
        }
    }
    None
}

/// The features of the nodes, which rise by their ports, so those of a feature stand together.
pub(crate) fn features_of<'a>(alloc: Global, seen: &[Seen<'a>]) -> Result<Features<'a>, AllocError>
    requires { IsStrictlySortedBy node_cmp (nodes_of seen.now) }
    ensures parts { IfOk result (λ found. found.parts.items ≡ parts (nodes_of seen.now)) }
    ensures firsts { IfOk result (λ found. map deref found.firsts.items
        ≡ filter_map (first_spot seen.now) (feature_ids (nodes_of seen.now))) }
{
    let mut features = Features {
        parts: Vec::with_capacity(alloc, seen.len())?,
        firsts: Vec::with_capacity(alloc, seen.len())?,
    };
    let mut begin = 0;
    while begin < seen.len() {
        let feature = seen[begin].node.port.feature;
        let end = begin + run_len(&seen[begin..], feature);
        features.add(alloc, feature, &seen[begin..end])?;
        begin = end;
    }
    Ok(features)
}
