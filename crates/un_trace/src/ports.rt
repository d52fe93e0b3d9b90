//! The features of a result, found from the ports of its nodes alone.

ghost use Rattle.std.specs.Prelude.{◌≡◌, ◌==◌, map, length, take_while, IfOk, IfSome};
ghost use Rattle.std.specs.Ordering.{nat_cmp};
ghost use Rattle.std.specs.List.Sorted.{IsSorted};
ghost use Rattle.un_defs.specs.Ground.{Ground};
ghost use Rattle.un_defs.specs.Orders.{rising, node_cmp};
ghost use Rattle.un_defs.specs.Result.{result_nodes};
ghost use Rattle.un_walk.specs.Found.{nodes, IsFoundOver};
ghost use Rattle.un_trace.specs.Ports.{key_feature, key_number, port_of_key, port_of, parts_by};
ghost use Rattle.un_trace.specs.TraceReply.{parts};

use crate::nodes::is_in_result;
use crate::table::parts_told;
use smallvec::SmallVec;
use std::alloc::{AllocError, Global};
use un_ask::{Numbers, Part};
use un_defs::{Barriers, Ground, Port};
use un_walk::Found;

/// How many ports a feature may have. The key of a port is its feature times this, and its number; keys rise as ports do.
const PORTS_PER_FEATURE: u64 = 256;

/// The key of a port, if there is room for it.
fn key_of(port: Port) -> Option<u64>
    ensures { IfSome result (λ key. port_of_key key ≡ port) }
{
    let first = port.feature.checked_mul(PORTS_PER_FEATURE)?;
    Some(first + u64::from(port.number))
}

/// The keys of the ports of the result nodes, in the order in which the nodes were found, if there is room for each.
fn result_keys<G: Ground>(
    alloc: Global,
    over: &G,
    found: &Found,
    barriers: &Barriers,
    with_barriers: bool,
) -> Result<Option<Vec<u64>>, AllocError>
    requires { IsFoundOver (G.stars_and_areas over.now) found.now }
    ensures { IfOk result (λ o. IfSome o (λ keys. map port_of_key keys.items
        ≡ map port_of (result_nodes (G.stars_and_areas over.now) barriers.now with_barriers (nodes found.now)))) }
{
    let mut keys = Vec::with_capacity(alloc, found.len())?;
    for place in 0..found.len() {
        let one = found.seen_at(over, place);
        if is_in_result(&one, barriers, with_barriers) {
            let Some(key) = key_of(one.node.port) else {
                return Ok(None);
            };
            keys.push(key)?;
        }
    }
    Ok(Some(keys))
}

/// How many of the first keys are of the feature.
fn run_len(keys: &[u64], feature: u64) -> usize
    ensures { result ≡ length (take_while (λ k. key_feature k == feature) keys.now) }
{
    keys.iter()
        .take_while(|key| **key / PORTS_PER_FEATURE == feature)
        .count()
}

/// The numbers of the ports of one feature, whose keys rise.
fn numbers_of(alloc: Global, run: &[u64]) -> Result<Numbers, AllocError>
    requires { IsSorted nat_cmp (map key_number run.now) }
    ensures { IfOk result (λ numbers. numbers ≡ rising nat_cmp (map key_number run.now)) }
{
    let mut numbers: SmallVec<u8, 16> = run
        .iter()
        .map(|key| (*key % PORTS_PER_FEATURE) as u8)
        .collect(alloc)?;
    numbers.dedup();
    Ok(Numbers::new(numbers))
}

/// The features of the ports with these keys, which rise, so those of a feature stand together.
fn parts_of(alloc: Global, keys: &[u64]) -> Result<Vec<Part>, AllocError>
    requires { IsSorted nat_cmp keys.now }
    ensures { IfOk result (λ features. features.items ≡ parts_by key_feature key_number keys.now) }
{
    let mut features = Vec::with_capacity(alloc, keys.len())?;
    let mut begin = 0;
    while begin < keys.len() {
        let feature = keys[begin] / PORTS_PER_FEATURE;
        let end = begin + run_len(&keys[begin..], feature);
        let numbers = numbers_of(alloc, &keys[begin..end])?;
        features.push(Part { feature, numbers })?;
        begin = end;
    }
    Ok(features)
}

/// The features of the result, if there is room for a bit or for the key of each port.
pub(crate) fn parts_found<G: Ground>(
    alloc: Global,
    over: &G,
    found: &Found,
    barriers: &Barriers,
    with_barriers: bool,
) -> Result<Option<Vec<Part>>, AllocError>
    requires { IsFoundOver (G.stars_and_areas over.now) found.now }
    ensures { IfOk result (λ o. IfSome o (λ features. features.items
        ≡ parts (result_nodes (G.stars_and_areas over.now) barriers.now with_barriers (rising node_cmp (nodes found.now))))) }
{
    if let Some(features) = parts_told(alloc, over, found, barriers, with_barriers)? {
        return Ok(Some(features));
    }
    let Some(mut keys) = result_keys(alloc, over, found, barriers, with_barriers)? else {
        return Ok(None);
    };
    keys.sort_unstable();
    let features = parts_of(alloc, keys.as_slice())?;
    Ok(Some(features))
}
