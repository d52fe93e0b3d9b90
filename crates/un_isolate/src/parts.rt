//! The features of some nodes with the numbers of their ports.

ghost use Rattle.std.specs.Prelude.{◌≡◌, ◌==◌, map, length, take_while, IfOk};
ghost use Rattle.std.specs.Ordering.{nat_cmp};
ghost use Rattle.std.specs.List.Sorted.{IsSorted, IsStrictlySortedBy};
ghost use Rattle.un_defs.specs.Orders.{rising, node_cmp};
ghost use Rattle.un_isolate.specs.Parts.{parts};

use smallvec::SmallVec;
use std::alloc::{AllocError, Global};
use un_ask::{Numbers, Part};
use un_defs::Node;

/// How many of the first nodes are of the feature.
fn run_len(nodes: &[Node], feature: u64) -> usize
    ensures { result ≡ length (take_while (λ n. n.port.feature == feature) nodes.now) }
{
    nodes
        .iter()
        .take_while(|node| node.port.feature == feature)
        .count()
}

/// The numbers of the ports of one feature, whose nodes rise.
fn numbers_of(alloc: Global, run: &[Node]) -> Result<Numbers, AllocError>
    requires { IsSorted nat_cmp (map (λ n. n.port.number) run.now) }
    ensures { IfOk result (λ numbers. numbers ≡ rising nat_cmp (map (λ n. n.port.number) run.now)) }
{
    let mut numbers: SmallVec<u8, 16> = run.iter().map(|node| node.port.number).collect(alloc)?;
    numbers.dedup();
    Ok(Numbers::new(numbers))
}

/// The features of the nodes, which rise by their ports, so those of a feature stand together.
pub(crate) fn parts_of(alloc: Global, nodes: &[Node]) -> Result<Vec<Part>, AllocError>
    requires { IsStrictlySortedBy node_cmp nodes.now }
    ensures { IfOk result (λ found. found.items ≡ parts nodes.now) }
{
    let mut found = Vec::new(alloc);
    let mut begin = 0;
    while begin < nodes.len() {
        let feature = nodes[begin].port.feature;
        let end = begin + run_len(&nodes[begin..], feature);
        let numbers = numbers_of(alloc, &nodes[begin..end])?;
        found.push(Part { feature, numbers })?;
        begin = end;
    }
    Ok(found)
}
