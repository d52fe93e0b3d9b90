//! Marks on nodes, one for each place.

ghost use Rattle.std.specs.Prelude.{◌≡◌, map, IfOk};
ghost use Rattle.un_isolate.specs.IsolationList.{has_node, ports_of};
ghost use Rattle.un_isolate.specs.Marks.{both_marks, node_if, marked_nodes};

use std::alloc::{AllocError, Global};
use un_defs::{Node, Port};

fn has_node(nodes: &[Node], node: Node) -> bool
    ensures { result ≡ has_node nodes.now node }
{
    nodes.iter().any(|one| node == *one)
}

/// Marks the nodes that are starts, of which a request has few.
pub(crate) fn start_marks(
    alloc: Global,
    nodes: &[Node],
    starts: &[Node],
) -> Result<Vec<bool>, AllocError>
    ensures { IfOk result (λ marks. marks.items ≡ map (has_node starts.now) nodes.now) }
{
    nodes
        .iter()
        .map(|node| has_node(starts, *node))
        .collect(alloc)
}

/// Marks what both mark.
pub(crate) fn both_marks(alloc: Global, a: &[bool], b: &[bool]) -> Result<Vec<bool>, AllocError>
    ensures { IfOk result (λ marks. marks.items ≡ both_marks a.now b.now) }
{
    a.iter().zip(b).map(|(a, b)| *a && *b).collect(alloc)
}

fn node_if(node: Node, mark: bool) -> Option<Node>
    ensures { result ≡ node_if node mark }
{
    if mark { Some(node) } else { None }
}

/// The nodes that are marked.
pub(crate) fn marked_nodes(
    alloc: Global,
    nodes: &[Node],
    marks: &[bool],
) -> Result<Vec<Node>, AllocError>
    ensures { IfOk result (λ found. found.items ≡ marked_nodes nodes.now marks.now) }
{
    nodes
        .iter()
        .zip(marks)
        .filter_map(|(node, mark)| node_if(*node, *mark))
        .collect(alloc)
}

/// The ports of the nodes.
pub(crate) fn ports_of(alloc: Global, nodes: &[Node]) -> Result<Vec<Port>, AllocError>
    ensures { IfOk result (λ ports. ports.items ≡ ports_of nodes.now) }
{
    nodes.iter().map(|node| node.port).collect(alloc)
}
