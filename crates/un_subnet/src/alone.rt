//! The controllers that the least one does not reach alone.

ghost use Rattle.std.specs.Prelude.{◌≡◌, ◌≤◌, ◌+◌, List, IfOk, OnOk};
ghost use Rattle.std.specs.List.Sorted.{IsStrictlySortedBy};
ghost use Rattle.un_defs.specs.declared.port.Node.{Node};
ghost use Rattle.un_defs.specs.Orders.{node_cmp, port_cmp, least};
ghost use Rattle.un_walk.specs.Growth.{has_node};
ghost use Rattle.un_subnet.specs.Alone.{ports_outside, reached_alone};
ghost use Rattle.un_subnet.specs.Refusals.{disjoint_refusal};
ghost use Rattle.un_subnet.specs.Answer.{IsReachOf, OnReachCount};

use std::alloc::{AllocError, Global};
use un_ask::TypedAsk;
use un_defs::order::rising;
use un_defs::{Ground, Mode, Node, Port, Refusal};
use un_steps::Steps;
use un_walk::reach;

fn least_node(alloc: Global, nodes: &[Node]) -> Result<Option<Node>, AllocError>
    ensures { IfOk result (λ first. first ≡ least node_cmp nodes.now) }
{
    Ok(rising(alloc, nodes)?.first().copied())
}

fn least_port(alloc: Global, ports: &[Port]) -> Result<Option<Port>, AllocError>
    ensures { IfOk result (λ first. first ≡ least port_cmp ports.now) }
{
    Ok(rising(alloc, ports)?.first().copied())
}

/// Whether the node is one of some nodes in order.
fn has_node(nodes: &[Node], node: Node) -> bool
    requires { IsStrictlySortedBy node_cmp nodes.now }
    ensures { result ≡ has_node nodes.now node }
{
    nodes.binary_search(&node).is_ok()
}

/// The ports of the starts that are not among some nodes in order.
fn ports_outside(alloc: Global, nodes: &[Node], starts: &[Node]) -> Result<Vec<Port>, AllocError>
    requires { IsStrictlySortedBy node_cmp nodes.now }
    ensures { IfOk result (λ ports. ports.items ≡ ports_outside nodes.now starts.now) }
{
    starts
        .iter()
        .filter(|start| !has_node(nodes, **start))
        .map(|start| start.port)
        .collect(alloc)
}

/// The ports of the starts that the least start does not reach.
fn ports_apart<G: Ground, L>(
    alloc: Global,
    over: &G,
    ask: &TypedAsk,
    steps: &mut Steps<L>,
) -> Result<Vec<Port>, AllocError>
    ensures ports { (reached : List Node) → IsReachOf (G.stars_and_areas over.now) ask.now reached
        → IfOk result (λ ports. ports.items ≡ ports_outside
        (reached_alone (G.stars_and_areas over.now) ask.now.barriers ask.now.starts reached) ask.now.starts) }
    ensures ticks { OnReachCount (G.stars_and_areas over.now) ask.now
        (λ count. OnOk result (steps.new ≤ steps.old + count)) }
    ensures never_falls { steps.old ≤ steps.new }
{
    let starts = ask.starts.as_slice();
    let Some(first) = least_node(alloc, starts)? else {
        return Ok(Vec::new(alloc));
    };
    let alone = reach(alloc, over, &[first], Mode::Any, &ask.barriers, steps)?;
    ports_outside(alloc, alone.nodes.as_slice(), starts)
}

/// The refusal for the least controller that the least one does not reach, unless the tier allows it. It looks up at most one star for
/// each node that all controllers reach, and none where there is only one controller.
pub(crate) fn disjoint_refusal<G: Ground, L>(
    alloc: Global,
    over: &G,
    ask: &TypedAsk,
    steps: &mut Steps<L>,
) -> Result<Option<Refusal>, AllocError>
    ensures refusal { (reached : List Node) → IsReachOf (G.stars_and_areas over.now) ask.now reached
        → IfOk result (λ refusal. refusal ≡ disjoint_refusal
        (G.stars_and_areas over.now) ask.now.barriers ask.now.disjoint ask.now.starts reached) }
    ensures ticks { OnReachCount (G.stars_and_areas over.now) ask.now
        (λ count. OnOk result (steps.new ≤ steps.old + count)) }
    ensures never_falls { steps.old ≤ steps.new }
{
    if ask.disjoint || ask.starts.as_slice().len() < 2 {
        return Ok(None);
    }
    let ports = ports_apart(alloc, over, ask, steps)?;
    let least = least_port(alloc, &ports)?;
    Ok(least.map(|port| Refusal::Disjoint {
        feature: port.feature,
        port: port.number,
    }))
}
