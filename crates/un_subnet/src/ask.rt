//! The walk of an update, by the features.

ghost use Rattle.std.specs.Prelude.{◌≡◌, filter_map, IfOk};
ghost use Rattle.un_defs.specs.Links.{node_at};
ghost use Rattle.un_subnet.specs.Outcome.{tier_barriers, update_ask};

use std::alloc::{AllocError, Global};
use un_ask::{Funcs, Include, TraceKind, TypedAsk};
use un_conds::Cond;
use un_defs::port::{Nodes, Ports};
use un_defs::{Barriers, Directory, Node, Port};
use un_schema::Name;

/// The node of a port of a live feature.
fn node_at<D: Directory>(features: &D, port: Port) -> Option<Node>
    ensures { result ≡ node_at (D.features features.now) port }
{
    features.row(port.feature)?.node(port.number)
}

/// The nodes of the ports.
fn nodes_at<D: Directory>(
    alloc: Global,
    features: &D,
    ports: &[Port],
) -> Result<Vec<Node>, AllocError>
    ensures { IfOk result (λ nodes. nodes.items ≡ filter_map (node_at (D.features features.now)) ports.now) }
{
    let mut nodes = Vec::new(alloc);
    for port in ports {
        if let Some(node) = node_at(features, *port) {
            nodes.push(node)?;
        }
    }
    Ok(nodes)
}

/// Where the walk stops: at the tier's barriers alone. It is consistent.
fn tier_barriers(alloc: Global, barrier: Option<Cond>, tier: u8) -> Barriers
    ensures { result ≡ tier_barriers barrier tier }
{
    Barriers {
        request: None,
        of_tier: barrier,
        stops: Ports::new(Vec::new(alloc)),
        tier: Some(tier),
        consistent: true,
    }
}

/// What [`update`](crate::update) is asked for a subnetwork: to walk from its controllers as the features stand now.
///
/// `barrier` is the barrier condition of its tier, and `disjoint` tells whether the tier allows disjoint controllers.
pub fn update_ask<D: Directory>(
    alloc: Global,
    features: &D,
    barrier: Option<Cond>,
    disjoint: bool,
    tier: u8,
    subnet: Name,
) -> Result<TypedAsk, AllocError>
    ensures { IfOk result (λ ask. ask ≡ update_ask (D.features features.now) barrier disjoint tier subnet) }
{
    let ports = features.controllers_of(alloc, tier, subnet.text())?;
    let starts = nodes_at(alloc, features, &ports)?;
    Ok(TypedAsk {
        kind: TraceKind::Subnetwork,
        starts: Nodes::new(starts),
        barriers: tier_barriers(alloc, barrier, tier),
        isolators: None,
        subnet: Some(subnet),
        disjoint,
        include: Include {
            barriers: false,
            containers: false,
            content: false,
            structures: false,
        },
        functions: Funcs::new(Vec::new(alloc)),
    })
}
