//! What is stored of a subnetwork.

ghost use Rattle.std.specs.Prelude.{◌≡◌, map, IfOk};
ghost use Rattle.un_geom.specs.Places.{point_cmp};
ghost use Rattle.un_defs.specs.Orders.{rising, port_cmp};
ghost use Rattle.un_defs.specs.Result.{feature_ids};
ghost use Rattle.un_subnet.specs.Answer.{IsForUpdate, tier_of, subnet_of, row_of};

use crate::sorted::{sorted_ids, sorted_points};
use std::alloc::{AllocError, Global};
use un_ask::{Points, Status, StoredSubnet, TypedAsk};
use un_defs::order::rising;
use un_defs::port::Ports;
use un_defs::{Ids, Node, Port};
use un_geom::Point;
use un_schema::Name;

/// The tier and the name of what is updated.
pub(crate) fn subnet_of(ask: &TypedAsk) -> (u8, &Name)
    requires { IsForUpdate ask.now }
    ensures tier { result.0 ≡ tier_of ask.now }
    ensures name { result.1.now ≡ subnet_of ask.now }
{
    match (ask.barriers.tier, &ask.subnet) {
        (Some(tier), Some(subnet)) => (tier, subnet),
        _ => unreachable!(),
    }
}

fn ports_of(alloc: Global, nodes: &[Node]) -> Result<Vec<Port>, AllocError>
    ensures { IfOk result (λ ports. ports.items ≡ map (λ n. n.port) nodes.now) }
{
    nodes.iter().map(|node| node.port).collect(alloc)
}

fn features_of(alloc: Global, nodes: &[Node]) -> Result<Vec<u64>, AllocError>
    ensures { IfOk result (λ ids. ids.items ≡ map (λ n. n.port.feature) nodes.now) }
{
    nodes.iter().map(|node| node.port.feature).collect(alloc)
}

fn points_of(alloc: Global, nodes: &[Node]) -> Result<Vec<Point>, AllocError>
    ensures { IfOk result (λ points. points.items ≡ map (λ n. n.at) nodes.now) }
{
    nodes.iter().map(|node| node.at).collect(alloc)
}

/// The ports of the nodes, rising.
fn rising_ports(alloc: Global, nodes: &[Node]) -> Result<Ports, AllocError>
    ensures { IfOk result (λ ports. ports ≡ rising port_cmp (map (λ n. n.port) nodes.now)) }
{
    let ports = ports_of(alloc, nodes)?;
    Ok(Ports::new(rising(alloc, &ports)?))
}

/// The features of the nodes, rising.
fn rising_features(alloc: Global, nodes: &[Node]) -> Result<Ids, AllocError>
    ensures { IfOk result (λ ids. ids ≡ feature_ids nodes.now) }
{
    let ids = features_of(alloc, nodes)?;
    Ok(Ids::new(sorted_ids(ids)))
}

/// The points of the nodes, rising.
fn rising_points(alloc: Global, nodes: &[Node]) -> Result<Points, AllocError>
    ensures { IfOk result (λ points. points ≡ rising point_cmp (map (λ n. n.at) nodes.now)) }
{
    let points = points_of(alloc, nodes)?;
    Ok(Points::new(sorted_points(points)))
}

/// The row of the subnetwork whose walk reached these nodes. Its version is 0: the caller puts in its own.
pub(crate) fn row_of(
    alloc: Global,
    ask: &TypedAsk,
    reached: &[Node],
) -> Result<StoredSubnet, AllocError>
    requires { IsForUpdate ask.now }
    ensures { IfOk result (λ row. row ≡ row_of ask.now reached.now) }
{
    let (tier, subnet) = subnet_of(ask);
    Ok(StoredSubnet {
        tier,
        subnet: subnet.copy(alloc)?,
        controllers: rising_ports(alloc, ask.starts.as_slice())?,
        members: rising_features(alloc, reached)?,
        points: rising_points(alloc, reached)?,
        updated: 0,
        status: Status::Clean,
    })
}
