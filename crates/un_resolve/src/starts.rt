//! Where a trace starts, and in which tier it walks.

ghost use Rattle.std.specs.Prelude.{◌≡◌, map, Some, None, IfOk, OnOk, IfErr};
ghost use Rattle.un_defs.specs.Refusing.{first_refusal, Refuses};
ghost use Rattle.un_resolve.specs.Starts.{given_starts, start_node, no_feature, no_start, tier_of, no_tier, controller_ports, no_subnet, start_ports, nodes_of, start_nodes, starts_refusal};

use crate::kinds::is_subnetwork;
use std::alloc::{AllocError, Global};
use un_ask::TraceAsk;
use un_defs::{Directory, Node, Port, Refusal};
use un_tiers::Setup;

/// The nodes at which a trace starts, and the number of its tier.
#[derive(Drop)]
pub(crate) struct Starts {
    pub(crate) nodes: Vec<Node>,
    pub(crate) tier: Option<u8>,
}

/// The ports that a request gives. A subnetwork trace takes none.
pub(crate) fn given_starts(ask: &TraceAsk) -> &[Port]
    ensures { result.now ≡ given_starts ask.now }
{
    if is_subnetwork(ask.kind) {
        &[]
    } else {
        ask.starts.as_slice()
    }
}

/// The node of a port of a live row.
pub(crate) fn start_node<D: Directory>(features: &D, start: Port) -> Option<Node>
    ensures { result ≡ start_node (D.features features.now) start }
{
    features.row(start.feature)?.port_node(start.number)
}

/// Refuses the first port whose feature is not live.
pub(crate) fn check_features<D: Directory>(features: &D, ports: &[Port]) -> Result<(), Refusal>
    ensures good { OnOk result (first_refusal (map (no_feature (D.features features.now)) ports.now) ≡ None) }
    ensures bad { IfErr result (λ r. first_refusal (map (no_feature (D.features features.now)) ports.now)
        ≡ Some r) }
{
    for port in ports {
        if features.row(port.feature).is_none() {
            return Err(Refusal::NoSuchFeature { id: port.feature });
        }
    }
    Ok(())
}

/// Refuses the first port that its feature has not.
pub(crate) fn check_ports<D: Directory>(features: &D, ports: &[Port]) -> Result<(), Refusal>
    ensures good { OnOk result (first_refusal (map (no_start (D.features features.now)) ports.now) ≡ None) }
    ensures bad { IfErr result (λ r. first_refusal (map (no_start (D.features features.now)) ports.now)
        ≡ Some r) }
{
    for port in ports {
        if start_node(features, *port).is_none() {
            return Err(Refusal::NoStart {
                feature: port.feature,
                port: port.number,
            });
        }
    }
    Ok(())
}

/// The nodes of those of the ports that have one.
pub(crate) fn nodes_of<D: Directory>(
    alloc: Global,
    features: &D,
    ports: &[Port],
) -> Result<Vec<Node>, AllocError>
    ensures { IfOk result (λ nodes. nodes.items ≡ nodes_of (D.features features.now) ports.now) }
{
    let mut nodes = Vec::new(alloc);
    for port in ports {
        if let Some(node) = start_node(features, *port) {
            nodes.push(node)?;
        }
    }
    Ok(nodes)
}

/// The number of the tier that is asked for, or none where none is.
fn tier_of(setup: &Setup, ask: &TraceAsk) -> Result<Option<u8>, Refusal>
    ensures tier { IfOk result (λ tier. tier ≡ tier_of setup.now ask.now) }
    ensures good { OnOk result (no_tier setup.now ask.now ≡ None) }
    ensures bad { IfErr result (λ r. no_tier setup.now ask.now ≡ Some r) }
{
    let Some(name) = &ask.tier else {
        return Ok(None);
    };
    match setup.tiers.find(name.text()) {
        Some(tier) => Ok(Some(tier)),
        None => Err(Refusal::NoSuchTier),
    }
}

/// The ports of the controllers of the subnetwork that is asked for.
fn controller_ports<D: Directory>(
    alloc: Global,
    setup: &Setup,
    features: &D,
    ask: &TraceAsk,
    tier: Option<u8>,
) -> Result<Vec<Port>, AllocError>
    requires { tier ≡ tier_of setup.now ask.now }
    ensures { IfOk result (λ ports. ports.items
        ≡ controller_ports setup.now (D.features features.now) ask.now) }
{
    match (tier, &ask.subnet) {
        (Some(tier), Some(subnet)) => features.controllers_of(alloc, tier, subnet.text()),
        _ => Ok(Vec::new(alloc)),
    }
}

/// The ports at which the trace starts, given its tier. A subnetwork without a controller is refused.
fn start_ports<D: Directory>(
    alloc: Global,
    setup: &Setup,
    features: &D,
    ask: &TraceAsk,
    tier: Option<u8>,
) -> Result<Vec<Port>, Refusal>
    requires { tier ≡ tier_of setup.now ask.now }
    ensures ports { IfOk result (λ ports. ports.items
        ≡ start_ports setup.now (D.features features.now) ask.now) }
    ensures good { OnOk result (no_subnet setup.now (D.features features.now) ask.now ≡ None) }
    ensures bad { Refuses result (no_subnet setup.now (D.features features.now) ask.now) }
{
    if !is_subnetwork(ask.kind) {
        return Ok(ask.starts.as_slice().to_vec(alloc)?);
    }
    let ports = controller_ports(alloc, setup, features, ask, tier)?;
    if ports.is_empty() {
        return Err(Refusal::NoSuchSubnetwork);
    }
    Ok(ports)
}

/// The starts of a trace, or the first refusal: the features of all given ports are looked at first, then the tier, then the subnetwork, and
/// then the given ports.
pub(crate) fn starts_of<D: Directory>(
    alloc: Global,
    setup: &Setup,
    features: &D,
    ask: &TraceAsk,
) -> Result<Starts, Refusal>
    ensures nodes { IfOk result (λ s. s.nodes.items
        ≡ start_nodes setup.now (D.features features.now) ask.now) }
    ensures tier { IfOk result (λ s. s.tier ≡ tier_of setup.now ask.now) }
    ensures found { OnOk result (no_tier setup.now ask.now ≡ None) }
    ensures good { OnOk result (starts_refusal setup.now (D.features features.now) ask.now ≡ None) }
    ensures bad { Refuses result (starts_refusal setup.now (D.features features.now) ask.now) }
{
    let given = given_starts(ask);
    check_features(features, given)?;
    let tier = tier_of(setup, ask)?;
    let ports = start_ports(alloc, setup, features, ask, tier)?;
    check_ports(features, given)?;
    let nodes = nodes_of(alloc, features, ports.as_slice())?;
    Ok(Starts { nodes, tier })
}
