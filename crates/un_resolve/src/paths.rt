//! Paths and checks, by the features' ports and the schema's names.

ghost use Rattle.std.specs.Prelude.{◌≡◌, IfOk};
ghost use Rattle.un_resolve.specs.Results.{ResolvesTo, RefusesWith};
ghost use Rattle.un_resolve.specs.Resolved.{condition_of};
ghost use Rattle.un_resolve.specs.Walks.{barriers_with, node_at, weight_of, ends_asked, path_asked, check_asked};

use crate::names::condition;
use crate::starts::{check_features, start_node};
use std::alloc::{AllocError, Global};
use un_ask::{CheckAsk, NamedCheck, NamedPath, PathAsk, RawCondition, Weight};
use un_conds::Cond;
use un_defs::port::Ports;
use un_defs::{Barriers, Directory, Node, Port, Refusal};
use un_schema::{Name, Place, Schema};

/// The two ends of a walk, and where walks from the first stop.
#[derive(Drop)]
pub(crate) struct Ends {
    pub(crate) from: Node,
    pub(crate) to: Node,
    pub(crate) barriers: Barriers,
}

/// Where walks stop that go in no tier.
pub(crate) fn barriers_with(
    alloc: Global,
    schema: &Schema,
    given: &Option<RawCondition>,
    request: Option<Cond>,
    stops: &Ports,
) -> Result<Barriers, AllocError>
    requires { request ≡ condition_of schema.now given.now }
    ensures { IfOk result (λ barriers. barriers ≡ barriers_with schema.now given.now stops.now) }
{
    Ok(Barriers {
        request,
        of_tier: None,
        stops: stops.copy(alloc)?,
        tier: None,
        consistent: true,
    })
}

/// The node of a port of a live row.
fn node_at<D: Directory>(features: &D, port: Port) -> Result<Node, Refusal>
    ensures { result ≡ node_at (D.features features.now) port }
{
    match start_node(features, port) {
        Some(node) => Ok(node),
        None => Err(Refusal::NoStart {
            feature: port.feature,
            port: port.number,
        }),
    }
}

/// What a segment costs.
fn weight_of(schema: &Schema, weight: &Option<Name>) -> Weight
    ensures { result ≡ weight_of schema.now weight.now }
{
    match weight {
        Some(name) => match schema.attribute(name.text()) {
            Some(attribute) => Weight::Attribute(attribute),
            None => Weight::Unknown,
        },
        None => Weight::Steps,
    }
}

/// The nodes of two ports, and where walks from the first stop.
fn ends_of<D: Directory>(
    alloc: Global,
    schema: &Schema,
    features: &D,
    from: Port,
    to: Port,
    given: &Option<RawCondition>,
    stops: &Ports,
) -> Result<Ends, Refusal>
    ensures ends { ResolvesTo result (ends_asked schema.now (D.features features.now) from to given.now stops.now) }
    ensures bad { RefusesWith result (ends_asked schema.now (D.features features.now) from to given.now stops.now) }
{
    let ports = [from, to];
    check_features(features, &ports)?;
    let from = node_at(features, from)?;
    let to = node_at(features, to)?;
    let request = condition(alloc, schema, given, Place::Barriers)?;
    let barriers = barriers_with(alloc, schema, given, request, stops)?;
    Ok(Ends { from, to, barriers })
}

/// The query for a path with its names looked up, and its ends as nodes of the features as they are now.
///
/// In this order it is refused: `NoSuchFeature` for the first port whose feature is not live; `NoStart` for the first port that its feature has
/// not; `BadCondition` for the barriers. It answers `Memory` only for want of memory.
pub fn resolve_path<D: Directory>(
    alloc: Global,
    schema: &Schema,
    features: &D,
    ask: &NamedPath,
) -> Result<PathAsk, Refusal>
    ensures typed { ResolvesTo result (path_asked schema.now (D.features features.now) ask.now) }
    ensures bad { RefusesWith result (path_asked schema.now (D.features features.now) ask.now) }
{
    let ends = ends_of(
        alloc,
        schema,
        features,
        ask.from,
        ask.to,
        &ask.barriers,
        &ask.stops,
    )?;
    let Ends { from, to, barriers } = ends;
    Ok(PathAsk {
        from,
        to,
        weight: weight_of(schema, &ask.weight),
        barriers,
        certificate: ask.certificate,
    })
}

/// The query for a check with its names looked up, and its ends as nodes of the features as they are now. It is refused as one for a path.
pub fn resolve_check<D: Directory>(
    alloc: Global,
    schema: &Schema,
    features: &D,
    ask: &NamedCheck,
) -> Result<CheckAsk, Refusal>
    ensures typed { ResolvesTo result (check_asked schema.now (D.features features.now) ask.now) }
    ensures bad { RefusesWith result (check_asked schema.now (D.features features.now) ask.now) }
{
    let ends = ends_of(
        alloc,
        schema,
        features,
        ask.from,
        ask.to,
        &ask.barriers,
        &ask.stops,
    )?;
    let Ends { from, to, barriers } = ends;
    Ok(CheckAsk {
        from,
        to,
        weight: weight_of(schema, &ask.weight),
        barriers,
        nodes: ask.nodes.copy(alloc)?,
        labels: ask.labels.copy(alloc)?,
    })
}
