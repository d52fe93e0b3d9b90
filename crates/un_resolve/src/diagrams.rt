//! Diagrams, by the features' ports and the schema's names.

ghost use Rattle.un_resolve.specs.Results.{ResolvesTo, RefusesWith};
ghost use Rattle.un_resolve.specs.Walks.{condition_asked, diagram_asked};

use crate::names::condition;
use crate::paths::barriers_with;
use crate::starts::{check_features, check_ports, nodes_of};
use std::alloc::Global;
use un_ask::{DiagramAsk, NamedDiagram, RawCondition};
use un_conds::{Cond, CondFault};
use un_defs::port::Nodes;
use un_defs::{Directory, Refusal};
use un_schema::{Place, Schema};

/// The condition by numbers.
fn condition_asked(
    alloc: Global,
    schema: &Schema,
    given: &RawCondition,
    place: Place,
) -> Result<Cond, Refusal>
    ensures found { ResolvesTo result (condition_asked schema.now given.now place) }
    ensures bad { RefusesWith result (condition_asked schema.now given.now place) }
{
    match Cond::resolve(alloc, given.raw(), schema) {
        Ok(cond) => Ok(cond),
        Err(CondFault::BadCondition) => Err(Refusal::BadCondition { place }),
        Err(CondFault::Memory) => Err(Refusal::Memory),
    }
}

/// The query for a diagram with its names looked up, and its starts as nodes of the features as they are now.
///
/// In this order it is refused: `NoSuchFeature` for the first start whose feature is not live; `NoStart` for the first start that its feature has
/// not; `BadCondition` for what is kept, and then for the barriers. It answers `Memory` only for want of memory.
pub fn resolve_diagram<D: Directory>(
    alloc: Global,
    schema: &Schema,
    features: &D,
    ask: &NamedDiagram,
) -> Result<DiagramAsk, Refusal>
    ensures typed { ResolvesTo result (diagram_asked schema.now (D.features features.now) ask.now) }
    ensures bad { RefusesWith result (diagram_asked schema.now (D.features features.now) ask.now) }
{
    let ports = ask.starts.as_slice();
    check_features(features, ports)?;
    check_ports(features, ports)?;
    let keep = condition_asked(alloc, schema, &ask.keep, Place::Keep)?;
    let request = condition(alloc, schema, &ask.barriers, Place::Barriers)?;
    let nodes = nodes_of(alloc, features, ports)?;
    let barriers = barriers_with(alloc, schema, &ask.barriers, request, &ask.stops)?;
    Ok(DiagramAsk {
        starts: Nodes::new(nodes),
        keep,
        barriers,
    })
}
