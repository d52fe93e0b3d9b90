//! Queries for diagrams.
ghost use Rattle.std.specs.Prelude.{◌≡◌, Ok, IfOk, IfErr};
ghost use Rattle.serde_json.specs.View.{view};
ghost use Rattle.un_json.specs.Rows.{Blames};
ghost use Rattle.un_json.specs.Table.{query_answer};
ghost use Rattle.un_json.specs.declared.words.QueryWord.TheVariants as asks;

use crate::condition::{Barrier, Condition};
use crate::fault::ReadFault;
use crate::form::{no_others, optional, required};
use crate::list::{Starts, Stops, no_ports};
use crate::scalar::Base;
use serde_json::Value;
use std::alloc::Global;
use un_ask::{Asked, NamedDiagram, Place, Query};

const MEMBERS_OF_DIAGRAM: [Place; 6] = [
    Place::Ask,
    Place::Starts,
    Place::Keep,
    Place::Barriers,
    Place::Stops,
    Place::Seen,
];

/// Reads an object as a query for a diagram.
pub(crate) fn read_diagram(alloc: Global, object: &Value) -> Result<Query, ReadFault>
    ensures ok { IfOk result (λ query. query_answer asks.Diagram (view object.now) ≡ Ok query) }
    ensures err { IfErr result (λ e. Blames e (query_answer asks.Diagram (view object.now))) }
{
    let starts = required::<Starts>(alloc, object, Place::Starts)?;
    let keep = required::<Condition>(alloc, object, Place::Keep)?;
    let barriers = optional::<Barrier>(alloc, object, Place::Barriers, None)?;
    let stops = optional::<Stops>(alloc, object, Place::Stops, no_ports(alloc))?;
    let seen = optional::<Base>(alloc, object, Place::Seen, 0)?;
    no_others(object, &MEMBERS_OF_DIAGRAM)?;
    let diagram = NamedDiagram {
        starts,
        keep,
        barriers,
        stops,
    };
    Ok(Query {
        seen,
        what: Asked::Diagram(diagram),
    })
}
