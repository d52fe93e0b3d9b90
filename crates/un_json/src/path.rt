//! Queries for paths, and checks of their certificates.
ghost use Rattle.std.specs.Prelude.{◌≡◌, Ok, IfOk, IfErr};
ghost use Rattle.serde_json.specs.View.{view};
ghost use Rattle.un_json.specs.Rows.{Blames};
ghost use Rattle.un_json.specs.Table.{query_answer};
ghost use Rattle.un_json.specs.declared.words.QueryWord.TheVariants as asks;

use crate::certificate::{PortLabels, WalkNodes};
use crate::condition::Barrier;
use crate::fault::ReadFault;
use crate::form::{no_others, optional, required};
use crate::list::{PortForm, Stops, no_ports};
use crate::scalar::{Base, Truth, Weight};
use serde_json::Value;
use std::alloc::Global;
use un_ask::{Asked, NamedCheck, NamedPath, Place, Query};

const MEMBERS_OF_PATH: [Place; 8] = [
    Place::Ask,
    Place::From,
    Place::To,
    Place::Weight,
    Place::Barriers,
    Place::Stops,
    Place::Certificate,
    Place::Seen,
];

/// Reads an object as a query for a path.
pub(crate) fn read_path(alloc: Global, object: &Value) -> Result<Query, ReadFault>
    ensures ok { IfOk result (λ query. query_answer asks.Path (view object.now) ≡ Ok query) }
    ensures err { IfErr result (λ e. Blames e (query_answer asks.Path (view object.now))) }
{
    let from = required::<PortForm>(alloc, object, Place::From)?;
    let to = required::<PortForm>(alloc, object, Place::To)?;
    let weight = optional::<Weight>(alloc, object, Place::Weight, None)?;
    let barriers = optional::<Barrier>(alloc, object, Place::Barriers, None)?;
    let stops = optional::<Stops>(alloc, object, Place::Stops, no_ports(alloc))?;
    let certificate = optional::<Truth>(alloc, object, Place::Certificate, false)?;
    let seen = optional::<Base>(alloc, object, Place::Seen, 0)?;
    no_others(object, &MEMBERS_OF_PATH)?;
    let path = NamedPath {
        from,
        to,
        weight,
        barriers,
        stops,
        certificate,
    };
    Ok(Query {
        seen,
        what: Asked::Path(path),
    })
}

const MEMBERS_OF_CHECK: [Place; 9] = [
    Place::Ask,
    Place::From,
    Place::To,
    Place::Weight,
    Place::Barriers,
    Place::Stops,
    Place::Nodes,
    Place::Labels,
    Place::Seen,
];

/// Reads an object as a check of a certificate.
pub(crate) fn read_check(alloc: Global, object: &Value) -> Result<Query, ReadFault>
    ensures ok { IfOk result (λ query. query_answer asks.Check (view object.now) ≡ Ok query) }
    ensures err { IfErr result (λ e. Blames e (query_answer asks.Check (view object.now))) }
{
    let from = required::<PortForm>(alloc, object, Place::From)?;
    let to = required::<PortForm>(alloc, object, Place::To)?;
    let weight = optional::<Weight>(alloc, object, Place::Weight, None)?;
    let barriers = optional::<Barrier>(alloc, object, Place::Barriers, None)?;
    let stops = optional::<Stops>(alloc, object, Place::Stops, no_ports(alloc))?;
    let nodes = required::<WalkNodes>(alloc, object, Place::Nodes)?;
    let labels = required::<PortLabels>(alloc, object, Place::Labels)?;
    let seen = optional::<Base>(alloc, object, Place::Seen, 0)?;
    no_others(object, &MEMBERS_OF_CHECK)?;
    let check = NamedCheck {
        from,
        to,
        weight,
        barriers,
        stops,
        nodes,
        labels,
    };
    Ok(Query {
        seen,
        what: Asked::Check(check),
    })
}
