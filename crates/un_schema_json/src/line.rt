//! The line of a schema.
//!
//! A line is first read as a JSON value, which must be an object. Its member `schema` says whether the schema is the built-in one
//! or is given by the other members, and in which format. Those members are checked in the order of a table in the definitions:
//! first the form of each, and then, in the same order, its content. So the refusal names the first bad member in the order of the
//! table. Lists that are too long are refused before any part of them is read.
ghost use Rattle.std.specs.Prelude.{◌≡◌, IfOk, IfErr, Ok, Err, Some, None};
ghost use Rattle.serde_json.specs.View.{view};
ghost use Rattle.un_json.specs.Requests.{json_of};
ghost use Rattle.un_json.specs.Rows.{required_member};
ghost use Rattle.un_schema.specs.SchemaFaults.{OnBadSchema};
ghost use Rattle.un_schema.specs.declared.place.Place.TheVariants as place;
ghost use Rattle.un_schema_json.specs.Table.{source_of};
ghost use Rattle.un_schema_json.specs.Lines.{schema_of, schema_from, object_schema, value_schema};

use crate::built_in::read_built_in;
use crate::members::read_given;
use crate::source::{Source, source_of};
use serde_json::Value;
use std::alloc::Global;
use un_json::ReadFault;
use un_json::request::read_json;
use un_schema::{Place, Schema, SchemaFault};
use un_tiers::Tiers;

/// The most bytes that a schema's line may have.
const LONGEST: usize = 1_048_576;

/// The schema and the tiers of a line, which is given without its line end.
///
/// `BadSchema` names the first bad place: `line` if the line is too long, the empty place if it is not a JSON object, `schema` if that
/// member is missing or its number is not 0, 1 or 2, then the members in the order attributes, categories, configurations, kinds,
/// rules, tiers, and `extra` if the line has any other member.
pub fn read_schema(alloc: Global, line: &[u8]) -> Result<(Schema, Tiers), SchemaFault>
    ensures ok { IfOk result (λ both. schema_of line.now ≡ Ok both) }
    ensures bad { IfErr result (λ fault. OnBadSchema fault (λ place. schema_of line.now ≡ Err place)) }
{
    if line.len() > LONGEST {
        return Err(SchemaFault::BadSchema { place: Place::Line });
    }
    let value = value_of(alloc, line)?;
    read_value(alloc, &value)
}

fn value_of(alloc: Global, line: &[u8]) -> Result<Value, SchemaFault>
    ensures ok { IfOk result (λ value. json_of line.now ≡ Some (view value)) }
    ensures bad { IfErr result (λ fault. OnBadSchema fault (λ p. (json_of line.now ≡ None)
        × (p ≡ place.Whole))) }
{
    match read_json(alloc, line) {
        Ok(value) => Ok(value),
        Err(ReadFault::Memory) => Err(SchemaFault::Memory),
        Err(_) => Err(SchemaFault::BadSchema {
            place: Place::Whole,
        }),
    }
}

fn read_value(alloc: Global, value: &Value) -> Result<(Schema, Tiers), SchemaFault>
    ensures ok { IfOk result (λ both. value_schema (Some (view value.now)) ≡ Ok both) }
    ensures bad { IfErr result
        (λ fault. OnBadSchema fault (λ place. value_schema (Some (view value.now)) ≡ Err place)) }
{
    if !value.is_object() {
        return Err(SchemaFault::BadSchema {
            place: Place::Whole,
        });
    }
    let source = source_at(value)?;
    read_from(alloc, source, value)
}

#[tactic(auto, unfolding(un_json::specs::Rows::required_member))]
fn source_at(object: &Value) -> Result<Source, SchemaFault>
    ensures ok { IfOk result (λ source. required_member place.Schema source_of (view object.now)
        ≡ Ok source) }
    ensures bad { IfErr result
        (λ fault. OnBadSchema fault (λ p. required_member place.Schema source_of (view object.now) ≡ Err p)) }
{
    match object.get(Place::Schema.text()).and_then(source_of) {
        Some(source) => Ok(source),
        None => Err(SchemaFault::BadSchema {
            place: Place::Schema,
        }),
    }
}

fn read_from(alloc: Global, source: Source, object: &Value) -> Result<(Schema, Tiers), SchemaFault>
    ensures ok { IfOk result (λ both. schema_from source (view object.now) ≡ Ok both) }
    ensures bad { IfErr result
        (λ fault. OnBadSchema fault (λ place. schema_from source (view object.now) ≡ Err place)) }
{
    match source {
        Source::BuiltIn => read_built_in(alloc, object),
        Source::Given(format) => read_given(alloc, format, object),
    }
}
