//! Attributes by name.
ghost use Rattle.std.specs.Prelude.{◌≡◌, IfOk, string_bytes};
ghost use Rattle.serde_json.specs.View.{view, members_view};
ghost use Rattle.un_json.specs.Forms.{attribute_of, each_attribute};

use crate::form::Form;
use serde_json::{Map, Value};
use std::alloc::{AllocError, Global};
use un_ask::{Name, NamedAttrs};

/// An object whose member names are valid names and whose values are whole numbers.
pub(crate) struct NamedValues;

impl Form for NamedValues {
    ghost use Rattle.un_json.specs.Forms.{attrs_of};

    type Out = NamedAttrs;

    ghost form = { attrs_of };

    fn read(alloc: Global, value: &Value) -> Result<Option<NamedAttrs>, AllocError> {
        match value.as_object() {
            Some(members) => read_members(alloc, members),
            None => Ok(None),
        }
    }
}

#[tactic(auto, using(crate::proofs::Attributes::read_on, crate::proofs::Attributes::read_none, crate::proofs::Attributes::read_all, crate::proofs::Attributes::named))]
/// The members as names and whole numbers, in the byte order of the names, which is the order of the members.
fn read_members(
    alloc: Global,
    members: &Map<String, Value>,
) -> Result<Option<NamedAttrs>, AllocError>
    ensures { IfOk result (λ attrs. attrs ≡ each_attribute (members_view members.now.entries)) }
{
    let mut pairs = Vec::with_capacity(alloc, members.len())?;
    for (name, value) in members.iter() {
        match read_member(alloc, name, value)? {
            Some(pair) => pairs.push(pair)?,
            None => return Ok(None),
        }
    }
    Ok(Some(NamedAttrs::new(pairs)))
}

/// A member as a name and a whole number.
fn read_member(
    alloc: Global,
    name: &String,
    value: &Value,
) -> Result<Option<(Name, i64)>, AllocError>
    ensures { IfOk result (λ pair. pair ≡ attribute_of (string_bytes name.now) (view value.now)) }
{
    let Some(number) = value.as_i64() else {
        return Ok(None);
    };
    if name.len() > 32 {
        return Ok(None);
    }
    match Name::new(name.clone()?) {
        Some(name) => Ok(Some((name, number))),
        None => Ok(None),
    }
}
