//! Forms of numbers and of texts.
ghost use Rattle.std.specs.Prelude.{◌≡◌};
ghost use Rattle.serde_json.specs.View.{view};
ghost use Rattle.un_json.specs.Forms.{count_from_to, id_of, flow_named, inclusion_named};

use crate::form::{Form, OrNull};
use crate::words::Inclusion;
use serde_json::Value;
use std::alloc::{AllocError, Global};
use un_ask::{Name, TraceKind};
use un_defs::{Flow, Note};

/// The greatest number of a feature, an association or a version.
const GREATEST_ID: u64 = 9_007_199_254_740_991;

/// A whole number from `low` to `high`.
pub fn count_from_to(low: u64, high: u64, value: &Value) -> Option<u64>
    ensures { result ≡ count_from_to low high (view value.now) }
{
    value.as_u64().filter(|n| low <= *n && *n <= high)
}

/// A whole number from `low` to `high`, which fits in 8 bits.
pub fn small_from_to(low: u8, high: u8, value: &Value) -> Option<u8>
    ensures { result ≡ count_from_to low high (view value.now) }
{
    match count_from_to(low as u64, high as u64, value) {
        Some(n) => Some(n as u8),
        None => None,
    }
}

/// The number of a feature or of an association.
pub fn number_of(value: &Value) -> Option<u64>
    ensures { result ≡ id_of (view value.now) }
{
    count_from_to(1, GREATEST_ID, value)
}

/// A number of a feature or of an association.
pub struct Id;

impl Form for Id {
    ghost use Rattle.un_json.specs.Forms.{id_of};

    type Out = u64;

    ghost form = { id_of };

    fn read(_alloc: Global, value: &Value) -> Result<Option<u64>, AllocError> {
        Ok(number_of(value))
    }
}

/// A moment or a version.
pub struct Base;

impl Form for Base {
    ghost use Rattle.un_json.specs.Forms.{base_of};

    type Out = u64;

    ghost form = { base_of };

    fn read(_alloc: Global, value: &Value) -> Result<Option<u64>, AllocError> {
        Ok(count_from_to(0, GREATEST_ID, value))
    }
}

/// A terminal from 1 to 8.
pub(crate) struct Terminal;

impl Form for Terminal {
    ghost use Rattle.un_json.specs.Forms.{terminal_of};

    type Out = u8;

    ghost form = { terminal_of };

    fn read(_alloc: Global, value: &Value) -> Result<Option<u8>, AllocError> {
        Ok(small_from_to(1, 8, value))
    }
}

/// True or false.
pub struct Truth;

impl Form for Truth {
    ghost use Rattle.serde_json.specs.Find.{as_bool};

    type Out = bool;

    ghost form = { as_bool };

    fn read(_alloc: Global, value: &Value) -> Result<Option<bool>, AllocError> {
        Ok(value.as_bool())
    }
}

/// A name.
pub struct Named;

impl Form for Named {
    ghost use Rattle.un_json.specs.Forms.{name_of};

    type Out = Name;

    ghost form = { name_of };

    fn read(alloc: Global, value: &Value) -> Result<Option<Name>, AllocError> {
        let Some(text) = value.as_str() else {
            return Ok(None);
        };
        if text.len() > 32 {
            return Ok(None);
        }
        Ok(Name::new(String::from_str(alloc, text)?))
    }
}

/// A name, read as `Some`.
pub(crate) struct SomeName;

impl Form for SomeName {
    ghost use Rattle.un_json.specs.Forms.{some_name_of};

    type Out = Option<Name>;

    ghost form = { some_name_of };

    fn read(alloc: Global, value: &Value) -> Result<Option<Option<Name>>, AllocError> {
        match Named::read(alloc, value)? {
            Some(name) => Ok(Some(Some(name))),
            None => Ok(None),
        }
    }
}

/// The attribute that a segment costs: a name, or null for none.
pub(crate) type Weight = OrNull<Named>;

/// A note.
pub(crate) struct Noted;

impl Form for Noted {
    ghost use Rattle.un_json.specs.Forms.{note_of};

    type Out = Note;

    ghost form = { note_of };

    fn read(alloc: Global, value: &Value) -> Result<Option<Note>, AllocError> {
        let Some(text) = value.as_str() else {
            return Ok(None);
        };
        if text.len() > 256 {
            return Ok(None);
        }
        Ok(Note::new(String::from_str(alloc, text)?))
    }
}

/// The direction of flow along a line.
pub(crate) struct Direction;

impl Form for Direction {
    ghost use Rattle.un_json.specs.Forms.{flow_of};

    type Out = Flow;

    ghost form = { flow_of };

    fn read(_alloc: Global, value: &Value) -> Result<Option<Flow>, AllocError> {
        Ok(value.as_str().and_then(flow_named))
    }
}

fn flow_named(text: &str) -> Option<Flow>
    ensures { result ≡ flow_named text.now }
{
    if text == "with" {
        Some(Flow::With)
    } else if text == "against" {
        Some(Flow::Against)
    } else if text == "both" {
        Some(Flow::Both)
    } else {
        None
    }
}

/// The kind of a trace.
pub(crate) struct Kinds;

impl Form for Kinds {
    ghost use Rattle.un_json.specs.Forms.{kind_of};

    type Out = TraceKind;

    ghost form = { kind_of };

    fn read(_alloc: Global, value: &Value) -> Result<Option<TraceKind>, AllocError> {
        Ok(value.as_str().and_then(TraceKind::named))
    }
}

/// A word that says what a result includes.
pub(crate) struct Included;

impl Form for Included {
    ghost use Rattle.un_json.specs.Forms.{inclusion_of};

    type Out = Inclusion;

    ghost form = { inclusion_of };

    fn read(_alloc: Global, value: &Value) -> Result<Option<Inclusion>, AllocError> {
        Ok(value.as_str().and_then(inclusion_named))
    }
}

fn inclusion_named(text: &str) -> Option<Inclusion>
    ensures { result ≡ inclusion_named text.now }
{
    if text == "barriers" {
        Some(Inclusion::Barriers)
    } else if text == "containers" {
        Some(Inclusion::Containers)
    } else if text == "content" {
        Some(Inclusion::Content)
    } else if text == "structures" {
        Some(Inclusion::Structures)
    } else {
        None
    }
}
