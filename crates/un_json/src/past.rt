//! Queries at past versions, each with another query inside.
ghost use Rattle.std.specs.Prelude.{◌≡◌, Ok, IfOk, IfErr};
ghost use Rattle.serde_json.specs.View.{view};
ghost use Rattle.un_json.specs.Rows.{Blames, and_then};
ghost use Rattle.un_json.specs.Words.{word_of};
ghost use Rattle.un_json.specs.Table.{nested_answer, nested_of, past_answer};

use crate::fault::ReadFault;
use crate::form::{Form, no_others, optional, required};
use crate::query::read_query;
use crate::scalar::Base;
use crate::words::{Word, word_of};
use serde_json::Value;
use std::alloc::{AllocError, Global};
use un_ask::{Asked, PastQuery, Place, Query};

/// Reads an object as a query at a past version.
pub(crate) fn read_past(alloc: Global, object: &Value) -> Result<PastQuery, ReadFault>
    ensures ok { IfOk result (λ past. past_answer (view object.now) ≡ Ok past) }
    ensures err { IfErr result (λ e. Blames e (past_answer (view object.now))) }
{
    let at = required::<Base>(alloc, object, Place::At)?;
    let what = required::<Nested>(alloc, object, Place::Query)?;
    let seen = optional::<Base>(alloc, object, Place::Seen, 0)?;
    no_others(object, &[Place::Ask, Place::At, Place::Query, Place::Seen])?;
    Ok(PastQuery { seen, at, what })
}

/// What a query inside another asks. The outer one has the versions, so the inner one has no member `seen`.
struct Nested;

impl Form for Nested {
    ghost use Rattle.un_json.specs.Table.{nested_of};

    type Out = Asked;

    ghost form = { nested_of };

    fn read(alloc: Global, value: &Value) -> Result<Option<Asked>, AllocError> {
        read_nested(alloc, value)
    }
}

fn read_nested(alloc: Global, value: &Value) -> Result<Option<Asked>, AllocError>
    ensures { IfOk result (λ what. what ≡ nested_of (view value.now)) }
{
    if value.get(Place::Seen.text()).is_some() {
        return Ok(None);
    }
    match read_by_word(alloc, value) {
        Ok(query) => Ok(Some(query.what)),
        Err(ReadFault::Memory) => Err(AllocError),
        Err(ReadFault::BadRequest { .. }) => Ok(None),
        Err(ReadFault::NotJson) => Ok(None),
    }
}

/// The query that a value is by its word.
fn read_by_word(alloc: Global, value: &Value) -> Result<Query, ReadFault>
    ensures ok { IfOk result
        (λ query. and_then (λ word. nested_answer word (view value.now)) (word_of (view value.now)) ≡ Ok query) }
    ensures err { IfErr result
        (λ e. Blames e (and_then (λ word. nested_answer word (view value.now)) (word_of (view value.now)))) }
{
    match word_of(value)? {
        Word::Ask(word) => read_query(alloc, word, value),
        Word::Do(_) => Err(ReadFault::BadRequest { place: Place::Ask }),
        Word::Past => Err(ReadFault::BadRequest { place: Place::Ask }),
        Word::Changes => Err(ReadFault::BadRequest { place: Place::Ask }),
    }
}
