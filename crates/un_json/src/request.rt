//! How requests are read from JSON text.
//!
//! A text is first read as a JSON value. The value must be an object with exactly one of the members `do` and `ask`, whose word
//! determines the other members. A table in the definitions lists them for each word, each with its form; they are checked in the
//! table's order, and the refusal names the first one that is missing or has another form. So one function for each word reads its
//! members in that order and stops at the first bad one; members that are not in the table are looked for last. A query at a past
//! version has another query as its member `query`, which is read by the same table; whatever is bad inside it, the refusal names `query`.
//! Each look-up walks the object's members once, and what is kept of the value is copied.
ghost use Rattle.std.specs.Prelude.{◌≡◌, ◌≢◌, Ok, Err, Some, None, IfOk, IfErr};
ghost use Rattle.serde_json.specs.View.{view};
ghost use Rattle.un_json.specs.Rows.{Blames};
ghost use Rattle.un_json.specs.Words.{word_of};
ghost use Rattle.un_json.specs.Requests.{answer_to, request_of, json_of, ask};

use crate::changes::read_changes;
use crate::command::read_command;
use crate::fault::ReadFault;
use crate::past::read_past;
use crate::query::read_query;
use crate::words::{Word, word_of};
use serde_json::Value;
use std::alloc::Global;
use un_ask::{Place, Request};

/// Reads a request. The fault is `NotJson` exactly if the bytes are not a JSON value in UTF-8, and otherwise `BadRequest` with the
/// first bad place. Any call may return `Memory` instead.
pub fn read_request(alloc: Global, text: &[u8]) -> Result<Request, ReadFault>
    ensures request { IfOk result (λ request. ask text.now ≡ Ok request) }
    ensures fault { IfErr result (λ e. e ≢ ReadFault.Memory → ask text.now ≡ Err e) }
{
    let value = read_json(alloc, text)?;
    read_value(alloc, &value)
}

/// Parses a JSON value. The fault is `NotJson` exactly if the bytes are not one in UTF-8.
pub fn read_json(alloc: Global, text: &[u8]) -> Result<Value, ReadFault>
    ensures ok { IfOk result (λ value. json_of text.now ≡ Some (view value)) }
    ensures err { IfErr result (λ e. e ≢ ReadFault.Memory
        → (json_of text.now ≡ None) × (e ≡ ReadFault.NotJson)) }
{
    match Value::from_slice(alloc, text) {
        Ok(value) => Ok(value),
        Err(error) if error.is_memory() => Err(ReadFault::Memory),
        Err(_) => Err(ReadFault::NotJson),
    }
}

// The request in a JSON value.
fn read_value(alloc: Global, value: &Value) -> Result<Request, ReadFault>
    ensures ok { IfOk result (λ request. request_of (view value.now) ≡ Ok request) }
    ensures err { IfErr result (λ e. Blames e (request_of (view value.now))) }
{
    if !value.is_object() {
        return Err(ReadFault::BadRequest {
            place: Place::Whole,
        });
    }
    let word = word_of(value)?;
    answer(alloc, word, value)
}

fn answer(alloc: Global, word: Word, object: &Value) -> Result<Request, ReadFault>
    ensures ok { IfOk result (λ request. answer_to word (view object.now) ≡ Ok request) }
    ensures err { IfErr result (λ e. Blames e (answer_to word (view object.now))) }
{
    match word {
        Word::Do(word) => {
            let command = read_command(alloc, word, object)?;
            Ok(Request::Command(command))
        }
        Word::Ask(word) => {
            let query = read_query(alloc, word, object)?;
            Ok(Request::Query(query))
        }
        Word::Past => {
            let past = read_past(alloc, object)?;
            Ok(Request::Past(past))
        }
        Word::Changes => {
            let query = read_changes(alloc, object)?;
            Ok(Request::Changes(query))
        }
    }
}
