//! The words that requests have, and what they stand for.
ghost use Rattle.std.specs.Prelude.{◌≡◌, Ok, IfOk, IfErr};
ghost use Rattle.serde_json.specs.View.{view};
ghost use Rattle.un_json.specs.Rows.{Blames};
ghost use Rattle.un_json.specs.Words.{whole_command_named, command_named, query_named, question_named, command_word_of, query_word_of, word_of};

use crate::fault::ReadFault;
use serde_json::Value;
use un_ask::{EditWord, Place};

/// The word of a request: of a command in the member `do`, of a query in the member `ask`.
#[derive(Clone, Copy, Debug, PartialEq, Eq)]
pub(crate) enum Word {
    Do(CommandWord),
    Ask(QueryWord),
    /// The word of a query at a past version, which holds another query.
    Past,
    /// The word of a query for changes.
    Changes,
}

#[derive(Clone, Copy, Debug, PartialEq, Eq)]
pub(crate) enum CommandWord {
    Edit(EditWord),
    Batch,
    Rule,
    Validate,
    Update,
}

#[derive(Clone, Copy, Debug, PartialEq, Eq)]
pub(crate) enum QueryWord {
    Version,
    Feature,
    Dirty,
    Errors,
    Subnet,
    Trace,
    Path,
    Check,
    Diagram,
}

/// A word that says what a result includes.
#[derive(Clone, Copy, Debug, PartialEq, Eq)]
pub(crate) enum Inclusion {
    Barriers,
    Containers,
    Content,
    Structures,
}

/// The word of an object.
pub(crate) fn word_of(object: &Value) -> Result<Word, ReadFault>
    ensures ok { IfOk result (λ word. word_of (view object.now) ≡ Ok word) }
    ensures err { IfErr result (λ e. Blames e (word_of (view object.now))) }
{
    match object.get(Place::Do.text()) {
        Some(value) => {
            if object.get(Place::Ask.text()).is_some() {
                return Err(ReadFault::BadRequest { place: Place::Do });
            }
            command_word(value)
        }
        None => match object.get(Place::Ask.text()) {
            Some(value) => query_word(value),
            None => Err(ReadFault::BadRequest { place: Place::Do }),
        },
    }
}

fn command_word(value: &Value) -> Result<Word, ReadFault>
    ensures ok { IfOk result (λ word. command_word_of (view value.now) ≡ Ok word) }
    ensures err { IfErr result (λ e. Blames e (command_word_of (view value.now))) }
{
    match value.as_str().and_then(command_named) {
        Some(word) => Ok(Word::Do(word)),
        None => Err(ReadFault::BadRequest { place: Place::Do }),
    }
}

fn query_word(value: &Value) -> Result<Word, ReadFault>
    ensures ok { IfOk result (λ word. query_word_of (view value.now) ≡ Ok word) }
    ensures err { IfErr result (λ e. Blames e (query_word_of (view value.now))) }
{
    match value.as_str().and_then(question_named) {
        Some(word) => Ok(word),
        None => Err(ReadFault::BadRequest { place: Place::Ask }),
    }
}

fn command_named(text: &str) -> Option<CommandWord>
    ensures { result ≡ command_named text.now }
{
    match EditWord::named(text) {
        Some(word) => Some(CommandWord::Edit(word)),
        None => whole_command_named(text),
    }
}

fn whole_command_named(text: &str) -> Option<CommandWord>
    ensures { result ≡ whole_command_named text.now }
{
    if text == "batch" {
        Some(CommandWord::Batch)
    } else if text == "rule" {
        Some(CommandWord::Rule)
    } else if text == "validate" {
        Some(CommandWord::Validate)
    } else if text == "update" {
        Some(CommandWord::Update)
    } else {
        None
    }
}

/// A query, a query at a past version, or one for changes.
fn question_named(text: &str) -> Option<Word>
    ensures { result ≡ question_named text.now }
{
    if text == "past" {
        return Some(Word::Past);
    }
    if text == "changes" {
        return Some(Word::Changes);
    }
    match query_named(text) {
        Some(word) => Some(Word::Ask(word)),
        None => None,
    }
}

fn query_named(text: &str) -> Option<QueryWord>
    ensures { result ≡ query_named text.now }
{
    if text == "version" {
        Some(QueryWord::Version)
    } else if text == "feature" {
        Some(QueryWord::Feature)
    } else if text == "dirty" {
        Some(QueryWord::Dirty)
    } else if text == "errors" {
        Some(QueryWord::Errors)
    } else if text == "subnet" {
        Some(QueryWord::Subnet)
    } else if text == "trace" {
        Some(QueryWord::Trace)
    } else if text == "path" {
        Some(QueryWord::Path)
    } else if text == "check" {
        Some(QueryWord::Check)
    } else if text == "diagram" {
        Some(QueryWord::Diagram)
    } else {
        None
    }
}
