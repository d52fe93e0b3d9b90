//! What a result includes besides its features: inclusions and functions.
ghost use Rattle.std.specs.Prelude.{◌≡◌, IfOk};
ghost use Rattle.serde_json.specs.View.{view};
ghost use Rattle.un_json.specs.Forms.{add_inclusion, included_from, nothing, count_of, named_func_of, func_named, func_of};

use crate::form::Form;
use crate::list::{read_list, read_list_from_to};
use crate::scalar::{Included, Named};
use crate::words::Inclusion;
use serde_json::Value;
use std::alloc::{AllocError, Global};
use un_ask::{Include, Name, NamedFunc, NamedFuncs};

/// A list of distinct words that say what a result includes.
pub(crate) struct Inclusions;

impl Form for Inclusions {
    ghost use Rattle.un_json.specs.Forms.{include_of};

    type Out = Include;

    ghost form = { include_of };

    fn read(alloc: Global, value: &Value) -> Result<Option<Include>, AllocError> {
        match read_list::<Included>(alloc, value)? {
            Some(words) => Ok(all_included(words.as_slice())),
            None => Ok(None),
        }
    }
}

/// Nothing besides the features.
pub(crate) fn nothing() -> Include
    ensures { result ≡ nothing }
{
    Include {
        barriers: false,
        containers: false,
        content: false,
        structures: false,
    }
}

/// What the words include, or `None` if a word is repeated.
#[tactic(auto, using(crate::proofs::Inclusions::add_one, crate::proofs::Inclusions::add_none, crate::proofs::Inclusions::all_added))]
fn all_included(words: &[Inclusion]) -> Option<Include>
    ensures { result ≡ included_from nothing words.now }
{
    let mut include = nothing();
    for word in words {
        match add(include, *word) {
            Some(more) => include = more,
            None => return None,
        }
    }
    Some(include)
}

/// Adds a word, or returns `None` if it was already there.
fn add(include: Include, word: Inclusion) -> Option<Include>
    ensures { result ≡ add_inclusion word include }
{
    match word {
        Inclusion::Barriers if !include.barriers => Some(Include {
            barriers: true,
            ..include
        }),
        Inclusion::Containers if !include.containers => Some(Include {
            containers: true,
            ..include
        }),
        Inclusion::Content if !include.content => Some(Include {
            content: true,
            ..include
        }),
        Inclusion::Structures if !include.structures => Some(Include {
            structures: true,
            ..include
        }),
        _ => None,
    }
}

/// At most 16 functions.
pub(crate) struct Functions;

impl Form for Functions {
    ghost use Rattle.un_json.specs.Forms.{functions_of};

    type Out = NamedFuncs;

    ghost form = { functions_of };

    fn read(alloc: Global, value: &Value) -> Result<Option<NamedFuncs>, AllocError> {
        match read_list_from_to::<Function>(alloc, 0, 16, value)? {
            Some(items) => Ok(Some(NamedFuncs::new(items))),
            None => Ok(None),
        }
    }
}

/// A function.
pub(crate) struct Function;

impl Form for Function {
    ghost use Rattle.un_json.specs.Forms.{func_of};

    type Out = NamedFunc;

    ghost form = { func_of };

    fn read(alloc: Global, value: &Value) -> Result<Option<NamedFunc>, AllocError> {
        read_func(alloc, value)
    }
}

#[tactic(auto, using(crate::proofs::Inclusions::no_func))]
fn read_func(alloc: Global, value: &Value) -> Result<Option<NamedFunc>, AllocError>
    ensures { IfOk result (λ func. func ≡ func_of (view value.now)) }
{
    let Some(items) = value.as_array() else {
        return Ok(None);
    };
    match items.as_slice() {
        [word] => Ok(count(word)),
        [word, name] => read_named(alloc, word, name),
        _ => Ok(None),
    }
}

/// The word `count`.
fn count(word: &Value) -> Option<NamedFunc>
    ensures { result ≡ count_of (view word.now) }
{
    match word.as_str() {
        Some(text) if text == "count" => Some(NamedFunc::Count),
        _ => None,
    }
}

/// A word with the name of an attribute.
fn read_named(alloc: Global, word: &Value, name: &Value) -> Result<Option<NamedFunc>, AllocError>
    ensures { IfOk result (λ func. func ≡ named_func_of (view word.now) (view name.now)) }
{
    let Some(text) = word.as_str() else {
        return Ok(None);
    };
    match Named::read(alloc, name)? {
        Some(name) => Ok(func_named(text, name)),
        None => Ok(None),
    }
}

fn func_named(text: &str, name: Name) -> Option<NamedFunc>
    ensures { result ≡ func_named text.now name }
{
    if text == "sum" {
        Some(NamedFunc::Sum(name))
    } else if text == "least" {
        Some(NamedFunc::Least(name))
    } else if text == "greatest" {
        Some(NamedFunc::Greatest(name))
    } else {
        None
    }
}
