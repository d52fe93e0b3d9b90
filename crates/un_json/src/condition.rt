//! Conditions.
ghost use Rattle.std.specs.Prelude.{◌≡◌, IfOk, option_map, option_and_then};
ghost use Rattle.serde_json.specs.View.{view, items_view};
ghost use Rattle.serde_json.specs.Find.{as_str};
ghost use Rattle.un_conds.specs.Forms.{written};
ghost use Rattle.un_json.specs.Forms.{op_named, name_of, test_of, both_of, of_one, of_two, condition_of, condition_from};

use crate::form::Form;
use crate::scalar::Named;
use serde_json::Value;
use std::alloc::{AllocError, Global};
use un_ask::RawCondition;
use un_conds::{Op, RawCond, Text};

/// A condition.
pub(crate) struct Condition;

impl Form for Condition {
    ghost use Rattle.un_json.specs.Forms.{condition_of};

    type Out = RawCondition;

    ghost form = { condition_of };

    fn read(alloc: Global, value: &Value) -> Result<Option<RawCondition>, AllocError> {
        match read_condition(alloc, value)? {
            Some(raw) => Ok(Some(RawCondition::new(alloc, raw)?)),
            None => Ok(None),
        }
    }
}

/// A condition, read as `Some`.
pub(crate) struct SomeCondition;

impl Form for SomeCondition {
    ghost use Rattle.un_json.specs.Forms.{some_condition_of};

    type Out = Option<RawCondition>;

    ghost form = { some_condition_of };

    fn read(alloc: Global, value: &Value) -> Result<Option<Option<RawCondition>>, AllocError> {
        match Condition::read(alloc, value)? {
            Some(condition) => Ok(Some(Some(condition))),
            None => Ok(None),
        }
    }
}

/// A condition, or null for none.
pub(crate) struct Barrier;

impl Form for Barrier {
    ghost use Rattle.un_json.specs.Forms.{barriers_of};

    type Out = Option<RawCondition>;

    ghost form = { barriers_of };

    fn read(alloc: Global, value: &Value) -> Result<Option<Option<RawCondition>>, AllocError> {
        if value.is_null() {
            return Ok(Some(None));
        }
        SomeCondition::read(alloc, value)
    }
}

/// The condition that a value is. It recurses once for each level of nesting, of which a text has at most 127.
#[cycle(condition)]
#[tactic(auto, using(crate::proofs::Conditions::of_array, crate::proofs::Conditions::no_array, crate::proofs::Conditions::array_depth))]
pub fn read_condition(alloc: Global, value: &Value) -> Result<Option<RawCond>, AllocError>
    ensures { IfOk result (λ raw. option_map written raw ≡ condition_of (view value.now)) }
{
    match value.as_array() {
        Some(items) => read_parts(alloc, items.as_slice()),
        None => Ok(None),
    }
}

/// The condition that the items of a list form.
#[cycle(condition)]
#[tactic(auto, using(crate::proofs::Conditions::no_condition, crate::proofs::Conditions::item_depth))]
fn read_parts(alloc: Global, items: &[Value]) -> Result<Option<RawCond>, AllocError>
    ensures { IfOk result (λ raw. option_map written raw ≡ condition_from (items_view items.now)) }
{
    match items {
        [word, part] => read_one(alloc, word, part),
        [word, first, second] => read_two(alloc, word, first, second),
        [] => Ok(None),
        [_] => Ok(None),
        [_, _, _, _, ..] => Ok(None),
    }
}

/// A word with a name or with a condition.
#[cycle(condition)]
fn read_one(alloc: Global, word: &Value, part: &Value) -> Result<Option<RawCond>, AllocError>
    ensures { IfOk result (λ raw. option_map written raw
        ≡ option_and_then (λ text. of_one text (view part.now) (condition_of (view part.now))) (as_str (view word.now))) }
{
    let Some(text) = word.as_str() else {
        return Ok(None);
    };
    if text == "has" {
        return match read_text(alloc, part)? {
            Some(name) => Ok(Some(RawCond::Has(name))),
            None => Ok(None),
        };
    }
    if text == "not" {
        return match read_condition(alloc, part)? {
            Some(raw) => Ok(Some(RawCond::Not(Box::new(alloc, raw)?))),
            None => Ok(None),
        };
    }
    Ok(None)
}

/// A word with two conditions, or a comparison.
#[cycle(condition)]
fn read_two(
    alloc: Global,
    word: &Value,
    first: &Value,
    second: &Value,
) -> Result<Option<RawCond>, AllocError>
    ensures { IfOk result (λ raw. option_map written raw
        ≡ option_and_then (λ text. of_two text (view first.now) (view second.now) (condition_of (view first.now)) (condition_of (view second.now))) (as_str (view word.now))) }
{
    let Some(text) = word.as_str() else {
        return Ok(None);
    };
    if text == "and" {
        return match read_both(alloc, first, second)? {
            Some((left, right)) => Ok(Some(RawCond::And(
                Box::new(alloc, left)?,
                Box::new(alloc, right)?,
            ))),
            None => Ok(None),
        };
    }
    if text == "or" {
        return match read_both(alloc, first, second)? {
            Some((left, right)) => Ok(Some(RawCond::Or(
                Box::new(alloc, left)?,
                Box::new(alloc, right)?,
            ))),
            None => Ok(None),
        };
    }
    read_test(alloc, text, first, second)
}

/// Two conditions.
#[cycle(condition)]
fn read_both(
    alloc: Global,
    first: &Value,
    second: &Value,
) -> Result<Option<(RawCond, RawCond)>, AllocError>
    ensures { IfOk result (λ pair. option_map (λ p. (written p.0, written p.1)) pair
        ≡ both_of (condition_of (view first.now)) (condition_of (view second.now))) }
{
    let Some(left) = read_condition(alloc, first)? else {
        return Ok(None);
    };
    match read_condition(alloc, second)? {
        Some(right) => Ok(Some((left, right))),
        None => Ok(None),
    }
}

/// A comparison of an attribute with a number.
fn read_test(
    alloc: Global,
    word: &str,
    name: &Value,
    number: &Value,
) -> Result<Option<RawCond>, AllocError>
    ensures { IfOk result (λ raw. option_map written raw
        ≡ test_of word.now (view name.now) (view number.now)) }
{
    let Some(op) = op_named(word) else {
        return Ok(None);
    };
    let Some(name) = read_text(alloc, name)? else {
        return Ok(None);
    };
    match number.as_i64() {
        Some(number) => Ok(Some(RawCond::Test(op, name, number))),
        None => Ok(None),
    }
}

/// A text that is a valid name.
fn read_text(alloc: Global, value: &Value) -> Result<Option<Text>, AllocError>
    ensures { IfOk result (λ text. text ≡ name_of (view value.now)) }
{
    match Named::read(alloc, value)? {
        Some(name) => Ok(Some(Text::new(String::from_str(alloc, name.text())?))),
        None => Ok(None),
    }
}

fn op_named(text: &str) -> Option<Op>
    ensures { result ≡ op_named text.now }
{
    if text == "eq" {
        Some(Op::Eq)
    } else if text == "ne" {
        Some(Op::Ne)
    } else if text == "lt" {
        Some(Op::Lt)
    } else if text == "le" {
        Some(Op::Le)
    } else if text == "gt" {
        Some(Op::Gt)
    } else if text == "ge" {
        Some(Op::Ge)
    } else {
        None
    }
}
