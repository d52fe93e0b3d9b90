//! Rules, with kinds by name.
ghost use Rattle.std.specs.Prelude.{◌≡◌, IfOk, false};
ghost use Rattle.serde_json.specs.View.{view};
ghost use Rattle.un_json.specs.Forms.{kinds_rule, edge_rule, pair_rule, through_rule, behind_word, rule_of};
ghost use Rattle.std.specs.Option.{option_map_or};
ghost use Rattle.std.specs.Str.{bytes_eq};
ghost use Rattle.serde_json.specs.Find.{as_str};

use crate::form::Form;
use crate::scalar::{Named, small_from_to};
use serde_json::Value;
use std::alloc::{AllocError, Global};
use un_ask::NamedRule;

/// A rule in one of its five forms.
pub struct RuleForm;

impl Form for RuleForm {
    ghost use Rattle.un_json.specs.Forms.{rule_of};

    type Out = NamedRule;

    ghost form = { rule_of };

    fn read(alloc: Global, value: &Value) -> Result<Option<NamedRule>, AllocError> {
        read_rule(alloc, value)
    }
}

#[tactic(auto, using(crate::proofs::RuleForms::no_rule))]
fn read_rule(alloc: Global, value: &Value) -> Result<Option<NamedRule>, AllocError>
    ensures { IfOk result (λ rule. rule ≡ rule_of (view value.now)) }
{
    let Some(items) = value.as_array() else {
        return Ok(None);
    };
    match items.as_slice() {
        [word, a, b] => read_kinds(alloc, word, a, b),
        [word, a, t, b] => read_edge(alloc, word, a, t, b),
        [word, a, t, b, u] => read_pair(alloc, word, a, t, b, u),
        [word, a, t, j, b, u] => read_through(alloc, word, a, t, j, b, u),
        [] => Ok(None),
        [_] => Ok(None),
        [_, _] => Ok(None),
        [_, _, _, _, _, _, _, ..] => Ok(None),
    }
}

/// What a container or a structure kind may have.
fn read_kinds(
    alloc: Global,
    word: &Value,
    a: &Value,
    b: &Value,
) -> Result<Option<NamedRule>, AllocError>
    ensures { IfOk result (λ rule. rule
        ≡ behind_word (λ text. kinds_rule text (view a.now) (view b.now)) (view word.now)) }
{
    let Some(text) = word.as_str() else {
        return Ok(None);
    };
    let Some(first) = Named::read(alloc, a)? else {
        return Ok(None);
    };
    let Some(content) = Named::read(alloc, b)? else {
        return Ok(None);
    };
    if text == "c" {
        Ok(Some(NamedRule::Containment {
            container: first,
            content,
        }))
    } else if text == "s" {
        Ok(Some(NamedRule::Attachment {
            structure: first,
            content,
        }))
    } else {
        Ok(None)
    }
}

/// Which line kind may end at a kind.
fn read_edge(
    alloc: Global,
    word: &Value,
    a: &Value,
    t: &Value,
    b: &Value,
) -> Result<Option<NamedRule>, AllocError>
    ensures { IfOk result (λ rule. rule
        ≡ behind_word (λ text. edge_rule text (view a.now) (view t.now) (view b.now)) (view word.now)) }
{
    if !is_text(word, "je") {
        return Ok(None);
    }
    let Some(junction) = Named::read(alloc, a)? else {
        return Ok(None);
    };
    let Some(terminal) = small_from_to(0, 8, t) else {
        return Ok(None);
    };
    match Named::read(alloc, b)? {
        Some(line) => Ok(Some(NamedRule::JunctionEdge {
            junction,
            terminal,
            line,
        })),
        None => Ok(None),
    }
}

/// Which two kinds may connect.
fn read_pair(
    alloc: Global,
    word: &Value,
    a: &Value,
    t: &Value,
    b: &Value,
    u: &Value,
) -> Result<Option<NamedRule>, AllocError>
    ensures { IfOk result (λ rule. rule
        ≡ behind_word (λ text. pair_rule text (view a.now) (view t.now) (view b.now) (view u.now)) (view word.now)) }
{
    if !is_text(word, "jj") {
        return Ok(None);
    }
    let Some(first) = Named::read(alloc, a)? else {
        return Ok(None);
    };
    let Some(first_terminal) = small_from_to(0, 8, t) else {
        return Ok(None);
    };
    let Some(second) = Named::read(alloc, b)? else {
        return Ok(None);
    };
    match small_from_to(0, 8, u) {
        Some(second_terminal) => Ok(Some(NamedRule::JunctionJunction {
            first,
            first_terminal,
            second,
            second_terminal,
        })),
        None => Ok(None),
    }
}

/// Which two line kinds may meet at a kind.
fn read_through(
    alloc: Global,
    word: &Value,
    a: &Value,
    t: &Value,
    j: &Value,
    b: &Value,
    u: &Value,
) -> Result<Option<NamedRule>, AllocError>
    ensures { IfOk result (λ rule. rule
        ≡ behind_word (λ text. through_rule text (view a.now) (view t.now) (view j.now) (view b.now) (view u.now)) (view word.now)) }
{
    if !is_text(word, "eje") {
        return Ok(None);
    }
    let Some(line) = Named::read(alloc, a)? else {
        return Ok(None);
    };
    let Some(terminal) = small_from_to(0, 8, t) else {
        return Ok(None);
    };
    let Some(junction) = Named::read(alloc, j)? else {
        return Ok(None);
    };
    let Some(other_line) = Named::read(alloc, b)? else {
        return Ok(None);
    };
    match small_from_to(0, 8, u) {
        Some(other_terminal) => Ok(Some(NamedRule::EdgeJunctionEdge {
            line,
            terminal,
            junction,
            other_line,
            other_terminal,
        })),
        None => Ok(None),
    }
}

/// Whether the value is this text.
fn is_text(value: &Value, text: &str) -> bool
    ensures { result ≡ option_map_or (λ word. bytes_eq word text.now) (as_str (view value.now)) false }
{
    match value.as_str() {
        Some(word) => word == text,
        None => false,
    }
}
