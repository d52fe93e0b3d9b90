//! Kinds of features.
ghost use Rattle.std.specs.Prelude.{◌≡◌, IfOk};
ghost use Rattle.serde_json.specs.View.{view};
ghost use Rattle.un_schema_json.specs.Parts.{class_named, policy_named, code_of, marks_of, kind_of, kind_parts};

use crate::list::{read_text, read_texts};
use serde_json::Value;
use std::alloc::{AllocError, Global};
use un_json::form::Form;
use un_json::scalar::count_from_to;
use un_schema::{Class, Policy, RawKind};

/// The parts of a kind that need no allocation.
#[derive(Clone, Copy, Debug, PartialEq, Eq)]
pub(crate) struct Marks {
    pub(crate) class: Class,
    pub(crate) group: u16,
    pub(crate) asset_type: u16,
    pub(crate) policy: Policy,
    pub(crate) controller: bool,
}

/// A kind.
pub(crate) struct KindForm;

impl Form for KindForm {
    ghost use Rattle.un_schema_json.specs.Parts.{kind_of};

    type Out = RawKind;

    ghost form = { kind_of };

    fn read(alloc: Global, value: &Value) -> Result<Option<RawKind>, AllocError> {
        read_kind(alloc, value)
    }
}

#[tactic(auto, using(crate::proofs::Lengths::not_kind))]
fn read_kind(alloc: Global, value: &Value) -> Result<Option<RawKind>, AllocError>
    ensures { IfOk result (λ kind. kind ≡ kind_of (view value.now)) }
{
    let Some(items) = value.as_array() else {
        return Ok(None);
    };
    let [
        name,
        class,
        group,
        asset_type,
        policy,
        config,
        categories,
        controller,
    ] = items.as_slice()
    else {
        return Ok(None);
    };
    match read_marks(class, group, asset_type, policy, controller) {
        Some(marks) => read_texts_of(alloc, marks, name, config, categories),
        None => Ok(None),
    }
}

fn read_marks(
    class: &Value,
    group: &Value,
    asset_type: &Value,
    policy: &Value,
    controller: &Value,
) -> Option<Marks>
    ensures { result
        ≡ marks_of (view class.now) (view group.now) (view asset_type.now) (view policy.now) (view controller.now) }
{
    Some(Marks {
        class: class_named(class.as_str()?)?,
        group: code_of(group)?,
        asset_type: code_of(asset_type)?,
        policy: policy_named(policy.as_str()?)?,
        controller: controller.as_bool()?,
    })
}

fn read_texts_of(
    alloc: Global,
    marks: Marks,
    name: &Value,
    config: &Value,
    categories: &Value,
) -> Result<Option<RawKind>, AllocError>
    ensures { IfOk result (λ kind. kind
        ≡ kind_parts marks (view name.now) (view config.now) (view categories.now)) }
{
    let Some(name) = read_text(alloc, name)? else {
        return Ok(None);
    };
    let Some(config) = read_text(alloc, config)? else {
        return Ok(None);
    };
    match read_texts(alloc, 32, categories)? {
        Some(categories) => Ok(Some(RawKind {
            name,
            class: marks.class,
            group: marks.group,
            asset_type: marks.asset_type,
            policy: marks.policy,
            config,
            categories,
            controller: marks.controller,
        })),
        None => Ok(None),
    }
}

/// A group or a type.
fn code_of(value: &Value) -> Option<u16>
    ensures { result ≡ code_of (view value.now) }
{
    match count_from_to(1, 65_535, value) {
        Some(code) => Some(code as u16),
        None => None,
    }
}

fn class_named(text: &str) -> Option<Class>
    ensures { result ≡ class_named text.now }
{
    if text == "device" {
        Some(Class::Device)
    } else if text == "junction" {
        Some(Class::Junction)
    } else if text == "line" {
        Some(Class::Line)
    } else if text == "assembly" {
        Some(Class::Assembly)
    } else if text == "structure" {
        Some(Class::Structure)
    } else {
        None
    }
}

fn policy_named(text: &str) -> Option<Policy>
    ensures { result ≡ policy_named text.now }
{
    if text == "end" {
        Some(Policy::EndVertex)
    } else if text == "any" {
        Some(Policy::AnyVertex)
    } else if text.is_empty() {
        Some(Policy::NoLine)
    } else {
        None
    }
}
