//! The kinds of a schema, looked at and then kept.

ghost use Rattle.std.specs.Prelude.{◌≡◌, ◌<◌, ◌≤◌, ◌^◌, true, false, length, map, position, is_some, if◌then◌else◌, IfOk, OnOk, IsErrOf};
ghost use Rattle.std.specs.List.{list_all, list_any};
ghost use Rattle.un_conds.specs.Names.{same_text, place_of};
ghost use Rattle.un_schema.specs.Lists.{are_named, are_distinct, items_of, has};
ghost use Rattle.un_schema.specs.Names.{is_name};
ghost use Rattle.un_schema.specs.Raw.{is_kind, are_kinds, kind_from, config_number, is_config_name, is_same_type, are_of, cats_word, has_policy, has_device_parts};

use crate::items::Items;
use crate::kind::{Kind, Policy};
use crate::name::Name;
use crate::named::{are_distinct, are_named, has_name, own_name};
use crate::raw::{RawConfig, RawKind};
use crate::schema::place_of;
use crate::schema_fault::MemberFault;
use std::alloc::{AllocError, Global};
use un_attrs::Cats;
use un_conds::Text;

fn place_of_config(name: &str, configs: &[RawConfig]) -> Option<usize>
    ensures { result ≡ position (λ config. same_text name.now config.name) configs.now }
{
    configs
        .iter()
        .position(|config| name == config.name.as_str())
}

// The number of the configuration with this name; the empty text names none.
fn config_number(name: &str, configs: &[RawConfig]) -> Option<usize>
    ensures { result ≡ config_number configs.now name.now }
{
    if name.is_empty() {
        None
    } else {
        place_of_config(name, configs)
    }
}

fn config_of(name: &str, configs: &[RawConfig]) -> Option<u8>
    requires { length configs.now ≤ 64 }
    ensures { result ≡ config_number configs.now name.now }
{
    let place = config_number(name, configs)?;
    Some(place as u8)
}

fn is_config_name(name: &str, configs: &[RawConfig]) -> bool
    ensures { result ≡ is_config_name configs.now name.now }
{
    name.is_empty() || config_number(name, configs).is_some()
}

fn is_same_type(a: &RawKind, b: &RawKind) -> bool
    ensures { result ≡ is_same_type a.now b.now }
{
    a.class == b.class && a.group == b.group && a.asset_type == b.asset_type
}

fn has_type(kind: &RawKind, kinds: &[RawKind]) -> bool
    ensures { result ≡ list_any (is_same_type kind.now) kinds.now }
{
    kinds.iter().any(|other| is_same_type(kind, other))
}

// Whether no class, group and type stand twice.
fn have_distinct_types(kinds: &[RawKind]) -> bool
    ensures { result ≡ are_distinct is_same_type kinds.now }
{
    let Some((first, others)) = kinds.split_first() else {
        return true;
    };
    !has_type(first, others) && have_distinct_types(others)
}

fn are_known(categories: &[Name], names: &[Text]) -> bool
    ensures { result ≡ list_all (λ name. is_some (place_of name categories.now)) names.now }
{
    names
        .iter()
        .all(|name| place_of(name.as_str(), categories).is_some())
}

// Whether the names are distinct names of categories.
fn are_of(categories: &[Name], names: &[Text]) -> bool
    ensures { result ≡ are_of categories.now names.now }
{
    are_known(categories, names) && are_distinct(names)
}

// A line has a policy, and nothing else has one.
fn has_policy(kind: &RawKind) -> bool
    ensures { result ≡ has_policy kind.now }
{
    let vertex = matches!(kind.policy, Policy::EndVertex | Policy::AnyVertex);
    if kind.class.is_line() {
        vertex
    } else {
        !vertex
    }
}

// A device alone has a configuration and may control.
fn has_device_parts(kind: &RawKind) -> bool
    ensures { result ≡ has_device_parts kind.now }
{
    kind.class.is_device() || (kind.config.as_str().is_empty() && !kind.controller)
}

fn is_kind(kind: &RawKind, categories: &[Name], configs: &[RawConfig]) -> bool
    ensures { result ≡ is_kind categories.now configs.now kind.now }
{
    1 <= kind.group
        && 1 <= kind.asset_type
        && has_policy(kind)
        && has_device_parts(kind)
        && is_config_name(kind.config.as_str(), configs)
        && are_of(categories, kind.categories.as_slice())
}

fn are_good(kinds: &[RawKind], categories: &[Name], configs: &[RawConfig]) -> bool
    ensures { result ≡ list_all (is_kind categories.now configs.now) kinds.now }
{
    kinds.iter().all(|kind| is_kind(kind, categories, configs))
}

fn are_kinds(kinds: &[RawKind], categories: &[Name], configs: &[RawConfig]) -> bool
    ensures { result ≡ are_kinds categories.now configs.now kinds.now }
{
    are_named(1, 256, kinds) && have_distinct_types(kinds) && are_good(kinds, categories, configs)
}

fn bit(name: &str, names: &[Text]) -> u32
    ensures value { result ≡ (if list_any (λ other. same_text name.now other) names.now then 1 else 0) }
    ensures bound { result ≤ 1 }
{
    if has_name(name, names) { 1 } else { 0 }
}

// The word that has bit n where the category at place n is among the names.
fn cats_word(categories: &[Name], names: &[Text]) -> u32
    requires { length categories.now ≤ 32 }
    ensures word { result ≡ cats_word categories.now names.now }
    ensures bound { result < 2 ^ length categories.now }
{
    let Some((first, others)) = categories.split_first() else {
        return 0;
    };
    let word = cats_word(others, names);
    bit(first.text(), names) + 2 * word
}

fn own_kind(
    alloc: Global,
    raw: &RawKind,
    categories: &[Name],
    configs: &[RawConfig],
) -> Result<Kind, AllocError>
    requires name { is_name raw.now.name ≡ true }
    requires categories { length categories.now ≤ 32 }
    requires configs { length configs.now ≤ 64 }
    ensures { IfOk result (λ kind. kind ≡ kind_from categories.now configs.now raw.now) }
{
    let name = own_name(alloc, raw.name.as_str())?;
    Ok(Kind {
        name,
        class: raw.class,
        group: raw.group,
        asset_type: raw.asset_type,
        policy: raw.policy,
        config: config_of(raw.config.as_str(), configs),
        cats: Cats(cats_word(categories, raw.categories.as_slice())),
        controller: raw.controller,
    })
}

fn own_kinds(
    alloc: Global,
    raws: &[RawKind],
    categories: &[Name],
    configs: &[RawConfig],
) -> Result<Vec<Kind>, AllocError>
    requires names { list_all (λ k. is_name k.name) raws.now ≡ true }
    requires categories { length categories.now ≤ 32 }
    requires configs { length configs.now ≤ 64 }
    ensures { IfOk result (λ kinds. kinds.items ≡ map (kind_from categories.now configs.now) raws.now) }
{
    let mut kinds = Vec::with_capacity(alloc, raws.len())?;
    for raw in raws {
        kinds.push(own_kind(alloc, raw, categories, configs)?)?;
    }
    Ok(kinds)
}

/// 1 to 256 kinds.
#[tactic(auto, using(crate::proofs::Distinct::named_lists))]
pub(crate) fn kind_list(
    alloc: Global,
    member: &Option<Items<RawKind>>,
    categories: &[Name],
    configs: &[RawConfig],
) -> Result<Vec<Kind>, MemberFault>
    requires categories { length categories.now ≤ 32 }
    requires configs { length configs.now ≤ 64 }
    ensures ok { IfOk result (λ kinds. kinds.items
        ≡ map (kind_from categories.now configs.now) (items_of member.now)) }
    ensures good { OnOk result (has (are_kinds categories.now configs.now) member.now ≡ true) }
    ensures bad { IsErrOf result MemberFault.Bad
        → has (are_kinds categories.now configs.now) member.now ≡ false }
{
    let Some(raws) = member else {
        return Err(MemberFault::Bad);
    };
    if !are_kinds(raws.as_slice(), categories, configs) {
        return Err(MemberFault::Bad);
    }
    Ok(own_kinds(alloc, raws.as_slice(), categories, configs)?)
}
