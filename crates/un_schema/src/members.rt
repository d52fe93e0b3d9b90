//! The members of a schema in the order in which they are looked at, each under the condition that those before it are good.

ghost use Rattle.std.specs.Prelude.{◌≡◌, ◌≤◌, true, false, length, map, All, IsTrue, IfOk, OnOk, IfErr, IsErrOf, Some};
ghost use Rattle.std.specs.List.{filter_map};
ghost use Rattle.un_schema.specs.Catalog.{path_set};
ghost use Rattle.un_schema.specs.Fits.{fits};
ghost use Rattle.un_schema.specs.Lists.{items_of};
ghost use Rattle.un_schema.specs.Raw.{config_from, kind_from, rule_from, kinds_from, bad_place, good_attributes, good_categories, good_configs, good_kinds, good_rules};
ghost use Rattle.un_schema.specs.SchemaFaults.{OnBadSchema};

use crate::configs::{config_list, items, name_list};
use crate::kind::Kind;
use crate::kinds::kind_list;
use crate::name::Name;
use crate::place::Place;
use crate::raw::RawSchema;
use crate::rule_list::RuleList;
use crate::rules::rule_list;
use crate::schema::Schema;
use crate::schema_fault::{MemberFault, SchemaFault};
use crate::table::NamedConfig;
use std::alloc::Global;

/// The names of the attributes, or the first bad place among them.
pub(crate) fn attributes(alloc: Global, raw: &RawSchema) -> Result<Vec<Name>, SchemaFault>
    ensures ok { IfOk result (λ names. names.items ≡ items_of raw.now.attributes) }
    ensures good { OnOk result (good_attributes raw.now ≡ true) }
    ensures bad { IfErr result (λ fault. OnBadSchema fault (λ place. bad_place raw.now ≡ Some place)) }
{
    match name_list(alloc, &raw.attributes) {
        Ok(names) => Ok(names),
        Err(MemberFault::Bad) => Err(SchemaFault::BadSchema {
            place: Place::Attributes,
        }),
        Err(MemberFault::Memory) => Err(SchemaFault::Memory),
    }
}

/// The names of the categories, or the first bad place among them.
pub(crate) fn categories(alloc: Global, raw: &RawSchema) -> Result<Vec<Name>, SchemaFault>
    requires attributes { good_attributes raw.now ≡ true }
    ensures ok { IfOk result (λ names. names.items ≡ items_of raw.now.categories) }
    ensures few { IfOk result (λ names. length names.items ≤ 32) }
    ensures good { OnOk result (good_categories raw.now ≡ true) }
    ensures bad { IfErr result (λ fault. OnBadSchema fault (λ place. bad_place raw.now ≡ Some place)) }
{
    match name_list(alloc, &raw.categories) {
        Ok(names) => Ok(names),
        Err(MemberFault::Bad) => Err(SchemaFault::BadSchema {
            place: Place::Categories,
        }),
        Err(MemberFault::Memory) => Err(SchemaFault::Memory),
    }
}

/// The terminal configurations, or the first bad place among them.
pub(crate) fn configs(alloc: Global, raw: &RawSchema) -> Result<Vec<NamedConfig>, SchemaFault>
    requires attributes { good_attributes raw.now ≡ true }
    requires categories { good_categories raw.now ≡ true }
    ensures ok { IfOk result (λ configs. map path_set configs.items
        ≡ map config_from (items_of raw.now.configs)) }
    ensures few { OnOk result (length (items_of raw.now.configs) ≤ 64) }
    ensures good { OnOk result (good_configs raw.now ≡ true) }
    ensures bad { IfErr result (λ fault. OnBadSchema fault (λ place. bad_place raw.now ≡ Some place)) }
{
    match config_list(alloc, &raw.configs) {
        Ok(configs) => Ok(configs),
        Err(MemberFault::Bad) => Err(SchemaFault::BadSchema {
            place: Place::Configs,
        }),
        Err(MemberFault::Memory) => Err(SchemaFault::Memory),
    }
}

// The kinds, over the categories as they are kept and the configurations as they are given.
fn own_kinds(alloc: Global, raw: &RawSchema, categories: &[Name]) -> Result<Vec<Kind>, MemberFault>
    requires same { categories.now ≡ items_of raw.now.categories }
    requires few_categories { length categories.now ≤ 32 }
    requires few_configs { length (items_of raw.now.configs) ≤ 64 }
    ensures ok { IfOk result (λ kinds. kinds.items
        ≡ map (kind_from (items_of raw.now.categories) (items_of raw.now.configs)) (items_of raw.now.kinds)) }
    ensures good { OnOk result (good_kinds raw.now ≡ true) }
    ensures bad { IsErrOf result MemberFault.Bad → good_kinds raw.now ≡ false }
{
    kind_list(alloc, &raw.kinds, categories, items(&raw.configs))
}

/// The kinds, or the first bad place among them.
pub(crate) fn kinds(
    alloc: Global,
    raw: &RawSchema,
    categories: &[Name],
) -> Result<Vec<Kind>, SchemaFault>
    requires same { categories.now ≡ items_of raw.now.categories }
    requires few_categories { length categories.now ≤ 32 }
    requires few_configs { length (items_of raw.now.configs) ≤ 64 }
    requires attributes { good_attributes raw.now ≡ true }
    requires categories { good_categories raw.now ≡ true }
    requires configs { good_configs raw.now ≡ true }
    ensures ok { IfOk result (λ kinds. kinds.items
        ≡ map (kind_from (items_of raw.now.categories) (items_of raw.now.configs)) (items_of raw.now.kinds)) }
    ensures good { OnOk result (good_kinds raw.now ≡ true) }
    ensures bad { IfErr result (λ fault. OnBadSchema fault (λ place. bad_place raw.now ≡ Some place)) }
{
    match own_kinds(alloc, raw, categories) {
        Ok(kinds) => Ok(kinds),
        Err(MemberFault::Bad) => Err(SchemaFault::BadSchema {
            place: Place::Kinds,
        }),
        Err(MemberFault::Memory) => Err(SchemaFault::Memory),
    }
}

fn own_rules(alloc: Global, raw: &RawSchema, bare: &Schema) -> Result<RuleList, MemberFault>
    requires same { bare.now ≡ kinds_from raw.now }
    ensures ok { IfOk result (λ rules. rules
        ≡ filter_map (rule_from raw.now.format (kinds_from raw.now)) (items_of raw.now.rules)) }
    ensures few { IfOk result (λ rules. length rules ≤ 4096) }
    ensures fit { IfOk result (λ rules. All (λ rule. IsTrue (fits (kinds_from raw.now) rule)) rules) }
    ensures good { OnOk result (good_rules raw.now ≡ true) }
    ensures bad { IsErrOf result MemberFault.Bad → good_rules raw.now ≡ false }
{
    rule_list(alloc, bare, raw.format, &raw.rules)
}

/// The rules, or the first bad place among them.
pub(crate) fn rules(alloc: Global, raw: &RawSchema, bare: &Schema) -> Result<RuleList, SchemaFault>
    requires same { bare.now ≡ kinds_from raw.now }
    requires attributes { good_attributes raw.now ≡ true }
    requires categories { good_categories raw.now ≡ true }
    requires configs { good_configs raw.now ≡ true }
    requires kinds { good_kinds raw.now ≡ true }
    ensures ok { IfOk result (λ rules. rules
        ≡ filter_map (rule_from raw.now.format (kinds_from raw.now)) (items_of raw.now.rules)) }
    ensures few { IfOk result (λ rules. length rules ≤ 4096) }
    ensures fit { IfOk result (λ rules. All (λ rule. IsTrue (fits (kinds_from raw.now) rule)) rules) }
    ensures good { OnOk result (good_rules raw.now ≡ true) }
    ensures bad { IfErr result (λ fault. OnBadSchema fault (λ place. bad_place raw.now ≡ Some place)) }
{
    match own_rules(alloc, raw, bare) {
        Ok(rules) => Ok(rules),
        Err(MemberFault::Bad) => Err(SchemaFault::BadSchema {
            place: Place::Rules,
        }),
        Err(MemberFault::Memory) => Err(SchemaFault::Memory),
    }
}
