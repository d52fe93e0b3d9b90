//! The members of a schema, each looked at and then kept.
//!
//! What may be wrong with a member is looked at before memory is taken, but for what keeping it tells anyway: whether the pairs of a
//! path are good, and whether a rule's kinds are there.

ghost use Rattle.std.specs.Prelude.{◌≡◌, ◌≤◌, ◌+◌, ◌++◌, true, false, length, map, IfOk, OnOk, IsErrOf};
ghost use Rattle.std.specs.List.{list_all};
ghost use Rattle.un_terms.specs.Config.{pair_of, paths_of, AreEnds};
ghost use Rattle.un_schema.specs.Catalog.{path_set};
ghost use Rattle.un_schema.specs.Lists.{are_named, items_of, has};
ghost use Rattle.un_schema.specs.Raw.{is_config, are_configs, config_from};

use crate::items::Items;
use crate::name::Name;
use crate::named::{are_named, own_names};
use crate::raw::{RawConfig, RawPath};
use crate::schema_fault::MemberFault;
use crate::table::NamedConfig;
use std::alloc::{AllocError, Global};
use un_conds::Text;
use un_terms::TermConfig;

/// The elements of a member, and none where it is missing.
pub(crate) fn items<T>(member: &Option<Items<T>>) -> &[T]
    ensures { result.now ≡ items_of member.now }
{
    match member {
        Some(items) => items.as_slice(),
        None => &[],
    }
}

/// At most 32 distinct names.
#[tactic(auto, using(crate::proofs::Distinct::named_lists))]
pub(crate) fn name_list(
    alloc: Global,
    member: &Option<Items<Text>>,
) -> Result<Vec<Name>, MemberFault>
    ensures ok { IfOk result (λ names. names.items ≡ items_of member.now) }
    ensures few { IfOk result (λ names. length names.items ≤ 32) }
    ensures good { OnOk result (has (are_named (λ name. name) 0 32) member.now ≡ true) }
    ensures bad { IsErrOf result MemberFault.Bad → has (are_named (λ name. name) 0 32) member.now ≡ false }
{
    let Some(texts) = member else {
        return Err(MemberFault::Bad);
    };
    if !are_named(0, 32, texts.as_slice()) {
        return Err(MemberFault::Bad);
    }
    Ok(own_names(alloc, texts.as_slice())?)
}

// Appends the pairs of a path, and tells where it ends.
fn add_path(pairs: &mut Vec<[u8; 2]>, more: &[[u8; 2]]) -> Result<usize, AllocError>
    ensures items { OnOk result (pairs.new.items ≡ pairs.old.items ++ more.now) }
    ensures end { IfOk result (λ end. end ≡ length pairs.old.items + length more.now) }
{
    pairs.extend_from_slice(more)?;
    Ok(pairs.len())
}

// The pairs of all paths, one path after another, and how many there are at the end of each.
fn pairs_and_ends(
    alloc: Global,
    paths: &[RawPath],
) -> Result<(Vec<[u8; 2]>, Vec<usize>), AllocError>
    ensures paths { IfOk result (λ r. paths_of 0 r.0.items r.1.items
        ≡ map (λ path. map pair_of path.pairs) paths.now) }
    ensures ends { IfOk result (λ r. AreEnds 0 (length r.0.items) r.1.items) }
    ensures len { IfOk result (λ r. length r.1.items ≡ length paths.now) }
{
    let mut pairs = Vec::new(alloc);
    let mut ends = Vec::new(alloc);
    for path in paths {
        let end = add_path(&mut pairs, path.pairs.as_slice())?;
        ends.push(end)?;
    }
    Ok((pairs, ends))
}

#[tactic(auto, using(crate::proofs::Distinct::named_lists))]
fn own_config(alloc: Global, raw: &RawConfig) -> Result<NamedConfig, MemberFault>
    ensures ok { IfOk result (λ config. path_set config ≡ config_from raw.now) }
    ensures good { OnOk result (is_config raw.now ≡ true) }
    ensures bad { IsErrOf result MemberFault.Bad → is_config raw.now ≡ false }
{
    if !are_named(2, 8, raw.terminals.as_slice()) || !are_named(1, 32, raw.paths.as_slice()) {
        return Err(MemberFault::Bad);
    }
    let (pairs, ends) = pairs_and_ends(alloc, raw.paths.as_slice())?;
    let terminals = raw.terminals.as_slice().len() as u8;
    let config = TermConfig::new(
        alloc,
        raw.directional,
        terminals,
        pairs.as_slice(),
        ends.as_slice(),
    )?;
    let paths = own_names(alloc, raw.paths.as_slice())?;
    Ok(NamedConfig { config, paths })
}

fn own_configs(alloc: Global, raws: &[RawConfig]) -> Result<Vec<NamedConfig>, MemberFault>
    ensures ok { IfOk result (λ configs. map path_set configs.items ≡ map config_from raws.now) }
    ensures good { OnOk result (list_all is_config raws.now ≡ true) }
    ensures bad { IsErrOf result MemberFault.Bad → list_all is_config raws.now ≡ false }
{
    let mut configs = Vec::with_capacity(alloc, raws.len())?;
    for raw in raws {
        configs.push(own_config(alloc, raw)?)?;
    }
    Ok(configs)
}

/// At most 64 configurations.
pub(crate) fn config_list(
    alloc: Global,
    member: &Option<Items<RawConfig>>,
) -> Result<Vec<NamedConfig>, MemberFault>
    ensures ok { IfOk result (λ configs. map path_set configs.items ≡ map config_from (items_of member.now)) }
    ensures few { OnOk result (length (items_of member.now) ≤ 64) }
    ensures good { OnOk result (has are_configs member.now ≡ true) }
    ensures bad { IsErrOf result MemberFault.Bad → has are_configs member.now ≡ false }
{
    let Some(raws) = member else {
        return Err(MemberFault::Bad);
    };
    if !are_named(0, 64, raws.as_slice()) {
        return Err(MemberFault::Bad);
    }
    own_configs(alloc, raws.as_slice())
}
