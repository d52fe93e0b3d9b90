//! Terminal configurations.
ghost use Rattle.std.specs.Prelude.{◌≡◌, IfOk};
ghost use Rattle.serde_json.specs.View.{view};
ghost use Rattle.un_schema_json.specs.Parts.{terminals_of, path_of, config_of, config_parts};

use crate::list::{read_text, read_texts, read_up_to};
use serde_json::Value;
use std::alloc::{AllocError, Global};
use un_json::form::Form;
use un_json::list::read_list;
use un_json::scalar::small_from_to;
use un_schema::{Items, RawConfig, RawPath};

/// Two terminals that a path joins.
pub(crate) struct TerminalPair;

impl Form for TerminalPair {
    ghost use Rattle.un_schema_json.specs.Parts.{terminals_of};

    type Out = [u8; 2];

    ghost form = { terminals_of };

    fn read(_alloc: Global, value: &Value) -> Result<Option<[u8; 2]>, AllocError> {
        Ok(read_terminals(value))
    }
}

#[tactic(auto, using(crate::proofs::Lengths::not_terminals))]
fn read_terminals(value: &Value) -> Option<[u8; 2]>
    ensures { result ≡ terminals_of (view value.now) }
{
    let [first, second] = value.as_array()?.as_slice() else {
        return None;
    };
    Some([small_from_to(1, 8, first)?, small_from_to(1, 8, second)?])
}

/// A path of a configuration.
pub(crate) struct PathForm;

impl Form for PathForm {
    ghost use Rattle.un_schema_json.specs.Parts.{path_of};

    type Out = RawPath;

    ghost form = { path_of };

    fn read(alloc: Global, value: &Value) -> Result<Option<RawPath>, AllocError> {
        read_path(alloc, value)
    }
}

#[tactic(auto, using(crate::proofs::Lengths::not_path))]
fn read_path(alloc: Global, value: &Value) -> Result<Option<RawPath>, AllocError>
    ensures { IfOk result (λ path. path ≡ path_of (view value.now)) }
{
    let Some(items) = value.as_array() else {
        return Ok(None);
    };
    let [name, pairs] = items.as_slice() else {
        return Ok(None);
    };
    let Some(name) = read_text(alloc, name)? else {
        return Ok(None);
    };
    match read_list::<TerminalPair>(alloc, pairs)? {
        Some(pairs) => Ok(Some(RawPath {
            name,
            pairs: Items::new(pairs),
        })),
        None => Ok(None),
    }
}

/// A terminal configuration.
pub(crate) struct ConfigForm;

impl Form for ConfigForm {
    ghost use Rattle.un_schema_json.specs.Parts.{config_of};

    type Out = RawConfig;

    ghost form = { config_of };

    fn read(alloc: Global, value: &Value) -> Result<Option<RawConfig>, AllocError> {
        read_config(alloc, value)
    }
}

#[tactic(auto, using(crate::proofs::Lengths::not_config))]
fn read_config(alloc: Global, value: &Value) -> Result<Option<RawConfig>, AllocError>
    ensures { IfOk result (λ config. config ≡ config_of (view value.now)) }
{
    let Some(items) = value.as_array() else {
        return Ok(None);
    };
    let [name, directional, terminals, paths] = items.as_slice() else {
        return Ok(None);
    };
    read_parts(alloc, name, directional, terminals, paths)
}

fn read_parts(
    alloc: Global,
    name: &Value,
    directional: &Value,
    terminals: &Value,
    paths: &Value,
) -> Result<Option<RawConfig>, AllocError>
    ensures { IfOk result (λ config. config
        ≡ config_parts (view name.now) (view directional.now) (view terminals.now) (view paths.now)) }
{
    let Some(name) = read_text(alloc, name)? else {
        return Ok(None);
    };
    let Some(directional) = directional.as_bool() else {
        return Ok(None);
    };
    let Some(terminals) = read_texts(alloc, 8, terminals)? else {
        return Ok(None);
    };
    match read_up_to::<PathForm>(alloc, 32, paths)? {
        Some(paths) => Ok(Some(RawConfig {
            name,
            directional,
            terminals,
            paths,
        })),
        None => Ok(None),
    }
}
