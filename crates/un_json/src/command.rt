//! Commands, by their word.
ghost use Rattle.std.specs.Prelude.{◌≡◌, Ok, IfOk, IfErr};
ghost use Rattle.serde_json.specs.View.{view};
ghost use Rattle.un_json.specs.Rows.{Blames};
ghost use Rattle.un_json.specs.Table.{edit_of, command_answer};
ghost use Rattle.un_json.specs.declared.words.CommandWord.TheVariants as does;

use crate::edit::read_edit;
use crate::fault::ReadFault;
use crate::form::{Form, no_others, required};
use crate::list::{Extent, read_list};
use crate::rule::RuleForm;
use crate::scalar::Named;
use crate::words::CommandWord;
use serde_json::Value;
use std::alloc::{AllocError, Global};
use un_ask::{Command, Edit, EditWord, Edits, Place};

/// An element of a batch.
struct Element;

impl Form for Element {
    ghost use Rattle.un_json.specs.Table.{edit_of};

    type Out = Edit;

    ghost form = { edit_of };

    fn read(alloc: Global, value: &Value) -> Result<Option<Edit>, AllocError> {
        read_element(alloc, value)
    }
}

fn read_element(alloc: Global, value: &Value) -> Result<Option<Edit>, AllocError>
    ensures { IfOk result (λ edit. edit ≡ edit_of (view value.now)) }
{
    let Some(word) = value
        .get(Place::Do.text())
        .and_then(Value::as_str)
        .and_then(EditWord::named)
    else {
        return Ok(None);
    };
    match read_edit(alloc, word, value) {
        Ok(edit) => Ok(Some(edit)),
        Err(ReadFault::Memory) => Err(AllocError),
        Err(ReadFault::BadRequest { .. }) => Ok(None),
        Err(ReadFault::NotJson) => Ok(None),
    }
}

/// The edits of a batch.
struct Batched;

impl Form for Batched {
    ghost use Rattle.un_json.specs.Table.{edits_of};

    type Out = Edits;

    ghost form = { edits_of };

    fn read(alloc: Global, value: &Value) -> Result<Option<Edits>, AllocError> {
        match read_list::<Element>(alloc, value)? {
            Some(edits) => Ok(Edits::new(edits)),
            None => Ok(None),
        }
    }
}

fn read_batch(alloc: Global, object: &Value) -> Result<Command, ReadFault>
    ensures ok { IfOk result (λ command. command_answer does.Batch (view object.now) ≡ Ok command) }
    ensures err { IfErr result (λ e. Blames e (command_answer does.Batch (view object.now))) }
{
    let edits = required::<Batched>(alloc, object, Place::Edits)?;
    no_others(object, &[Place::Do, Place::Edits])?;
    Ok(Command::Batch(edits))
}

fn read_validate(alloc: Global, object: &Value) -> Result<Command, ReadFault>
    ensures ok { IfOk result (λ command. command_answer does.Validate (view object.now) ≡ Ok command) }
    ensures err { IfErr result (λ e. Blames e (command_answer does.Validate (view object.now))) }
{
    let extent = required::<Extent>(alloc, object, Place::Extent)?;
    no_others(object, &[Place::Do, Place::Extent])?;
    Ok(Command::Validate { extent })
}

fn read_update(alloc: Global, object: &Value) -> Result<Command, ReadFault>
    ensures ok { IfOk result (λ command. command_answer does.Update (view object.now) ≡ Ok command) }
    ensures err { IfErr result (λ e. Blames e (command_answer does.Update (view object.now))) }
{
    let tier = required::<Named>(alloc, object, Place::Tier)?;
    let subnet = required::<Named>(alloc, object, Place::Subnet)?;
    no_others(object, &[Place::Do, Place::Tier, Place::Subnet])?;
    Ok(Command::Update { tier, subnet })
}

fn read_rule_command(alloc: Global, object: &Value) -> Result<Command, ReadFault>
    ensures ok { IfOk result (λ command. command_answer does.Rule (view object.now) ≡ Ok command) }
    ensures err { IfErr result (λ e. Blames e (command_answer does.Rule (view object.now))) }
{
    let rule = required::<RuleForm>(alloc, object, Place::Rule)?;
    no_others(object, &[Place::Do, Place::Rule])?;
    Ok(Command::Rule { rule })
}

fn read_one_edit(alloc: Global, word: EditWord, object: &Value) -> Result<Command, ReadFault>
    ensures ok { IfOk result (λ command. command_answer (does.Edit word) (view object.now) ≡ Ok command) }
    ensures err { IfErr result (λ e. Blames e (command_answer (does.Edit word) (view object.now))) }
{
    let edit = read_edit(alloc, word, object)?;
    Ok(Command::Edit(edit))
}

/// Reads an object as the command of this word.
pub(crate) fn read_command(
    alloc: Global,
    word: CommandWord,
    object: &Value,
) -> Result<Command, ReadFault>
    ensures ok { IfOk result (λ command. command_answer word (view object.now) ≡ Ok command) }
    ensures err { IfErr result (λ e. Blames e (command_answer word (view object.now))) }
{
    match word {
        CommandWord::Edit(word) => read_one_edit(alloc, word, object),
        CommandWord::Batch => read_batch(alloc, object),
        CommandWord::Rule => read_rule_command(alloc, object),
        CommandWord::Validate => read_validate(alloc, object),
        CommandWord::Update => read_update(alloc, object),
    }
}
