//! The edits that a batch may have. For each word, a function reads its members in order.
ghost use Rattle.std.specs.Prelude.{◌≡◌, [], Ok, IfOk, IfErr};
ghost use Rattle.serde_json.specs.View.{view};
ghost use Rattle.un_json.specs.Rows.{Blames};
ghost use Rattle.un_json.specs.Table.{edit_answer};
ghost use Rattle.un_ask.specs.declared.word.EditWord.TheVariants as edits;

use crate::attrs::NamedValues;
use crate::fault::ReadFault;
use crate::form::{no_others, optional, required};
use crate::list::{Ends, PortForm, Vertices};
use crate::scalar::{Base, Direction, Id, Named, Noted, Terminal};
use serde_json::Value;
use std::alloc::Global;
use un_ask::{Edit, EditWord, NamedAttrs, Place};
use un_defs::{Flow, Note};

fn read_insert(alloc: Global, object: &Value) -> Result<Edit, ReadFault>
    ensures ok { IfOk result (λ edit. edit_answer edits.Insert (view object.now) ≡ Ok edit) }
    ensures err { IfErr result (λ e. Blames e (edit_answer edits.Insert (view object.now))) }
{
    let kind = required::<Named>(alloc, object, Place::Kind)?;
    let points = required::<Vertices>(alloc, object, Place::Points)?;
    let attrs = optional::<NamedValues>(alloc, object, Place::Attrs, no_attrs(alloc))?;
    let flow = optional::<Direction>(alloc, object, Place::Flow, Flow::Both)?;
    let ends = optional::<Ends>(alloc, object, Place::Ends, [0, 0])?;
    let note = optional::<Noted>(alloc, object, Place::Note, no_note(alloc))?;
    no_others(
        object,
        &[
            Place::Do,
            Place::Kind,
            Place::Points,
            Place::Attrs,
            Place::Flow,
            Place::Ends,
            Place::Note,
        ],
    )?;
    Ok(Edit::Insert {
        kind,
        points,
        attrs,
        flow,
        ends,
        note,
    })
}

fn read_reshape(alloc: Global, object: &Value) -> Result<Edit, ReadFault>
    ensures ok { IfOk result (λ edit. edit_answer edits.Reshape (view object.now) ≡ Ok edit) }
    ensures err { IfErr result (λ e. Blames e (edit_answer edits.Reshape (view object.now))) }
{
    let id = required::<Id>(alloc, object, Place::Id)?;
    let base = required::<Base>(alloc, object, Place::Base)?;
    let points = required::<Vertices>(alloc, object, Place::Points)?;
    no_others(object, &[Place::Do, Place::Id, Place::Base, Place::Points])?;
    Ok(Edit::Reshape { id, base, points })
}

fn read_attrs(alloc: Global, object: &Value) -> Result<Edit, ReadFault>
    ensures ok { IfOk result (λ edit. edit_answer edits.Attrs (view object.now) ≡ Ok edit) }
    ensures err { IfErr result (λ e. Blames e (edit_answer edits.Attrs (view object.now))) }
{
    let id = required::<Id>(alloc, object, Place::Id)?;
    let base = required::<Base>(alloc, object, Place::Base)?;
    let attrs = required::<NamedValues>(alloc, object, Place::Attrs)?;
    no_others(object, &[Place::Do, Place::Id, Place::Base, Place::Attrs])?;
    Ok(Edit::Attrs { id, base, attrs })
}

fn read_kind(alloc: Global, object: &Value) -> Result<Edit, ReadFault>
    ensures ok { IfOk result (λ edit. edit_answer edits.Kind (view object.now) ≡ Ok edit) }
    ensures err { IfErr result (λ e. Blames e (edit_answer edits.Kind (view object.now))) }
{
    let id = required::<Id>(alloc, object, Place::Id)?;
    let base = required::<Base>(alloc, object, Place::Base)?;
    let kind = required::<Named>(alloc, object, Place::Kind)?;
    no_others(object, &[Place::Do, Place::Id, Place::Base, Place::Kind])?;
    Ok(Edit::Kind { id, base, kind })
}

fn read_path(alloc: Global, object: &Value) -> Result<Edit, ReadFault>
    ensures ok { IfOk result (λ edit. edit_answer edits.Path (view object.now) ≡ Ok edit) }
    ensures err { IfErr result (λ e. Blames e (edit_answer edits.Path (view object.now))) }
{
    let id = required::<Id>(alloc, object, Place::Id)?;
    let base = required::<Base>(alloc, object, Place::Base)?;
    let path = required::<Named>(alloc, object, Place::Path)?;
    no_others(object, &[Place::Do, Place::Id, Place::Base, Place::Path])?;
    Ok(Edit::Path { id, base, path })
}

fn read_flow(alloc: Global, object: &Value) -> Result<Edit, ReadFault>
    ensures ok { IfOk result (λ edit. edit_answer edits.Flow (view object.now) ≡ Ok edit) }
    ensures err { IfErr result (λ e. Blames e (edit_answer edits.Flow (view object.now))) }
{
    let id = required::<Id>(alloc, object, Place::Id)?;
    let base = required::<Base>(alloc, object, Place::Base)?;
    let flow = required::<Direction>(alloc, object, Place::Flow)?;
    no_others(object, &[Place::Do, Place::Id, Place::Base, Place::Flow])?;
    Ok(Edit::Flow { id, base, flow })
}

fn read_ends(alloc: Global, object: &Value) -> Result<Edit, ReadFault>
    ensures ok { IfOk result (λ edit. edit_answer edits.Ends (view object.now) ≡ Ok edit) }
    ensures err { IfErr result (λ e. Blames e (edit_answer edits.Ends (view object.now))) }
{
    let id = required::<Id>(alloc, object, Place::Id)?;
    let base = required::<Base>(alloc, object, Place::Base)?;
    let ends = required::<Ends>(alloc, object, Place::Ends)?;
    no_others(object, &[Place::Do, Place::Id, Place::Base, Place::Ends])?;
    Ok(Edit::Ends { id, base, ends })
}

fn read_note(alloc: Global, object: &Value) -> Result<Edit, ReadFault>
    ensures ok { IfOk result (λ edit. edit_answer edits.Note (view object.now) ≡ Ok edit) }
    ensures err { IfErr result (λ e. Blames e (edit_answer edits.Note (view object.now))) }
{
    let id = required::<Id>(alloc, object, Place::Id)?;
    let base = required::<Base>(alloc, object, Place::Base)?;
    let note = required::<Noted>(alloc, object, Place::Note)?;
    no_others(object, &[Place::Do, Place::Id, Place::Base, Place::Note])?;
    Ok(Edit::Note { id, base, note })
}

fn read_delete(alloc: Global, object: &Value) -> Result<Edit, ReadFault>
    ensures ok { IfOk result (λ edit. edit_answer edits.Delete (view object.now) ≡ Ok edit) }
    ensures err { IfErr result (λ e. Blames e (edit_answer edits.Delete (view object.now))) }
{
    let id = required::<Id>(alloc, object, Place::Id)?;
    let base = required::<Base>(alloc, object, Place::Base)?;
    no_others(object, &[Place::Do, Place::Id, Place::Base])?;
    Ok(Edit::Delete { id, base })
}

fn read_connect(alloc: Global, object: &Value) -> Result<Edit, ReadFault>
    ensures ok { IfOk result (λ edit. edit_answer edits.Connect (view object.now) ≡ Ok edit) }
    ensures err { IfErr result (λ e. Blames e (edit_answer edits.Connect (view object.now))) }
{
    let from = required::<PortForm>(alloc, object, Place::From)?;
    let to = required::<PortForm>(alloc, object, Place::To)?;
    no_others(object, &[Place::Do, Place::From, Place::To])?;
    Ok(Edit::Connect { from, to })
}

fn read_contain(alloc: Global, object: &Value) -> Result<Edit, ReadFault>
    ensures ok { IfOk result (λ edit. edit_answer edits.Contain (view object.now) ≡ Ok edit) }
    ensures err { IfErr result (λ e. Blames e (edit_answer edits.Contain (view object.now))) }
{
    let container = required::<Id>(alloc, object, Place::Container)?;
    let content = required::<Id>(alloc, object, Place::Content)?;
    no_others(object, &[Place::Do, Place::Container, Place::Content])?;
    Ok(Edit::Contain { container, content })
}

fn read_attach(alloc: Global, object: &Value) -> Result<Edit, ReadFault>
    ensures ok { IfOk result (λ edit. edit_answer edits.Attach (view object.now) ≡ Ok edit) }
    ensures err { IfErr result (λ e. Blames e (edit_answer edits.Attach (view object.now))) }
{
    let structure = required::<Id>(alloc, object, Place::Structure)?;
    let content = required::<Id>(alloc, object, Place::Content)?;
    no_others(object, &[Place::Do, Place::Structure, Place::Content])?;
    Ok(Edit::Attach { structure, content })
}

fn read_detach(alloc: Global, object: &Value) -> Result<Edit, ReadFault>
    ensures ok { IfOk result (λ edit. edit_answer edits.Detach (view object.now) ≡ Ok edit) }
    ensures err { IfErr result (λ e. Blames e (edit_answer edits.Detach (view object.now))) }
{
    let assoc = required::<Id>(alloc, object, Place::Assoc)?;
    no_others(object, &[Place::Do, Place::Assoc])?;
    Ok(Edit::Detach { assoc })
}

fn read_controller(alloc: Global, object: &Value) -> Result<Edit, ReadFault>
    ensures ok { IfOk result (λ edit. edit_answer edits.Controller (view object.now) ≡ Ok edit) }
    ensures err { IfErr result (λ e. Blames e (edit_answer edits.Controller (view object.now))) }
{
    let id = required::<Id>(alloc, object, Place::Id)?;
    let terminal = required::<Terminal>(alloc, object, Place::Terminal)?;
    let tier = required::<Named>(alloc, object, Place::Tier)?;
    let subnet = required::<Named>(alloc, object, Place::Subnet)?;
    no_others(
        object,
        &[
            Place::Do,
            Place::Id,
            Place::Terminal,
            Place::Tier,
            Place::Subnet,
        ],
    )?;
    Ok(Edit::Controller {
        id,
        terminal,
        tier,
        subnet,
    })
}

fn read_uncontroller(alloc: Global, object: &Value) -> Result<Edit, ReadFault>
    ensures ok { IfOk result (λ edit. edit_answer edits.Uncontroller (view object.now) ≡ Ok edit) }
    ensures err { IfErr result (λ e. Blames e (edit_answer edits.Uncontroller (view object.now))) }
{
    let id = required::<Id>(alloc, object, Place::Id)?;
    let terminal = required::<Terminal>(alloc, object, Place::Terminal)?;
    no_others(object, &[Place::Do, Place::Id, Place::Terminal])?;
    Ok(Edit::Uncontroller { id, terminal })
}

/// Reads an object as the edit of this word.
pub(crate) fn read_edit(alloc: Global, word: EditWord, object: &Value) -> Result<Edit, ReadFault>
    ensures ok { IfOk result (λ edit. edit_answer word (view object.now) ≡ Ok edit) }
    ensures err { IfErr result (λ e. Blames e (edit_answer word (view object.now))) }
{
    match word {
        EditWord::Insert => read_insert(alloc, object),
        EditWord::Reshape => read_reshape(alloc, object),
        EditWord::Attrs => read_attrs(alloc, object),
        EditWord::Kind => read_kind(alloc, object),
        EditWord::Path => read_path(alloc, object),
        EditWord::Flow => read_flow(alloc, object),
        EditWord::Ends => read_ends(alloc, object),
        EditWord::Note => read_note(alloc, object),
        EditWord::Delete => read_delete(alloc, object),
        EditWord::Connect => read_connect(alloc, object),
        EditWord::Contain => read_contain(alloc, object),
        EditWord::Attach => read_attach(alloc, object),
        EditWord::Detach => read_detach(alloc, object),
        EditWord::Controller => read_controller(alloc, object),
        EditWord::Uncontroller => read_uncontroller(alloc, object),
    }
}

fn no_attrs(alloc: Global) -> NamedAttrs
    ensures { result ≡ [] }
{
    NamedAttrs::new(Vec::new(alloc))
}

fn no_note(alloc: Global) -> Note
    ensures { result ≡ [] }
{
    match Note::new(String::new(alloc)) {
        Some(note) => note,
        None => unreachable!(),
    }
}
