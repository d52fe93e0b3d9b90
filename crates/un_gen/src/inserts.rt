//! The commands.
ghost use Rattle.std.specs.Prelude.{◌≡◌, ◌<◌, ◌∷◌, [], IsTrue, IfOk};
ghost use Rattle.un_schema.specs.Names.{is_name};
ghost use Rattle.un_ask.specs.declared.request.Command.TheVariants.{Validate};
ghost use Rattle.un_gen.specs.Generator.{point_of, inserted, joint_at, pipe_between, whole};

use std::alloc::{AllocError, Global};
use un_ask::{Command, Edit, Name, NamedAttrs};
use un_defs::{Flow, Note};
use un_geom::{Rect, Triples};

/// The insert of the joint of a place. Want of memory is the one error.
pub fn joint(alloc: Global, place: u32) -> Result<Command, AllocError>
    ensures { IfOk result (λ command. command ≡ joint_at place) }
{
    insert(alloc, "joint", vec![in alloc; point(place)]?)
}

/// The pipe from a place to another.
pub(crate) fn pipe(alloc: Global, from: u32, to: u32) -> Result<Command, AllocError>
    ensures { IfOk result (λ command. command ≡ pipe_between from to) }
{
    insert(alloc, "pipe", vec![in alloc; point(from), point(to)]?)
}

/// The validation of all that is generated.
pub fn validation() -> Command
    ensures { result ≡ Validate whole }
{
    match Rect::new(0, 0, 1_000_000_000, 1_000_000_000) {
        Some(extent) => Command::Validate { extent },
        None => unreachable!(),
    }
}

/// The insert of a feature, with what a request leaves to the defaults.
fn insert(alloc: Global, kind: &str, points: Vec<[i64; 3]>) -> Result<Command, AllocError>
    requires { IsTrue (is_name kind.now) }
    ensures { IfOk result (λ command. command ≡ inserted kind.now points.items) }
{
    Ok(Command::Edit(Edit::Insert {
        kind: name(alloc, kind)?,
        points: Triples::new(points),
        attrs: no_attrs(alloc),
        flow: Flow::Both,
        ends: [0, 0],
        note: no_note(alloc),
    }))
}

/// The name with a text that has its form.
fn name(alloc: Global, text: &str) -> Result<Name, AllocError>
    requires { IsTrue (is_name text.now) }
    ensures { IfOk result (λ name. name ≡ text.now) }
{
    match Name::new(String::from_str(alloc, text)?) {
        Some(name) => Ok(name),
        None => unreachable!(),
    }
}

fn no_attrs(alloc: Global) -> NamedAttrs
    ensures { result ≡ [] }
{
    NamedAttrs::new(Vec::new(alloc))
}

fn no_note(alloc: Global) -> Note
    ensures { result ≡ [] }
{
    match Note::new(String::new(alloc)) {
        Some(note) => note,
        None => unreachable!(),
    }
}

/// The point of a place.
fn point(place: u32) -> [i64; 3]
    ensures { result ≡ point_of place }
{
    let x = 1_000 * u64::from(place % 20);
    let y = 1_000 * u64::from(place / 20);
    [x as i64, y as i64, 0]
}
