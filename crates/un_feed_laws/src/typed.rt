//! What holds of each command that code can hold.

ghost use Rattle.std.specs.Prelude.{All};
ghost use Rattle.un_feed_laws.specs.Typed.{IsTyped, IsTypedEdit};

use un_ask::Command;
use un_defs::Edit;

/// A command is typed, whatever is checked before it is done.
pub fn commands_are_typed(command: &Command)
    ensures { IsTyped command.now }
{
    match command {
        Command::Edit(edit) => edit_is_typed(edit),
        Command::Batch(edits) => edits_are_typed(edits.as_slice()),
        _ => {}
    }
}

// The same of each edit of a batch.
fn edits_are_typed(edits: &[Edit])
    ensures { All IsTypedEdit edits.now }
{
    for edit in edits {
        edit_is_typed(edit);
    }
}

// A subnetwork's name has the form of a name.
fn edit_is_typed(edit: &Edit)
    ensures { IsTypedEdit edit.now }
{
    if let Edit::Controller { subnet, .. } = edit {
        // For the proof alone.
        let _text = subnet.text();
    }
}
