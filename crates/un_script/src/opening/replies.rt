//! Replies that take no memory, and the refusals that every handler of lines has.
ghost use Rattle.std.specs.Prelude.{◌≡◌, ◌≢◌, ℕ, ◌+◌, ◌≤◌, List, [], ◌∷◌, ◌++◌, None, OnOk, OnErr, vec_len, vec_capacity};
ghost use Rattle.un_json.specs.Requests.{fault_reply};
ghost use Rattle.un_replies.specs.Commands.{IsOfCommand, HasFewIds};
ghost use Rattle.un_replies.specs.Replies.{print};
ghost use Rattle.un_script.specs.Opening.{bad_schema};

use std::alloc::AllocError;
use un_ask::{Place, Refusal, Reply};
use un_json::ReadFault;
use un_lines::REPLY_ROOM;
use un_replies::print_command_reply;

/// Appends the reply to a command, or a refusal, with its line end. It takes no memory.
pub(crate) fn print_line(reply: &Reply, out: &mut Vec<u8>)
    requires command { IsOfCommand reply.now }
    requires few { HasFewIds reply.now }
    requires room { vec_len out.old + REPLY_ROOM ≤ vec_capacity out.old }
    ensures text { out.new.items ≡ out.old.items ++ (print reply.now ++ 10 ∷ []) }
    ensures capacity { vec_capacity out.old ≤ vec_capacity out.new }
{
    print_command_reply(reply, out);
    let _ = out.push(b'\n');
}

/// A refusal that names no edit and no version.
pub(crate) fn refused(refusal: Refusal) -> Reply
    ensures { result ≡ Reply.Refused refusal None 0 }
{
    Reply::Refused {
        refusal,
        edit: None,
        version: 0,
    }
}

/// Appends the refusal of a first line that is no schema, with the first bad place.
pub(crate) fn print_bad_schema(place: Place, out: &mut Vec<u8>)
    requires { vec_len out.old + REPLY_ROOM ≤ vec_capacity out.old }
    ensures text { out.new.items ≡ out.old.items ++ (print (bad_schema place) ++ 10 ∷ []) }
    ensures capacity { vec_capacity out.old ≤ vec_capacity out.new }
{
    print_line(&refused(Refusal::BadSchema { place }), out);
}

/// Appends the refusal of a later line that could not be read. The error is want of memory, and changes nothing.
pub(crate) fn refuse(fault: ReadFault, out: &mut Vec<u8>) -> Result<(), AllocError>
    requires { vec_len out.old + REPLY_ROOM ≤ vec_capacity out.old }
    ensures reply { OnOk result (out.new.items ≡ out.old.items ++ (print (fault_reply fault) ++ 10 ∷ [])) }
    ensures err { OnErr result ((fault ≡ ReadFault.Memory) × (out.new.items ≡ out.old.items)) }
    ensures capacity { vec_capacity out.old ≤ vec_capacity out.new }
    ensures fault { OnOk result (fault ≢ ReadFault.Memory) }
{
    let reply = fault.reply()?;
    print_line(&reply, out);
    Ok(())
}
