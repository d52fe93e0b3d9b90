//! Replies as the compact text of their values.
ghost use Rattle.std.specs.Prelude.{◌≡◌, ◌+◌, ◌<◌, ◌≤◌, ◌++◌, IfOk, OnOk, OnErr, IsTrue, ◌↔◌, vec_len, vec_capacity};
ghost use Rattle.un_replies.specs.Commands.{IsOfCommand, IsOfReach, HasRefusalName, command_room};
ghost use Rattle.un_replies.specs.Replies.{print, past_around};

use crate::command::put_command;
use crate::member::follow_count;
use crate::names::names;
use crate::put::put;
use crate::query::show_query;
use crate::reach::{add_isolation, add_loops, add_result};
use json::Writer;
use std::alloc::{AllocError, Global};
use un_ask::Reply;

// Whether the reply is to a command.
#[tactic(auto, using(crate::proofs::Commands::other_reply))]
fn is_of_command(reply: &Reply) -> bool
    ensures { IsTrue result ↔ IsOfCommand reply.now }
{
    matches!(
        reply,
        Reply::Edited { .. }
            | Reply::Batch { .. }
            | Reply::Ruled { .. }
            | Reply::Validated { .. }
            | Reply::Updated { .. }
            | Reply::Refused { .. }
    )
}

// How many bytes a command's reply and a line end need at most.
#[tactic(auto, using(crate::proofs::Commands::room_of_other))]
fn room_of(reply: &Reply) -> Result<usize, AllocError>
    ensures { IfOk result (λ room. room ≡ command_room reply.now + 1) }
{
    match reply {
        Reply::Batch { ids, .. } => {
            let room = ids.as_slice().len().checked_mul(21).ok_or(AllocError)?;
            room.checked_add(129).ok_or(AllocError)
        }
        _ => Ok(513),
    }
}

// Appends the text of a command's reply.
fn add_command(reply: &Reply, out: &mut Vec<u8>) -> Result<(), AllocError>
    requires command { IsOfCommand reply.now }
    requires named { HasRefusalName reply.now }
    ensures ok { OnOk result (out.new.items ≡ out.old.items ++ print reply.now) }
    ensures room { OnOk result (vec_len out.new < vec_capacity out.new) }
    ensures err { OnErr result (out.new.items ≡ out.old.items) }
    ensures capacity { vec_capacity out.old ≤ vec_capacity out.new }
{
    let room = room_of(reply)?;
    out.reserve(room)?;
    put_command(out, reply);
    Ok(())
}

// The text of a reply that is written as tokens.
#[tactic(auto, using(un_values::proofs::Shows::text_of))]
fn written_text(alloc: Global, reply: &Reply) -> Result<Vec<u8>, AllocError>
    requires query { ¬ IsOfCommand reply.now }
    requires short { ¬ IsOfReach reply.now }
    ensures { IfOk result (λ text. text.items ≡ print reply.now) }
{
    let mut writer = Writer::new(Vec::new(alloc));
    show_query(reply, &mut writer)?;
    Ok(writer.into_inner())
}

// The text of a query's reply.
#[tactic(auto, using(crate::proofs::Commands::other_reach))]
fn query_text(alloc: Global, reply: &Reply) -> Result<Vec<u8>, AllocError>
    requires { ¬ IsOfCommand reply.now }
    ensures { IfOk result (λ text. text.items ≡ print reply.now) }
{
    let mut text = Vec::new(alloc);
    match reply {
        Reply::Traced {
            result: traced,
            version,
        } => add_result(traced, *version, &mut text)?,
        Reply::Loops { segments, version } => add_loops(segments, *version, &mut text)?,
        Reply::Isolation {
            borders,
            features,
            version,
        } => add_isolation(borders, features, *version, &mut text)?,
        _ => return written_text(alloc, reply),
    }
    Ok(text)
}

// Appends the text of a query's reply.
fn add_query(alloc: Global, reply: &Reply, out: &mut Vec<u8>) -> Result<(), AllocError>
    requires { ¬ IsOfCommand reply.now }
    ensures ok { OnOk result (out.new.items ≡ out.old.items ++ print reply.now) }
    ensures room { OnOk result (vec_len out.new < vec_capacity out.new) }
    ensures err { OnErr result (out.new.items ≡ out.old.items) }
    ensures capacity { vec_capacity out.old ≤ vec_capacity out.new }
{
    let text = query_text(alloc, reply)?;
    out.reserve(text.len() + 1)?;
    put(out, text.as_slice());
    Ok(())
}

/// Appends the text of a reply, and leaves room for a line end after it. Running out of memory changes nothing.
pub fn print_reply(alloc: Global, reply: &Reply, out: &mut Vec<u8>) -> Result<(), AllocError>
    ensures ok { OnOk result (out.new.items ≡ out.old.items ++ print reply.now) }
    ensures room { OnOk result (vec_len out.new < vec_capacity out.new) }
    ensures err { OnErr result (out.new.items ≡ out.old.items) }
    ensures capacity { vec_capacity out.old ≤ vec_capacity out.new }
{
    // For the proof alone.
    names(reply);
    if is_of_command(reply) {
        add_command(reply, out)
    } else {
        add_query(alloc, reply, out)
    }
}

/// Appends the text of the reply to a query at a past version: `past` is the text of the reply, or of the refusal, at that
/// version, and `version` is reported beside it. It leaves room for a line end after it. Running out of memory changes nothing.
#[tactic(auto, unfolding(serde_json::proofs::OnLiterals::serde_json_on_literals))]
pub fn print_past(past: &[u8], version: u64, out: &mut Vec<u8>) -> Result<(), AllocError>
    ensures ok { OnOk result (out.new.items ≡ out.old.items ++ past_around past.now version) }
    ensures room { OnOk result (vec_len out.new < vec_capacity out.new) }
    ensures err { OnErr result (out.new.items ≡ out.old.items) }
    ensures capacity { vec_capacity out.old ≤ vec_capacity out.new }
{
    // What stands round the reply has at most 53 bytes, the line end included.
    out.reserve(past.len() + 64)?;
    put(out, b"{\"ok\":\"past\",\"past\":");
    put(out, past);
    follow_count(out, "version", version);
    put(out, b"}");
    Ok(())
}
