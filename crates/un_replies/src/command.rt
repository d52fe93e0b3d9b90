//! The replies to commands.
ghost use Rattle.std.specs.Prelude.{◌≡◌, ℕ, ◌+◌, ◌*◌, ◌<◌, ◌≤◌, List, [], ◌∷◌, ◌++◌, codes, length, IfOk, OnOk, OnErr, vec_len, vec_capacity};
ghost use Rattle.json.specs.Print.{escape};
ghost use Rattle.un_ask.specs.declared.reply.Reply.TheVariants.{Edited, Batch, Ruled, Validated, Updated};
ghost use Rattle.un_replies.specs.Commands.{IsOfCommand, HasRefusalName, HasFewIds, command_room};
ghost use Rattle.un_replies.specs.Replies.{print, stored_members, stored_status};

use crate::member::{follow_count, follow_counts, follow_string, open_count, open_counts};
use crate::names::names;
use crate::put::put;
use crate::refusal::put_refusal;
use un_ask::{EditWord, Reply, StoredSubnet};

/// How many bytes are reserved for the reply to a command.
pub const COMMAND_REPLY_ROOM: usize = 8_192;

#[tactic(auto, using(crate::proofs::Plain::edit_text_plain, crate::proofs::Plain::edit_text_short), unfolding(serde_json::proofs::OnLiterals::serde_json_on_literals))]
fn put_edited(out: &mut Vec<u8>, areas: [u64; 2], id: u64, word: EditWord, version: u64)
    requires { vec_len out.old + 256 ≤ vec_capacity out.old }
    ensures text { out.new.items ≡ out.old.items ++ print (Edited areas id word version) }
    ensures len { vec_len out.new ≤ vec_len out.old + 256 }
    ensures capacity { vec_capacity out.old ≤ vec_capacity out.new }
{
    open_counts(out, "areas", &areas);
    follow_count(out, "id", id);
    follow_string(out, "ok", word.text());
    follow_count(out, "version", version);
    put(out, b"}");
}

#[tactic(auto, unfolding(serde_json::proofs::OnLiterals::serde_json_on_literals))]
fn put_batch(out: &mut Vec<u8>, areas: [u64; 2], ids: &[u64], version: u64)
    requires { vec_len out.old + 21 * length ids.now + 128 ≤ vec_capacity out.old }
    ensures text { out.new.items ≡ out.old.items ++ print (Batch areas ids.now version) }
    ensures len { vec_len out.new ≤ vec_len out.old + 21 * length ids.now + 128 }
    ensures capacity { vec_capacity out.old ≤ vec_capacity out.new }
{
    open_counts(out, "areas", &areas);
    follow_counts(out, "ids", ids);
    follow_string(out, "ok", "batch");
    follow_count(out, "version", version);
    put(out, b"}");
}

#[tactic(auto, unfolding(serde_json::proofs::OnLiterals::serde_json_on_literals))]
fn put_ruled(out: &mut Vec<u8>, areas: [u64; 2], rules: u64, version: u64)
    requires { vec_len out.old + 256 ≤ vec_capacity out.old }
    ensures text { out.new.items ≡ out.old.items ++ print (Ruled areas rules version) }
    ensures len { vec_len out.new ≤ vec_len out.old + 256 }
    ensures capacity { vec_capacity out.old ≤ vec_capacity out.new }
{
    open_counts(out, "areas", &areas);
    follow_string(out, "ok", "rule");
    follow_count(out, "rules", rules);
    follow_count(out, "version", version);
    put(out, b"}");
}

#[tactic(auto, unfolding(serde_json::proofs::OnLiterals::serde_json_on_literals))]
fn put_validated(out: &mut Vec<u8>, cleared: u64, errors: u64, version: u64)
    requires { vec_len out.old + 256 ≤ vec_capacity out.old }
    ensures text { out.new.items ≡ out.old.items ++ print (Validated cleared errors version) }
    ensures len { vec_len out.new ≤ vec_len out.old + 256 }
    ensures capacity { vec_capacity out.old ≤ vec_capacity out.new }
{
    open_count(out, "cleared", cleared);
    follow_count(out, "errors", errors);
    follow_string(out, "ok", "validate");
    follow_count(out, "version", version);
    put(out, b"}");
}

// How many members a stored subnetwork has; a removed one has none.
fn stored_members(row: &Option<StoredSubnet>) -> u64
    ensures { result ≡ stored_members row.now }
{
    match row {
        Some(row) => row.members.as_slice().len() as u64,
        None => 0,
    }
}

#[tactic(auto, unfolding(serde_json::proofs::OnLiterals::serde_json_on_literals))]
fn stored_status(row: &Option<StoredSubnet>) -> &'static str
    ensures text { result.now ≡ stored_status row.now }
    ensures plain { escape result.now ≡ result.now }
    ensures short { length result.now ≤ 7 }
{
    match row {
        Some(_) => "clean",
        None => "removed",
    }
}

#[tactic(auto, unfolding(serde_json::proofs::OnLiterals::serde_json_on_literals))]
fn put_updated(out: &mut Vec<u8>, row: &Option<StoredSubnet>, version: u64)
    requires { vec_len out.old + 256 ≤ vec_capacity out.old }
    ensures text { out.new.items ≡ out.old.items ++ print (Updated row.now version) }
    ensures len { vec_len out.new ≤ vec_len out.old + 256 }
    ensures capacity { vec_capacity out.old ≤ vec_capacity out.new }
{
    open_count(out, "members", stored_members(row));
    follow_string(out, "ok", "update");
    follow_string(out, "status", stored_status(row));
    follow_count(out, "version", version);
    put(out, b"}");
}

/// Appends the reply to a command, for which there is room.
#[tactic(auto, using(crate::proofs::Commands::other_reply))]
pub(crate) fn put_command(out: &mut Vec<u8>, reply: &Reply)
    requires command { IsOfCommand reply.now }
    requires named { HasRefusalName reply.now }
    requires room { vec_len out.old + command_room reply.now ≤ vec_capacity out.old }
    ensures text { out.new.items ≡ out.old.items ++ print reply.now }
    ensures len { vec_len out.new ≤ vec_len out.old + command_room reply.now }
    ensures capacity { vec_capacity out.old ≤ vec_capacity out.new }
{
    match reply {
        Reply::Edited {
            areas,
            id,
            word,
            version,
        } => put_edited(out, *areas, *id, *word, *version),
        Reply::Batch {
            areas,
            ids,
            version,
        } => put_batch(out, *areas, ids.as_slice(), *version),
        Reply::Ruled {
            areas,
            rules,
            version,
        } => put_ruled(out, *areas, *rules, *version),
        Reply::Validated {
            cleared,
            errors,
            version,
        } => put_validated(out, *cleared, *errors, *version),
        Reply::Updated { row, version } => put_updated(out, row, *version),
        Reply::Refused {
            refusal,
            edit,
            version,
        } => put_refusal(out, refusal, *edit, *version),
        _ => {}
    }
}

/// Appends the text of a command's reply, accepted or refused. It allocates nothing.
///
/// The text is shorter than the room, so that there is room for a line end after it.
#[tactic(auto, using(crate::proofs::Commands::few_fit))]
pub fn print_command_reply(reply: &Reply, out: &mut Vec<u8>)
    requires command { IsOfCommand reply.now }
    requires few { HasFewIds reply.now }
    requires room { vec_len out.old + COMMAND_REPLY_ROOM ≤ vec_capacity out.old }
    ensures text { out.new.items ≡ out.old.items ++ print reply.now }
    ensures short { length (print reply.now) < COMMAND_REPLY_ROOM }
    ensures capacity { vec_capacity out.old ≤ vec_capacity out.new }
{
    // For the proof alone.
    names(reply);
    put_command(out, reply);
}
