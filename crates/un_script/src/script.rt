//! A network as a handler of lines.
//!
//! The first line is read as a schema, which opens the network; each later line is read as a request. A command changes the network, where it
//! is accepted, and gives a reply. A command's reply is printed into room that is spare, so that want of memory never parts the reply from
//! what was done.
ghost use Rattle.std.specs.Prelude.{◌≡◌, ◌≢◌, ℕ, ◌+◌, ◌<◌, ◌≤◌, List, [], ◌∷◌, ◌++◌, Some, None, Ok, Err, IfOk, OnOk, OnErr, length, vec_len, vec_capacity};
ghost use Rattle.un_schema_json.specs.Lines.{schema_of};
ghost use Rattle.un_schema.specs.declared.place.Place.TheVariants as place;
ghost use Rattle.un_ask.specs.declared.request.Request.TheVariants.{Command as OfCommand};
ghost use Rattle.un_json.specs.Requests.{ask, fault_reply};
ghost use Rattle.un_replies.specs.Commands.{IsOfCommand, HasFewIds};
ghost use Rattle.un_replies.specs.Replies.{print};
ghost use Rattle.un_ask.specs.Replies.{HasFewEdits};
ghost use Rattle.un_core.specs.State.{opening};
ghost use Rattle.un_core.specs.Commands.{command_reply, state_after};
ghost use Rattle.un_core.specs.Answers.{answer};
ghost use Rattle.un_core.specs.Requests.{serve_only};
ghost use Rattle.un_script.specs.Script.{reply_to_line, state_behind_line};

use crate::opening::{
    line_too_long, no_schema, print_bad_schema, print_line, refuse, refused, schema_too_long,
};
use crate::recoverable::Recoverable;
use std::alloc::{AllocError, Global};
use std::marker::PhantomData;
use std::mem::forget;
use un_ask::{Command, Query, Refusal, Reply, Request};
use un_core::Net;
use un_core::laws::steps_reply;
use un_json::read_request;
use un_lines::{Handler, Opened, REPLY_ROOM};
use un_replies::print_reply;
use un_schema::Schema;
use un_schema_json::{SchemaFault, read_schema};
use un_steps::Steps;
use un_tiers::Tiers;

/// The network, once a schema has opened it, and the count of the stars that its traces look up.
#[derive(Drop)]
pub struct Script<'a, L> {
    net: Option<Recoverable>,
    steps: &'a mut Steps<L>,
}

impl<'a, L> Script<'a, L> {
    ghost use Rattle.std.specs.Prelude.{None};

    /// A script before its first line.
    pub fn new(steps: &'a mut Steps<L>) -> Script<'a, L>
        ensures { result.net ≡ None }
    {
        Script { net: None, steps }
    }

    /// Leaves the network's memory to the system, which takes it back where the program ends, faster than it can be freed block by block.
    pub(crate) fn forget(self) {
        let Script { net, steps: _ } = self;
        forget(net);
    }
}

// The network without features under a schema and tiers.
fn opened(alloc: Global, schema: Schema, tiers: Tiers) -> Result<Recoverable, AllocError>
    ensures { IfOk result (λ net. net ≡ opening (record { schema = schema; tiers = tiers })) }
{
    Recoverable::new(alloc, Net::open(alloc, schema, tiers)?)
}

// Adds the reply of a query, with its line's end. Want of memory changes nothing.
fn print_answer(alloc: Global, reply: &Reply, out: &mut Vec<u8>) -> Result<(), AllocError>
    ensures ok { OnOk result (out.new.items ≡ out.old.items ++ (print reply.now ++ 10 ∷ [])) }
    ensures err { OnErr result (out.new.items ≡ out.old.items) }
    ensures capacity { vec_capacity out.old ≤ vec_capacity out.new }
{
    print_reply(alloc, reply, out)?;
    let _ = out.push(b'\n');
    Ok(())
}

// A batch has few edits, as each batch has.
fn few_edits(command: &Command)
    ensures { HasFewEdits command.now }
{
    if let Command::Batch(edits) = command {
        // For the proof alone.
        let _edits = edits.as_slice();
    }
}

// Does a command, or refuses it. Want of memory changes nothing.
fn apply(
    alloc: Global,
    net: &mut Recoverable,
    command: Command,
    out: &mut Vec<u8>,
) -> Result<(), AllocError>
    requires room { vec_len out.old + REPLY_ROOM ≤ vec_capacity out.old }
    ensures reply { OnOk result (out.new.items
        ≡ out.old.items ++ (print (command_reply net.old command) ++ 10 ∷ [])) }
    ensures state { OnOk result (net.new ≡ state_after net.old command) }
    ensures err { OnErr result ((net.new ≡ net.old) × (out.new.items ≡ out.old.items)) }
    ensures capacity { vec_capacity out.old ≤ vec_capacity out.new }
{
    steps_reply();
    few_edits(&command);
    let reply = net.step(alloc, command)?;
    print_line(&reply, out);
    Ok(())
}

// Answers a query.
fn tell<L>(
    alloc: Global,
    net: &mut Recoverable,
    query: &Query,
    steps: &mut Steps<L>,
    out: &mut Vec<u8>,
) -> Result<(), AllocError>
    ensures reply { OnOk result (out.new.items
        ≡ out.old.items ++ (print (answer net.old query.now) ++ 10 ∷ [])) }
    ensures state { net.new ≡ net.old }
    ensures err { OnErr result (out.new.items ≡ out.old.items) }
    ensures capacity { vec_capacity out.old ≤ vec_capacity out.new }
{
    let reply = net.answer(alloc, query, steps)?;
    print_answer(alloc, &reply, out)
}

// Refuses a query that a server alone answers.
fn refuse_served(out: &mut Vec<u8>)
    requires { vec_len out.old + REPLY_ROOM ≤ vec_capacity out.old }
    ensures text { out.new.items ≡ out.old.items ++ (print serve_only ++ 10 ∷ []) }
    ensures capacity { vec_capacity out.old ≤ vec_capacity out.new }
{
    print_line(&refused(Refusal::ServeOnly), out);
}

// Answers a line. Want of memory changes nothing.
fn answer<L>(
    alloc: Global,
    net: &mut Recoverable,
    line: &[u8],
    steps: &mut Steps<L>,
    out: &mut Vec<u8>,
) -> Result<(), AllocError>
    requires { vec_len out.old + REPLY_ROOM ≤ vec_capacity out.old }
    ensures reply { OnOk result (out.new.items
        ≡ out.old.items ++ (print (reply_to_line net.old (ask line.now)) ++ 10 ∷ [])) }
    ensures state { OnOk result (net.new ≡ state_behind_line net.old (ask line.now)) }
    ensures err { OnErr result ((net.new ≡ net.old) × (out.new.items ≡ out.old.items)) }
    ensures capacity { vec_capacity out.old ≤ vec_capacity out.new }
{
    match read_request(alloc, line) {
        Ok(Request::Command(command)) => apply(alloc, net, command, out),
        Ok(Request::Query(query)) => tell(alloc, net, &query, steps, out),
        Ok(Request::Past(_)) => {
            refuse_served(out);
            Ok(())
        }
        Ok(Request::Changes(_)) => {
            refuse_served(out);
            Ok(())
        }
        Err(fault) => refuse(fault, out),
    }
}

impl<L> Handler for Script<'_, L> {
    ghost use Rattle.un_core.specs.State.{State};
    ghost use Rattle.un_script.specs.Script.{script};
    ghost use Rattle.un_script.specs.Replies.{script_is_plain};

    ghost State = { State };

    ghost rules = { script };

    ghost state = { λ s. s.net };

    ghost plain = { script_is_plain };

    fn is_open(&self) -> bool {
        self.net.is_some()
    }

    fn open(&mut self, alloc: Global, line: &[u8], out: &mut Vec<u8>) -> Opened {
        match read_schema(alloc, line) {
            Ok((schema, tiers)) => match opened(alloc, schema, tiers) {
                Ok(net) => {
                    self.net = Some(net);
                    Opened::Open
                }
                Err(_) => Opened::Memory,
            },
            Err(SchemaFault::BadSchema { place }) => {
                print_bad_schema(place, out);
                Opened::Closed
            }
            Err(SchemaFault::Memory) => Opened::Memory,
        }
    }

    fn answer(&mut self, alloc: Global, line: &[u8], out: &mut Vec<u8>) -> Result<(), AllocError> {
        match &mut self.net {
            Some(net) => answer(alloc, net, line, self.steps, out),
            None => Err(AllocError),
        }
    }

    fn too_long(&self) -> &'static [u8] {
        line_too_long()
    }

    fn refusal_too_long(&self) -> &'static [u8] {
        schema_too_long()
    }

    fn refusal_missing(&self) -> &'static [u8] {
        no_schema()
    }
}
