//! A network as what the links of the server ask.
ghost use Rattle.std.specs.Prelude.{◌≡◌, ◌≤◌, [], None, IfOk, vec_capacity};
ghost use Rattle.un_ask.specs.declared.reply.Reply.TheVariants.{Refused};
ghost use Rattle.un_ask.specs.Replies.{HasFewEdits};
ghost use Rattle.un_replies.specs.Replies.{print};
ghost use Rattle.un_core.specs.Answers.{answer};
ghost use Rattle.un_serve.specs.Printing.{reply_page};

use crate::asking::{NetAsked, NetQuery, read_asked};
use crate::printing::{changes_page, past_page, reply_page, reply_status};
use crate::touched::Touched;
use std::alloc::{AllocError, Global};
use std::thread::Threads;
use un_ask::{Asked, Command, Query, Refusal, Reply};
use un_core::laws::steps_reply;
use un_core::{Net, Prepared};
use un_exchange::{Page, REPLY_ROOM, Service, Status};
use un_http::Routes;
use un_journal::receipt::Ahead;
use un_replies::print_command_reply;
use un_steps::Steps;
use un_turns::{Answers, Span};

/// Reads the requests of links by their routes, and prints the replies of a network.
#[derive(Drop)]
pub struct NetService {
    routes: Routes,
}

impl NetService {
    /// The service with its routes.
    pub(crate) fn new(alloc: Global) -> Result<NetService, AllocError> {
        Ok(NetService {
            routes: Routes::new(alloc)?,
        })
    }
}

// A batch has few edits, as each batch has.
fn few_edits(command: &Command)
    ensures { HasFewEdits command.now }
{
    if let Command::Batch(edits) = command {
        // For the proof alone.
        let _edits = edits.as_slice();
    }
}

// Prints a refusal with a version of the network, which some refusals show. It takes no memory.
fn print_refusal(refusal: Refusal, version: u64, out: &mut Vec<u8>)
    requires empty { out.old.items ≡ [] }
    requires room { REPLY_ROOM ≤ vec_capacity out.old }
    ensures text { out.new.items ≡ print (Refused refusal None version) }
    ensures capacity { vec_capacity out.old ≤ vec_capacity out.new }
{
    let reply = Reply::Refused {
        refusal,
        edit: None,
        version,
    };
    print_command_reply(&reply, out);
}

// The answer of a question at a state.
fn answer_at(alloc: Global, state: &Net, query: &Query) -> Result<Page, AllocError>
    ensures { IfOk result (λ page. page ≡ reply_page (answer state.now query.now)) }
{
    let mut steps = Steps::<()>::new();
    let reply = state.answer(alloc, query, &mut steps)?;
    reply_page(alloc, &reply)
}

/// A query is answered by the network, and printed.
impl Answers<Net> for NetService {
    ghost use Rattle.un_serve.specs.Serving.{least_of, answer_of, between_of};

    type Query = NetQuery;

    type Answer = Page;

    ghost least = { least_of };

    ghost answer = { answer_of };

    fn least(query: &NetQuery) -> u64 {
        match query {
            NetQuery::At { seen, query: _ } => *seen,
            NetQuery::Changes(changes) => changes.seen,
        }
    }

    fn answer(alloc: Global, state: &Net, query: &NetQuery) -> Result<Page, AllocError> {
        match query {
            NetQuery::At { seen: _, query } => answer_at(alloc, state, query),
            NetQuery::Changes(_) => answer_at(
                alloc,
                state,
                &Query {
                    seen: 0,
                    what: Asked::Version,
                },
            ),
        }
    }

    type Gathered = Touched;

    ghost between = { between_of };

    fn start_gathering(alloc: Global) -> Touched {
        Touched::new(alloc)
    }

    #[tactic(auto, using(crate::proofs::Comparing::touched_by))]
    fn compare(
        alloc: Global,
        span: Span,
        old: &Net,
        new: &Net,
        gathered: &Touched,
        query: &NetQuery,
    ) -> Result<Page, AllocError> {
        match query {
            NetQuery::At { seen: _, query } => answer_at(alloc, new, query),
            NetQuery::Changes(changes) => {
                changes_page(alloc, span, old, new, gathered.rects(), changes)
            }
        }
    }

    fn may_prepare(cmd: &Command) -> bool {
        matches!(cmd, Command::Validate { .. })
    }

    // The stars of a validation are built in advance.
    fn prepare<R: Threads + Sync>(
        rt: &R,
        alloc: Global,
        state: &Net,
        cmd: &Command,
    ) -> Result<Option<Prepared>, AllocError> {
        match cmd {
            Command::Validate { extent } => Ok(Some(state.prepare(rt, alloc, *extent)?)),
            _ => Ok(None),
        }
    }
}

impl Service<Net> for NetService {
    ghost use Rattle.un_serve.specs.Asking.{Asks};
    ghost use Rattle.un_serve.specs.Printing.{Fits, printing};

    ghost asks = { Asks };

    ghost printing = { printing };

    ghost fits = { Fits };

    fn read(
        &self,
        alloc: Global,
        method: &[u8],
        path: &[u8],
        body: &[u8],
    ) -> Result<NetAsked, AllocError> {
        read_asked(alloc, &self.routes, method, path, body)
    }

    fn can_print(cmd: &Command) {
        steps_reply();
        few_edits(cmd);
    }

    fn print_reply(reply: &Reply, out: &mut Vec<u8>) -> Status {
        print_command_reply(reply, out);
        reply_status(reply)
    }

    fn print_ahead(ahead: &Ahead, out: &mut Vec<u8>) {
        print_refusal(
            Refusal::Ahead {
                seen: ahead.seen(),
                latest: ahead.latest(),
            },
            0,
            out,
        );
    }

    fn print_not_yet(ahead: &Ahead, out: &mut Vec<u8>) {
        print_refusal(
            Refusal::NotYet {
                at: ahead.seen(),
                latest: ahead.latest(),
            },
            0,
            out,
        );
    }

    fn print_reversed(version: u64, since: u64, upto: u64, out: &mut Vec<u8>) {
        print_refusal(Refusal::BadSpan { since, upto }, version, out);
    }

    fn answer_page(answer: Page) -> Page {
        answer
    }

    fn past_page(alloc: Global, version: u64, answer: Page) -> Result<Page, AllocError> {
        past_page(alloc, version, &answer)
    }
}
