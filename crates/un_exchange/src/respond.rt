//! One request at the session, up to its response.
ghost use Rattle.std.specs.Prelude.{◌≡◌, ◌⊎◌, ℕ, ◌≤◌, [], vec_capacity};
ghost use Rattle.un_turns.specs.Pasts.{IsKeptFor};
ghost use Rattle.un_turns.specs.declared.request.Request.TheVariants.{Command as CommandOf};
ghost use Rattle.un_turns.specs.declared.request.Response.{Response as ResponseOf};
ghost use Rattle.un_turns.specs.Served.{answering, IsServed};
ghost use Rattle.un_exchange.specs.declared.asked.Asked.{Asked as AskedOf};
ghost use Rattle.un_exchange.specs.Exchanges.{CanPrint};
ghost use Rattle.un_exchange.specs.Pages.{PageModel};
ghost use Rattle.un_exchange.specs.Writing.{IsOutgoing};
ghost use Rattle.un_exchange.specs.Handling.{AsksSession, FitsIn, IsHandled, IsWritten};

use crate::asked::Asked;
use crate::page::Page;
use crate::service::{REPLY_ROOM, Service};
use crate::status::Status;
use std::alloc::Global;
use std::sync::Wait;
use std::thread::Threads;
use un_asof::Past;
use un_desk::desk::Desk;
use un_http::Inbox;
use un_machine::Machine;
use un_publish::published::{BoardName, Published, Snapshot};
use un_publish::session::{Denied, Session};
use un_turns::laws::{past_answers_may_be_lost, replies_are_steps};
use un_turns::{Request, Response, handle_request};

/// What is to be written in response to a request.
#[derive(Drop)]
pub(crate) enum Outgoing {
    /// What was printed, with this status.
    Printed(Status),
    Page(Page),
    Denied(Denied),
    Memory,
}

// What an answer at a past version is printed as, unless memory runs out.
fn past_outgoing<M: Machine, S: Service<M>>(
    alloc: Global,
    version: u64,
    answer: S::Answer,
) -> Outgoing
    ensures { ((page : PageModel) × (page ≡ S.printing.past version answer) × (result ≡ Outgoing.Page page))
        ⊎ (result ≡ Outgoing.Memory) }
{
    match S::past_page(alloc, version, answer) {
        Ok(page) => Outgoing::Page(page),
        Err(_) => Outgoing::Memory,
    }
}

// Prints the response of the session. Memory may run out when the answer at a past version is printed.
fn print_response<M: Machine, S: Service<M>>(
    alloc: Global,
    response: Response<M::Reply, S::Answer>,
    out: &mut Vec<u8>,
) -> Outgoing
    requires fits { FitsIn S.fits response }
    requires empty { out.old.items ≡ [] }
    requires room { REPLY_ROOM ≤ vec_capacity out.old }
    ensures outgoing { (written : ResponseOf M.Reply S.Answer) × IsWritten response written
        × ((asked : AskedOf M.Cmd S.Query) → IsOutgoing S.printing asked written out.new.items result) }
    ensures capacity { vec_capacity out.old ≤ vec_capacity out.new }
{
    match response {
        Response::Accepted { version: _, reply } | Response::Refused { version: _, reply } => {
            Outgoing::Printed(S::print_reply(&reply, out))
        }
        Response::Answer { version: _, answer } => Outgoing::Page(S::answer_page(answer)),
        Response::PastAnswer { version, answer } => past_outgoing::<M, S>(alloc, version, answer),
        Response::BetweenAnswer { version: _, answer } => Outgoing::Page(S::answer_page(answer)),
        Response::Reversed {
            version,
            since,
            upto,
        } => {
            S::print_reversed(version, since, upto, out);
            Outgoing::Printed(Status::Unprocessable)
        }
        Response::Ahead(ahead) => {
            S::print_ahead(&ahead, out);
            Outgoing::Printed(Status::Conflict)
        }
        Response::NotYet(ahead) => {
            S::print_not_yet(&ahead, out);
            Outgoing::Printed(Status::Conflict)
        }
        Response::Denied(denied) => Outgoing::Denied(denied),
        Response::Memory => Outgoing::Memory,
        Response::Nothing => unreachable!(),
    }
}

// Handles a command or a query at the session.
fn ask_session<R: Wait + Threads + Sync, M: Machine, S: Service<M>, J: BoardName<M>>(
    rt: &R,
    alloc: Global,
    desk: &Desk<M, J>,
    session: &mut Session<M, J>,
    past: &mut Option<Past<M, J>>,
    request: Request<M::Cmd, S::Query>,
    out: &mut Vec<u8>,
) -> Outgoing
where
    Published<M, J>: Snapshot<State = Published<M, J>>,
    requires asks { AsksSession request }
    requires fits { (cmd : M.Cmd) → request ≡ CommandOf cmd → CanPrint M.step S.fits cmd }
    requires room { REPLY_ROOM ≤ vec_capacity out.old }
    requires past { IsKeptFor M.step J.opening past.old session.old.seen }
    ensures past { IsKeptFor M.step J.opening past.new session.new.seen }
    ensures handled { (response : ResponseOf M.Reply S.Answer)
        × IsServed M.step J.opening S.least (answering S.answer S.between) session.old request response session.new
        × ((asked : AskedOf M.Cmd S.Query) → IsOutgoing S.printing asked response out.new.items result) }
    ensures capacity { vec_capacity out.old ≤ vec_capacity out.new }
{
    replies_are_steps::<M, S, J>();
    past_answers_may_be_lost::<M, S, J>();
    out.clear();
    let response = handle_request::<R, M, S, J>(rt, alloc, desk, session, past, request);
    print_response::<M, S>(alloc, response, out)
}

/// Handles the request that the inbox gives, up to what is to be written. If memory runs out, the request did nothing.
pub(crate) fn respond<R: Wait + Threads + Sync, M: Machine, S: Service<M>, J: BoardName<M>>(
    rt: &R,
    alloc: Global,
    service: &S,
    desk: &Desk<M, J>,
    session: &mut Session<M, J>,
    past: &mut Option<Past<M, J>>,
    inbox: &Inbox,
    out: &mut Vec<u8>,
) -> Outgoing
where
    Published<M, J>: Snapshot<State = Published<M, J>>,
    requires room { REPLY_ROOM ≤ vec_capacity out.old }
    requires past { IsKeptFor M.step J.opening past.old session.old.seen }
    ensures past { IsKeptFor M.step J.opening past.new session.new.seen }
    ensures handled { IsHandled M.step J.opening S.least (answering S.answer S.between) S.asks S.printing
        session.old session.new inbox.now out.new.items result }
    ensures capacity { vec_capacity out.old ≤ vec_capacity out.new }
{
    let asked = match service.read(alloc, inbox.method(), inbox.path(), inbox.body()) {
        Ok(asked) => asked,
        Err(_) => return Outgoing::Memory,
    };
    match asked {
        Asked::Page(page) => Outgoing::Page(page),
        Asked::Command(cmd) => {
            S::can_print(&cmd);
            let request = Request::Command(cmd);
            ask_session::<R, M, S, J>(rt, alloc, desk, session, past, request, out)
        }
        Asked::Query(query) => {
            let request = Request::Query(query);
            ask_session::<R, M, S, J>(rt, alloc, desk, session, past, request, out)
        }
        Asked::Past { at, query } => {
            let request = Request::Past { at, query };
            ask_session::<R, M, S, J>(rt, alloc, desk, session, past, request, out)
        }
        Asked::Between { since, upto, query } => {
            let request = Request::Between { since, upto, query };
            ask_session::<R, M, S, J>(rt, alloc, desk, session, past, request, out)
        }
    }
}
