//! One request at a session: a command goes to the desk, and a query is answered without it if possible. A query at a past
//! version, or about two versions, also asks the desk, after a view as for any query.
ghost use Rattle.std.specs.Prelude.{IfOk, IfErr, IfSome, None, length, ◌≡◌};
ghost use mathlib.Core.List.{IsPrefix};
ghost use Rattle.un_desk.specs.Desks.{IsSubmitted, IsDeskFault, counted};
ghost use Rattle.un_turns.specs.Turns.{IsAnswered, IsUnanswered, view_fault};
ghost use Rattle.un_turns.specs.Prepared.{IsPreparedAfter};
ghost use Rattle.un_turns.specs.Served.{fault_response, IsAnswerOr, ServesRequest, past_response, receipt_response, view_response};
ghost use Rattle.un_turns.specs.declared.request.Response.TheVariants.{BetweenAnswer, Memory};
ghost use Rattle.std.specs.Arc.{arc_value};
ghost use Rattle.un_asof.specs.Pasts.{KeepLaw, pair_of};
ghost use Rattle.un_turns.specs.Spans.{HasEntries};
ghost use Rattle.un_turns.specs.Pasts.{IsKeptFor, TakenLaw};

use crate::answers::Answers;
use crate::request::{Request, Response, Span};
use std::alloc::{AllocError, Global};
use std::sync::{Arc, Wait};
use std::thread::Threads;
use un_asof::Past;
use un_asof::laws::stands_for_longer;
use un_desk::desk::{Desk, ViewFault};
use un_desk::past::PastFault;
use un_journal::receipt::Receipt;
use un_machine::Machine;
use un_publish::published::{BoardName, Published, Snapshot};
use un_publish::session::{Session, SessionFault, View};

// The fault of a read, as the fault of a view.
fn view_fault(fault: SessionFault) -> ViewFault
    ensures { result ≡ view_fault fault }
{
    match fault {
        SessionFault::Denied(denied) => ViewFault::Denied(denied),
        SessionFault::Memory => ViewFault::Memory,
    }
}

// A view after at least `least` entries of the log; the session has then seen all entries before it. The session reads
// by itself, and asks the desk, for which it may wait, only if it finds fewer entries.
fn view_at_least<R: Wait, M: Machine, J: BoardName<M>>(
    rt: &R,
    desk: &Desk<M, J>,
    session: &mut Session<M, J>,
    least: u64,
) -> Result<View<M>, ViewFault>
where
    Published<M, J>: Snapshot<State = Published<M, J>>,
    ensures view { IfOk result (IsAnswered M.step J.opening session.old session.new least) }
    ensures fault { IfErr result (IsUnanswered M.step J.opening session.old session.new least) }
{
    let view = match session.read() {
        Ok(view) => view,
        Err(fault) => return Err(view_fault(fault)),
    };
    if view.version >= least {
        return Ok(view);
    }
    desk.read_at_least(rt, session, least)
}

fn fault_response<R, A>(fault: SessionFault) -> Response<R, A>
    ensures { result ≡ fault_response fault }
{
    match fault {
        SessionFault::Denied(denied) => Response::Denied(denied),
        SessionFault::Memory => Response::Memory,
    }
}

fn view_response<R, A>(fault: ViewFault) -> Response<R, A>
    ensures { result ≡ view_response fault }
{
    match fault {
        ViewFault::Ahead(ahead) => Response::Ahead(ahead),
        ViewFault::Denied(denied) => Response::Denied(denied),
        ViewFault::Memory => Response::Memory,
    }
}

fn past_response<R, A>(fault: PastFault) -> Response<R, A>
    ensures { result ≡ past_response fault }
{
    match fault {
        PastFault::Ahead(ahead) => Response::NotYet(ahead),
        PastFault::Denied(denied) => Response::Denied(denied),
        PastFault::Memory => Response::Memory,
    }
}

fn receipt_response<M: Machine, A>(receipt: Receipt<M>) -> Response<M::Reply, A>
    ensures { result ≡ receipt_response receipt }
{
    let Receipt {
        version,
        accepted,
        reply,
        view: _,
    } = receipt;
    if accepted {
        Response::Accepted { version, reply }
    } else {
        Response::Refused { version, reply }
    }
}

// Submits a command, with work that was done for it in advance at a view of the session if the machine says that it was.
fn submit_after<R: Wait, M: Machine, J: BoardName<M>>(
    rt: &R,
    alloc: Global,
    desk: &Desk<M, J>,
    session: &mut Session<M, J>,
    cmd: M::Cmd,
    version: u64,
    hint: Option<M::Hint>,
) -> Result<Receipt<M>, SessionFault>
where
    Published<M, J>: Snapshot<State = Published<M, J>>,
    requires version { version ≡ length session.old.seen }
    requires prepared { IfSome hint (IsPreparedAfter M.step M.prepared J.opening session.old.seen) }
    ensures receipt { IfOk result (IsSubmitted M.step J.opening session.old session.new cmd) }
    ensures fault { IfErr result (IsDeskFault (counted session.old) session.new) }
    ensures seen { IsPrefix session.old.seen session.new.seen }
{
    match hint {
        Some(hint) if M::prepared_at(&hint) == version => {
            desk.submit_prepared(rt, alloc, session, cmd, hint)
        }
        _ => desk.submit(rt, alloc, session, cmd),
    }
}

// Handles a command for which work may be done in advance: at a view that the session reads by itself.
fn decide_prepared<R: Wait + Threads + Sync, M: Machine, A: Answers<M>, J: BoardName<M>>(
    rt: &R,
    alloc: Global,
    desk: &Desk<M, J>,
    session: &mut Session<M, J>,
    cmd: M::Cmd,
) -> Response<M::Reply, A::Answer>
where
    Published<M, J>: Snapshot<State = Published<M, J>>,
    ensures { ServesRequest M.step J.opening A.least A.answer A.between
        session.old (Request.Command cmd) result session.new }
{
    let view = match session.read() {
        Ok(view) => view,
        Err(fault) => return fault_response(fault),
    };
    let Ok(hint) = A::prepare(rt, alloc, &view.state, &cmd) else {
        return Response::Memory;
    };
    match submit_after::<R, M, J>(rt, alloc, desk, session, cmd, view.version, hint) {
        Ok(receipt) => receipt_response(receipt),
        Err(fault) => fault_response(fault),
    }
}

// Handles a command.
fn decide<R: Wait + Threads + Sync, M: Machine, A: Answers<M>, J: BoardName<M>>(
    rt: &R,
    alloc: Global,
    desk: &Desk<M, J>,
    session: &mut Session<M, J>,
    cmd: M::Cmd,
) -> Response<M::Reply, A::Answer>
where
    Published<M, J>: Snapshot<State = Published<M, J>>,
    ensures { ServesRequest M.step J.opening A.least A.answer A.between
        session.old (Request.Command cmd) result session.new }
{
    if A::may_prepare(&cmd) {
        return decide_prepared::<R, M, A, J>(rt, alloc, desk, session, cmd);
    }
    match desk.submit(rt, alloc, session, cmd) {
        Ok(receipt) => receipt_response(receipt),
        Err(fault) => fault_response(fault),
    }
}

// Handles a query.
fn answer<R: Wait, M: Machine, A: Answers<M>, J: BoardName<M>>(
    rt: &R,
    alloc: Global,
    desk: &Desk<M, J>,
    session: &mut Session<M, J>,
    query: A::Query,
) -> Response<M::Reply, A::Answer>
where
    Published<M, J>: Snapshot<State = Published<M, J>>,
    ensures { ServesRequest M.step J.opening A.least A.answer A.between
        session.old (Request.Query query) result session.new }
{
    let view = match view_at_least(rt, desk, session, A::least(&query)) {
        Ok(view) => view,
        Err(fault) => return view_response(fault),
    };
    match A::answer(alloc, &view.state, &query) {
        Ok(answer) => Response::Answer {
            version: view.version,
            answer,
        },
        Err(_) => Response::Memory,
    }
}

// Takes the past that is kept, or makes one of the opening state.
fn take_past<M: Machine, J: BoardName<M>>(
    alloc: Global,
    desk: &Desk<M, J>,
    kept: &mut Option<Past<M, J>>,
) -> Result<Past<M, J>, AllocError>
where
    Published<M, J>: Snapshot<State = Published<M, J>>,
    ensures stands { IfOk result (TakenLaw M.Hint M.step J.opening kept.old) }
    ensures taken { kept.new ≡ None }
{
    match kept.take() {
        Some(past) => Ok(past),
        None => desk.start_past(alloc),
    }
}

// Handles a query at a past version. Other than its answer, the first view says how much of the log the caller has seen.
fn answer_past<R: Wait, M: Machine, A: Answers<M>, J: BoardName<M>>(
    rt: &R,
    alloc: Global,
    desk: &Desk<M, J>,
    session: &mut Session<M, J>,
    kept: &mut Option<Past<M, J>>,
    at: u64,
    query: A::Query,
) -> Response<M::Reply, A::Answer>
where
    Published<M, J>: Snapshot<State = Published<M, J>>,
    requires { IsKeptFor M.step J.opening kept.old session.old.seen }
    ensures served { ServesRequest M.step J.opening A.least A.answer A.between
        session.old (Request.Past at query) result session.new }
    ensures kept { IsKeptFor M.step J.opening kept.new session.new.seen }
{
    stands_for_longer::<M, J>();
    let first = match view_at_least(rt, desk, session, A::least(&query)) {
        Ok(view) => view,
        Err(fault) => return view_response(fault),
    };
    let Ok(mut past) = take_past(alloc, desk, kept) else {
        return Response::Memory;
    };
    let found = desk.past(rt, alloc, session, &mut past, at);
    *kept = Some(past);
    let shown = match found {
        Ok(view) => view,
        Err(fault) => return past_response(fault),
    };
    let Ok(answer) = A::answer(alloc, &shown.state, &query) else {
        return Response::Memory;
    };
    Response::PastAnswer {
        version: first.version.max(at),
        answer,
    }
}

// Keeps a view that was read, if there is memory for it.
fn keep_view<M: Machine, J: BoardName<M>>(past: &mut Past<M, J>, view: &View<M>)
    ensures { KeepLaw M.Hint M.step J.opening past.old (pair_of view.now) past.new }
{
    if let Ok(state) = Arc::try_clone(&view.state) {
        past.keep(view.version, state);
    }
}

// The answer about two views, of which the first leads to the second by the entries of which it was gathered.
fn compare_views<M: Machine, A: Answers<M>>(
    alloc: Global,
    span: Span,
    older: &View<M>,
    newer: &View<M>,
    gathered: &A::Gathered,
    query: &A::Query,
) -> Response<M::Reply, A::Answer>
    requires { HasEntries M.step A.Gathered.stands
        (arc_value older.now.state) (arc_value newer.now.state) gathered.now }
    ensures { IsAnswerOr Memory (BetweenAnswer span.version
        (A.between span (arc_value older.now.state) (arc_value newer.now.state) query.now)) result }
{
    let (old, new) = (&older.state, &newer.state);
    let Ok(answer) = A::compare(alloc, span, old, new, gathered, query) else {
        return Response::Memory;
    };
    Response::BetweenAnswer {
        version: span.version,
        answer,
    }
}

// Handles a query about two versions. The first view says how much of the log the caller has seen.
fn answer_between<R: Wait, M: Machine, A: Answers<M>, J: BoardName<M>>(
    rt: &R,
    alloc: Global,
    desk: &Desk<M, J>,
    session: &mut Session<M, J>,
    kept: &mut Option<Past<M, J>>,
    since: u64,
    upto: Option<u64>,
    query: A::Query,
) -> Response<M::Reply, A::Answer>
where
    Published<M, J>: Snapshot<State = Published<M, J>>,
    requires { IsKeptFor M.step J.opening kept.old session.old.seen }
    ensures served { ServesRequest M.step J.opening A.least A.answer A.between
        session.old (Request.Between since upto query) result session.new }
    ensures kept { IsKeptFor M.step J.opening kept.new session.new.seen }
{
    stands_for_longer::<M, J>();
    let first = match view_at_least(rt, desk, session, A::least(&query)) {
        Ok(view) => view,
        Err(fault) => return view_response(fault),
    };
    let Ok(mut past) = take_past(alloc, desk, kept) else {
        return Response::Memory;
    };
    keep_view(&mut past, &first);
    let found = desk.past(rt, alloc, session, &mut past, since);
    let older = match found {
        Ok(view) => view,
        Err(fault) => {
            *kept = Some(past);
            return past_response(fault);
        }
    };
    let end = upto.unwrap_or(first.version);
    if end < since {
        *kept = Some(past);
        return Response::Reversed {
            version: first.version,
            since,
            upto: end,
        };
    }
    let mut gathered = A::start_gathering(alloc);
    let found = desk.span(rt, alloc, session, &mut past, &older, end, &mut gathered);
    *kept = Some(past);
    let newer = match found {
        Ok(view) => view,
        Err(fault) => return past_response(fault),
    };
    let span = Span {
        since,
        upto: end,
        version: first.version.max(end),
    };
    compare_views::<M, A>(alloc, span, &older, &newer, &gathered, &query)
}

/// Handles a request: one turn takes the session from its state before to its state after, and the response is that of
/// the turn. It waits for the desk if the request is a command, a query that asks for more entries of the log than
/// the session finds, a query at a past version, or one about two versions. `Memory` and `Denied` come as from the calls
/// of the session and the desk; `Memory` also if memory runs out while a query is answered, while work is done for a
/// command in advance, while entries are gathered, or while a past is made. After both nothing was committed.
///
/// The first query at a past version, or about two versions, makes the past, which is then kept for the next ones.
pub fn handle_request<R: Wait + Threads + Sync, M: Machine, A: Answers<M>, J: BoardName<M>>(
    rt: &R,
    alloc: Global,
    desk: &Desk<M, J>,
    session: &mut Session<M, J>,
    kept: &mut Option<Past<M, J>>,
    request: Request<M::Cmd, A::Query>,
) -> Response<M::Reply, A::Answer>
where
    Published<M, J>: Snapshot<State = Published<M, J>>,
    requires { IsKeptFor M.step J.opening kept.old session.old.seen }
    ensures served { ServesRequest M.step J.opening A.least A.answer A.between
        session.old request result session.new }
    ensures kept { IsKeptFor M.step J.opening kept.new session.new.seen }
{
    stands_for_longer::<M, J>();
    match request {
        Request::Other => Response::Nothing,
        Request::Command(cmd) => decide::<R, M, A, J>(rt, alloc, desk, session, cmd),
        Request::Query(query) => answer::<R, M, A, J>(rt, alloc, desk, session, query),
        Request::Past { at, query } => {
            answer_past::<R, M, A, J>(rt, alloc, desk, session, kept, at, query)
        }
        Request::Between { since, upto, query } => {
            answer_between::<R, M, A, J>(rt, alloc, desk, session, kept, since, upto, query)
        }
    }
}
