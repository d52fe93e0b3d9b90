//! All requests of a link.
ghost use Rattle.std.specs.Prelude.{◌≡◌, ◌≤◌, [], Some, None, IfOk, vec_capacity};
ghost use Rattle.un_io.specs.Outside.{Rose};
ghost use Rattle.un_exchange.specs.Links.{HasEnded, Proceeds, ServesLink};
ghost use Rattle.un_exchange.specs.Causes.{CountsWriteFault, CountsReadFault, CountsDenial};
ghost use Rattle.un_exchange.specs.Writing.{check_end};
ghost use Rattle.un_exchange.specs.Pages.{check_status};
ghost use Rattle.un_turns.specs.Served.{answering};
ghost use Rattle.un_turns.specs.Pasts.{IsKeptFor};

use crate::end::LinkEnd;
use crate::respond::respond;
use crate::send::{HEAD_ROOM, refuse_link, send_outgoing, send_then};
use crate::service::{REPLY_ROOM, Service};
use crate::status::Status;
use std::alloc::{AllocError, Global};
use std::sync::Wait;
use std::thread::Threads;
use un_asof::Past;
use un_desk::desk::Desk;
use un_http::{Check, Inbox, Next, next_request, one_more};
use un_io::Link;
use un_machine::Machine;
use un_publish::published::{BoardName, Published, Snapshot};
use un_publish::session::Session;
use un_turns::laws::{one_more_request, responses_are_truthful};

// The room for the next request, for the head of its response, and for what is printed; and the past of the session, from
// its first query at a past version on.
#[derive(Drop)]
struct Room<M: Machine, J: BoardName<M>> {
    inbox: Inbox,
    head: Vec<u8>,
    printed: Vec<u8>,
    past: Option<Past<M, J>>,
}

// How the link ends after a check that a request failed.
fn check_end(check: Check) -> LinkEnd
    ensures { result ≡ check_end check }
{
    match check {
        Check::BadHead => LinkEnd::BadHead,
        Check::ManyHeaders | Check::LongBody => LinkEnd::TooLarge,
        Check::NotSupported => LinkEnd::NotSupported,
        Check::NoLength => LinkEnd::NoLength,
    }
}

// The status of a check that a request failed.
fn check_status(check: Check) -> Status
    ensures { result ≡ check_status check }
{
    match check {
        Check::BadHead => Status::BadRequest,
        Check::ManyHeaders => Status::HeadTooLarge,
        Check::NotSupported => Status::NotImplemented,
        Check::LongBody => Status::TooLarge,
        Check::NoLength => Status::LengthRequired,
    }
}

// Handles the next request of the link, and writes its response, unless there is none or it fails a check.
fn next_exchange<R: Wait + Threads + Sync, M: Machine, S: Service<M>, J: BoardName<M>, L: Link>(
    rt: &R,
    alloc: Global,
    service: &S,
    desk: &Desk<M, J>,
    session: &mut Session<M, J>,
    room: &mut Room<M, J>,
    link: &mut L,
) -> Option<LinkEnd>
where
    Published<M, J>: Snapshot<State = Published<M, J>>,
    requires head { HEAD_ROOM ≤ vec_capacity room.old.head }
    requires printed { REPLY_ROOM ≤ vec_capacity room.old.printed }
    requires past { IsKeptFor M.step J.opening room.old.past session.old.seen }
    ensures past { IsKeptFor M.step J.opening room.new.past session.new.seen }
    ensures proceeds { Proceeds M.step J.opening S.least (answering S.answer S.between) S.asks S.printing
        session.old session.new (L.left link.old) (L.left link.new)
        (L.taken link.old) (L.taken link.new) room.old.inbox.held room.new.inbox.held result }
    ensures head { vec_capacity room.old.head ≤ vec_capacity room.new.head }
    ensures printed { vec_capacity room.old.printed ≤ vec_capacity room.new.printed }
    ensures writes_counted { L.write_faults link.old ≤ L.write_faults link.new }
    ensures write_cause { result ≡ Some LinkEnd.WriteFault
        → Rose (L.write_faults link.old) (L.write_faults link.new) }
    ensures reads_counted { L.read_faults link.old ≤ L.read_faults link.new }
    ensures read_cause { result ≡ Some LinkEnd.ReadFault
        → Rose (L.read_faults link.old) (L.read_faults link.new) }
{
    one_more();
    one_more_request::<M, S, J>();
    match next_request(rt, &mut room.inbox, link) {
        Next::Request(request) => {
            let outgoing = respond::<R, M, S, J>(
                rt,
                alloc,
                service,
                desk,
                session,
                &mut room.past,
                &room.inbox,
                &mut room.printed,
            );
            send_outgoing(link, &mut room.head, &room.printed, outgoing, request.close)
        }
        Next::Failed(check) => {
            let status = check_status(check);
            let end = Some(check_end(check));
            send_then(link, &mut room.head, status, status.http_body(), end)
        }
        Next::Closed => Some(LinkEnd::Closed),
        Next::Cut { bytes } => Some(LinkEnd::Cut { bytes }),
        Next::ReadFault => Some(LinkEnd::ReadFault),
    }
}

// Handles the requests of the link, until it ends.
fn serve<R: Wait + Threads + Sync, M: Machine, S: Service<M>, J: BoardName<M>, L: Link>(
    rt: &R,
    alloc: Global,
    service: &S,
    desk: &Desk<M, J>,
    session: &mut Session<M, J>,
    room: &mut Room<M, J>,
    link: &mut L,
) -> LinkEnd
where
    Published<M, J>: Snapshot<State = Published<M, J>>,
    requires head { HEAD_ROOM ≤ vec_capacity room.old.head }
    requires printed { REPLY_ROOM ≤ vec_capacity room.old.printed }
    requires empty { room.old.inbox.held ≡ [] }
    requires past { IsKeptFor M.step J.opening room.old.past session.old.seen }
    ensures served { HasEnded M.step J.opening S.least (answering S.answer S.between) S.asks S.printing
        session.old session.new (L.left link.old) (L.left link.new)
        (L.taken link.old) (L.taken link.new) result }
    ensures writes_counted { L.write_faults link.old ≤ L.write_faults link.new }
    ensures write_cause { CountsWriteFault result (L.write_faults link.old) (L.write_faults link.new) }
    ensures reads_counted { L.read_faults link.old ≤ L.read_faults link.new }
    ensures read_cause { CountsReadFault result (L.read_faults link.old) (L.read_faults link.new) }
{
    'exchanging: for _ in rt.forever() {
        if let Some(end) = next_exchange::<R, M, S, J, L>(
            rt, alloc, service, desk, session, room, link,
        ) {
            return end;
        }
    }
    unreachable!()
}

// The room for a link.
fn take_room<M: Machine, J: BoardName<M>>(alloc: Global) -> Result<Room<M, J>, AllocError>
    ensures held { IfOk result (λ room. room.inbox.held ≡ []) }
    ensures head { IfOk result (λ room. HEAD_ROOM ≤ vec_capacity room.head) }
    ensures printed { IfOk result (λ room. REPLY_ROOM ≤ vec_capacity room.printed) }
    ensures past { IfOk result (λ room. room.past ≡ None) }
{
    Ok(Room {
        inbox: Inbox::new(alloc)?,
        head: Vec::with_capacity(alloc, HEAD_ROOM)?,
        printed: Vec::with_capacity(alloc, REPLY_ROOM)?,
        past: None,
    })
}

/// Handles the requests of a link, one after another, and writes their responses. It waits for the link and, where a
/// request needs it, for the desk. If there is no memory for the room that a link takes, it reads nothing, writes the
/// response that says so, and ends with `Memory`; it may also end with `WriteFault` then.
pub fn serve_link<R: Wait + Threads + Sync, M: Machine, S: Service<M>, J: BoardName<M>, L: Link>(
    rt: &R,
    alloc: Global,
    service: &S,
    desk: &Desk<M, J>,
    session: &mut Session<M, J>,
    link: &mut L,
) -> LinkEnd
where
    Published<M, J>: Snapshot<State = Published<M, J>>,
    ensures served { ServesLink M.step J.opening S.least S.answer S.between S.asks S.printing
        session.old session.new L.left L.taken link.old link.new result }
    ensures write_cause { CountsWriteFault result (L.write_faults link.old) (L.write_faults link.new) }
    ensures read_cause { CountsReadFault result (L.read_faults link.old) (L.read_faults link.new) }
    ensures denied_cause { CountsDenial result session.old.denied session.new.denied }
    ensures writes_counted { L.write_faults link.old ≤ L.write_faults link.new }
    ensures reads_counted { L.read_faults link.old ≤ L.read_faults link.new }
{
    // For the proof alone.
    let _own = session.own();
    let _denied = session.denied();
    responses_are_truthful::<M, S, J>();
    match take_room::<M, J>(alloc) {
        Ok(mut room) => {
            serve::<R, M, S, J, L>(rt, alloc, service, desk, session, &mut room, link)
        }
        Err(_) => refuse_link(link),
    }
}
