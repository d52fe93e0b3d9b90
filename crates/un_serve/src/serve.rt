//! All requests of a link of the server.
ghost use Rattle.std.specs.Prelude.{◌≤◌};
ghost use Rattle.un_core.specs.Commands.{step};
ghost use Rattle.un_exchange.specs.Links.{ServesLink};
ghost use Rattle.un_exchange.specs.Causes.{CountsWriteFault, CountsReadFault, CountsDenial};
ghost use Rattle.un_serve.specs.Asking.{Asks};
ghost use Rattle.un_serve.specs.Printing.{printing};
ghost use Rattle.un_serve.specs.Serving.{ServesNetLink, least_of, answer_of, between_of};

use crate::service::NetService;
use std::alloc::Global;
use std::sync::Wait;
use std::thread::Threads;
use un_core::Net;
use un_core::histories::{logs_are_histories, states_are_faithful};
use un_core::laws::steps_reply;
use un_desk::desk::Desk;
use un_exchange::{LinkEnd, refuse_link};
use un_io::Link;
use un_publish::published::{BoardName, Published, Snapshot};
use un_publish::session::Session;

// Handles the requests of a link by the service.
fn serve_by<R: Wait + Threads + Sync, J: BoardName<Net>, L: Link>(
    rt: &R,
    alloc: Global,
    service: &NetService,
    desk: &Desk<Net, J>,
    session: &mut Session<Net, J>,
    link: &mut L,
) -> LinkEnd
where
    Published<Net, J>: Snapshot<State = Published<Net, J>>,
    ensures served { ServesLink step J.opening least_of answer_of between_of Asks printing
        session.old session.new L.left L.taken link.old link.new result }
    ensures write_cause { CountsWriteFault result (L.write_faults link.old) (L.write_faults link.new) }
    ensures read_cause { CountsReadFault result (L.read_faults link.old) (L.read_faults link.new) }
    ensures denied_cause { CountsDenial result session.old.denied session.new.denied }
    ensures writes_counted { L.write_faults link.old ≤ L.write_faults link.new }
    ensures reads_counted { L.read_faults link.old ≤ L.read_faults link.new }
{
    un_exchange::serve_link::<R, Net, NetService, J, L>(rt, alloc, service, desk, session, link)
}

/// Handles the requests of a link, one after another, and writes their responses. It waits for the link, for the desk
/// where a request is a command, and where a query asks for more entries of the log than the session finds. `Memory`
/// before any request was read: there was no room for the link, and the response that says so was written.
pub fn serve_link<R: Wait + Threads + Sync, J: BoardName<Net>, L: Link>(
    rt: &R,
    alloc: Global,
    desk: &Desk<Net, J>,
    session: &mut Session<Net, J>,
    link: &mut L,
) -> LinkEnd
where
    Published<Net, J>: Snapshot<State = Published<Net, J>>,
    ensures served { ServesNetLink J.opening session.old session.new
        L.left L.taken link.old link.new result }
    ensures write_cause { CountsWriteFault result (L.write_faults link.old) (L.write_faults link.new) }
    ensures read_cause { CountsReadFault result (L.read_faults link.old) (L.read_faults link.new) }
    ensures denied_cause { CountsDenial result session.old.denied session.new.denied }
    ensures writes_counted { L.write_faults link.old ≤ L.write_faults link.new }
    ensures reads_counted { L.read_faults link.old ≤ L.read_faults link.new }
{
    // For the proof alone.
    steps_reply();
    logs_are_histories();
    states_are_faithful();
    match NetService::new(alloc) {
        Ok(service) => serve_by(rt, alloc, &service, desk, session, link),
        Err(_) => refuse_link(link),
    }
}
