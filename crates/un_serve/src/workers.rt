//! The workers of the server.
ghost use Rattle.std.specs.Prelude.{◌≡◌};
ghost use Rattle.un_gate.specs.Gates.{IsSince};

use crate::serve::serve_link;
use std::alloc::Global;
use std::sync::{Mutex, Wait};
use std::thread::{Threads, for_each_mut};
use un_core::Net;
use un_desk::desk::Desk;
use un_gate::{DoorCount, DoorEnd, Gate};
use un_io::Door;
use un_publish::published::BoardName;
use un_publish::session::Session;

// The next link of the door that the workers share, or `None` once it has ended. The lock is given back before the link
// is served, so that the next worker can wait for the next link.
fn next_link<R: Wait, D: Door, N: DoorCount>(rt: &R, gate: &Mutex<Gate<D, N>>) -> Option<D::Line> {
    let mut gate = gate.lock(rt);
    gate.next()
}

// Serves one link after another, until the door has ended. How a link ended matters to that link alone.
fn work<R: Wait + Threads + Sync, J: BoardName<Net>, D: Door, N: DoorCount>(
    rt: &R,
    alloc: Global,
    desk: &Desk<Net, J>,
    gate: &Mutex<Gate<D, N>>,
    session: &mut Session<Net, J>,
) {
    for _ in rt.forever() {
        let Some(link) = next_link(rt, gate) else {
            return;
        };
        let mut link = link;
        let _end = serve_link(rt, alloc, desk, session, &mut link);
    }
}

/// Serves the links that arrive at the door, by a worker for each session, until the door has ended and each worker has
/// served its last link.
pub(crate) fn serve_door<
    R: Threads + Wait + Sync,
    J: BoardName<Net> + Send + Sync,
    D: Door + Send,
    N: DoorCount + Send + Sync,
>(
    rt: &R,
    alloc: Global,
    desk: &Desk<Net, J>,
    sessions: Vec<Session<Net, J>>,
    door: D,
) -> (D, Option<DoorEnd>)
where
    D::Line: Send,
    requires { N.count ≡ D.faults door }
    ensures { IsSince N.count (D.faults result.0) (D.closed result.0) result.1 }
{
    let mut sessions = sessions;
    let gate = Mutex::new(Gate::<D, N>::new(door));
    let workers = sessions.len().max(1);
    for_each_mut(
        rt,
        sessions.as_mut_slice(),
        workers,
        &|_, session| { work::<R, J, D, N>(rt, alloc, desk, &gate, session) },
    );
    gate.into_inner().into_parts()
}
