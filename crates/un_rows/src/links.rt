//! Links of a server over memory: each at a fresh desk, or one after another at the same one, cut at a byte, and with reads and
//! writes that fail.
ghost use Rattle.std.specs.Prelude.{◌≡◌, ◌∷◌, []};

pub(crate) mod doors;
mod given;
pub(crate) mod pipelined;
pub(crate) mod seen;
mod short_door;
pub(crate) mod sockets;

use std::alloc::{AllocError, Global};
use std::marker::Brand;
use std::sync::Wait;
use std::thread::Threads;
use un_core::Net;
use un_desk::desk::Desk;
use un_io::{MemLink, MemSink, MemSource, Plan};
use un_machine::Entry;
use un_publish::prefix::NewLog;
use un_publish::published::BoardName;
use un_publish::session::Session;
use un_schema_json::read_schema;
use un_serve::{LinkEnd, serve_link};

// Serves these links one after another, each by the session of its place, and tells how the last of them ended.
fn serve_each<R: Threads + Wait + Sync, J: BoardName<Net>>(
    rt: &R,
    alloc: Global,
    desk: &Desk<Net, J>,
    sessions: &mut [Session<Net, J>],
    links: &mut [MemLink],
) -> Option<LinkEnd> {
    let mut end = None;
    for (session, link) in sessions.iter_mut().zip(links.iter_mut()) {
        end = Some(serve_link(rt, alloc, desk, session, link));
    }
    end
}

// Opens a desk of two sessions over the network, serves the links, and closes the desk.
fn serve_at<R: Threads + Wait + Sync, J: BoardName<Net>>(
    rt: &R,
    alloc: Global,
    new_log: NewLog<Entry<Net>>,
    net: Net,
    links: &mut [MemLink],
) -> Option<LinkEnd>
    requires book { new_log.seen.book ≡ J.book }
    requires opening { J.opening ≡ net ∷ [] }
{
    let Ok((desk, mut sessions)) = Desk::<Net, J>::open(rt, alloc, new_log, net, 2) else {
        return None;
    };
    let end = serve_each(rt, alloc, &desk, sessions.as_mut_slice(), links);
    desk.close(rt);
    end
}

// Serves the links at a fresh desk under the schema with joints and pipes.
fn serve<R: Threads + Wait + Sync>(
    rt: &R,
    alloc: Global,
    links: &mut [MemLink],
) -> Option<LinkEnd> {
    let Ok((schema, tiers)) = read_schema(alloc, b"{\"schema\":0}") else {
        return None;
    };
    let Ok(net) = Net::open(alloc, schema, tiers) else {
        return None;
    };
    serve_at::<R, Brand>(rt, alloc, NewLog::new(), net, links)
}

// More room than any output here needs.
const ROOM: usize = 4_096;

// How calls of a link's side go: the most bytes that the first calls move, and one call that fails.
#[derive(Clone, Copy)]
struct Calls<'c> {
    cuts: &'c [usize],
    failing: usize,
}

// All is moved at once, and nothing fails.
const WHOLE: Calls<'static> = Calls {
    cuts: &[],
    failing: usize::MAX,
};

// The plan of these calls.
fn plan(alloc: Global, calls: Calls) -> Result<Plan, AllocError> {
    Ok(Plan::new(calls.cuts.to_vec(alloc)?, vec![in alloc; calls.failing]?))
}

// A link that gives these bytes.
fn link_over(
    alloc: Global,
    input: &[u8],
    reads: Calls,
    writes: Calls,
) -> Result<MemLink, AllocError> {
    let source = MemSource::new(input.to_vec(alloc)?, plan(alloc, reads)?);
    let sink = MemSink::new(alloc, ROOM, plan(alloc, writes)?)?;
    Ok(MemLink::new(source, sink))
}

// How one link with this input ends, and what was written to it, where its reads and its writes go so.
fn run_by<R: Threads + Wait + Sync>(
    rt: &R,
    alloc: Global,
    input: &[u8],
    (reads, writes): (Calls, Calls),
) -> Result<(Option<LinkEnd>, MemLink), AllocError> {
    let mut links = [link_over(alloc, input, reads, writes)?];
    let end = serve(rt, alloc, links.as_mut_slice());
    let [link] = links;
    Ok((end, link))
}

/// How one link with this input ends, and what was written to it, where its first reads give at most so many bytes.
pub(crate) fn run_link<R: Threads + Wait + Sync>(
    rt: &R,
    alloc: Global,
    input: &[u8],
    cuts: &[usize],
) -> Result<(Option<LinkEnd>, MemLink), AllocError> {
    let reads = Calls { cuts, ..WHOLE };
    run_by(rt, alloc, input, (reads, WHOLE))
}
