//! Runs that no row of a table can describe: sources, sinks and doors that fail at each of their calls, and links that wait for
//! one another.

use crate::Verdict;
use crate::links::{doors, pipelined, seen, sockets};
use crate::scripts::faults;
use std::alloc::AllocError;
use std::io;
use std::net::{Net, TcpListener, TcpStream};
use std::sync::Wait;
use std::thread::Threads;

// Tells whether all was as due in a run.
fn show<R: Print>(rt: &R, name: &str, is_due: bool) -> io::Result<Verdict> {
    if is_due {
        println!(rt; "{name}: as due")?;
        Ok(Verdict::AsDue)
    } else {
        println!(rt; "{name}: other")?;
        Ok(Verdict::Other)
    }
}

// The same of a run for which memory may have run out.
fn show_run<R: Print>(rt: &R, name: &str, run: Result<bool, AllocError>) -> io::Result<Verdict> {
    show(rt, name, run?)
}

// Runs commands whose source or sink fails.
fn show_commands<R: Print + AllocGlobal>(rt: &R) -> io::Result<Verdict> {
    let alloc = rt.alloc();
    let source = faults::source_fails_as_due(alloc);
    let shown = show_run(rt, "source of a script that fails", source)?;
    let sink = faults::sink_fails_as_due(alloc);
    let shown = shown.and(show_run(rt, "sink of a script that fails", sink)?);
    let follower = faults::source_of_a_follower_fails_as_due(alloc);
    let shown = shown.and(show_run(rt, "source of a follower that fails", follower)?);
    let network = faults::sink_of_a_network_fails_as_due(alloc);
    Ok(shown.and(show_run(rt, "sink of a network that fails", network)?))
}

// Runs servers over memory.
fn show_servers<R: Print + AllocGlobal + Threads + Wait + Sync>(rt: &R) -> io::Result<Verdict> {
    let alloc = rt.alloc();
    let end = pipelined::input_ends_as_due(rt, alloc);
    let shown = show_run(rt, "input that ends at any byte", end)?;
    let reads = pipelined::reads_fail_as_due(rt, alloc);
    let shown = shown.and(show_run(rt, "read that fails", reads)?);
    let writes = pipelined::writes_fail_as_due(rt, alloc);
    let shown = shown.and(show_run(rt, "write that fails", writes)?);
    let seen = seen::is_seen(rt, alloc);
    let shown = shown.and(show_run(rt, "second link sees what the first one made", seen)?);
    let doors = doors::end_as_due(rt, alloc);
    Ok(shown.and(show_run(rt, "schema or door of a server that fails", doors)?))
}

// Runs servers over TCP.
fn show_sockets<
    R: Print
        + Net<Listener = TcpListener, Stream = TcpStream>
        + AllocGlobal
        + Threads
        + Wait
        + Sync,
>(rt: &R) -> io::Result<Verdict> {
    let both = sockets::are_served_at_once(rt)?;
    let shown = show(rt, "link served while the one before it waits", both)?;
    let before = sockets::is_served_before_the_door_fails(rt)?;
    Ok(shown.and(show(rt, "link served before the door fails", before)?))
}

/// Runs all of them, and tells how each was.
pub(crate) fn show_unlisted<
    R: Print
        + Net<Listener = TcpListener, Stream = TcpStream>
        + AllocGlobal
        + Threads
        + Wait
        + Sync,
>(rt: &R) -> io::Result<Verdict> {
    Ok(
        show_commands(rt)?
            .and(show_servers(rt)?)
            .and(show_sockets(rt)?),
    )
}
