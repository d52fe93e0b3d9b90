//! The status of a server whose schema fails to come or is refused, and whose door fails, at each of their calls.

use super::{Calls, WHOLE, link_over, plan};
use crate::scripts::words_of;
use std::alloc::{AllocError, Global};
use std::sync::Wait;
use std::thread::Threads;
use un_io::{MemDoor, MemSource};
use un_serve::run_serve;

const SCHEMA: &[u8] = b"{\"schema\":0}\n";

const SERVE: &str = "serve 1 2";

// A door with two links that ask for the version. The call `failing` of it fails.
fn door_of(alloc: Global, failing: usize) -> Result<MemDoor, AllocError> {
    let mut links = Vec::new(alloc);
    for _ in 0..2 {
        links.push(link_over(alloc, b"GET /version HTTP/1.1\r\n\r\n", WHOLE, WHOLE)?)?;
    }
    Ok(MemDoor::new(links, plan(alloc, Calls { failing, ..WHOLE })?))
}

// Whether a server with these words and this schema ends with the status.
fn ends<R: Threads + Wait + Sync>(
    rt: &R,
    alloc: Global,
    (command, schema): (&str, &[u8]),
    (reads, failing): (Calls, usize),
    status: u8,
) -> Result<bool, AllocError> {
    let words = words_of(alloc, command)?;
    let mut schema = MemSource::new(schema.to_vec(alloc)?, plan(alloc, reads)?);
    let mut door = door_of(alloc, failing)?;
    Ok(run_serve(rt, alloc, words.as_slice(), &mut schema, &mut door) == status)
}

// Words and what comes for a schema, which call of the door fails, and the status.
const SERVERS: [(&str, &[u8], usize, u8); 12] = [
    (SERVE, SCHEMA, usize::MAX, 0),
    (SERVE, b"\n{\"schema\":0}", usize::MAX, 0),
    (SERVE, SCHEMA, 0, 5),
    (SERVE, SCHEMA, 1, 5),
    (SERVE, SCHEMA, 2, 5),
    (SERVE, b"", usize::MAX, 6),
    (SERVE, b"{\"schema\":3}\n{\"schema\":0}\n", usize::MAX, 6),
    (SERVE, b"[[[[[\xff", usize::MAX, 6),
    ("serve 1", SCHEMA, usize::MAX, 2),
    ("serve 0 1", SCHEMA, usize::MAX, 2),
    ("serve 1 65", SCHEMA, usize::MAX, 2),
    ("script", SCHEMA, usize::MAX, 2),
];

// The first of these that ends otherwise.
fn first_other<R: Threads + Wait + Sync>(
    rt: &R,
    alloc: Global,
) -> Result<Option<usize>, AllocError> {
    for at in 0..SERVERS.len() {
        let (command, schema, failing, status) = SERVERS[at];
        if !ends(rt, alloc, (command, schema), (WHOLE, failing), status)? {
            return Ok(Some(at));
        }
    }
    Ok(None)
}

// The least number of a read of the schema's line that fails and is answered otherwise than by status 3. Each read gives a byte.
fn first_other_read<R: Threads + Wait + Sync>(
    rt: &R,
    alloc: Global,
) -> Result<Option<usize>, AllocError> {
    let cuts = vec![in alloc; 1; SCHEMA.len()]?;
    for failing in 0..SCHEMA.len() {
        let reads = Calls {
            cuts: cuts.as_slice(),
            failing,
        };
        if !ends(rt, alloc, (SERVE, SCHEMA), (reads, usize::MAX), 3)? {
            return Ok(Some(failing));
        }
    }
    Ok(None)
}

/// Whether servers end with the status of their cause.
pub(crate) fn end_as_due<R: Threads + Wait + Sync>(
    rt: &R,
    alloc: Global,
) -> Result<bool, AllocError> {
    let server = first_other(rt, alloc)?;
    let read = first_other_read(rt, alloc)?;
    Ok(server.is_none() && read.is_none())
}
