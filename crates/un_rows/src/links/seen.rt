//! Two links of one desk, one after the other: what the first one made is there for the second.

use super::{Calls, WHOLE, link_over, serve};
use std::alloc::{AllocError, Global};
use std::sync::Wait;
use std::thread::Threads;
use un_serve::LinkEnd;

// What the two links send.
const INPUTS: [&[u8]; 2] = [
    b"POST /commands HTTP/1.1\r\nContent-Length: 49\r\n\r\n{\"do\":\"insert\",\"kind\":\"joint\",\"points\":[[0,0,0]]}",
    b"POST /queries HTTP/1.1\r\nContent-Length: 26\r\n\r\n{\"ask\":\"version\",\"seen\":1}POST /queries HTTP/1.1\r\nContent-Length: 26\r\n\r\n{\"ask\":\"version\",\"seen\":2}POST /queries HTTP/1.1\r\nContent-Length: 60\r\n\r\n{\"ask\":\"trace\",\"type\":\"connected\",\"starts\":[[1,1]],\"seen\":1}",
];

// What they are answered.
const OUTPUTS: [&[u8]; 2] = [
    b"HTTP/1.1 200 OK\r\nContent-Type: application/json\r\nContent-Length: 48\r\n\r\n{\"areas\":[1,1],\"id\":1,\"ok\":\"insert\",\"version\":1}",
    b"HTTP/1.1 200 OK\r\nContent-Type: application/json\r\nContent-Length: 28\r\n\r\n{\"ok\":\"version\",\"version\":1}HTTP/1.1 409 Conflict\r\nContent-Type: application/json\r\nContent-Length: 47\r\n\r\n{\"error\":31,\"latest\":1,\"name\":\"Ahead\",\"seen\":2}HTTP/1.1 422 Unprocessable Content\r\nContent-Type: application/json\r\nContent-Length: 75\r\n\r\n{\"area\":1,\"error\":43,\"feature\":1,\"name\":\"DirtyGround\",\"port\":1,\"version\":1}",
];

// Whether both links have their responses where the first read of each ends after so many bytes.
fn are_served<R: Threads + Wait + Sync>(
    rt: &R,
    alloc: Global,
    (inputs, outputs): ([&[u8]; 2], [&[u8]; 2]),
    cut: usize,
) -> Result<bool, AllocError> {
    let reads = Calls {
        cuts: &[cut],
        ..WHOLE
    };
    let mut links = [
        link_over(alloc, inputs[0], reads, WHOLE)?,
        link_over(alloc, inputs[1], reads, WHOLE)?,
    ];
    let end = serve(rt, alloc, links.as_mut_slice());
    Ok(
        end == Some(LinkEnd::Closed)
            && links[0].bytes() == outputs[0]
            && links[1].bytes() == outputs[1],
    )
}

// The first cut at which they have other responses.
fn first_other_cut<R: Threads + Wait + Sync>(
    rt: &R,
    alloc: Global,
    (inputs, outputs): ([&[u8]; 2], [&[u8]; 2]),
) -> Result<Option<usize>, AllocError> {
    for cut in 1..=inputs[1].len() {
        if !are_served(rt, alloc, (inputs, outputs), cut)? {
            return Ok(Some(cut));
        }
    }
    Ok(None)
}

/// Whether a second link sees what the first one made.
pub(crate) fn is_seen<R: Threads + Wait + Sync>(rt: &R, alloc: Global) -> Result<bool, AllocError> {
    Ok(first_other_cut(rt, alloc, (INPUTS, OUTPUTS))?.is_none())
}
