//! Two requests and a part of a third one, where the input ends at every byte, and where each read and each write fails.

use super::given::gives;
use super::{Calls, WHOLE};
use std::alloc::{AllocError, Global};
use std::sync::Wait;
use std::thread::Threads;
use un_serve::LinkEnd;

// What a link sends, and what it is answered.
#[derive(Clone, Copy)]
struct Talk {
    input: &'static [u8],
    output: &'static [u8],
}

// Two requests of 34 bytes, and a third one whose body is cut after 5 of its 9 bytes.
const TALK: Talk = Talk {
    input: b"GET /version HTTP/1.1\r\nHost: a\r\n\r\nGET /version HTTP/1.1\r\nHost: a\r\n\r\nPOST /commands HTTP/1.1\r\nContent-Length: 9\r\n\r\n{\"do\"",
    output: b"HTTP/1.1 200 OK\r\nContent-Type: application/json\r\nContent-Length: 28\r\n\r\n{\"ok\":\"version\",\"version\":0}HTTP/1.1 200 OK\r\nContent-Type: application/json\r\nContent-Length: 28\r\n\r\n{\"ok\":\"version\",\"version\":0}",
};

// The length of each of the first two requests, and of the response to it.
const REQUEST: usize = 34;

const RESPONSE: usize = 99;

impl Talk {
    // The responses to the requests that are whole in so many bytes.
    fn responses_by(&self, count: usize) -> &'static [u8] {
        let length = RESPONSE * (count / REQUEST).min(2);
        &self.output[..length.min(self.output.len())]
    }
}

// How the link ends where the input ends after so many bytes.
fn end_after(count: usize) -> LinkEnd {
    let rest = count - REQUEST * (count / REQUEST).min(2);
    if rest == 0 {
        LinkEnd::Closed
    } else {
        LinkEnd::Cut { bytes: rest as u64 }
    }
}

// The least count of bytes after which the input ends and the link is answered otherwise.
fn first_other_end<R: Threads + Wait + Sync>(
    rt: &R,
    alloc: Global,
    talk: Talk,
) -> Result<Option<usize>, AllocError> {
    for count in 0..=talk.input.len() {
        let (output, end) = (talk.responses_by(count), end_after(count));
        if !gives(rt, alloc, &talk.input[..count], (WHOLE, WHOLE), output, end)? {
            return Ok(Some(count));
        }
    }
    Ok(None)
}

/// Whether all requests that are whole are answered, wherever the input ends.
pub(crate) fn input_ends_as_due<R: Threads + Wait + Sync>(
    rt: &R,
    alloc: Global,
) -> Result<bool, AllocError> {
    Ok(first_other_end(rt, alloc, TALK)?.is_none())
}

// The least number of a read that fails and is answered otherwise than by the responses to the requests that were whole before it.
// Each read gives so many bytes; the last one would have found the end of the input.
fn first_other_read<R: Threads + Wait + Sync>(
    rt: &R,
    alloc: Global,
    talk: Talk,
    size: usize,
) -> Result<Option<usize>, AllocError> {
    let size = size.max(1);
    let cuts = vec![in alloc; size; talk.input.len()]?;
    for failing in 0..=talk.input.len().div_ceil(size) {
        let reads = Calls {
            cuts: cuts.as_slice(),
            failing,
        };
        let output = talk.responses_by(failing.saturating_mul(size));
        if !gives(
            rt,
            alloc,
            talk.input,
            (reads, WHOLE),
            output,
            LinkEnd::ReadFault,
        )? {
            return Ok(Some(failing));
        }
    }
    Ok(None)
}

/// Whether all requests that are whole are answered, whichever read fails.
pub(crate) fn reads_fail_as_due<R: Threads + Wait + Sync>(
    rt: &R,
    alloc: Global,
) -> Result<bool, AllocError> {
    for size in [1, 7, 40] {
        if first_other_read(rt, alloc, TALK, size)?.is_some() {
            return Ok(false);
        }
    }
    Ok(true)
}

// The least number of a write that fails and is answered otherwise than by the bytes that were written before it. Each write takes
// a byte.
fn first_other_write<R: Threads + Wait + Sync>(
    rt: &R,
    alloc: Global,
    talk: Talk,
) -> Result<Option<usize>, AllocError> {
    let cuts = vec![in alloc; 1; talk.output.len()]?;
    for failing in 0..talk.output.len() {
        let writes = Calls {
            cuts: cuts.as_slice(),
            failing,
        };
        let output = &talk.output[..failing];
        if !gives(
            rt,
            alloc,
            talk.input,
            (WHOLE, writes),
            output,
            LinkEnd::WriteFault,
        )? {
            return Ok(Some(failing));
        }
    }
    Ok(None)
}

/// Whether what was written before stands, whichever write fails.
pub(crate) fn writes_fail_as_due<R: Threads + Wait + Sync>(
    rt: &R,
    alloc: Global,
) -> Result<bool, AllocError> {
    Ok(first_other_write(rt, alloc, TALK)?.is_none())
}
