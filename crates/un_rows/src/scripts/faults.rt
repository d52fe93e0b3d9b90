//! A source and a sink that fail, at each of their calls.

use super::{Calls, WHOLE, plan, run, words_of};
use std::alloc::{AllocError, Global};

// The lines of a script, and those of its replies.
#[derive(Clone, Copy)]
struct Script {
    input: &'static [u8],
    output: &'static [u8],
}

// The schema, a query, a command, and the query again.
const SCRIPT: Script = Script {
    input: b"{\"schema\":0}\n{\"ask\":\"version\"}\n{\"do\":\"insert\",\"kind\":\"joint\",\"points\":[[0,0,0]]}\n{\"ask\":\"version\"}\n",
    output: b"{\"ok\":\"version\",\"version\":0}\n{\"areas\":[1,1],\"id\":1,\"ok\":\"insert\",\"version\":1}\n{\"ok\":\"version\",\"version\":1}\n",
};

// Whether the command of this word ends with this status and exactly this output.
fn gives(
    alloc: Global,
    word: &str,
    input: &[u8],
    (source, sink): (Calls, Calls),
    status: u8,
    output: &[u8],
) -> Result<bool, AllocError> {
    let words = words_of(alloc, word)?;
    let (source, sink) = (plan(alloc, source)?, plan(alloc, sink)?);
    let (ended, sink) = run(alloc, words.as_slice(), input, source, sink)?;
    Ok(ended == status && sink.bytes() == output)
}

// The bytes up to the end of the line with this number, counted from 0.
fn lines_before(text: &[u8], count: usize) -> &[u8] {
    let mut left = count;
    for at in 0..text.len() {
        if left == 0 {
            return &text[..at];
        }
        if text[at] == b'\n' {
            left -= 1;
        }
    }
    text
}

// How many lines are whole in these bytes.
fn whole_lines(text: &[u8]) -> usize {
    text.iter().filter(|byte| **byte == b'\n').count()
}

// The least number of a read that fails and is answered otherwise than by status 3 and the replies to the lines that were whole
// before it. Each read gives so many bytes; the last one would have found the end of the input.
fn first_other_read(
    alloc: Global,
    script: Script,
    size: usize,
) -> Result<Option<usize>, AllocError> {
    let (input, output) = (script.input, script.output);
    let size = size.max(1);
    for failing in 0..=input.len().div_ceil(size) {
        let read = &input[..input.len().min(failing * size)];
        let due = lines_before(output, whole_lines(read).saturating_sub(1));
        let calls = (Calls { size, failing }, WHOLE);
        if !gives(alloc, "script", input, calls, 3, due)? {
            return Ok(Some(failing));
        }
    }
    Ok(None)
}

/// Whether a script ends with status 3 and the replies to the lines that were whole, whichever of its reads fails.
pub(crate) fn source_fails_as_due(alloc: Global) -> Result<bool, AllocError> {
    for size in [1, 7, 64] {
        if first_other_read(alloc, SCRIPT, size)?.is_some() {
            return Ok(false);
        }
    }
    Ok(true)
}

// The least number of a write that fails and is answered otherwise than by status 4 and the bytes that were written before it. Each
// write takes a byte.
fn first_other_write(alloc: Global, script: Script) -> Result<Option<usize>, AllocError> {
    let (input, output) = (script.input, script.output);
    for failing in 0..output.len() {
        let calls = (WHOLE, Calls { size: 1, failing });
        if !gives(alloc, "script", input, calls, 4, &output[..failing])? {
            return Ok(Some(failing));
        }
    }
    Ok(None)
}

// Whether the script ends with status 4 and a prefix of its output where this write fails. Each read gives a byte, so each reply is
// written by itself.
fn keeps_a_prefix(alloc: Global, script: Script, failing: usize) -> Result<bool, AllocError> {
    let (input, output) = (script.input, script.output);
    let words = words_of(alloc, "script")?;
    let source = plan(alloc, Calls { size: 1, ..WHOLE })?;
    let sink = plan(alloc, Calls { failing, ..WHOLE })?;
    let (status, sink) = run(alloc, words.as_slice(), input, source, sink)?;
    let count = sink.bytes().len().min(output.len());
    Ok(status == 4 && sink.bytes() == &output[..count])
}

// The least number of a reply at which a failing write does otherwise.
fn first_other_reply(alloc: Global, script: Script) -> Result<Option<usize>, AllocError> {
    for failing in 0..whole_lines(script.output) {
        if !keeps_a_prefix(alloc, script, failing)? {
            return Ok(Some(failing));
        }
    }
    Ok(None)
}

/// Whether a script ends with status 4 and a prefix of its replies, whichever of its writes fails.
pub(crate) fn sink_fails_as_due(alloc: Global) -> Result<bool, AllocError> {
    let write = first_other_write(alloc, SCRIPT)?;
    let reply = first_other_reply(alloc, SCRIPT)?;
    Ok(write.is_none() && reply.is_none())
}

/// Whether a follower ends with status 3 and no reply where the read behind its first line fails.
pub(crate) fn source_of_a_follower_fails_as_due(alloc: Global) -> Result<bool, AllocError> {
    let reads = Calls {
        failing: 1,
        ..WHOLE
    };
    gives(alloc, "follow", b"{\"schema\":0}", (reads, WHOLE), 3, b"")
}

/// Whether the line of a network ends with status 4 and nothing written where its write fails.
pub(crate) fn sink_of_a_network_fails_as_due(alloc: Global) -> Result<bool, AllocError> {
    let writes = Calls {
        failing: 0,
        ..WHOLE
    };
    gives(alloc, "make 0 3", b"", (WHOLE, writes), 4, b"")
}
