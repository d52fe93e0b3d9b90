//! Whether a link has the end and the responses that are due.

use super::{Calls, run_by};
use std::alloc::{AllocError, Global};
use std::sync::Wait;
use std::thread::Threads;
use un_serve::LinkEnd;

/// Whether one link with this input ends so, after exactly this output.
pub(super) fn gives<R: Threads + Wait + Sync>(
    rt: &R,
    alloc: Global,
    input: &[u8],
    calls: (Calls, Calls),
    output: &[u8],
    end: LinkEnd,
) -> Result<bool, AllocError> {
    let (found, link) = run_by(rt, alloc, input, calls)?;
    Ok(found == Some(end) && link.bytes() == output)
}
