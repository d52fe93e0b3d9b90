//! The next request in the bytes of a link: its first byte, its block, its head, its body.
ghost use Rattle.std.specs.Prelude.{◌≡◌, ◌+◌, ◌<◌, ◌≤◌, length, vec_capacity};
ghost use Rattle.un_io.specs.Outside.{Rose};
ghost use Rattle.un_http.specs.Block.{Begins};
ghost use Rattle.un_http.specs.Filling.{More};
ghost use Rattle.un_http.specs.Taking.{TakesBegun, TakesNext};

use crate::check::Check;
use crate::fill::{Filled, Found, fill, find_block, skip_blank};
use crate::head::{HEADER_ROOM, MOST_BLOCK, MOST_BODY, Passed, read_head};
use httparse::spans::HeaderSpan;
use std::sync::Wait;
use un_io::Link;

/// What was found in the bytes of a link.
#[derive(Clone, Copy, Debug, PartialEq, Eq)]
pub(crate) enum Taken {
    /// A request, which begins at the first byte: the contents of its head, and the length of its block.
    Request(Passed, usize),
    /// The check that the request failed, which begins at the first byte.
    Failed(Check),
    /// The input ended with no byte of a request.
    Closed,
    /// The input ended inside a request, after this many of its bytes.
    Cut(u64),
    /// The link failed.
    ReadFault,
}

// Reads the request that begins at the first byte.
fn take_begun<X: Link>(
    link: &mut X,
    piece: &mut [u8],
    headers: &mut [HeaderSpan],
    bytes: &mut Vec<u8>,
) -> Taken
    requires piece { 0 < length piece.old }
    requires headers { length headers.old ≡ HEADER_ROOM }
    requires room { MOST_BLOCK + MOST_BODY ≤ vec_capacity bytes.old }
    requires begins { Begins bytes.old.items }
    ensures more { More (X.left link.old) (X.left link.new) bytes.old.items bytes.new.items }
    ensures takes { TakesBegun bytes.new.items (X.left link.new) result }
    ensures capacity { vec_capacity bytes.old ≤ vec_capacity bytes.new }
    ensures counted { X.read_faults link.old ≤ X.read_faults link.new }
    ensures cause { result ≡ Taken.ReadFault → Rose (X.read_faults link.old) (X.read_faults link.new) }
    ensures keeps_taken { X.taken link.new ≡ X.taken link.old }
    ensures keeps_count { X.write_faults link.new ≡ X.write_faults link.old }
{
    let size = match find_block(link, piece, bytes) {
        Found::Block(size) => size,
        Found::TooLong => return Taken::Failed(Check::ManyHeaders),
        Found::End => return Taken::Cut(bytes.len() as u64),
        Found::Failed => return Taken::ReadFault,
    };
    let passed = match read_head(&bytes[..size], headers) {
        Ok(passed) => passed,
        Err(check) => return Taken::Failed(check),
    };
    match fill(link, piece, bytes, size + passed.size) {
        Filled::Ready => Taken::Request(passed, size),
        Filled::End => Taken::Cut(bytes.len() as u64),
        Filled::Failed => Taken::ReadFault,
    }
}

/// Reads the next request, which then begins at the first byte; the bytes before it are dropped.
pub(crate) fn take_request<R: Wait, X: Link>(
    rt: &R,
    link: &mut X,
    piece: &mut [u8],
    headers: &mut [HeaderSpan],
    bytes: &mut Vec<u8>,
) -> Taken
    requires piece { 0 < length piece.old }
    requires headers { length headers.old ≡ HEADER_ROOM }
    requires room { MOST_BLOCK + MOST_BODY ≤ vec_capacity bytes.old }
    ensures takes { TakesNext bytes.old.items bytes.new.items (X.left link.old) (X.left link.new) result }
    ensures capacity { vec_capacity bytes.old ≤ vec_capacity bytes.new }
    ensures counted { X.read_faults link.old ≤ X.read_faults link.new }
    ensures cause { result ≡ Taken.ReadFault → Rose (X.read_faults link.old) (X.read_faults link.new) }
    ensures keeps_taken { X.taken link.new ≡ X.taken link.old }
    ensures keeps_count { X.write_faults link.new ≡ X.write_faults link.old }
{
    match skip_blank(rt, link, piece, bytes) {
        Filled::Ready => take_begun(link, piece, headers, bytes),
        Filled::End => Taken::Closed,
        Filled::Failed => Taken::ReadFault,
    }
}
