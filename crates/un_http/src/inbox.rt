//! The inbox of a link: it gives the requests in the link's bytes, one after another.
//!
//! The bytes of one request are contiguous, so its method, path and body are slices of them. The next call moves the
//! bytes after the request to the start: they are at most the surplus of one read after a head.
ghost use Rattle.std.specs.Prelude.{◌≡◌, ◌≤◌, [], IfOk};
ghost use Rattle.un_io.specs.Outside.{Rose};
ghost use Rattle.un_http.specs.Answers.{AnswersNext};

use crate::block::drop_prefix;
use crate::check::Check;
use crate::head::{HEADER_ROOM, MOST_BLOCK, MOST_BODY};
use crate::take::{Taken, take_request};
use httparse::spans::{EMPTY_HEADER_SPAN, HeaderSpan, Span};
use std::alloc::{AllocError, Global};
use std::marker::Model;
use std::sync::Wait;
use un_io::Link;

/// The most bytes of one read.
const PIECE: usize = 8_192;

/// The room for bytes: a block and a body.
const ROOM: usize = MOST_BLOCK + MOST_BODY;

/// The span of the method and of the path before the first request.
const NOTHING: Span = Span { start: 0, end: 0 };

/// What comes next in the bytes of a link.
#[derive(Clone, Copy, Debug, PartialEq, Eq)]
pub enum Next {
    /// A request. The inbox has its method, its path and its body.
    Request(Head),
    /// The check that the next request failed. The link closes after its response, and the rest of the input is not read.
    Failed(Check),
    /// The input ended with no byte of a request.
    Closed,
    /// The input ended inside a request, after this many of its bytes.
    Cut { bytes: u64 },
    /// A read failed, and the link has counted it.
    ReadFault,
}

/// What the head of a request says about the link.
#[derive(Clone, Copy, Debug, PartialEq, Eq)]
pub struct Head {
    /// The link closes after the response: the version is 1.0, or a `Connection` header has `close` in its list.
    pub close: bool,
}

/// The last request that was returned, and the bytes of the link that have come after it.
#[derive(Drop)]
pub struct Inbox {
    // The last request that was returned, and what has come after it.
    bytes: Vec<u8>,
    // What one read gives.
    piece: Vec<u8>,
    headers: Vec<HeaderSpan>,
    method: Span,
    path: Span,
    // Where the block of the request ends, and where its body ends.
    block: usize,
    used: usize,
}

impl Model for Inbox {
    ghost use Rattle.std.specs.Prelude.{◌≡◌, ◌≤◌, vec_len, vec_capacity, drop, slice_range, length};
    ghost use Rattle.un_http.specs.States.{Holding};

    ghost Value = { Holding };

    ghost view = { λ i. record {
      method = slice_range i.bytes.items i.method.start i.method.end;
      path = slice_range i.bytes.items i.path.start i.path.end;
      body = slice_range i.bytes.items i.block i.used;
      held = drop i.used i.bytes.items;
    } };

    ghost invariant = { λ i.
        (i.method.start ≤ i.method.end) × (i.method.end ≤ vec_len i.bytes)
        × (i.path.start ≤ i.path.end) × (i.path.end ≤ vec_len i.bytes)
        × (i.block ≤ i.used) × (i.used ≤ vec_len i.bytes)
        × (1056768 ≤ vec_capacity i.bytes) × (length i.piece.items ≡ 8192) × (length i.headers.items ≡ 2731) };
}

impl Inbox {
    /// An inbox before its first request, with the room for one.
    pub fn new(alloc: Global) -> Result<Inbox, AllocError>
        ensures { IfOk result (λ inbox. inbox ≡ record { method = []; path = []; body = []; held = [] }) }
    {
        Ok(Inbox {
            bytes: Vec::with_capacity(alloc, ROOM)?,
            piece: vec![in alloc; 0u8; PIECE]?,
            headers: vec![in alloc; EMPTY_HEADER_SPAN; HEADER_ROOM]?,
            method: NOTHING,
            path: NOTHING,
            block: 0,
            used: 0,
        })
    }

    /// The method of the last request, empty before the first.
    pub fn method(&self) -> &[u8]
        ensures { result.now ≡ self.now.method }
    {
        self.method.of(&self.bytes)
    }

    /// The path of the last request, empty before the first. It is the target up to the first `?`.
    pub fn path(&self) -> &[u8]
        ensures { result.now ≡ self.now.path }
    {
        self.path.of(&self.bytes)
    }

    /// The body of the last request, empty before the first.
    pub fn body(&self) -> &[u8]
        ensures { result.now ≡ self.now.body }
    {
        &self.bytes[self.block..self.used]
    }
}

/// The next request of a link. It allocates nothing. It may wait for the link, and never returns if a client sends CR
/// and LF bytes endlessly. After any result other than `Request` it is not called again.
pub fn next_request<R: Wait, X: Link>(rt: &R, inbox: &mut Inbox, link: &mut X) -> Next
    ensures answers { AnswersNext inbox.old inbox.new (X.left link.old) (X.left link.new) result }
    ensures counted { X.read_faults link.old ≤ X.read_faults link.new }
    ensures cause { result ≡ Next.ReadFault → Rose (X.read_faults link.old) (X.read_faults link.new) }
    ensures keeps_taken { X.taken link.new ≡ X.taken link.old }
    ensures keeps_count { X.write_faults link.new ≡ X.write_faults link.old }
{
    drop_prefix(&mut inbox.bytes, inbox.used);
    inbox.method = NOTHING;
    inbox.path = NOTHING;
    inbox.block = 0;
    inbox.used = 0;
    match take_request(
        rt,
        link,
        &mut inbox.piece,
        &mut inbox.headers,
        &mut inbox.bytes,
    ) {
        Taken::Request(passed, block) => {
            inbox.method = passed.method;
            inbox.path = passed.path;
            inbox.block = block;
            inbox.used = block + passed.size;
            Next::Request(Head {
                close: passed.close,
            })
        }
        Taken::Failed(check) => Next::Failed(check),
        Taken::Closed => Next::Closed,
        Taken::Cut(bytes) => Next::Cut { bytes },
        Taken::ReadFault => Next::ReadFault,
    }
}
