//! The head of a request: what it asks for, or the check that it fails.
ghost use Rattle.std.specs.Prelude.{◌≡◌, ◌==◌, ◌≤◌, Some, None, IfOk, IfErr, length};
ghost use Rattle.std.specs.List.{position_or_len};
ghost use Rattle.httparse.specs.Grammar.{RequestHead};
ghost use Rattle.httparse.specs.Spans.{IsWithin, IsRequestWithin, IsRequestAt, span_bytes};
ghost use Rattle.un_http.specs.Head.{IsHead, Fails, length_check, first_check, body_size};
ghost use Rattle.un_http.specs.Headers.{AreWithin, headers_at};
ghost use Rattle.un_http.specs.Passed.{IsPassed, IsChecked};

use crate::check::Check;
use crate::header::{all_agree, asks_close, first_value, has};
use crate::number::{is_number, small_number};
use httparse::Status;
use httparse::spans::{HeaderSpan, RequestSpans, Span, parse_request};

/// The room for headers. A block can't have more, since each has at least three bytes.
pub(crate) const HEADER_ROOM: usize = 2_731;

/// The greatest length of a block in bytes.
pub(crate) const MOST_BLOCK: usize = 8_192;

/// The greatest length of a body in bytes.
pub(crate) const MOST_BODY: usize = 1_048_576;

/// The most headers that a request may have.
const MOST_HEADERS: usize = 32;

/// The contents of a head that passes all checks.
#[derive(Clone, Copy, Debug, PartialEq, Eq)]
pub(crate) struct Passed {
    /// Where the method is in the block.
    pub method: Span,
    /// Where the path is in the block.
    pub path: Span,
    /// The length of the body in bytes.
    pub size: usize,
    /// The link closes after the response.
    pub close: bool,
}

// Where the parts of the head are, if the whole block is a head.
fn parse_whole(block: &[u8], headers: &mut [HeaderSpan]) -> Result<RequestSpans, Check>
    requires room { length headers.old ≡ HEADER_ROOM }
    requires short { length block.now ≤ MOST_BLOCK }
    ensures within { IfOk result (IsRequestWithin block.now headers.new) }
    ensures ok { IfOk result (λ spans. (head : RequestHead)
        × IsHead block.now head × IsRequestAt block.now headers.new spans head) }
    ensures whole { IfOk result (λ spans. spans.len ≡ length block.now) }
    ensures err { IfErr result (λ check. (check ≡ Check.BadHead)
        × ((head : RequestHead) → ¬ (IsHead block.now head))) }
{
    match parse_request(block, headers) {
        Ok(Status::Complete(spans)) => {
            if spans.len == block.len() {
                Ok(spans)
            } else {
                Err(Check::BadHead)
            }
        }
        Ok(Status::Partial) => Err(Check::BadHead),
        Err(_) => Err(Check::BadHead),
    }
}

// The length of the body in bytes, or the check that the lengths in the headers fail.
fn body_length(block: &[u8], headers: &[HeaderSpan], method: &[u8]) -> Result<usize, Check>
    requires { AreWithin block.now headers.now }
    ensures ok { IfOk result (λ size. (length_check method.now (headers_at block.now headers.now) ≡ None)
        × (size ≡ body_size (headers_at block.now headers.now)) × (size ≤ 1048576)) }
    ensures err { IfErr result (λ check. length_check method.now (headers_at block.now headers.now)
        ≡ Some check) }
{
    match first_value(block, headers, b"content-length") {
        None if method == b"POST".as_slice() => Err(Check::NoLength),
        None => Ok(0),
        Some(first) => {
            if !is_number(first) || !all_agree(block, headers, b"content-length", first) {
                return Err(Check::BadHead);
            }
            match small_number(first, MOST_BODY as u64) {
                Some(size) => Ok(size as usize),
                None => Err(Check::LongBody),
            }
        }
    }
}

// The length of a target's path, which ends at the first question mark.
fn path_len(target: &[u8]) -> usize
    ensures value { result ≡ position_or_len (λ byte. byte == 63) target.now }
    ensures within { result ≤ length target.now }
{
    target.iter().take_while(|byte| **byte != b'?').count()
}

// The contents of a head with these headers, or the first check that it fails.
fn check_headers(block: &[u8], headers: &[HeaderSpan], spans: RequestSpans) -> Result<Passed, Check>
    requires within { AreWithin block.now headers.now }
    requires method { IsWithin (length block.now) spans.method }
    requires path { IsWithin (length block.now) spans.path }
    ensures ok { IfOk result (IsChecked block.now (headers_at block.now headers.now) spans) }
    ensures err { IfErr result
        (λ check. first_check (span_bytes block.now spans.method) (headers_at block.now headers.now)
        ≡ Some check) }
{
    if headers.len() > MOST_HEADERS {
        return Err(Check::ManyHeaders);
    }
    if has(block, headers, b"transfer-encoding") || has(block, headers, b"expect") {
        return Err(Check::NotSupported);
    }
    let size = body_length(block, headers, spans.method.of(block))?;
    let target = spans.path;
    let path = Span {
        start: target.start,
        end: target.start + path_len(target.of(block)),
    };
    Ok(Passed {
        method: spans.method,
        path,
        size,
        close: spans.version == 0 || asks_close(block, headers),
    })
}

/// Reads a block as a head, and checks it.
pub(crate) fn read_head(block: &[u8], headers: &mut [HeaderSpan]) -> Result<Passed, Check>
    requires room { length headers.old ≡ HEADER_ROOM }
    requires short { length block.now ≤ MOST_BLOCK }
    ensures ok { IfOk result (IsPassed block.now) }
    ensures err { IfErr result (Fails block.now) }
{
    let spans = parse_whole(block, headers)?;
    check_headers(block, &headers[..spans.headers], spans)
}
