//! The headers of a block, which are stored as spans of it.
ghost use Rattle.std.specs.Prelude.{◌≡◌, ℕ, ◌&&◌, ◌||◌, not, true, List, ◌∷◌, [], length, codes, MatchOption};
ghost use Rattle.std.specs.List.{list_all, list_any};
ghost use Rattle.httparse.specs.Spans.{IsHeaderWithin, header_bytes, span_bytes};
ghost use Rattle.un_http.specs.Head.{asks_close, has, is_named, is_number, lists_close, values};
ghost use Rattle.un_http.specs.Headers.{AreWithin, headers_at, is_same};

use crate::list::lists_close;
use crate::number::{is_number, same_number};
use httparse::spans::HeaderSpan;

// Whether the header has the name, ignoring case.
fn is_named(block: &[u8], header: &HeaderSpan, name: &[u8]) -> bool
    requires { IsHeaderWithin (length block.now) header.now }
    ensures { result ≡ is_named name.now (header_bytes block.now header.now) }
{
    header.name.of(block).eq_ignore_ascii_case(name)
}

/// Whether there is a header of this name.
#[tactic(auto, using(crate::proofs::Headers::any_mapped))]
pub(crate) fn has(block: &[u8], headers: &[HeaderSpan], name: &[u8]) -> bool
    requires { AreWithin block.now headers.now }
    ensures { result ≡ has name.now (headers_at block.now headers.now) }
{
    has_in(block, headers, name)
}

// The same, over the spans of the headers.
fn has_in(block: &[u8], headers: &[HeaderSpan], name: &[u8]) -> bool
    requires { AreWithin block.now headers.now }
    ensures { result ≡ list_any (λ header. is_named name.now (header_bytes block.now header)) headers.now }
{
    headers.iter().any(|header| is_named(block, header, name))
}

/// The value of the first header of this name.
pub(crate) fn first_value<'b>(
    block: &'b [u8],
    headers: &[HeaderSpan],
    name: &[u8],
) -> Option<&'b [u8]>
    requires { AreWithin block.now headers.now }
    ensures { MatchOption result (values name.now (headers_at block.now headers.now) ≡ [])
        (λ value. (rest : List (List ℕ)) × (values name.now (headers_at block.now headers.now) ≡ value.now ∷ rest)) }
{
    for header in headers {
        if is_named(block, header, name) {
            return Some(header.value.of(block));
        }
    }
    None
}

// Whether a text is the same number as the first one.
fn agrees(text: &[u8], first: &[u8]) -> bool
    requires { is_number first.now ≡ true }
    ensures { result ≡ is_same first.now text.now }
{
    is_number(text) && same_number(text, first)
}

/// Whether the values of all headers of this name are the same number as the first one.
pub(crate) fn all_agree(block: &[u8], headers: &[HeaderSpan], name: &[u8], first: &[u8]) -> bool
    requires within { AreWithin block.now headers.now }
    requires first { is_number first.now ≡ true }
    ensures { result ≡ list_all (is_same first.now) (values name.now (headers_at block.now headers.now)) }
{
    all_agree_in(block, headers, name, first)
}

// The same, over the spans of the headers.
fn all_agree_in(block: &[u8], headers: &[HeaderSpan], name: &[u8], first: &[u8]) -> bool
    requires within { AreWithin block.now headers.now }
    requires first { is_number first.now ≡ true }
    ensures { result ≡ list_all (λ header. not (is_named name.now (header_bytes block.now header))
        || is_same first.now (span_bytes block.now header.value)) headers.now }
{
    headers.iter().all(|header| !is_named(block, header, name)
        || agrees(header.value.of(block), first))
}

/// Whether a `Connection` header has `close` in its list.
pub(crate) fn asks_close(block: &[u8], headers: &[HeaderSpan]) -> bool
    requires { AreWithin block.now headers.now }
    ensures { result ≡ asks_close (headers_at block.now headers.now) }
{
    asks_close_in(block, headers)
}

// The same, over the spans of the headers.
fn asks_close_in(block: &[u8], headers: &[HeaderSpan]) -> bool
    requires { AreWithin block.now headers.now }
    ensures { result ≡ list_any (λ header. is_named (codes "connection") (header_bytes block.now header)
        && lists_close (span_bytes block.now header.value)) headers.now }
{
    headers.iter().any(|header| {
        is_named(block, header, b"connection") && lists_close(header.value.of(block))
    })
}
