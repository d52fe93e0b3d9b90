//! Reading as much of a link as the next request needs.
//!
//! A read that looks for the end of a block may return bytes after it. One that fills a body never does.
ghost use Rattle.std.specs.Prelude.{◌≡◌, ◌+◌, ◌*◌, ◌<◌, ◌≤◌, length, vec_len, vec_capacity};
ghost use Rattle.un_io.specs.Outside.{CountsReads, Rose};
ghost use Rattle.un_http.specs.Filling.{More, Appended, Skips, BeginsBy, FillsBy, Finds};

use crate::block::{drop_blank, find_end};
use crate::head::MOST_BLOCK;
use crate::put::put;
use std::sync::Wait;
use un_io::{Got, Link};

/// The outcome of reading more bytes.
#[derive(Clone, Copy, Debug, PartialEq, Eq)]
pub(crate) enum Filled {
    /// The bytes that were needed are there.
    Ready,
    /// The input ended first.
    End,
    /// The link failed.
    Failed,
}

/// The outcome of the search for the end of a block.
#[derive(Clone, Copy, Debug, PartialEq, Eq)]
pub(crate) enum Found {
    /// The block has this length.
    Block(usize),
    /// The block is longer than a block may be.
    TooLong,
    /// The input ended first.
    End,
    /// The link failed.
    Failed,
}

/// Reads once, and appends the bytes, at most `most` of them. They are read into `piece` first.
pub(crate) fn read_more<X: Link>(
    link: &mut X,
    piece: &mut [u8],
    bytes: &mut Vec<u8>,
    most: usize,
) -> Got
    requires some { 0 < most }
    requires piece { 0 < length piece.old }
    requires room { vec_len bytes.old + most ≤ vec_capacity bytes.old }
    ensures more { More (X.left link.old) (X.left link.new) bytes.old.items bytes.new.items }
    ensures came { Appended bytes.old.items bytes.new.items (X.left link.new) most result }
    ensures capacity { vec_capacity bytes.old ≤ vec_capacity bytes.new }
    ensures cause { CountsReads (X.read_faults link.old) (X.read_faults link.new) result }
    ensures keeps_taken { X.taken link.new ≡ X.taken link.old }
    ensures keeps_count { X.write_faults link.new ≡ X.write_faults link.old }
{
    let size = most.min(piece.len());
    let got = link.read(&mut piece[..size]);
    if let Got::Bytes(count) = got {
        put(bytes, &piece[..count]);
    }
    got
}

/// Reads until there are `need` bytes.
pub(crate) fn fill<X: Link>(
    link: &mut X,
    piece: &mut [u8],
    bytes: &mut Vec<u8>,
    need: usize,
) -> Filled
    requires piece { 0 < length piece.old }
    requires room { need ≤ vec_capacity bytes.old }
    ensures more { More (X.left link.old) (X.left link.new) bytes.old.items bytes.new.items }
    ensures filled { FillsBy bytes.new.items (X.left link.new) need result }
    ensures capacity { vec_capacity bytes.old ≤ vec_capacity bytes.new }
    ensures counted { X.read_faults link.old ≤ X.read_faults link.new }
    ensures cause { result ≡ Filled.Failed → Rose (X.read_faults link.old) (X.read_faults link.new) }
    ensures keeps_taken { X.taken link.new ≡ X.taken link.old }
    ensures keeps_count { X.write_faults link.new ≡ X.write_faults link.old }
{
    'filling: while bytes.len() < need {
        let most = need - bytes.len();
        match read_more(link, piece, bytes, most) {
            Got::Bytes(_) => {}
            Got::End => return Filled::End,
            Got::Failed => return Filled::Failed,
        }
    }
    Filled::Ready
}

/// Reads until the end of the block that begins at the first byte.
pub(crate) fn find_block<X: Link>(link: &mut X, piece: &mut [u8], bytes: &mut Vec<u8>) -> Found
    requires piece { 0 < length piece.old }
    requires room { 2 * MOST_BLOCK ≤ vec_capacity bytes.old }
    ensures more { More (X.left link.old) (X.left link.new) bytes.old.items bytes.new.items }
    ensures found { Finds bytes.new.items (X.left link.new) result }
    ensures capacity { vec_capacity bytes.old ≤ vec_capacity bytes.new }
    ensures counted { X.read_faults link.old ≤ X.read_faults link.new }
    ensures cause { result ≡ Found.Failed → Rose (X.read_faults link.old) (X.read_faults link.new) }
    ensures keeps_taken { X.taken link.new ≡ X.taken link.old }
    ensures keeps_count { X.write_faults link.new ≡ X.write_faults link.old }
{
    let mut seen = 0;
    'finding: loop {
        let most = bytes.len().min(MOST_BLOCK);
        if let Some(size) = find_end(bytes, seen, most) {
            return Found::Block(size);
        }
        if most == MOST_BLOCK {
            return Found::TooLong;
        }
        seen = most;
        match read_more(link, piece, bytes, MOST_BLOCK) {
            Got::Bytes(_) => {}
            Got::End => return Found::End,
            Got::Failed => return Found::Failed,
        }
    }
}

/// Drops the CR and LF bytes before a request, and reads until one begins. It may never return, since a client can
/// send CR and LF bytes endlessly.
pub(crate) fn skip_blank<R: Wait, X: Link>(
    rt: &R,
    link: &mut X,
    piece: &mut [u8],
    bytes: &mut Vec<u8>,
) -> Filled
    requires piece { 0 < length piece.old }
    requires room { MOST_BLOCK ≤ vec_capacity bytes.old }
    ensures skipped { Skips (X.left link.old) (X.left link.new) bytes.old.items bytes.new.items }
    ensures begins { BeginsBy bytes.new.items (X.left link.new) result }
    ensures capacity { vec_capacity bytes.old ≤ vec_capacity bytes.new }
    ensures counted { X.read_faults link.old ≤ X.read_faults link.new }
    ensures cause { result ≡ Filled.Failed → Rose (X.read_faults link.old) (X.read_faults link.new) }
    ensures keeps_taken { X.taken link.new ≡ X.taken link.old }
    ensures keeps_count { X.write_faults link.new ≡ X.write_faults link.old }
{
    'skipping: for _ in rt.forever() {
        drop_blank(bytes);
        if !bytes.is_empty() {
            return Filled::Ready;
        }
        match read_more(link, piece, bytes, MOST_BLOCK) {
            Got::Bytes(_) => {}
            Got::End => return Filled::End,
            Got::Failed => return Filled::Failed,
        }
    }
    unreachable!()
}
