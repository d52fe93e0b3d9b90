//! The first line alone, for a caller that reads nothing after it.
ghost use Rattle.std.specs.Prelude.{◌≡◌, ◌≢◌, ℕ, ◌+◌, ◌≤◌, ◌<◌, List, [], ◌++◌, Err, IfOk, length};
ghost use Rattle.un_io.specs.Outside.{Rose};
ghost use Rattle.un_lines.specs.Buffer.{HoldsLine};
ghost use Rattle.un_lines.specs.Rules.{kind_of};
ghost use Rattle.un_lines.specs.First.{HasRead, ReadsFirst, ReadsBlankLines, ReadsBlankToLimit, FindsFirst};
ghost use Rattle.un_lines.specs.Passing.{Passed, PassesTo, IsKept, kept_as};

use crate::MOST_BYTES;
use crate::line::{Kind, LineBuffer, kind_of};
use crate::piece::line_end;
use crate::run::PIECE;
use std::alloc::{AllocError, Global};
use std::marker::Model;
use un_io::{Got, Source};

/// The bytes of a line, without its end. Contracts see them as a list.
#[derive(Drop)]
pub struct LineBytes {
    bytes: Vec<u8>,
}

impl Model for LineBytes {
    ghost use Rattle.std.specs.Prelude.{ℕ, List};

    ghost Value = { List ℕ };

    ghost view = { λ l. l.bytes.items };
}

impl LineBytes {
    /// A line of these bytes.
    pub fn new(bytes: Vec<u8>) -> LineBytes
        ensures { result ≡ bytes.items }
    {
        LineBytes { bytes }
    }

    /// Its bytes.
    pub fn as_slice(&self) -> &[u8]
        ensures { result.now ≡ self.now }
    {
        self.bytes.as_slice()
    }

    /// Its bytes, without copying them.
    pub fn into_vec(self) -> Vec<u8>
        ensures { result.items ≡ self }
    {
        self.bytes
    }
}

/// The first line that isn't blank.
#[derive(Drop)]
pub enum FirstLine {
    /// Its bytes.
    Line(LineBytes),
    /// It is longer than the longest line.
    TooLong,
    /// The input ended without one.
    Missing,
}

/// Why the first line was not read.
#[derive(Clone, Copy, Debug, PartialEq, Eq)]
pub enum FirstFault {
    /// The source failed.
    Source,
    /// There was no memory for the buffers. Nothing was read.
    Memory,
    /// The limit of bytes was read.
    Limit,
}

// The kind of the line that the buffer holds.
fn held_kind(buffer: &LineBuffer) -> Kind
    ensures { (line : List ℕ) → HoldsLine buffer.now line → result ≡ kind_of line }
{
    if buffer.over {
        Kind::TooLong
    } else {
        kind_of(&buffer.bytes)
    }
}

// Passes over the blank lines that end in a piece. The kind is that of the first other one, which the buffer then holds,
// or `Blank` if all are blank.
fn pass_blank(buffer: &mut LineBuffer, piece: &[u8]) -> Kind
    ensures { (read : List ℕ) → Passed read buffer.old.bytes.items buffer.old.over
        → PassesTo (read ++ piece.now) buffer.new.bytes.items buffer.new.over result }
{
    let mut rest = piece;
    'lines: while let Some(at) = line_end(rest) {
        buffer.add(&rest[..at]);
        match held_kind(buffer) {
            Kind::Blank => buffer.clear(),
            kind => return kind,
        }
        rest = &rest[at + 1..];
    }
    buffer.add(rest);
    Kind::Blank
}

// Reads pieces up to the end of the first line that isn't blank, or of the input. The kind is that of the first line,
// which the buffer then holds, or `Blank` if it is missing.
fn read_to_first<S: Source>(
    source: &mut S,
    buffer: &mut LineBuffer,
    piece: &mut [u8],
) -> Result<Kind, FirstFault>
    requires none_held { HoldsLine buffer.old [] }
    requires piece { 0 < length piece.old }
    ensures kept { IfOk result (λ kind. HasRead (S.left source.old) (S.left source.new)
        (λ read. IsKept read (S.left source.new) (kept_as kind buffer.new.bytes.items))) }
    ensures source_fault { result ≡ Err FirstFault.Source
        → ReadsBlankLines (S.left source.old) (S.left source.new) }
    ensures limit { result ≡ Err FirstFault.Limit
        → ReadsBlankToLimit (S.left source.old) (S.left source.new) }
    ensures memory { result ≢ Err FirstFault.Memory }
    ensures counted { S.faults source.old ≤ S.faults source.new }
    ensures cause { result ≡ Err FirstFault.Source → Rose (S.faults source.old) (S.faults source.new) }
    ensures unfailing { result ≢ Err FirstFault.Source → S.faults source.new ≡ S.faults source.old }
{
    let mut count: u64 = 0;
    'pieces: while count < MOST_BYTES {
        let room = (MOST_BYTES - count).min(piece.len() as u64) as usize;
        match source.read(&mut piece[..room]) {
            Got::Failed => return Err(FirstFault::Source),
            Got::End => return Ok(held_kind(buffer)),
            Got::Bytes(size) => {
                count += size as u64;
                match pass_blank(buffer, &piece[..size]) {
                    Kind::Blank => {}
                    kind => return Ok(kind),
                }
            }
        }
    }
    Err(FirstFault::Limit)
}

// The first line, which the buffer holds.
fn first_line(buffer: LineBuffer, kind: Kind) -> FirstLine
    ensures { result ≡ kept_as kind buffer.bytes.items }
{
    match kind {
        Kind::TooLong => FirstLine::TooLong,
        Kind::Blank => FirstLine::Missing,
        Kind::Request => FirstLine::Line(LineBytes::new(buffer.bytes)),
    }
}

// The unfinished line, and the piece.
fn buffers(alloc: Global) -> Result<(LineBuffer, Vec<u8>), AllocError>
    ensures none_held { IfOk result (λ buffers. HoldsLine buffers.0 []) }
    ensures piece { IfOk result (λ buffers. 0 < length buffers.1.items) }
{
    let line = LineBuffer::new(alloc)?;
    let piece = vec![in alloc; 0u8; PIECE]?;
    Ok((line, piece))
}

/// Reads the first line that isn't blank.
///
/// Reads no further piece once that line has ended. What the last piece holds after the line is dropped.
pub fn read_first_line<S: Source>(alloc: Global, source: &mut S) -> Result<FirstLine, FirstFault>
    ensures first { IfOk result (ReadsFirst (S.left source.old) (S.left source.new)) }

    // The source failed, or the limit was reached: all whole lines read are blank.
    ensures source_fault { result ≡ Err FirstFault.Source
        → ReadsBlankLines (S.left source.old) (S.left source.new) }
    ensures limit { result ≡ Err FirstFault.Limit
        → ReadsBlankToLimit (S.left source.old) (S.left source.new) }
    ensures memory { result ≡ Err FirstFault.Memory → source.new ≡ source.old }

    ensures counted { S.faults source.old ≤ S.faults source.new }
    ensures cause { result ≡ Err FirstFault.Source → Rose (S.faults source.old) (S.faults source.new) }
    ensures unfailing { result ≢ Err FirstFault.Source → S.faults source.new ≡ S.faults source.old }

    // If nothing fails and the input is below the limit, its first line is answered, unless there is no memory.
    ensures complete { FindsFirst (S.left source.old) (S.faults source.old) (S.faults source.new) result }
{
    match buffers(alloc) {
        Ok((mut line, mut piece)) => {
            let kind = read_to_first(source, &mut line, &mut piece)?;
            Ok(first_line(line, kind))
        }
        Err(_) => Err(FirstFault::Memory),
    }
}
