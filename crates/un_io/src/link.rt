//! Links: connections that are read and written, such as TCP streams.
ghost use Rattle.std.specs.Prelude.{◌≡◌, ℕ, ◌<◌, ◌≤◌, List, Option, Some, None, length, OnOk, OnErr};
ghost use Rattle.std.specs.Io.KnownBytes.{Appends};
ghost use Rattle.un_io.specs.Outside.{Rose, Reads, Writes, AppendsPrefix, CountsReads, CountsWrites};
ghost use Rattle.un_io.specs.Plans.{next_read, read_by, next_write, written_by};

use crate::memory::{MemSink, MemSource};
use crate::sink::{Sink, SinkFault, Took};
use crate::source::{Got, Source};
use std::io::{Read, Write};
use std::marker::Model;

/// Gives and takes bytes, and counts the faults of reading and of writing apart.
pub trait Link {
    ghost use Rattle.un_io.specs.Outside.{Reads, Writes, CountsReads, CountsWrites};

    // The bytes that are left to read, if known.
    ghost left: { Self → Option (List ℕ) };

    // The bytes that it has taken, if known.
    ghost taken: { Self → Option (List ℕ) };

    // How many reads have failed, saturating at `u64::MAX`.
    ghost read_faults: { Self → ℕ };

    // How many writes have failed, saturating at `u64::MAX`.
    ghost write_faults: { Self → ℕ };

    /// Reads the next bytes into the start of the buffer. The bytes taken and the count of write faults do not change.
    fn read(&mut self, buf: &mut [u8]) -> Got
        requires { 0 < length buf.old }
        ensures bytes { Reads (left self.old) (left self.new) buf.new result }
        ensures cause { CountsReads (read_faults self.old) (read_faults self.new) result }
        ensures keeps_taken { taken self.new ≡ taken self.old }
        ensures keeps_count { write_faults self.new ≡ write_faults self.old };

    /// Takes a prefix of the piece. The bytes left and the count of read faults do not change.
    fn write(&mut self, piece: &[u8]) -> Took
        requires { 0 < length piece.now }
        ensures bytes { Writes (taken self.old) (taken self.new) piece.now result }
        ensures cause { CountsWrites (write_faults self.old) (write_faults self.new) result }
        ensures keeps_left { left self.new ≡ left self.old }
        ensures keeps_count { read_faults self.new ≡ read_faults self.old };
}

/// A link in memory: a source and a sink, each with its own plan.
#[derive(Drop)]
pub struct MemLink {
    source: MemSource,
    sink: MemSink,
}

impl Model for MemLink {
    ghost use Rattle.un_io.specs.States.{Ends};

    ghost Value = { Ends };

    ghost view = { λ l. record { source = l.source; sink = l.sink } };
}

impl MemLink {
    /// Gives the bytes of the source, and takes bytes into the sink.
    pub fn new(source: MemSource, sink: MemSink) -> MemLink
        ensures { result ≡ record { source = source; sink = sink } }
    {
        MemLink { source, sink }
    }

    /// The bytes that it has taken.
    pub fn bytes(&self) -> &[u8]
        ensures { result.now ≡ self.now.sink.taken }
    {
        self.sink.bytes()
    }
}

impl Link for MemLink {
    ghost left = { λ l. Some l.source.left };

    ghost taken = { λ l. Some l.sink.taken };

    ghost read_faults = { λ l. l.source.faults };

    ghost write_faults = { λ l. l.sink.faults };

    fn read(&mut self, buf: &mut [u8]) -> Got
        requires { 0 < length buf.old }
        ensures bytes { Reads (Some self.old.source.left) (Some self.new.source.left) buf.new result }
        ensures cause { CountsReads self.old.source.faults self.new.source.faults result }
        ensures came { result ≡ next_read self.old.source (length buf.old) }
        ensures behind { self.new ≡ record { source = read_by self.old.source result; sink = self.old.sink } }
    {
        self.source.read(buf)
    }

    fn write(&mut self, piece: &[u8]) -> Took
        requires { 0 < length piece.now }
        ensures bytes { Writes (Some self.old.sink.taken) (Some self.new.sink.taken) piece.now result }
        ensures cause { CountsWrites self.old.sink.faults self.new.sink.faults result }
        ensures took { result ≡ next_write self.old.sink (length piece.now) }
        ensures behind { self.new
            ≡ record { source = self.old.source; sink = written_by self.old.sink piece.now result } }
    {
        self.sink.write(piece)
    }
}

/// A link over a stream, such as a socket. Contracts say nothing about its bytes.
#[derive(Drop)]
pub struct StreamLink<S> {
    stream: S,
    read_faults: u64,
    write_faults: u64,
}

impl<S: Read + Write> StreamLink<S> {
    /// Reads from this stream, and writes to it.
    pub fn new(stream: S) -> StreamLink<S>
        ensures left { ⟦<StreamLink<S> as Link>⟧.left result ≡ None }
        ensures taken { ⟦<StreamLink<S> as Link>⟧.taken result ≡ None }
        ensures read_faults { ⟦<StreamLink<S> as Link>⟧.read_faults result ≡ 0 }
        ensures write_faults { ⟦<StreamLink<S> as Link>⟧.write_faults result ≡ 0 }
    {
        StreamLink {
            stream,
            read_faults: 0,
            write_faults: 0,
        }
    }
}

impl<S: Read + Write> Link for StreamLink<S> {
    ghost left = { λ _. None };

    ghost taken = { λ _. None };

    ghost read_faults = { λ l. l.read_faults };

    ghost write_faults = { λ l. l.write_faults };

    fn read(&mut self, buf: &mut [u8]) -> Got {
        match self.stream.read(buf) {
            Ok(0) => Got::End,
            Ok(count) => Got::Bytes(count),
            Err(_) => {
                self.read_faults = self.read_faults.saturating_add(1);
                Got::Failed
            }
        }
    }

    fn write(&mut self, piece: &[u8]) -> Took {
        match self.stream.write(piece) {
            Ok(count) if count > 0 => Took::Bytes(count),
            _ => {
                self.write_faults = self.write_faults.saturating_add(1);
                Took::Failed
            }
        }
    }
}

/// Writes all of the bytes to a link, or, if a write fails, a prefix of them. What is left to read does not change.
pub fn send<L: Link>(link: &mut L, bytes: &[u8]) -> Result<(), SinkFault>
    ensures ok { OnOk result (Appends (L.taken link.old) (L.taken link.new) bytes.now) }
    ensures err { OnErr result (AppendsPrefix (L.taken link.old) (L.taken link.new) bytes.now) }
    ensures counted { L.write_faults link.old ≤ L.write_faults link.new }
    ensures unfailing { OnOk result (L.write_faults link.new ≡ L.write_faults link.old) }
    ensures cause { OnErr result (Rose (L.write_faults link.old) (L.write_faults link.new)) }
    ensures keeps_left { L.left link.new ≡ L.left link.old }
    ensures keeps_count { L.read_faults link.new ≡ L.read_faults link.old }
{
    let mut at = 0;
    while at < bytes.len() {
        match link.write(&bytes[at..]) {
            Took::Bytes(count) => at += count,
            Took::Failed => return Err(SinkFault),
        }
    }
    Ok(())
}
