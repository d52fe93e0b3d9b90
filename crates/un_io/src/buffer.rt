//! A buffer of a fixed size, allocated up front.
ghost use Rattle.std.specs.Prelude.{◌≡◌, ◌+◌, ◌≤◌, [], ◌++◌, length, IfOk};

use std::alloc::{AllocError, Global};
use std::marker::Model;

/// Bytes in memory, and how many of them there is room for. Adding bytes allocates nothing.
#[derive(Drop)]
pub(crate) struct Buffer {
    bytes: Vec<u8>,
    room: usize,
}

impl Model for Buffer {
    ghost use Rattle.std.specs.Prelude.{◌≤◌, vec_len, vec_capacity};
    ghost use Rattle.un_io.specs.States.{Buffer as Kept};

    ghost Value = { Kept };

    ghost view = { λ f. record { bytes = f.bytes.items; room = f.room } };

    ghost invariant = { λ f. (vec_len f.bytes ≤ f.room) × (f.room ≤ vec_capacity f.bytes) };
}

impl Buffer {
    /// An empty buffer with room for `room` bytes.
    pub(crate) fn new(alloc: Global, room: usize) -> Result<Buffer, AllocError>
        ensures { IfOk result (λ buffer. buffer ≡ record { bytes = []; room = room }) }
    {
        Ok(Buffer {
            bytes: Vec::with_capacity(alloc, room)?,
            room,
        })
    }

    /// How many more bytes there is room for.
    pub(crate) fn spare(&self) -> usize
        ensures { length self.now.bytes + result ≡ self.now.room }
    {
        self.room - self.bytes.len()
    }

    /// Appends the piece.
    pub(crate) fn keep(&mut self, piece: &[u8])
        requires { length self.old.bytes + length piece.now ≤ self.old.room }
        ensures { self.new ≡ record self.old { bytes = self.old.bytes ++ piece.now } }
    {
        self.bytes.extend_from_slice(piece).unwrap()
    }

    /// The bytes.
    pub(crate) fn bytes(&self) -> &[u8]
        ensures { result.now ≡ self.now.bytes }
    {
        self.bytes.as_slice()
    }
}
