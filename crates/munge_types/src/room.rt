//! A buffer whose room was reserved before it is written.

ghost use Rattle.std.specs.Prelude.{◌≡◌, ◌+◌, ◌≤◌, [], ◌++◌, length, IfOk};

use crate::{NoMemory, Put};
use std::alloc::Global;
use std::marker::Model;

/// A byte buffer whose room was reserved when it was made, so that no later append takes memory.
/// Contracts see its bytes and its spare, which is how many more bytes fit.
#[derive(Debug, Drop)]
pub struct Room {
    buffer: Vec<u8>,
    spare: usize,
}

impl Model for Room {
    ghost use Rattle.std.specs.Prelude.{◌+◌, ◌≤◌};
    ghost use Rattle.std.specs.Vec.{vec_len, vec_capacity};
    ghost use Rattle.munge_types.specs.Room.{Reserved};

    ghost Value = { Reserved };

    ghost view = { λ room. record { bytes = room.buffer.items; spare = room.spare } };

    ghost invariant = { λ room. vec_len room.buffer + room.spare ≤ vec_capacity room.buffer };
}

impl Room {
    /// An empty buffer with room for this many bytes.
    pub fn new(alloc: Global, n: usize) -> Result<Room, NoMemory>
        ensures empty { IfOk result (λ room. room.bytes ≡ []) }
        ensures spare { IfOk result (λ room. room.spare ≡ n) }
    {
        let buffer = Vec::with_capacity(alloc, n)?;
        Ok(Room { buffer, spare: n })
    }

    /// How many bytes were put.
    pub fn filled(&self) -> usize
        ensures { result ≡ length self.now.bytes }
    {
        self.buffer.len()
    }

    /// An empty buffer with room for this many bytes, in the memory of this one as far as that goes.
    /// What it held is dropped.
    pub fn over(mut buffer: Vec<u8>, n: usize) -> Result<Room, NoMemory>
        ensures empty { IfOk result (λ room. room.bytes ≡ []) }
        ensures spare { IfOk result (λ room. room.spare ≡ n) }
    {
        buffer.clear();
        buffer.reserve_exact(n)?;
        Ok(Room { buffer, spare: n })
    }

    /// Appends the part, which has to fit. It takes no memory.
    pub fn put(&mut self, part: &[u8])
        requires { length part.now ≤ self.old.spare }
        ensures appended { self.new.bytes ≡ self.old.bytes ++ part.now }
        ensures lowered { self.new.spare + length part.now ≡ self.old.spare }
    {
        self.buffer.extend_from_slice(part).unwrap();
        self.spare -= part.len();
    }

    /// The bytes that were put.
    pub fn finish(self) -> Vec<u8>
        ensures { result.items ≡ self.bytes }
    {
        let Room { buffer, spare: _ } = self;
        buffer
    }
}

impl Put for Room {
    ghost use Rattle.std.specs.Prelude.{[]};

    ghost taken = { λ room. room.bytes };

    ghost base = { λ _. [] };

    ghost spare = { λ room. room.spare };

    fn put(&mut self, part: &[u8]) {
        Room::put(self, part);
    }
}
