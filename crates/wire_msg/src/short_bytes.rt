//! A few bytes, kept inline.

ghost use Rattle.std.specs.Prelude.{◌≡◌, ◌+◌, ◌≤◌, [], ◌++◌, length};
ghost use Rattle.munge_types.specs.Bytes.{IsBytes};

use std::marker::Model;

/// At most 40 bytes. Contracts see the list of them.
#[derive(Debug, Drop)]
pub(crate) struct ShortBytes {
    buffer: [u8; 40],
    filled: usize,
}

impl Model for ShortBytes {
    ghost use Rattle.std.specs.Prelude.{ℕ, ◌≤◌, List, take};

    ghost Value = { List ℕ };

    ghost view = { λ bytes. take bytes.filled bytes.buffer };

    ghost invariant = { λ bytes. bytes.filled ≤ 40 };
}

impl ShortBytes {
    /// No bytes.
    pub(crate) fn new() -> ShortBytes
        ensures { result ≡ [] }
    {
        ShortBytes {
            buffer: [0; 40],
            filled: 0,
        }
    }

    /// How many there are.
    pub(crate) fn len(&self) -> usize
        ensures { result ≡ length self.now }
    {
        self.filled
    }

    /// The bytes.
    pub(crate) fn bytes(&self) -> &[u8]
        ensures { result.now ≡ self.now }
    {
        &self.buffer[..self.filled]
    }

    /// Appends the part, which has to fit.
    pub(crate) fn put(&mut self, part: &[u8])
        requires { length self.old + length part.now ≤ 40 }
        ensures { self.new ≡ self.old ++ part.now }
    {
        let end = self.filled + part.len();
        self.buffer[self.filled..end].copy_from_slice(part);
        self.filled = end;
    }
}
