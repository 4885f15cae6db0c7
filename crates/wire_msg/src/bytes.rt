//! Bytes of any number.

ghost use Rattle.std.specs.Prelude.{◌≡◌};
ghost use Rattle.munge_types.specs.Bytes.{IsBytes};

use std::marker::Model;

mod comparisons;

/// A byte vector. Contracts see the list of its bytes.
#[derive(Debug, Drop)]
pub struct Bytes {
    buffer: Vec<u8>,
}

impl Model for Bytes {
    ghost use Rattle.std.specs.Prelude.{ℕ, List};
    ghost use Rattle.munge_types.specs.Bytes.{IsBytes};

    ghost Value = { List ℕ };

    ghost view = { λ bytes. bytes.buffer.items };

    ghost invariant = { λ bytes. IsBytes bytes.buffer.items };
}

impl Bytes {
    /// These bytes. It takes no memory.
    pub fn of(bytes: Vec<u8>) -> Bytes
        ensures { result ≡ bytes.items }
    {
        Bytes { buffer: bytes }
    }

    /// The bytes. It takes no memory.
    pub fn bytes(&self) -> &[u8]
        ensures same { result.now ≡ self.now }
        ensures bytes { IsBytes self.now }
    {
        &self.buffer
    }

    /// The vector, given back. It takes no memory.
    pub fn into_vec(self) -> Vec<u8>
        ensures { result.items ≡ self }
    {
        let Bytes { buffer } = self;
        buffer
    }
}
