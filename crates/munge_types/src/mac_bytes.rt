//! The bytes of a MAC, kept inline.

ghost use Rattle.std.specs.Prelude.{◌≡◌, ◌≤◌, length};

use std::marker::Model;

mod comparisons;

/// A MAC of at most 64 bytes. Contracts see the list of its bytes.
#[derive(Clone, Copy, Debug)]
pub struct MacBytes {
    buffer: [u8; 64],
    filled: usize,
}

impl Model for MacBytes {
    ghost use Rattle.std.specs.Prelude.{ℕ, List, take, length};
    ghost use Rattle.munge_types.specs.MacBytes.{padded, IsFilled};

    ghost Value = { List ℕ };

    ghost view = { λ mac. take mac.filled mac.buffer };

    ghost invariant = { λ mac. IsFilled mac.buffer mac.filled };

    ghost inverse = { λ bytes. record { buffer = padded bytes; filled = length bytes } };
}

impl MacBytes {
    /// The MAC of these bytes.
    pub fn of(bytes: &[u8]) -> MacBytes
        requires { length bytes.now ≤ 64 }
        ensures { result ≡ bytes.now }
    {
        let mut buffer = [0; 64];
        buffer[..bytes.len()].copy_from_slice(bytes);
        MacBytes {
            buffer,
            filled: bytes.len(),
        }
    }

    /// The bytes of the MAC.
    pub fn bytes(&self) -> &[u8]
        ensures { result.now ≡ self.now }
    {
        &self.buffer[..self.filled]
    }
}
