//! HMAC, from a key to the MAC of a message.

ghost use Rattle.std.specs.Prelude.{◌≡◌, ◌≤◌, ℕ, List, [], ◌++◌, length, ⊤};
ghost use Rattle.munge_types.specs.declared.algorithms.MacKind.{MacKind};
ghost use Rattle.hmac_core.specs.Hmac.{block_size, filled, hmac, padded_by};
ghost use Rattle.hmac_core.specs.Hasher.{Holds, kind_of};
ghost use Rattle.hmac_core.specs.Absorbed.{Absorbed, IsKeyed};

use crate::hasher::{Hasher, block_size};
use munge_types::{MacBytes, MacKind};
use std::alloc::AllocError;

/// The bytes of the longest block.
const LONGEST_BLOCK: usize = 128;

/// The byte that each byte of the key is combined with for the inner hash.
const INNER_PAD: u8 = 0x36;

/// The same for the outer hash.
const OUTER_PAD: u8 = 0x5c;

/// A MAC in the making: both hashes have taken in the padded key, and the inner one the message so
/// far. A clone has taken in the same, so a state of the empty message may be kept for many
/// messages under one key.
#[derive(Drop)]
pub struct Hmac {
    inner: Hasher,
    outer: Hasher,
}

impl Clone for Hmac {
    ghost is_clone = { λ x y. y ≡ x };

    ghost is_infallible = { λ _. ⊤ };

    fn clone(&self) -> Result<Hmac, AllocError> {
        Ok(Hmac {
            inner: self.inner.clone()?,
            outer: self.outer.clone()?,
        })
    }
}

impl Hmac {
    /// The MAC of the empty message under this hash function and this key, which has any number of
    /// bytes.
    pub fn new(kind: MacKind, key: &[u8]) -> Hmac
        ensures { Absorbed result kind key.now [] }
    {
        if key.len() > block_size(kind) {
            let mut hasher = Hasher::new(kind);
            hasher.update(key);
            return Hmac::keyed(kind, hasher.finish().bytes());
        }
        Hmac::keyed(kind, key)
    }

    /// The same where the key has at most the bytes of a block.
    fn keyed(kind: MacKind, key: &[u8]) -> Hmac
        requires { length key.now ≤ block_size kind }
        ensures { IsKeyed result kind (filled (block_size kind) key.now) }
    {
        Hmac {
            inner: padded(kind, key, INNER_PAD),
            outer: padded(kind, key, OUTER_PAD),
        }
    }

    /// Adds a part to the message.
    pub fn update(&mut self, part: &[u8])
        ensures { (kind : MacKind) (key message : List ℕ) → Absorbed self.old kind key message
            → Absorbed self.new kind key (message ++ part.now) }
    {
        self.inner.update(part);
    }

    /// The MAC of the message.
    pub fn finish(self) -> MacBytes
        ensures { (kind : MacKind) (key message : List ℕ) → Absorbed self kind key message
            → result ≡ hmac kind key message }
    {
        let Hmac { inner, mut outer } = self;
        outer.update(inner.finish().bytes());
        outer.finish()
    }
}

/// A hasher that has taken in the key's block, each byte of it combined with the pad.
fn padded(kind: MacKind, key: &[u8], pad: u8) -> Hasher
    requires { length key.now ≤ block_size kind }
    ensures kind { kind_of result ≡ kind }
    ensures message { Holds result (padded_by pad (filled (block_size kind) key.now)) }
{
    // Behind the key the block has zeros, which the pad makes to itself.
    let mut block = [pad; LONGEST_BLOCK];
    for (i, byte) in key.iter().enumerate() {
        block[i] = *byte ^ pad;
    }
    let mut hasher = Hasher::new(kind);
    hasher.update(&block[..block_size(kind)]);
    hasher
}
