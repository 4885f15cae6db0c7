//! The hash functions of FIPS 180-4 that MACs are made with, as one type.

ghost use Rattle.std.specs.Prelude.{◌≡◌, ℕ, List, [], ◌++◌};
ghost use Rattle.hmac_core.specs.Hmac.{block_size, hash};
ghost use Rattle.hmac_core.specs.Hasher.{Holds, kind_of};

use munge_types::{MacBytes, MacKind};
use sha1::Sha1;
use sha2::{Digest, Sha256, Sha512};

/// A message that is hashed part by part.
#[derive(Clone, Drop)]
pub(crate) enum Hasher {
    Sha1(Sha1),
    Sha256(Sha256),
    Sha512(Sha512),
}

impl Hasher {
    /// The empty message under this hash function.
    pub(crate) fn new(kind: MacKind) -> Hasher
        ensures kind { kind_of result ≡ kind }
        ensures message { Holds result [] }
    {
        match kind {
            MacKind::Sha1 => Hasher::Sha1(Sha1::new()),
            MacKind::Sha256 => Hasher::Sha256(Sha256::new()),
            MacKind::Sha512 => Hasher::Sha512(Sha512::new()),
        }
    }

    /// Adds a part to the message.
    pub(crate) fn update(&mut self, part: &[u8])
        ensures kind { kind_of self.new ≡ kind_of self.old }
        ensures message { (message : List ℕ) → Holds self.old message
            → Holds self.new (message ++ part.now) }
    {
        match self {
            Hasher::Sha1(hasher) => hasher.update(part),
            Hasher::Sha256(hasher) => hasher.update(part),
            Hasher::Sha512(hasher) => hasher.update(part),
        }
    }

    /// The hash of the message.
    pub(crate) fn finish(self) -> MacBytes
        ensures { (message : List ℕ) → Holds self message
            → result ≡ hash (kind_of self) message }
    {
        match self {
            Hasher::Sha1(hasher) => MacBytes::of(&hasher.finalize()),
            Hasher::Sha256(hasher) => MacBytes::of(&hasher.finalize()),
            Hasher::Sha512(hasher) => MacBytes::of(&hasher.finalize()),
        }
    }
}

/// The bytes of the hash function's block (FIPS 180-4, figure 1).
pub(crate) fn block_size(kind: MacKind) -> usize
    ensures { result ≡ block_size kind }
{
    match kind {
        MacKind::Sha1 | MacKind::Sha256 => 64,
        MacKind::Sha512 => 128,
    }
}
