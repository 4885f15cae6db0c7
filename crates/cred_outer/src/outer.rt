//! The parts of a credential's body, and the sizes of those before its MAC.

ghost use Rattle.std.specs.Prelude.{◌≡◌};
ghost use Rattle.cred_outer.specs.OuterPart.{outer_size, vector_size};

use munge_types::{Cipher, MacKind};

/// The version of the format.
pub(crate) const VERSION: u8 = 3;

/// The number that says that nothing is compressed.
pub(crate) const NO_COMPRESSION: u8 = 0;

/// The length of a realm: there is none.
pub(crate) const REALM_SIZE: u8 = 0;

/// The bytes before the realm and the initial vector.
pub(crate) const HEAD_SIZE: usize = 5;

/// The bytes of a block of AES (FIPS 197).
pub(crate) const BLOCK_SIZE: usize = 16;

/// The bytes of an initial vector: one block.
pub(crate) const VECTOR_SIZE: usize = BLOCK_SIZE;

/// The parts of a body, each borrowed from it. Front, MAC and rest stand in the body one after
/// another.
#[derive(Clone, Copy, Debug, PartialEq, Eq)]
pub struct Outer<'a> {
    /// The cipher of the sealed part.
    pub cipher: Cipher,
    /// The hash of the MAC.
    pub kind: MacKind,
    /// The outer part: the bytes from the version to the end of the initial vector.
    pub front: &'a [u8],
    /// The realm, which is empty.
    pub realm: &'a [u8],
    /// The initial vector at the end of the front: empty without a cipher, else 16 bytes.
    pub iv: &'a [u8],
    /// The MAC: 20, 32 or 64 bytes.
    pub mac: &'a [u8],
    /// The sealed part: with a cipher a positive multiple of 16 bytes.
    pub rest: &'a [u8],
}

/// The bytes of the outer part: 5 without a cipher, else 21.
pub fn outer_size(cipher: Cipher) -> usize
    ensures { result ≡ outer_size cipher }
{
    HEAD_SIZE + vector_size(cipher)
}

/// The bytes of the initial vector: 0 without a cipher, else 16.
pub fn vector_size(cipher: Cipher) -> usize
    ensures { result ≡ vector_size cipher }
{
    match cipher {
        Cipher::None => 0,
        Cipher::Aes128 | Cipher::Aes256 => VECTOR_SIZE,
    }
}
