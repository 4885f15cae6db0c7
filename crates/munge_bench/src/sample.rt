//! Which credential is sealed and opened, and how many bytes that makes for each part of it.

use cbc_mode::pad_size;
use cred_inner::HEAD_SIZE;
use cred_outer::outer_size;
use munge_types::{Cipher, MacKind};
use std::fmt;

/// The algorithms of a credential, and its payload.
#[derive(Clone, Copy)]
pub(crate) struct Sample {
    pub(crate) cipher: Cipher,
    pub(crate) kind: MacKind,
    /// The bytes of the payload.
    pub(crate) payload: u32,
    /// How many calls are made between two looks at the clock.
    pub(crate) calls: u32,
}

impl Sample {
    /// The bytes of the inner part.
    fn inner_size(&self) -> usize {
        HEAD_SIZE.saturating_add(self.payload as usize)
    }

    /// The bytes that the MAC is made of: the outer part, and the inner part in plain.
    pub(crate) fn hashed_size(&self) -> usize {
        outer_size(self.cipher).saturating_add(self.inner_size())
    }

    /// The bytes of the sealed part: the inner part, with its padding where there is a cipher.
    pub(crate) fn sealed_size(&self) -> usize {
        let size = self.inner_size();
        match self.cipher {
            Cipher::None => size,
            Cipher::Aes128 | Cipher::Aes256 => size.saturating_add(usize::from(pad_size(size))),
        }
    }

    /// The bytes that base64 spells: the outer part, the MAC and the sealed part.
    pub(crate) fn body_size(&self) -> usize {
        outer_size(self.cipher)
            .saturating_add(self.kind.size())
            .saturating_add(self.sealed_size())
    }
}

impl fmt::Display for Sample {
    fn fmt<W: fmt::Write>(&self, f: &mut fmt::Formatter<W>) -> fmt::Result {
        let cipher = match self.cipher {
            Cipher::None => "none",
            Cipher::Aes128 => "aes-128",
            Cipher::Aes256 => "aes-256",
        };
        let kind = match self.kind {
            MacKind::Sha1 => "sha-1",
            MacKind::Sha256 => "sha-256",
            MacKind::Sha512 => "sha-512",
        };
        let payload = self.payload;
        write!(f, "{cipher} {kind} {payload}")
    }
}
