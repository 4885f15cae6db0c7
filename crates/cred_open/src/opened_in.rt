//! A credential that was opened inside a buffer.

ghost use Rattle.std.specs.Prelude.{◌≡◌, ◌≤◌, length};
ghost use Rattle.cred_open.specs.Credential.{expiry_of};
ghost use Rattle.cred_inner.specs.Inner.{content_of};
ghost use Rattle.cred_inner.specs.InnerPart.{payload_limit};

use cred_inner::Inner;
use munge_types::{Cipher, MacBytes, MacKind, Pair};
use std::marker::Model;

/// A credential that was opened, with a payload that is borrowed from whoever has its bytes.
#[derive(Drop)]
pub struct OpenedIn<'w> {
    pub(crate) cipher: Cipher,
    pub(crate) kind: MacKind,
    pub(crate) mac: MacBytes,
    pub(crate) inner: Inner<'w>,
}

impl<'w> Model for OpenedIn<'w> {
    ghost use Rattle.std.specs.Prelude.{◌≤◌, length};
    ghost use Rattle.cred_inner.specs.Inner.{content_of};
    ghost use Rattle.cred_inner.specs.InnerPart.{payload_limit};
    ghost use Rattle.cred_open.specs.Credential.{Credential};

    ghost Value = { Credential };

    ghost view = { λ opened. record {
      cipher = opened.cipher;
      kind = opened.kind;
      mac = opened.mac;
      content = content_of opened.inner;
    } };

    ghost invariant = { λ opened. length opened.inner.payload.now ≤ payload_limit };
}

impl<'w> OpenedIn<'w> {
    /// The cipher of its sealed part.
    pub fn cipher(&self) -> Cipher
        ensures { result ≡ self.now.cipher }
    {
        self.cipher
    }

    /// The hash of its MAC.
    pub fn kind(&self) -> MacKind
        ensures { result ≡ self.now.kind }
    {
        self.kind
    }

    /// What it says.
    pub fn inner(&self) -> Inner<'w>
        ensures content { content_of result ≡ self.now.content }
        ensures payload { length result.payload.now ≤ payload_limit }
    {
        self.inner
    }

    /// What the replay state remembers of it, where no more than this time to live is granted, in
    /// seconds.
    pub fn pair(&self, max_ttl: u32) -> Pair
        ensures mac { result.mac ≡ self.now.mac }
        ensures expiry { result.expiry ≡ expiry_of max_ttl self.now }
    {
        let ttl = self.inner.ttl.min(max_ttl);
        Pair {
            expiry: u64::from(self.inner.time) + u64::from(ttl),
            mac: self.mac,
        }
    }
}
