//! A credential that was opened.

ghost use Rattle.std.specs.Prelude.{◌≡◌, ◌≤◌, length};
ghost use Rattle.cred_open.specs.Credential.{expiry_of};
ghost use Rattle.cred_inner.specs.Inner.{content_of};
ghost use Rattle.cred_inner.specs.InnerPart.{payload_limit};

use crate::OpenedIn;
use cred_inner::Inner;
use munge_types::{Cipher, MacBytes, MacKind, Pair};
use std::marker::Model;

/// A credential that was opened. It owns the bytes of the credential's body, and the payload is
/// borrowed from them.
#[derive(Drop)]
pub struct Opened {
    pub(crate) cipher: Cipher,
    pub(crate) kind: MacKind,
    pub(crate) mac: MacBytes,
    /// What the credential says, but for its payload, which is left empty here.
    pub(crate) head: Inner<'static>,
    pub(crate) body: Vec<u8>,
    /// Where the payload begins in the body, to whose end it goes.
    pub(crate) payload_at: usize,
}

impl Model for Opened {
    ghost use Rattle.std.specs.Prelude.{◌+◌, ◌≤◌, drop, length};
    ghost use Rattle.cred_inner.specs.InnerPart.{payload_limit};
    ghost use Rattle.cred_open.specs.Credential.{Credential};
    ghost use Rattle.cred_inner.specs.Inner.{content_of};

    ghost Value = { Credential };

    ghost view = { λ opened. record {
      cipher = opened.cipher;
      kind = opened.kind;
      mac = opened.mac;
      content = record (content_of opened.head) {
        payload = drop opened.payload_at opened.body.items;
      };
    } };

    ghost invariant = { λ opened. (opened.payload_at ≤ length opened.body.items)
        × (length opened.body.items ≤ opened.payload_at + payload_limit) };
}

impl Opened {
    /// The cipher of its sealed part.
    pub fn cipher(&self) -> Cipher
        ensures { result ≡ self.now.cipher }
    {
        self.cipher
    }

    /// The hash of its MAC.
    pub fn kind(&self) -> MacKind
        ensures { result ≡ self.now.kind }
    {
        self.kind
    }

    /// What it says.
    pub fn inner(&self) -> Inner<'_>
        ensures content { content_of result ≡ self.now.content }
        ensures payload { length result.payload.now ≤ payload_limit }
    {
        self.lent().inner()
    }

    /// What the replay state remembers of it, where no more than this time to live is granted, in
    /// seconds.
    pub fn pair(&self, max_ttl: u32) -> Pair
        ensures mac { result.mac ≡ self.now.mac }
        ensures expiry { result.expiry ≡ expiry_of max_ttl self.now }
    {
        self.lent().pair(max_ttl)
    }

    /// The same credential, with a payload that is borrowed from this one.
    pub fn lent(&self) -> OpenedIn<'_>
        ensures { result ≡ self.now }
    {
        OpenedIn {
            cipher: self.cipher,
            kind: self.kind,
            mac: self.mac,
            inner: Inner {
                payload: &self.body[self.payload_at..],
                ..self.head
            },
        }
    }
}
