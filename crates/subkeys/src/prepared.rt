//! HMAC with its key taken in, ready for many messages.

ghost use Rattle.std.specs.Prelude.{ℕ, List, []};
ghost use Rattle.hmac_core.specs.Absorbed.{Absorbed};
ghost use Rattle.subkeys.specs.Prepared.{IsPrepared};

use hmac_core::Hmac;
use munge_types::MacKind;

/// For each hash function, the MAC of the empty message under one key.
#[derive(Drop)]
pub(crate) struct Prepared {
    sha1: Hmac,
    sha256: Hmac,
    sha512: Hmac,
}

impl Prepared {
    /// Under this key.
    pub(crate) fn under(key: &[u8]) -> Prepared
        ensures { IsPrepared result key.now }
    {
        Prepared {
            sha1: Hmac::new(MacKind::Sha1, key),
            sha256: Hmac::new(MacKind::Sha256, key),
            sha512: Hmac::new(MacKind::Sha512, key),
        }
    }

    /// With this hash function, to be fed and finished.
    pub(crate) fn with(&self, kind: MacKind) -> Hmac
        ensures { (key : List ℕ) → IsPrepared self.now key → Absorbed result kind key [] }
    {
        let kept = match kind {
            MacKind::Sha1 => &self.sha1,
            MacKind::Sha256 => &self.sha256,
            MacKind::Sha512 => &self.sha512,
        };
        match kept.clone() {
            Ok(hmac) => hmac,
            Err(_) => unreachable!(),
        }
    }
}
