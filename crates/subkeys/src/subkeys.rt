//! The two subkeys that a key file stands for.

ghost use Rattle.std.specs.Prelude.{◌≡◌, ◌≢◌, ◌<◌, ◌≤◌, ◌↔◌, ℕ, List, ◌++◌, ◌∷◌, []};
ghost use Rattle.std.specs.Prelude.{length, Some, IfOk, IsOk, IsErrOf};
ghost use Rattle.sha1.specs.Sha1.{sha1};
ghost use Rattle.aes_block.specs.DataKey.{key_of};
ghost use Rattle.hmac_core.specs.Absorbed.{Absorbed};
ghost use Rattle.hmac_core.specs.Hmac.{hmac};
ghost use Rattle.subkeys.specs.DataKey.{data_key_under};
ghost use Rattle.subkeys.specs.KeyRefused.{refusal_text};
ghost use Rattle.subkeys.specs.Subkeys.{IsOf};

use crate::prepared::Prepared;
use aes_block::{DataKey, Key128, Key256};
use hmac_core::Hmac;
use hmac_core::laws::mac_has_its_size;
use munge_types::{Cipher, MacBytes, MacKind};
use sha1::Sha1;
use std::error::Error;
use std::fmt;
use std::marker::Model;

/// The fewest bytes of a key file.
const SHORTEST: usize = 32;

/// The most bytes of a key file.
const LONGEST: usize = 1024;

/// The subkeys of one key file. The key file's bytes are not kept.
#[derive(Drop)]
pub struct Subkeys {
    cipher: [u8; 20],
    mac: [u8; 20],
    /// HMAC under the cipher's subkey.
    data_keys: Prepared,
    /// HMAC under the subkey of the MAC.
    macs: Prepared,
}

impl Model for Subkeys {
    ghost use Rattle.subkeys.specs.Subkeys.{SubkeyPair};
    ghost use Rattle.subkeys.specs.Prepared.{IsKept};

    ghost Value = { SubkeyPair };

    ghost view = { λ subkeys. record { cipher = subkeys.cipher; mac = subkeys.mac } };

    ghost invariant = { λ subkeys. IsKept (record { cipher = subkeys.cipher; mac = subkeys.mac })
        subkeys.data_keys subkeys.macs };
}

/// Why the bytes of a key file are refused, with how many they are.
#[derive(Clone, Copy, Debug, PartialEq, Eq)]
pub enum KeyRefused {
    /// Fewer than 32.
    TooShort(u64),
    /// More than 1024.
    TooLong(u64),
}

impl fmt::Display for KeyRefused {
    ghost output = { λ refused. Some (refusal_text refused) };

    fn fmt<W: fmt::Write>(&self, f: &mut fmt::Formatter<W>) -> fmt::Result {
        match self {
            KeyRefused::TooShort(length) => write!(f, "a key file of {length} bytes is too short"),
            KeyRefused::TooLong(length) => write!(f, "a key file of {length} bytes is too long"),
        }
    }
}

impl Error for KeyRefused {}

impl Subkeys {
    /// The subkeys of a key file with these bytes, of which there are 32 to 1024.
    pub fn of(key: &[u8]) -> Result<Subkeys, KeyRefused>
        ensures subkeys { IfOk result (λ subkeys. IsOf subkeys key.now) }
        ensures taken { IsOk result ↔ ((32 ≤ length key.now) × (length key.now ≤ 1024)) }
        ensures too_short { IsErrOf result (KeyRefused.TooShort (length key.now))
            ↔ (length key.now < 32) }
        ensures too_long { IsErrOf result (KeyRefused.TooLong (length key.now))
            ↔ (1024 < length key.now) }
    {
        if key.len() < SHORTEST {
            return Err(KeyRefused::TooShort(key.len() as u64));
        }
        if key.len() > LONGEST {
            return Err(KeyRefused::TooLong(key.len() as u64));
        }
        let cipher = derived(key, 0x31);
        let mac = derived(key, 0x32);
        Ok(Subkeys {
            cipher,
            mac,
            data_keys: Prepared::under(&cipher),
            macs: Prepared::under(&mac),
        })
    }

    /// Does nothing: the subkeys are those of some key file.
    pub fn are_of_a_key(&self)
        ensures { ∥ ((key : List ℕ) × IsOf self.now key) ∥₁ }
    {
        let _ = &self.mac;
    }

    /// The subkey of the MAC.
    pub fn mac_key(&self) -> &[u8; 20]
        ensures { result.now ≡ self.now.mac }
    {
        &self.mac
    }

    /// The MAC of the empty message under the subkey of the MAC, to be fed and finished. The subkey
    /// was taken in once and for all, when the subkeys were made.
    pub fn mac_state(&self, kind: MacKind) -> Hmac
        ensures { Absorbed result kind self.now.mac [] }
    {
        self.macs.with(kind)
    }

    /// The key of a credential with this cipher and this MAC, whose bytes are given: the first of
    /// HMAC under the cipher's subkey, as many as the cipher's key has.
    pub fn data_key(&self, cipher: Cipher, kind: MacKind, mac: &[u8]) -> DataKey
        requires some { cipher ≢ Cipher.None }
        requires long_enough { ¬ ((cipher ≡ Cipher.Aes256) × (kind ≡ MacKind.Sha1)) }
        ensures { key_of result ≡ data_key_under cipher kind self.now.cipher mac.now }
    {
        let derived = self.under_cipher(kind, mac);
        mac_has_its_size();
        match cipher {
            Cipher::None => unreachable!(),
            Cipher::Aes128 => match derived.bytes().first_chunk() {
                Some(key) => DataKey::Aes128(Key128::new(key)),
                None => unreachable!(),
            },
            Cipher::Aes256 => match derived.bytes().first_chunk() {
                Some(key) => DataKey::Aes256(Key256::new(key)),
                None => unreachable!(),
            },
        }
    }

    /// HMAC under the cipher's subkey.
    fn under_cipher(&self, kind: MacKind, message: &[u8]) -> MacBytes
        ensures { result ≡ hmac kind self.now.cipher message.now }
    {
        let mut state = self.data_keys.with(kind);
        state.update(message);
        state.finish()
    }
}

/// SHA-1 of the key file's bytes and one more.
fn derived(key: &[u8], label: u8) -> [u8; 20]
    ensures { result ≡ sha1 (key.now ++ label ∷ []) }
{
    let mut hasher = Sha1::new();
    hasher.update(key);
    hasher.update(&[label]);
    hasher.finalize()
}
