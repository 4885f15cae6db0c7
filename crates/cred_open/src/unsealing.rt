//! From a credential's body to its inner part in plain.

ghost use Rattle.std.specs.Prelude.{◌≡◌, ◌+◌, ◌≤◌, ℕ, List, Some, true, false, length, take, drop, Err, IfOk, IfErr, IfSome, IfNone};
ghost use Rattle.munge_types.specs.Algorithms.{cipher_number, mac_number};
ghost use Rattle.subkeys.specs.Subkeys.{IsOf};
ghost use Rattle.cred_armor.specs.CredentialText.{Spells};
ghost use Rattle.munge_types.specs.Bytes.{IsBytes};
ghost use Rattle.cred_outer.specs.OuterPart.{vector_size};
ghost use Rattle.cred_outer.specs.OuterRules.{is_sealed_size, key_too_long};
ghost use Rattle.cred_open.specs.Body.{Seals};
ghost use Rattle.cred_open.specs.OpeningRules.{Refuses};
ghost use Rattle.cred_open.specs.Unsealed.{IsUnsealed};

use crate::OuterRefused;
use crate::laws::sealed_part_has_one_inner_part;
use crate::mac::mac_of;
use cbc_mode::laws::padding_is_one_to_one;
use cbc_mode::{open_in_place, unpad};
use cred_outer::laws::body_has_its_parts_once;
use cred_outer::read_outer;
use hmac_core::equal;
use hmac_core::laws::mac_has_its_size;
use munge_types::{Cipher, MacBytes, MacKind, Rule, Status};
use subkeys::Subkeys;

/// The answer to a body that no inner part gives, whether its padding or its MAC is wrong.
const INVALID: OuterRefused = OuterRefused {
    rule: Rule::SEAL,
    status: Status::Invalid,
};

/// What a body was sealed by, and where its inner part now stands in it.
#[derive(Clone, Copy, Debug)]
pub(crate) struct Unsealed {
    /// The cipher of the sealed part.
    pub cipher: Cipher,
    /// The hash of the MAC.
    pub kind: MacKind,
    /// The MAC.
    pub mac: MacBytes,
    /// The place of the inner part.
    pub at: usize,
    /// The bytes of the inner part.
    pub size: usize,
}

/// Decrypts the sealed part of a body where it stands, by the rules 2 to 8. It takes no memory.
pub(crate) fn unseal(subkeys: &Subkeys, body: &mut [u8]) -> Result<Unsealed, OuterRefused>
    ensures unsealed { (key : List ℕ) → IsOf subkeys.now key → IfOk result (λ unsealed.
        IsUnsealed key body.old unsealed.cipher unsealed.kind unsealed.mac
        (take unsealed.size (drop unsealed.at body.new))) }
    ensures within { IfOk result (λ unsealed. unsealed.at + unsealed.size ≤ length body.new) }
    ensures refused { (key text : List ℕ) → IsOf subkeys.now key → Spells text body.old
        → IfErr result (λ broken. Refuses key text broken.rule broken.status) }
{
    mac_has_its_size();
    body_has_its_parts_once();
    sealed_part_has_one_inner_part();

    let outer = read_outer(body)?;
    let cipher = outer.cipher;
    let kind = outer.kind;
    let vector_at = outer.front.len() - outer.iv.len();
    let mac_at = outer.front.len();
    let at = mac_at + outer.mac.len();

    let (outside, sealed) = body.split_at_mut(at);
    let (front, mac) = outside.split_at(mac_at);
    let (_, iv) = front.split_at(vector_at);
    let decrypted = decrypt(subkeys, cipher, kind, iv, mac, sealed);

    // The MAC is made even where the padding is wrong, so that the two take about the same time.
    let plain = &sealed[..decrypted.unwrap_or(sealed.len())];
    let made = mac_of(subkeys, kind, front, plain);
    let genuine = equal(&made, mac);
    let Some(size) = decrypted else {
        return Err(INVALID);
    };
    if genuine {
        Ok(Unsealed {
            cipher,
            kind,
            mac: made,
            at,
            size,
        })
    } else {
        Err(INVALID)
    }
}

/// Decrypts a sealed part where it stands: how many bytes at its front are its inner part; and None
/// where it is that of none, since what is behind is no padding.
fn decrypt(
    subkeys: &Subkeys,
    cipher: Cipher,
    kind: MacKind,
    iv: &[u8],
    mac: &[u8],
    sealed: &mut [u8],
) -> Option<usize>
    requires vector { length iv.now ≡ vector_size cipher }
    requires keyed { key_too_long (cipher_number cipher) (mac_number kind) ≡ false }
    requires blocks { is_sealed_size (cipher_number cipher) (length sealed.old) ≡ true }
    ensures size { length sealed.new ≡ length sealed.old }
    ensures within { IfSome result (λ size. size ≤ length sealed.new) }
    // Its caller cannot see this of what it cuts from a body.
    ensures vector_bytes { IsBytes iv.now }
    ensures bytes { IsBytes sealed.new }
    ensures plain { (key : List ℕ) → IsOf subkeys.now key → IfSome result (λ size.
        Seals key cipher kind iv.now mac.now (take size sealed.new) sealed.old) }
    ensures none { (key : List ℕ) → IsOf subkeys.now key → IfNone result ((inner : List ℕ)
        → IsBytes inner → Seals key cipher kind iv.now mac.now inner sealed.old → ⊥) }
{
    if cipher == Cipher::None {
        return Some(sealed.len());
    }
    let Some(iv) = iv.first_chunk::<16>() else {
        unreachable!();
    };
    padding_is_one_to_one();
    open_in_place(&subkeys.data_key(cipher, kind, mac), iv, sealed);
    unpad(sealed)
}
