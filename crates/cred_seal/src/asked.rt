//! What a request asks for, looked up and checked.

ghost use Rattle.std.specs.Prelude.{◌≡◌, ◌≢◌, ◌≤◌, false, length, None, Some, IfOk, IfErr, IfSome, OnOk};
ghost use Rattle.cred_inner.specs.InnerPart.{payload_limit};
ghost use Rattle.munge_types.specs.Algorithms.{cipher_number, mac_number};
ghost use Rattle.cred_outer.specs.OuterRules.{key_too_long};
ghost use Rattle.cred_seal.specs.Asked.{asked_of, cipher_asked, mac_asked, sha1_with};
ghost use Rattle.cred_seal.specs.SealRefused.{first_refusal};
ghost use Rattle.cred_seal.specs.SealedContent.{stored_ttl};

use crate::{SealRefused, SealRequest};
use cred_inner::PAYLOAD_LIMIT;
use munge_types::{Cipher, MacKind, Settings};

/// The number of the default cipher and of the default MAC.
const DEFAULT: u8 = 1;

/// The time to live, in seconds, of which a request has none.
const DEFAULT_TTL: u32 = 0;

/// The time to live that asks for the longest.
const LONGEST_TTL: u32 = u32::MAX;

/// The cipher and the MAC that a request asks for; or the first cause to refuse it.
pub(crate) fn algorithms_of(request: &SealRequest<'_>) -> Result<(Cipher, MacKind), SealRefused>
    ensures refused { IfErr result (λ refused.
        first_refusal (asked_of request.now) ≡ Some refused) }
    ensures known { IfErr result (λ refused. refused ≢ SealRefused.NoMemory) }
    ensures unrefused { OnOk result (first_refusal (asked_of request.now) ≡ None) }
    ensures cipher { IfOk result (λ algorithms.
        cipher_asked request.now.cipher ≡ Some algorithms.0) }
    ensures kind { IfOk result (λ algorithms.
        mac_asked algorithms.0 request.now.kind ≡ Some algorithms.1) }
    ensures keyed { IfOk result (λ algorithms.
        key_too_long (cipher_number algorithms.0) (mac_number algorithms.1) ≡ false) }
    ensures payload { OnOk result (length request.now.payload.now ≤ payload_limit) }
{
    let Some(cipher) = cipher_asked(request.cipher) else {
        return Err(SealRefused::BadCipher);
    };
    let Some(kind) = mac_asked(cipher, request.kind) else {
        return Err(SealRefused::BadMac);
    };
    let size = request.payload.len();
    if size > PAYLOAD_LIMIT {
        return Err(SealRefused::BadLength(size as u64));
    }
    Ok((cipher, kind))
}

/// The cipher of this number in a request, and None where none has it.
fn cipher_asked(number: u8) -> Option<Cipher>
    ensures { result ≡ cipher_asked number }
{
    match number {
        0 => Some(Cipher::None),
        4 | DEFAULT => Some(Cipher::Aes128),
        5 => Some(Cipher::Aes256),
        _ => None,
    }
}

/// The MAC of this number in a request, and None where none has it that can be used with the
/// cipher.
fn mac_asked(cipher: Cipher, number: u8) -> Option<MacKind>
    ensures kind { result ≡ mac_asked cipher number }
    ensures keyed { IfSome result (λ kind.
        key_too_long (cipher_number cipher) (mac_number kind) ≡ false) }
{
    match number {
        3 => sha1_with(cipher),
        5 | DEFAULT => Some(MacKind::Sha256),
        6 => Some(MacKind::Sha512),
        _ => None,
    }
}

/// SHA-1, but with AES-256: such a key has 32 bytes, and SHA-1 gives 20.
fn sha1_with(cipher: Cipher) -> Option<MacKind>
    ensures kind { result ≡ sha1_with cipher }
    ensures keyed { IfSome result (λ kind.
        key_too_long (cipher_number cipher) (mac_number kind) ≡ false) }
{
    match cipher {
        Cipher::None | Cipher::Aes128 => Some(MacKind::Sha1),
        Cipher::Aes256 => None,
    }
}

/// The time to live, in seconds, that a credential gets for which this one was asked.
pub(crate) fn stored_ttl(settings: &Settings, ttl: u32) -> u32
    ensures { result ≡ stored_ttl settings.now ttl }
{
    match ttl {
        DEFAULT_TTL => settings.default_ttl,
        LONGEST_TTL => settings.max_ttl,
        _ => ttl.min(settings.max_ttl),
    }
}
