//! From a request to the text of a credential.

ghost use Rattle.std.specs.Prelude.{◌≡◌, ◌+◌, ◌≤◌, ℕ, List, None, Some, false, length, take, IfOk, IfErr, OnOk};
ghost use Rattle.munge_types.specs.Algorithms.{cipher_number, mac_number};
ghost use Rattle.subkeys.specs.Subkeys.{IsOf};
ghost use Rattle.cred_inner.specs.InnerPart.{payload_limit};
ghost use Rattle.cred_outer.specs.OuterRules.{key_too_long};
ghost use Rattle.cred_seal.specs.Asked.{asked_of, cipher_asked, mac_asked};
ghost use Rattle.cred_seal.specs.RoundTrip.{OpensInSpaces};
ghost use Rattle.cred_seal.specs.RefusedText.{refused_text};
ghost use Rattle.cred_seal.specs.SealRefused.{IsRefusal, first_refusal};
ghost use Rattle.cred_seal.specs.SealedContent.{sealed_content};
ghost use Rattle.cred_seal.specs.SealedInto.{IfDone, IfRefused, behind, refusal_told};
ghost use Rattle.cred_seal.specs.SealedText.{IsSealed, text_limit};
ghost use Rattle.cred_seal.specs.TextSize.{sealed_size, text_size};

use crate::SealRequest;
use crate::asked::{algorithms_of, stored_ttl};
use crate::body::{body_size, sealed_body};
use cred_armor::{armor_size, laws};
use cred_inner::{HEAD_SIZE, Inner};
use munge_types::{Cipher, Identity, MacKind, Room, Settings};
use std::alloc::Global;
use std::error::Error;
use std::fmt;
use subkeys::Subkeys;

#[cfg(test)]
mod tests;

/// Why a request is not sealed: the first cause that stands, in this order.
#[derive(Clone, Copy, Debug, PartialEq, Eq)]
pub enum SealRefused {
    /// The number is that of no cipher.
    BadCipher,
    /// The number is that of no MAC that can be used with the cipher.
    BadMac,
    /// The payload has more than 1,048,576 bytes; it has so many.
    BadLength(u64),
    /// There was no memory for the text.
    NoMemory,
}

impl fmt::Display for SealRefused {
    ghost output = { λ refused. Some (refused_text refused) };

    fn fmt<W: fmt::Write>(&self, f: &mut fmt::Formatter<W>) -> fmt::Result {
        match self {
            SealRefused::BadCipher => write!(f, "cipher not supported"),
            SealRefused::BadMac => write!(f, "MAC not supported"),
            SealRefused::BadLength(size) => write!(f, "a payload of {size} bytes is too long"),
            SealRefused::NoMemory => write!(f, "no memory"),
        }
    }
}

impl Error for SealRefused {}

/// What sealing into a room answers, with the room: sealed, or the first cause to refuse the
/// request, in the order of `SealRefused`.
#[derive(Debug, Drop)]
pub enum SealedInto {
    /// The text stands behind what the room held.
    Done(Room),
    /// The number is that of no cipher.
    BadCipher(Room),
    /// The number is that of no MAC that can be used with the cipher.
    BadMac(Room),
    /// The payload has more than 1,048,576 bytes; it has so many.
    BadLength(Room, u64),
}

/// How many bytes the text has that is sealed for a request, and 0 where it would be refused.
pub fn text_size(request: &SealRequest<'_>) -> usize
    ensures size { result ≡ text_size (asked_of request.now) }
    ensures bound { result ≤ text_limit }
{
    match algorithms_of(request) {
        Ok(algorithms) => sealed_size(algorithms, request.payload.len()),
        Err(_) => 0,
    }
}

/// The bytes of the text with a payload of this many, sealed by these algorithms.
fn sealed_size(algorithms: (Cipher, MacKind), payload: usize) -> usize
    requires { payload ≤ payload_limit }
    ensures { result ≡ sealed_size algorithms.0 algorithms.1 payload }
{
    let (cipher, kind) = algorithms;
    armor_size(body_size(cipher, kind, HEAD_SIZE + payload))
}

/// The text of the credential that this caller asks for, sealed under the subkeys at this moment,
/// in seconds since 1970, with this salt; or the first cause to refuse the request. Without a
/// cipher the initial vector is not used.
///
/// Memory is taken once, for the whole text, and does not grow: for SHA-512, AES and 1,048,576 bytes
/// of payload that is 1,398,287.
pub fn seal(
    alloc: Global,
    subkeys: &Subkeys,
    settings: &Settings,
    request: &SealRequest<'_>,
    who: Identity,
    moment: u32,
    salt: [u8; 8],
    iv: [u8; 16],
) -> Result<Vec<u8>, SealRefused>
    ensures sealed { (key : List ℕ) → IsOf subkeys.now key → IfOk result (λ text.
        IsSealed key settings.now (asked_of request.now) who moment salt iv text.items) }
    ensures refused { IfErr result (IsRefusal (asked_of request.now)) }
    ensures unrefused { OnOk result (first_refusal (asked_of request.now) ≡ None) }

    // It fits a decode request.
    ensures size { IfOk result (λ text. length text.items ≤ text_limit) }

    // What was sealed opens.
    ensures opens { (key : List ℕ) → IsOf subkeys.now key → IfOk result (λ text. OpensInSpaces key
        (sealed_content settings.now (asked_of request.now) who moment salt) text.items) }
{
    let algorithms = algorithms_of(request)?;
    let Ok(room) = Room::new(alloc, sealed_size(algorithms, request.payload.len())) else {
        return Err(SealRefused::NoMemory);
    };
    let text = sealed_room(
        room, subkeys, settings, algorithms, request, who, moment, salt, iv,
    );
    Ok(text.finish())
}

/// Seals as `seal` does, and appends the text to a room that has the spare for it. It takes no
/// memory, and asks for none: the payload goes from the request through cipher and armour into the
/// room. A refusal leaves the room as it was.
pub fn seal_into(
    out: Room,
    subkeys: &Subkeys,
    settings: &Settings,
    request: &SealRequest<'_>,
    who: Identity,
    moment: u32,
    salt: [u8; 8],
    iv: [u8; 16],
) -> SealedInto
    requires room { text_size (asked_of request.now) ≤ out.spare }
    ensures sealed { (key : List ℕ) → IsOf subkeys.now key → IfDone result (λ room.
        IsSealed key settings.now (asked_of request.now) who moment salt iv
        (behind out.bytes room.bytes)) }
    ensures front { IfDone result (λ room. take (length out.bytes) room.bytes ≡ out.bytes) }
    ensures size { IfDone result (λ room.
        length room.bytes ≡ length out.bytes + text_size (asked_of request.now)) }

    // What was sealed opens.
    ensures opens { (key : List ℕ) → IsOf subkeys.now key → IfDone result (λ room.
        OpensInSpaces key (sealed_content settings.now (asked_of request.now) who moment salt)
        (behind out.bytes room.bytes)) }

    // It is refused where there is a cause, and for the first.
    ensures refused { refusal_told result ≡ first_refusal (asked_of request.now) }
    ensures unchanged { IfRefused result (λ room. room ≡ out) }
{
    match algorithms_of(request) {
        Ok(algorithms) => SealedInto::Done(sealed_room(
            out, subkeys, settings, algorithms, request, who, moment, salt, iv,
        )),
        Err(SealRefused::BadCipher) => SealedInto::BadCipher(out),
        Err(SealRefused::BadMac) => SealedInto::BadMac(out),
        Err(SealRefused::BadLength(size)) => SealedInto::BadLength(out, size),
        Err(SealRefused::NoMemory) => unreachable!(),
    }
}

/// The room with the text appended that a request gives which is not refused, by the algorithms that
/// it asks for.
fn sealed_room(
    out: Room,
    subkeys: &Subkeys,
    settings: &Settings,
    algorithms: (Cipher, MacKind),
    request: &SealRequest<'_>,
    who: Identity,
    moment: u32,
    salt: [u8; 8],
    iv: [u8; 16],
) -> Room
    requires cipher { cipher_asked request.now.cipher ≡ Some algorithms.0 }
    requires kind { mac_asked algorithms.0 request.now.kind ≡ Some algorithms.1 }
    requires keyed { key_too_long (cipher_number algorithms.0) (mac_number algorithms.1) ≡ false }
    requires payload { length request.now.payload.now ≤ payload_limit }
    requires room { sealed_size algorithms.0 algorithms.1 (length request.now.payload.now)
        ≤ out.spare }
    ensures sealed { (key : List ℕ) → IsOf subkeys.now key
        → IsSealed key settings.now (asked_of request.now) who moment salt iv
        (behind out.bytes result.bytes) }
    ensures front { take (length out.bytes) result.bytes ≡ out.bytes }
    ensures size { length result.bytes ≡ length out.bytes
        + sealed_size algorithms.0 algorithms.1 (length request.now.payload.now) }
    ensures opens { (key : List ℕ) → IsOf subkeys.now key → OpensInSpaces key
        (sealed_content settings.now (asked_of request.now) who moment salt)
        (behind out.bytes result.bytes) }
{
    laws::armor_size();
    laws::armor_spells_its_body();

    let (cipher, kind) = algorithms;
    let inner = Inner {
        salt,
        addr: settings.addr,
        time: moment,
        ttl: stored_ttl(settings, request.ttl),
        uid: who.uid,
        gid: who.gid,
        for_uid: request.for_uid,
        for_gid: request.for_gid,
        payload: request.payload,
    };
    let text = sealed_body(out, subkeys, cipher, kind, &iv, &inner);
    text.finish()
}
