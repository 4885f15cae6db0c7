//! The credentials of a load.

ghost use Rattle.std.specs.Prelude.{◌≡◌, ◌<◌, ◌^◌, ℕ, List, IfOk};
ghost use Rattle.subkeys.specs.Subkeys.{IsOf};
ghost use Rattle.cred_seal.specs.Asked.{asked_of};
ghost use Rattle.load_maker.specs.Credentials.{IsCredential, asked_for, asker_of, cipher_of, ttl_of};

use crate::words::Drawn;
use cred_seal::{SealRefused, SealRequest, seal};
use decode_rules::World;
use munge_types::{Cipher, Identity, MacKind, NoMemory};
use std::alloc::Global;
use wire_msg::Bytes;

/// The GID of whoever asks for a credential or presents one.
pub(crate) const GID: u32 = 100;

/// When each credential is asked for, in seconds since 1970.
pub(crate) const MOMENT: u32 = 1_000_000;

/// The UID of the first of the callers who ask for credentials in turn.
pub(crate) const FIRST_UID: u32 = 1000;

/// The UID and the GID of a credential that anyone may open.
const ANY: u32 = u32::MAX;

/// The text of credential i, counted from 0, sealed in this world with what was drawn for it.
pub(crate) fn credential(
    alloc: Global,
    world: &World,
    i: u32,
    drawn: &Drawn,
) -> Result<Bytes, NoMemory>
    ensures { (key : List ℕ) → IsOf world.now.subkeys key
        → IfOk result (IsCredential key world.now.settings i drawn.now) }
{
    match seal(
        alloc,
        &world.subkeys,
        &world.settings,
        &request(i, &drawn.payload),
        asker(i),
        MOMENT,
        drawn.salt,
        drawn.iv,
    ) {
        Ok(text) => Ok(Bytes::of(text)),
        Err(SealRefused::NoMemory) => Err(NoMemory),
        Err(_) => unreachable!(),
    }
}

/// What credential i asks for, with this payload.
fn request(i: u32, payload: &[u8]) -> SealRequest<'_>
    ensures { asked_of result ≡ asked_for i payload.now }
{
    SealRequest {
        cipher: cipher(i).number(),
        kind: MacKind::Sha256.number(),
        ttl: ttl(i),
        for_uid: ANY,
        for_gid: ANY,
        payload,
    }
}

/// The cipher of credential i: none, AES-128 and AES-256 in turn.
fn cipher(i: u32) -> Cipher
    ensures { result ≡ cipher_of i }
{
    match i % 3 {
        0 => Cipher::None,
        1 => Cipher::Aes128,
        _ => Cipher::Aes256,
    }
}

/// The time to live that credential i asks for, in seconds.
fn ttl(i: u32) -> u32
    ensures { result ≡ ttl_of i }
{
    if i % 2 == 0 { 300 } else { 100 }
}

/// Who asks for credential i: ten callers in turn.
fn asker(i: u32) -> Identity
    ensures { result ≡ asker_of i }
{
    Identity {
        uid: FIRST_UID + i % 10,
        gid: GID,
        control: false,
    }
}
