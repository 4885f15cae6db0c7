//! The parts of sealing and of opening, each timed alone over as many bytes as those have for it.
//!
//! The hash is HMAC under a key that was taken in before, the cipher goes over whole blocks in place
//! under a key that was expanded before, and base64 over the whole body.

ghost use Rattle.std.specs.Prelude.{◌≡◌, ◌+◌, ◌-◌, ◌^◌, min};

use crate::cost::Cost;
use crate::sample::Sample;
use aes_block::{DataKey, Key128, Key256};
use base64::engine::general_purpose::STANDARD;
use cbc_mode::{open_in_place, seal_in_place};
use munge_types::{Cipher, MacBytes, MacKind};
use std::alloc::Global;
use std::time::CpuClock;
use std::{fmt, io};
use subkeys::Subkeys;

/// The vector before the first block.
const VECTOR: [u8; 16] = [0x3c; 16];

/// The byte that buffers are filled with.
const FILLING: u8 = 0x5a;

/// What each part costs. It is shown in nanoseconds, all of them together and then each.
#[derive(Clone, Copy)]
pub(crate) struct Parts {
    pub(crate) hash: Cost,
    /// Nothing without a cipher.
    pub(crate) cipher: Cost,
    pub(crate) base64: Cost,
}

impl Parts {
    /// Times the parts of sealing.
    pub(crate) fn of_sealing(
        clock: &impl CpuClock,
        alloc: Global,
        subkeys: &Subkeys,
        sample: &Sample,
    ) -> io::Result<Parts> {
        Ok(Parts {
            hash: hashing(clock, alloc, subkeys, sample)?,
            cipher: encrypting(clock, alloc, sample)?,
            base64: encoding(clock, alloc, sample)?,
        })
    }

    /// Times the parts of opening.
    pub(crate) fn of_opening(
        clock: &impl CpuClock,
        alloc: Global,
        subkeys: &Subkeys,
        sample: &Sample,
    ) -> io::Result<Parts> {
        Ok(Parts {
            hash: hashing(clock, alloc, subkeys, sample)?,
            cipher: decrypting(clock, alloc, sample)?,
            base64: decoding(clock, alloc, sample)?,
        })
    }

    /// All of them together.
    pub(crate) fn sum(&self) -> Cost
        ensures { result.tenths ≡ min (self.now.hash.tenths + self.now.cipher.tenths
            + self.now.base64.tenths) (2 ^ 128 - 1) }
    {
        self.hash.with(self.cipher).with(self.base64)
    }
}

impl fmt::Display for Parts {
    fn fmt<W: fmt::Write>(&self, f: &mut fmt::Formatter<W>) -> fmt::Result {
        let sum = self.sum();
        let Parts {
            hash,
            cipher,
            base64,
        } = self;
        write!(f, "{sum} ns hash {hash} cipher {cipher} base64 {base64}")
    }
}

/// Nothing where what a call gave is right.
fn checked(right: bool) -> io::Result<()> {
    if right {
        Ok(())
    } else {
        Err(io::ErrorKind::InvalidData.into())
    }
}

fn hashing(
    clock: &impl CpuClock,
    alloc: Global,
    subkeys: &Subkeys,
    sample: &Sample,
) -> io::Result<Cost> {
    let message = vec![in alloc; FILLING; sample.hashed_size()]?;
    let first = mac(subkeys, sample.kind, &message);
    Cost::of(clock, sample.calls, || {
        checked(mac(subkeys, sample.kind, &message) == first)
    })
}

#[inline(never)]
fn mac(subkeys: &Subkeys, kind: MacKind, message: &[u8]) -> MacBytes {
    let mut hmac = subkeys.mac_state(kind);
    hmac.update(message);
    hmac.finish()
}

/// A key of this cipher, and None without one.
fn key_of(cipher: Cipher) -> Option<DataKey> {
    match cipher {
        Cipher::None => None,
        Cipher::Aes128 => Some(DataKey::Aes128(Key128::new(&[0x2b; 16]))),
        Cipher::Aes256 => Some(DataKey::Aes256(Key256::new(&[0x2b; 32]))),
    }
}

fn encrypting(clock: &impl CpuClock, alloc: Global, sample: &Sample) -> io::Result<Cost> {
    let Some(key) = key_of(sample.cipher) else {
        return Ok(Cost::NOTHING);
    };
    let mut blocks = vec![in alloc; FILLING; sample.sealed_size()]?;
    Cost::of(clock, sample.calls, || checked(encrypt(&key, &mut blocks)))
}

/// Encrypts whole blocks in place. It is false, and nothing is done, where they are not whole.
#[inline(never)]
fn encrypt(key: &DataKey, blocks: &mut [u8]) -> bool {
    let whole = blocks.len() % 16 == 0;
    if whole {
        seal_in_place(key, &VECTOR, blocks);
    }
    whole
}

fn decrypting(clock: &impl CpuClock, alloc: Global, sample: &Sample) -> io::Result<Cost> {
    let Some(key) = key_of(sample.cipher) else {
        return Ok(Cost::NOTHING);
    };
    let mut blocks = vec![in alloc; FILLING; sample.sealed_size()]?;
    Cost::of(clock, sample.calls, || checked(decrypt(&key, &mut blocks)))
}

/// Decrypts whole blocks in place. It is false, and nothing is done, where they are not whole.
#[inline(never)]
fn decrypt(key: &DataKey, blocks: &mut [u8]) -> bool {
    let whole = blocks.len() % 16 == 0;
    if whole {
        open_in_place(key, &VECTOR, blocks);
    }
    whole
}

fn encoding(clock: &impl CpuClock, alloc: Global, sample: &Sample) -> io::Result<Cost> {
    let body = vec![in alloc; FILLING; sample.body_size()]?;
    let mut text = STANDARD.encode(alloc, &body)?.into_bytes();
    Cost::of(clock, sample.calls, || checked(encode(&body, &mut text)))
}

/// Spells a body over a text. It is true where that has all of it.
#[inline(never)]
fn encode(body: &[u8], text: &mut [u8]) -> bool {
    STANDARD.encode_slice(body, text) == Ok(text.len())
}

fn decoding(clock: &impl CpuClock, alloc: Global, sample: &Sample) -> io::Result<Cost> {
    let mut body = vec![in alloc; FILLING; sample.body_size()]?;
    let text = STANDARD.encode(alloc, &body)?;
    Cost::of(clock, sample.calls, || {
        checked(decode(text.as_bytes(), &mut body))
    })
}

/// Reads a text into a body. It is true where the text spells as many bytes.
#[inline(never)]
fn decode(text: &[u8], body: &mut [u8]) -> bool {
    STANDARD.decode_slice(text, body) == Ok(body.len())
}
