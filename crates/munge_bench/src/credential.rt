//! Sealing and opening without memory, beside the sum of their parts.
//!
//! For each cipher, each MAC that can be used with it and each payload, a credential is sealed into
//! a room whose memory is kept, and what came of it is opened inside a buffer, each again and again
//! for a quarter of a second of processor time; and so is each part alone (`parts`). A line has what
//! was done, the cipher, the MAC and the bytes of the payload, the nanoseconds of a call, how many
//! millions of bytes of payload go through in a second, and the nanoseconds of the parts: together,
//! and then each. What a call does for the key of its cipher is in no part.

use crate::cost::Cost;
use crate::parts::Parts;
use crate::sample::Sample;
use cred_open::open_in;
use cred_seal::{SealRequest, SealedInto, seal_into, text_size};
use munge_types::{Cipher, Identity, MacKind, Room, Settings};
use std::alloc::Global;
use std::io;
use std::mem::replace;
use std::time::CpuClock;
use subkeys::Subkeys;

/// Who seals.
const WHO: Identity = Identity {
    uid: 7,
    gid: 7,
    control: false,
};

/// The moment of sealing, in seconds since 1970.
const MOMENT: u32 = 1_000_000;

/// The UID and the GID that say that anyone may open it.
const ANYONE: u32 = u32::MAX;

/// Every cipher with the MACs that can be used with it.
const ALGORITHMS: [(Cipher, MacKind); 8] = [
    (Cipher::None, MacKind::Sha1),
    (Cipher::None, MacKind::Sha256),
    (Cipher::None, MacKind::Sha512),
    (Cipher::Aes128, MacKind::Sha1),
    (Cipher::Aes128, MacKind::Sha256),
    (Cipher::Aes128, MacKind::Sha512),
    (Cipher::Aes256, MacKind::Sha256),
    (Cipher::Aes256, MacKind::Sha512),
];

/// Payloads in bytes, each with the calls between two looks at the clock.
const PAYLOADS: [(u32, u32); 3] = [(5, 1000), (65_536, 8), (1_048_576, 1)];

/// Asks for such a credential.
fn request_of<'p>(sample: &Sample, payload: &'p [u8]) -> SealRequest<'p> {
    SealRequest {
        cipher: sample.cipher.number(),
        kind: sample.kind.number(),
        ttl: 0,
        for_uid: ANYONE,
        for_gid: ANYONE,
        payload,
    }
}

/// The text of the credential that is asked for, in the memory of this one as far as that goes.
#[inline(never)]
fn seal(subkeys: &Subkeys, request: &SealRequest<'_>, text: Vec<u8>) -> io::Result<Vec<u8>> {
    let Ok(room) = Room::over(text, text_size(request)) else {
        return Err(io::ErrorKind::OutOfMemory.into());
    };
    let settings = Settings::usual();
    let sealed = seal_into(
        room, subkeys, &settings, request, WHO, MOMENT, [1; 8], [2; 16],
    );
    match sealed {
        SealedInto::Done(room) => Ok(room.finish()),
        SealedInto::BadCipher(_) | SealedInto::BadMac(_) | SealedInto::BadLength(_, _) => {
            Err(io::ErrorKind::InvalidInput.into())
        }
    }
}

/// Opens the text inside the buffer. It is right where the credential has so many bytes of payload.
#[inline(never)]
fn open(subkeys: &Subkeys, work: &mut [u8], text: &[u8], payload: usize) -> io::Result<()> {
    if text.len() > work.len() {
        return Err(io::ErrorKind::InvalidInput.into());
    }
    match open_in(subkeys, work, text) {
        Ok(opened) if opened.inner().payload.len() == payload => Ok(()),
        _ => Err(io::ErrorKind::InvalidData.into()),
    }
}

fn print_line<R: Print>(
    rt: &R,
    what: &str,
    sample: &Sample,
    cost: Cost,
    parts: &Parts,
) -> io::Result<()> {
    let rate = cost.rate(sample.payload);
    let whole = rate / 10;
    let tenth = rate % 10;
    println!(rt; "{what} {sample} {cost} ns {whole}.{tenth} MB/s parts {parts}")
}

/// Times such a credential, both ways.
fn time<R: CpuClock + Print>(
    rt: &R,
    alloc: Global,
    subkeys: &Subkeys,
    sample: &Sample,
) -> io::Result<()> {
    let payload = vec![in alloc; 0x5a; sample.payload as usize]?;
    let request = request_of(sample, &payload);
    let mut text = Vec::new(alloc);
    let sealing = Cost::of(rt, sample.calls, || {
        text = seal(subkeys, &request, replace(&mut text, Vec::new(alloc)))?;
        Ok(())
    })?;
    let parts = Parts::of_sealing(rt, alloc, subkeys, sample)?;
    print_line(rt, "seal", sample, sealing, &parts)?;

    let mut work = vec![in alloc; 0; text.len()]?;
    let opening = Cost::of(rt, sample.calls, || {
        open(subkeys, &mut work, &text, payload.len())
    })?;
    let parts = Parts::of_opening(rt, alloc, subkeys, sample)?;
    print_line(rt, "open", sample, opening, &parts)
}

/// Times each cipher and MAC with 5 bytes of payload, 64 KiB and 1 MiB.
pub fn run<R: CpuClock + Print>(rt: &R, alloc: Global) -> io::Result<()> {
    let Ok(subkeys) = Subkeys::of(&[7; 32]) else {
        return Err(io::ErrorKind::InvalidInput.into());
    };
    for (cipher, kind) in ALGORITHMS {
        for (payload, calls) in PAYLOADS {
            let sample = Sample {
                cipher,
                kind,
                payload,
                calls,
            };
            time(rt, alloc, &subkeys, &sample)?;
        }
    }
    Ok(())
}
