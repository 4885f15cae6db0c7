//! The usual credential, cut short at each byte and altered in each bit.

ghost use Rattle.std.specs.Prelude.{◌<◌, length};

use super::{USUAL, armored, assert_refused};
use base64::engine::general_purpose::STANDARD;
use cred_armor::armor;
use std::alloc::{AllocError, Global};
use std::process::Abort;
use std::test::Fail;

/// The body of the usual credential.
fn usual_body(alloc: Global) -> Result<Vec<u8>, Fail> {
    Ok(STANDARD.decode(alloc, &USUAL[6..USUAL.len() - 1])?)
}

#[test]
fn each_proper_prefix_is_no_text(rt: HostRuntime) -> Result<(), Fail> {
    'prefixes: for size in 0..USUAL.len() {
        assert_refused(&rt, rt.alloc(), &USUAL[..size], 1, 8)?;
    }
    Ok(())
}

/// The rule that the usual credential breaks where its byte at this place is altered to this value,
/// and the status.
fn outcome(place: usize, value: u8) -> (u8, u8) {
    match (place, value) {
        (0, _) => (2, 9),
        // Another cipher that there is, none or AES-256.
        (1, 0 | 5) => (8, 14),
        (1, _) => (3, 10),
        (2, _) => (4, 11),
        (3, _) => (5, 12),
        (4, _) => (6, 13),
        _ => (8, 14),
    }
}

/// The body is refused as `outcome` says where this bit of this byte is turned over.
fn assert_altered_bit_refused(
    rt: &impl Abort,
    alloc: Global,
    body: &[u8],
    place: usize,
    bit: u32,
) -> Result<(), Fail>
    requires within { place < length body.now }
    requires bit_of_byte { bit < 8 }
{
    let mut altered = Vec::from_slice(alloc, body)?;
    altered[place] ^= 1 << bit;
    let (rule, status) = outcome(place, altered[place]);
    assert_refused(rt, alloc, &armor(alloc, &altered)?, rule, status)
}

#[test]
fn each_altered_bit(rt: HostRuntime) -> Result<(), Fail> {
    let body = usual_body(rt.alloc())?;
    assert_eq!(rt; body.len(), 101);
    'bytes: for place in 0..body.len() {
        'bits: for bit in 0..8u32 {
            assert_altered_bit_refused(&rt, rt.alloc(), &body, place, bit)?;
        }
    }
    Ok(())
}

#[test]
fn bytes_cut_off(rt: HostRuntime) -> Result<(), Fail> {
    let alloc = rt.alloc();
    let mut body = usual_body(alloc)?;
    body.truncate(100);
    assert_refused(&rt, alloc, &armored(alloc, &body)?, 7, 8)?;
    body.truncate(85);
    assert_refused(&rt, alloc, &armored(alloc, &body)?, 8, 14)?;
    Ok(())
}
