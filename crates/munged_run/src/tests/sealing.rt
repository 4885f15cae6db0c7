//! Sessions that seal, and open what they sealed. The texts were made with python3 (hashlib, hmac,
//! base64) and openssl's ChaCha20, for a key file and a seed of 32 zeros and the caller 7, 7.

use super::fixture::{NOWHERE, Outcome, Run};
use std::alloc::{AllocError, Global};
use std::test::Fail;

/// The seed of these sessions.
const SEED: [u8; 32] = [0; 32];

/// Asks for what anyone may open, without a cipher, for the default time to live and with no payload.
const USUAL: &[u8] = b"\x00\x05\x00\x00\x00\x00\xff\xff\xff\xff\xff\xff\xff\xff";

/// Its text at 1000, with the first salt of the seed.
const SEALED: &[u8] =
    b"MUNGE:AwAFAADhMiyL+m7FLrtAbdjwKCA+Sx/kbat52oPA4UtrxjqF/q3guHaQPfGgBAAAAAAAAAPoAAABLAAAAAcAAAAH//////////8AAAAA:";

/// Its text at 1000, with the second salt.
const SEALED_SECOND: &[u8] =
    b"MUNGE:AwAFAAAXeGd4l62R/NNZjbu1IVslNbJIUDnLkbCaeqX/omIJL8zvNqjHDXeLBAAAAAAAAAPoAAABLAAAAAcAAAAH//////////8AAAAA:";

/// What a decode reply shows of both.
const SHOWN: &[u8] =
    b"\x00\x05\x00\x00\x00\x00\x00\x00\x03\xe8\x00\x00\x01\x2c\x00\x00\x00\x07\x00\x00\x00\x07\xff\xff\xff\xff\xff\xff\xff\xff";

const ACCEPTED: Outcome = (0, 0);

const NOT_THIS_UID: Outcome = (18, 10);

const REWOUND: Outcome = (16, 12);

const EXPIRED: Outcome = (15, 13);

const REPLAYED: Outcome = (17, 14);

/// A session with the seed.
fn seeded(alloc: Global) -> Result<Run, AllocError> {
    let mut run = Run::new(alloc)?;
    run.seed_with(&SEED)?;
    Ok(run)
}

#[test]
fn smallest_credential(rt: HostRuntime) -> Result<(), Fail> {
    let mut run = seeded(rt.alloc())?;
    run.readings = vec![in rt.alloc(); 1000, 1000]?;
    run.input
        .extend_from_slice(b"\x4d\x01\x01\x00\x00\x00\x0e")?;
    run.input.extend_from_slice(USUAL)?;
    run.input
        .extend_from_slice(b"\x4d\x01\x03\x00\x00\x00\x6f")?;
    run.input.extend_from_slice(SEALED)?;
    run.output
        .extend_from_slice(b"\x4d\x01\x02\x00\x00\x00\x70\x00")?;
    run.output.extend_from_slice(SEALED)?;
    run.output.extend_from_slice(
        b"\x4d\x01\x04\x00\x00\x00\x28\x00\x00\x00\x00\x00\x00\x00\x00\x00\x01",
    )?;
    run.output.extend_from_slice(SHOWN)?;
    run.assert_ends(&rt, 0, "the smallest credential")?;
    Ok(())
}

#[test]
fn smallest_credential_with_sha1(rt: HostRuntime) -> Result<(), Fail> {
    let text =
        b"MUNGE:AwADAAAb+xplOHh3GqFFfxKwAMjWcurUQ63guHaQPfGgBAAAAAAAAAPoAAABLAAAAAcAAAAH//////////8AAAAA:";
    let mut run = seeded(rt.alloc())?;
    run.readings = vec![in rt.alloc(); 1000, 1000]?;
    run.input
        .extend_from_slice(b"\x4d\x01\x01\x00\x00\x00\x0e\x00\x03\x00\x00\x00\x00")?;
    run.input.extend_from_slice(&[0xff; 8])?;
    run.input
        .extend_from_slice(b"\x4d\x01\x03\x00\x00\x00\x5f")?;
    run.input.extend_from_slice(text)?;
    run.output
        .extend_from_slice(b"\x4d\x01\x02\x00\x00\x00\x60\x00")?;
    run.output.extend_from_slice(text)?;
    assert_eq!(rt; run.output.len(), 103);
    run.output.extend_from_slice(
        b"\x4d\x01\x04\x00\x00\x00\x28\x00\x00\x00\x00\x00\x00\x00\x00\x00\x01\x00\x03",
    )?;
    run.output.extend_from_slice(&SHOWN[2..])?;
    run.assert_ends(&rt, 0, "the smallest credential of all")?;
    Ok(())
}

#[test]
fn one_sealed_text_at_several_moments(rt: HostRuntime) -> Result<(), Fail> {
    let table: [(&str, &[(u32, Outcome, u64)]); 5] = [
        ("a second use", &[(1000, ACCEPTED, 1), (1000, REPLAYED, 2)]),
        (
            "the last second, the one after it, and a step back",
            &[
                (1000, ACCEPTED, 1),
                (1300, REPLAYED, 3),
                (1301, EXPIRED, 4),
                (1000, REPLAYED, 5),
            ],
        ),
        (
            "a step back behind a purge",
            &[(1000, ACCEPTED, 1), (1301, EXPIRED, 3), (1000, EXPIRED, 4)],
        ),
        ("the largest skew", &[(700, ACCEPTED, 1)]),
        (
            "a larger skew, which spends nothing",
            &[(699, REWOUND, NOWHERE), (700, ACCEPTED, 1)],
        ),
    ];
    for (row, turns) in table {
        let mut run = seeded(rt.alloc())?;
        run.encode_turn(1000, USUAL, 0, SEALED)?;
        for (moment, outcome, place) in turns {
            run.turn(*moment, SEALED, *outcome, *place, SHOWN)?;
        }
        run.assert_ends(&rt, 0, row)?;
    }
    Ok(())
}

#[test]
fn second_spelling_of_a_sealed_text_is_replayed(rt: HostRuntime) -> Result<(), Fail> {
    let mut spelled = Vec::from_slice(rt.alloc(), b" ")?;
    spelled.extend_from_slice(SEALED)?;
    spelled.extend_from_slice(b"\r\n")?;
    let mut run = seeded(rt.alloc())?;
    run.encode_turn(1000, USUAL, 0, SEALED)?;
    run.turn(1000, SEALED, ACCEPTED, 1, SHOWN)?;
    run.turn(1000, &spelled, REPLAYED, 2, SHOWN)?;
    run.assert_ends(&rt, 0, "a second spelling")?;
    Ok(())
}

#[test]
fn end_of_the_clock(rt: HostRuntime) -> Result<(), Fail> {
    let asked = b"\x00\x05\xff\xff\xff\xff\xff\xff\xff\xff\xff\xff\xff\xff";
    let text =
        b"MUNGE:AwAFAAA1WM9HGdEc+5DLtoK6CN7O9HS3CgeeX7Dk2VFHFiGUcK3guHaQPfGgBAAAAAD/////AAAOEAAAAAcAAAAH//////////8AAAAA:";
    let shown =
        b"\x00\x05\x00\x00\x00\x00\xff\xff\xff\xff\x00\x00\x0e\x10\x00\x00\x00\x07\x00\x00\x00\x07\xff\xff\xff\xff\xff\xff\xff\xff";
    let mut run = seeded(rt.alloc())?;
    run.encode_turn(u32::MAX, asked, 0, text)?;
    run.turn(u32::MAX, text, ACCEPTED, 1, shown)?;
    run.assert_ends(&rt, 0, "the last moment")?;
    Ok(())
}

#[test]
fn restricted_to_another_caller(rt: HostRuntime) -> Result<(), Fail> {
    let asked = b"\x00\x05\x00\x00\x00\x00\x00\x00\x00\x08\xff\xff\xff\xff";
    let text =
        b"MUNGE:AwAFAADb2N/otCpvrwTGrqqLxCrMaUk1RikUCwFYWf3f+TE4Zq3guHaQPfGgBAAAAAAAAAPoAAABLAAAAAcAAAAHAAAACP////8AAAAA:";
    let mut run = seeded(rt.alloc())?;
    run.encode_turn(1000, asked, 0, text)?;
    run.turn(1000, text, NOT_THIS_UID, NOWHERE, &[])?;
    run.assert_ends(&rt, 0, "a restriction")?;
    Ok(())
}

#[test]
fn refused_requests_draw_too(rt: HostRuntime) -> Result<(), Fail> {
    for (cipher, mac, status) in [(2, 5, 10), (0, 2, 11), (3, 2, 10), (0, 0, 11), (5, 3, 11)] {
        let mut asked = Vec::from_slice(rt.alloc(), &[cipher, mac])?;
        asked.extend_from_slice(&[0xff; 12])?;
        let mut run = seeded(rt.alloc())?;
        run.encode_turn(1000, &asked, status, b"")?;
        run.encode_turn(1000, USUAL, 0, SEALED_SECOND)?;
        run.turn(1000, SEALED_SECOND, ACCEPTED, 1, SHOWN)?;
        run.assert_ends(&rt, 0, "a refused request")?;
    }
    Ok(())
}

#[test]
fn payload_that_is_too_long(rt: HostRuntime) -> Result<(), Fail> {
    let mut asked = Vec::from_slice(rt.alloc(), USUAL)?;
    let payload = vec![in rt.alloc(); 0x61; 1_048_577]?;
    asked.extend_from_slice(&payload)?;
    let mut run = seeded(rt.alloc())?;
    run.encode_turn(1000, &asked, 3, b"")?;
    run.encode_turn(1000, USUAL, 0, SEALED_SECOND)?;
    run.assert_ends(&rt, 0, "too long a payload")?;
    Ok(())
}

#[test]
fn default_mac_and_a_longer_seed_file(rt: HostRuntime) -> Result<(), Fail> {
    let asked = b"\x00\x01\x00\x00\x00\x00\xff\xff\xff\xff\xff\xff\xff\xff";
    let mut seed = Vec::from_slice(rt.alloc(), &SEED)?;
    seed.push(1)?;
    let mut run = Run::new(rt.alloc())?;
    run.seed_with(&seed)?;
    run.encode_turn(1000, asked, 0, SEALED)?;
    run.assert_ends(&rt, 0, "the default MAC")?;
    Ok(())
}

#[test]
fn nothing_is_sealed_without_a_seed(rt: HostRuntime) -> Result<(), Fail> {
    let mut run = Run::new(rt.alloc())?;
    run.encode_turn(1000, USUAL, 2, b"")?;
    run.turn(1000, SEALED, ACCEPTED, 1, SHOWN)?;
    run.encode_turn(1000, USUAL, 2, b"")?;
    run.assert_ends(&rt, 0, "a session without a seed")?;
    Ok(())
}
