//! Sessions over credentials under AES. Their texts come from the option `--credential` of the
//! repository's script of vectors, for a key file and a seed of 32 zeros and the caller 7, 7.

use super::fixture::{NOWHERE, Outcome, Run};
use std::alloc::{AllocError, Global};
use std::test::Fail;

/// The seed of these sessions.
const SEED: [u8; 32] = [0; 32];

/// Asks for AES-128 with SHA-256, for what anyone may open, for the default time to live, with the
/// payload `hello`.
const USUAL: &[u8] = b"\x04\x05\x00\x00\x00\x00\xff\xff\xff\xff\xff\xff\xff\xffhello";

/// Its text at 1000, with the first words of the seed: the fields are
/// `cipher=4 mac=5 payload=hello`.
const SEALED: &[u8] =
    b"MUNGE:AwQFAADlal1AKL2GU7gZ0r0a7Y2gZdOW0dtIZnPPrjS6h3x2aomh8ZNQVH6NmOcaPRwS8mjed530PxWTNeODkFayJ+4ddvj+VTK0PF2qdcCP1XSD2VKm4Mz/XqmVx2UOiIvzOCA=:";

/// What a decode reply shows of it.
const SHOWN: &[u8] =
    b"\x04\x05\x00\x00\x00\x00\x00\x00\x03\xe8\x00\x00\x01\x2c\x00\x00\x00\x07\x00\x00\x00\x07\xff\xff\xff\xff\xff\xff\xff\xffhello";

const ACCEPTED: Outcome = (0, 0);

const NO_ROOM: Outcome = (8, 7);

const NOT_SEALED: Outcome = (14, 8);

const REWOUND: Outcome = (16, 12);

const EXPIRED: Outcome = (15, 13);

const REPLAYED: Outcome = (17, 14);

/// A session with the seed.
fn seeded(alloc: Global) -> Result<Run, AllocError> {
    let mut run = Run::new(alloc)?;
    run.seed_with(&SEED)?;
    Ok(run)
}

#[test]
fn usual_credential(rt: HostRuntime) -> Result<(), Fail> {
    let mut run = seeded(rt.alloc())?;
    run.readings = vec![in rt.alloc(); 1000, 1000]?;
    run.input
        .extend_from_slice(b"\x4d\x01\x01\x00\x00\x00\x13")?;
    run.input.extend_from_slice(USUAL)?;
    run.input
        .extend_from_slice(b"\x4d\x01\x03\x00\x00\x00\x8f")?;
    run.input.extend_from_slice(SEALED)?;
    run.output
        .extend_from_slice(b"\x4d\x01\x02\x00\x00\x00\x90\x00")?;
    run.output.extend_from_slice(SEALED)?;
    run.output.extend_from_slice(
        b"\x4d\x01\x04\x00\x00\x00\x2d\x00\x00\x00\x00\x00\x00\x00\x00\x00\x01",
    )?;
    run.output.extend_from_slice(SHOWN)?;
    run.assert_ends(&rt, 0, "the usual credential")?;
    Ok(())
}

#[test]
fn usual_credential_at_several_moments(rt: HostRuntime) -> Result<(), Fail> {
    let table: [(&str, &[(u32, Outcome, u64)]); 5] = [
        ("a second use", &[(1000, ACCEPTED, 1), (1000, REPLAYED, 2)]),
        (
            "the last second, the one after it, and a step back",
            &[
                (1000, ACCEPTED, 1),
                (1300, REPLAYED, 3),
                (1301, EXPIRED, 4),
                (1000, REPLAYED, 5),
            ],
        ),
        (
            "a step back behind a purge",
            &[(1000, ACCEPTED, 1), (1301, EXPIRED, 3), (1000, EXPIRED, 4)],
        ),
        ("the largest skew", &[(700, ACCEPTED, 1)]),
        (
            "a larger skew, which spends nothing",
            &[(699, REWOUND, NOWHERE), (700, ACCEPTED, 1)],
        ),
    ];
    for (row, turns) in table {
        let mut run = seeded(rt.alloc())?;
        run.encode_turn(1000, USUAL, 0, SEALED)?;
        for (moment, outcome, place) in turns {
            run.turn(*moment, SEALED, *outcome, *place, SHOWN)?;
        }
        run.assert_ends(&rt, 0, row)?;
    }
    Ok(())
}

#[test]
fn second_spelling_under_a_cipher_is_replayed(rt: HostRuntime) -> Result<(), Fail> {
    let mut spelled = Vec::from_slice(rt.alloc(), b" ")?;
    spelled.extend_from_slice(SEALED)?;
    spelled.extend_from_slice(b"\r\n")?;
    let mut run = Run::new(rt.alloc())?;
    run.turn(1000, SEALED, ACCEPTED, 1, SHOWN)?;
    run.turn(1000, &spelled, REPLAYED, 2, SHOWN)?;
    run.assert_ends(&rt, 0, "a second spelling")?;
    Ok(())
}

/// The fields of the text are `cipher=4 mac=5 payload=hello time=4294967295 ttl=3600`.
#[test]
fn end_of_the_clock_under_a_cipher(rt: HostRuntime) -> Result<(), Fail> {
    let asked = b"\x04\x05\xff\xff\xff\xff\xff\xff\xff\xff\xff\xff\xff\xffhello";
    let text =
        b"MUNGE:AwQFAADlal1AKL2GU7gZ0r0a7Y2g+zXaXOwDflLbUCJAoIfH5VyLnqcAuAn4Gk1LRB6En2Ui2RIzDKqmuJxR55h86a9bJr3sAf2ZTpRd8lR0uNSPBfA5crzF7GER6JR5jhCHu4U=:";
    let shown =
        b"\x04\x05\x00\x00\x00\x00\xff\xff\xff\xff\x00\x00\x0e\x10\x00\x00\x00\x07\x00\x00\x00\x07\xff\xff\xff\xff\xff\xff\xff\xffhello";
    let mut run = seeded(rt.alloc())?;
    run.encode_turn(u32::MAX, asked, 0, text)?;
    run.turn(u32::MAX, text, ACCEPTED, 1, shown)?;
    run.assert_ends(&rt, 0, "the last moment")?;
    Ok(())
}

/// The usual body with its last byte changed by one bit, with one bit of its MAC changed, cut by its
/// last block, and cut by its last byte.
#[test]
fn altered_under_a_cipher(rt: HostRuntime) -> Result<(), Fail> {
    let table: [(&[u8], Outcome); 4] = [
        (
            b"MUNGE:AwQFAADlal1AKL2GU7gZ0r0a7Y2gZdOW0dtIZnPPrjS6h3x2aomh8ZNQVH6NmOcaPRwS8mjed530PxWTNeODkFayJ+4ddvj+VTK0PF2qdcCP1XSD2VKm4Mz/XqmVx2UOiIvzOCE=:",
            NOT_SEALED,
        ),
        (
            b"MUNGE:AwQFAADlal1AKL2GU7gZ0r0a7Y2gZNOW0dtIZnPPrjS6h3x2aomh8ZNQVH6NmOcaPRwS8mjed530PxWTNeODkFayJ+4ddvj+VTK0PF2qdcCP1XSD2VKm4Mz/XqmVx2UOiIvzOCA=:",
            NOT_SEALED,
        ),
        (
            b"MUNGE:AwQFAADlal1AKL2GU7gZ0r0a7Y2gZdOW0dtIZnPPrjS6h3x2aomh8ZNQVH6NmOcaPRwS8mjed530PxWTNeODkFayJ+4ddvj+VTK0PF2qdcCP1XSD2Q==:",
            NOT_SEALED,
        ),
        (
            b"MUNGE:AwQFAADlal1AKL2GU7gZ0r0a7Y2gZdOW0dtIZnPPrjS6h3x2aomh8ZNQVH6NmOcaPRwS8mjed530PxWTNeODkFayJ+4ddvj+VTK0PF2qdcCP1XSD2VKm4Mz/XqmVx2UOiIvzOA==:",
            NO_ROOM,
        ),
    ];
    let mut run = Run::new(rt.alloc())?;
    for (text, outcome) in table {
        run.turn(1000, text, outcome, NOWHERE, b"")?;
    }
    run.turn(1000, SEALED, ACCEPTED, 1, SHOWN)?;
    run.assert_ends(&rt, 0, "an altered credential")?;
    Ok(())
}
