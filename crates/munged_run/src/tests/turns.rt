//! Sessions over credentials, whose replies go by the caller, the clock and what came before.

use super::credential::{Content, USUAL, armored, body, shown, text};
use super::fixture::{NOWHERE, Outcome, Run};
use std::test::Fail;

const ACCEPTED: Outcome = (0, 0);

const NO_ROOM: Outcome = (8, 7);

const NOT_SEALED: Outcome = (14, 8);

const NOT_THIS_UID: Outcome = (18, 10);

const NOT_THIS_GID: Outcome = (18, 11);

const REWOUND: Outcome = (16, 12);

const EXPIRED: Outcome = (15, 13);

const REPLAYED: Outcome = (17, 14);

#[test]
fn one_text_at_several_moments(rt: HostRuntime) -> Result<(), Fail> {
    let text = text(rt.alloc(), &USUAL)?;
    let content = shown(rt.alloc(), &USUAL)?;
    let table: [(&str, &[(u32, Outcome, u64)]); 6] = [
        ("a second use", &[(1000, ACCEPTED, 1), (1000, REPLAYED, 2)]),
        (
            "the last second, the one after it, and a step back",
            &[
                (1000, ACCEPTED, 1),
                (1300, REPLAYED, 3),
                (1301, EXPIRED, 4),
                (1000, REPLAYED, 5),
            ],
        ),
        (
            "a step back behind a purge",
            &[(1000, ACCEPTED, 1), (1301, EXPIRED, 3), (1000, EXPIRED, 4)],
        ),
        ("the largest skew", &[(700, ACCEPTED, 1)]),
        (
            "a larger skew, which spends nothing",
            &[(699, REWOUND, NOWHERE), (700, ACCEPTED, 1)],
        ),
        (
            "a purge 60 seconds above the floor, and no sooner",
            &[
                (1000, ACCEPTED, 1),
                (1059, REPLAYED, 2),
                (1060, REPLAYED, 4),
            ],
        ),
    ];
    for (row, turns) in table {
        let mut run = Run::new(rt.alloc())?;
        for (moment, outcome, place) in turns {
            run.turn(*moment, &text, *outcome, *place, &content)?;
        }
        run.assert_ends(&rt, 0, row)?;
    }
    Ok(())
}

#[test]
fn second_spelling_is_replayed(rt: HostRuntime) -> Result<(), Fail> {
    let text = text(rt.alloc(), &USUAL)?;
    let content = shown(rt.alloc(), &USUAL)?;
    let mut spelled = Vec::from_slice(rt.alloc(), b" ")?;
    spelled.extend_from_slice(&text)?;
    spelled.extend_from_slice(b"\r\n")?;
    let mut run = Run::new(rt.alloc())?;
    run.turn(1000, &text, ACCEPTED, 1, &content)?;
    run.turn(1000, &spelled, REPLAYED, 2, &content)?;
    run.assert_ends(&rt, 0, "a second spelling")?;
    Ok(())
}

/// What anyone may open at 1000, but for the caller's UID and GID and the time to live.
fn restricted(for_uid: u32, for_gid: u32, time: u32, ttl: u32) -> Content {
    Content {
        time,
        ttl,
        for_uid,
        for_gid,
    }
}

#[test]
fn restrictions_and_lifetimes(rt: HostRuntime) -> Result<(), Fail> {
    let any = u32::MAX;
    for (content, moment, outcome) in [
        (restricted(8, any, 1000, 300), 1000, NOT_THIS_UID),
        (restricted(8, 8, 1000, 300), 1, NOT_THIS_UID),
        (restricted(any, 8, 1000, 300), 1000, NOT_THIS_GID),
        (restricted(7, 7, 1000, 300), 1000, ACCEPTED),
        (restricted(any, any, u32::MAX, 3600), u32::MAX, ACCEPTED),
        (restricted(any, any, 1000, 7200), 4600, ACCEPTED),
        (restricted(any, any, 1000, 7200), 4601, EXPIRED),
    ] {
        let text = text(rt.alloc(), &content)?;
        let mut run = Run::new(rt.alloc())?;
        if outcome == NOT_THIS_UID || outcome == NOT_THIS_GID {
            run.turn(moment, &text, outcome, NOWHERE, &[])?;
        } else {
            run.turn(moment, &text, outcome, 1, &shown(rt.alloc(), &content)?)?;
        }
        run.assert_ends(&rt, 0, "a restriction or a lifetime")?;
    }
    Ok(())
}

#[test]
fn altered_bodies(rt: HostRuntime) -> Result<(), Fail> {
    let alloc = rt.alloc();
    // How many bytes are left of the body, and the one of them that is changed, if any.
    for (kept, changed, outcome) in [
        (82, 36, NOT_SEALED),
        (82, 81, NOT_SEALED),
        (66, 66, NOT_SEALED),
        (36, 36, NO_ROOM),
    ] {
        let mut bytes = body(alloc, &USUAL)?;
        bytes.truncate(kept);
        if changed < bytes.len() {
            bytes[changed] ^= 1;
        }
        let mut run = Run::new(alloc)?;
        run.turn(1000, &armored(alloc, &bytes)?, outcome, NOWHERE, &[])?;
        run.assert_ends(&rt, 0, "an altered body")?;
    }
    Ok(())
}
