//! Worked runs of both structures, through the bound.

use crate::{PlainReplay, ReplayTable};
use munge_types::{MacBytes, NoMemory, Pair, Purged, Replay, Verdict};
use rand_chacha::ChaCha20Rng;
use rand_core::SeedableRng;
use rand_core::utils::NextWord;
use std::alloc::Global;
use std::hash::{BuildHasherDefault, FoldHasher};
use std::process::Abort;
use std::test::Fail;

type Table = ReplayTable<BuildHasherDefault<FoldHasher>>;

fn table(alloc: Global) -> Table {
    ReplayTable::new(alloc, BuildHasherDefault::new())
}

#[derive(Clone, Copy)]
enum Step {
    /// A pair's expiry, the byte of its MAC and the moment; what is said of it.
    Admit(u64, u8, u32, Verdict),
    /// The moment and the slice; how many pairs are dropped and how many expiries are left, how
    /// many pairs are kept, and the floor.
    Purge(u32, u32, (u64, u64), u64, u32),
}

fn follow<R: Replay>(rt: &impl Abort, replay: &mut R, steps: &[Step]) -> Result<(), NoMemory> {
    for step in steps {
        match *step {
            Step::Admit(expiry, byte, moment, said) => {
                let mac = MacBytes::of(&[byte]);
                let verdict = replay.admit(&Pair { expiry, mac }, moment)?;
                assert_eq!(rt; verdict, said, "{expiry} {byte} at {moment}");
            }
            Step::Purge(moment, slice, (dropped, left), kept, floor) => {
                let purged = replay.purge(moment, slice);
                assert_eq!(rt; purged, Purged { dropped, left }, "at {moment}, {slice}");
                assert_eq!(rt;
                    (replay.kept(), replay.floor()),
                    (kept, floor),
                    "at {moment}"
                );
            }
        }
    }
    Ok(())
}

/// Both structures follow the steps, each from its beginning.
fn both_follow(rt: &impl Abort, alloc: Global, steps: &[Step]) -> Result<(), NoMemory> {
    follow(rt, &mut PlainReplay::new(alloc), steps)?;
    follow(rt, &mut table(alloc), steps)
}

#[test]
fn accepted_pairs_stay_spent(rt: HostRuntime) -> Result<(), Fail> {
    both_follow(
        &rt,
        rt.alloc(),
        &[
            Step::Admit(1300, 1, 1000, Verdict::Accepted),
            Step::Admit(1300, 1, 1300, Verdict::Replayed),
            Step::Admit(1300, 2, 1300, Verdict::Accepted),
            Step::Admit(1301, 1, 1300, Verdict::Accepted),
            Step::Admit(1300, 1, 1301, Verdict::Expired),
            Step::Purge(1300, u32::MAX, (0, 0), 3, 1300),
            Step::Admit(1300, 1, 1000, Verdict::Replayed),
            Step::Admit(1299, 3, 1000, Verdict::Expired),
            Step::Purge(1301, u32::MAX, (2, 0), 1, 1301),
            Step::Admit(1300, 1, 1000, Verdict::Expired),
            Step::Admit(1301, 1, 1000, Verdict::Replayed),
            Step::Admit(u64::MAX, 1, u32::MAX, Verdict::Accepted),
        ],
    )?;
    Ok(())
}

#[test]
fn a_purge_never_lowers_the_floor(rt: HostRuntime) -> Result<(), Fail> {
    both_follow(
        &rt,
        rt.alloc(),
        &[
            Step::Purge(0, 9, (0, 0), 0, 0),
            Step::Purge(5, 9, (0, 0), 0, 5),
            Step::Purge(3, 9, (0, 0), 0, 5),
            Step::Admit(4, 1, 3, Verdict::Expired),
            Step::Admit(5, 1, 3, Verdict::Accepted),
        ],
    )?;
    Ok(())
}

#[test]
fn a_slice_drops_whole_expiries(rt: HostRuntime) -> Result<(), Fail> {
    both_follow(
        &rt,
        rt.alloc(),
        &[
            Step::Admit(20, 2, 0, Verdict::Accepted),
            Step::Admit(10, 1, 0, Verdict::Accepted),
            Step::Admit(30, 4, 0, Verdict::Accepted),
            Step::Admit(20, 3, 0, Verdict::Accepted),
            Step::Purge(25, 0, (0, 2), 4, 25),
            Step::Purge(25, 1, (1, 1), 3, 25),
            Step::Admit(20, 2, 0, Verdict::Expired),
            Step::Purge(25, 1, (2, 0), 1, 25),
            Step::Admit(30, 4, 25, Verdict::Replayed),
        ],
    )?;
    Ok(())
}

/// What one command on a structure answered, and what the structure then shows.
#[derive(Clone, Copy, Debug, PartialEq, Eq)]
struct Shown {
    verdict: Option<Verdict>,
    purged: Option<Purged>,
    kept: u64,
    floor: u32,
}

/// One of the commands that are drawn: three words say which.
fn command<R: Replay>(replay: &mut R, a: u32, b: u32, c: u32) -> Result<Shown, NoMemory> {
    let (verdict, purged) = if a % 8 == 0 {
        (None, Some(replay.purge(b % 2000, c % 4)))
    } else {
        let pair = Pair {
            expiry: u64::from(a % 2000),
            mac: MacBytes::of(&[(c % 256) as u8]),
        };
        (Some(replay.admit(&pair, b % 2000)?), None)
    };
    Ok(Shown {
        verdict,
        purged,
        kept: replay.kept(),
        floor: replay.floor(),
    })
}

#[test]
fn both_structures_agree(rt: HostRuntime) -> Result<(), Fail> {
    let mut words = ChaCha20Rng::from_seed([0; 32]);
    let mut plain = PlainReplay::new(rt.alloc());
    let mut table = table(rt.alloc());
    for number in 0..1000u32 {
        let (a, b, c) = (words.next_word(), words.next_word(), words.next_word());
        let by_list = command(&mut plain, a, b, c)?;
        let by_table = command(&mut table, a, b, c)?;
        assert_eq!(rt; by_list, by_table, "command {number}");
    }
    // By a simulation in Python over sets, with ChaCha20 written after RFC 8439.
    assert_eq!(rt; (table.kept(), table.floor()), (4, 1994));
    Ok(())
}

/// The caller that the crate's documentation shows: one pair, looked up twice, and once
/// more when it was purged.
#[test]
fn caller(rt: HostRuntime) -> Result<(), Fail> {
    let hash_state = BuildHasherDefault::<FoldHasher>::new();
    let mut table = ReplayTable::new(rt.alloc(), hash_state);
    let mac = MacBytes::of(b"\x01\x02\x03");
    let pair = Pair { expiry: 1300, mac };
    assert_eq!(rt; table.admit(&pair, 1000)?, Verdict::Accepted);
    assert_eq!(rt; table.admit(&pair, 1300)?, Verdict::Replayed);
    let purged = table.purge(1301, u32::MAX);
    assert_eq!(rt; (purged.dropped, purged.left), (1, 0));
    assert_eq!(rt; table.admit(&pair, 1300)?, Verdict::Expired);
    assert_eq!(rt; (table.kept(), table.floor()), (0, 1301));
    Ok(())
}
