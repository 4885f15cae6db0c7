//! Pools over connections in memory, and two workers that have to run beside each other.

mod daemon;
mod faults;
mod flags;
mod late;
mod many;
mod moves;
mod purges;

use crate::{Done, Job, PoolEnd, pool_run};
use byte_io::{MemClock, MemLink};
use decode_rules::World;
use flags::FlagLink;
use group_map::GroupMap;
use munge_types::{Identity, Settings};
use replay_table::PlainReplay;
use session_core::ServeEnd;
use std::alloc::Global;
use std::sync::Wait;
use std::sync::atomic::AtomicBool;
use std::test::Fail;
use std::thread::Threads;
use subkeys::Subkeys;

/// An encode request for an empty payload, by the frame's layout.
const ENCODE: &[u8] =
    b"\x4d\x01\x01\x00\x00\x00\x0e\x00\x05\x00\x00\x00\x00\xff\xff\xff\xff\xff\xff\xff\xff";

/// Who asks.
const WHO: Identity = Identity {
    uid: 7,
    gid: 7,
    control: false,
};

/// The world of this key file and of empty passwd and group files.
fn world_of(key: &[u8]) -> Result<World, Fail> {
    let subkeys = Subkeys::of(key)?;
    Ok(World {
        subkeys,
        settings: Settings::usual(),
        groups: GroupMap::none(),
    })
}

/// A clock that gives 1000 once.
fn clock(alloc: Global) -> Result<MemClock, Fail> {
    let mut readings = Vec::with_capacity(alloc, 1)?;
    readings.push(1000)?;
    Ok(MemClock::new(readings, Vec::new(alloc)))
}

/// One worker, and one job whose connection gives nothing.
fn serve_nothing<W: Threads + Wait + Sync>(
    rt: &W,
    alloc: Global,
) -> Result<PoolEnd<MemLink, MemClock, PlainReplay>, Fail> {
    let world = world_of(&[0; 32])?;
    let none = Vec::new(alloc);
    let mut jobs = Vec::with_capacity(alloc, 1)?;
    jobs.push(Job {
        who: WHO,
        conn: MemLink::new(alloc, Vec::new(alloc), none, Vec::new(alloc)),
        clock: clock(alloc)?,
    })?;
    let mut seeds = Vec::with_capacity(alloc, 1)?;
    seeds.push([0; 32])?;
    Ok(pool_run(rt, alloc, jobs, seeds, PlainReplay::new(alloc), &world)?)
}

#[test]
fn an_empty_connection_is_quiet(rt: HostRuntime) -> Result<(), Fail> {
    let end = serve_nothing(&rt, rt.alloc())?;
    assert_eq!(rt; end.done.len(), 1);
    for done in end.done.iter() {
        assert_eq!(rt; (done.job, done.served.how), (0, ServeEnd::Quiet));
    }
    let tally = end.tally;
    assert_eq!(rt;
        (
            tally.presented,
            tally.accepted,
            tally.replayed,
            tally.expired
        ),
        (0, 0, 0, 0)
    );
    assert_eq!(rt; end.closed.length, 0);
    Ok(())
}

/// A job whose connection waits for the other's flag.
fn flag_job<'a>(
    alloc: Global,
    mine: &'a AtomicBool,
    theirs: &'a AtomicBool,
) -> Result<Job<FlagLink<'a>, MemClock>, Fail> {
    let bytes = ENCODE.to_vec(alloc)?;
    Ok(Job {
        who: WHO,
        conn: FlagLink::new(alloc, mine, theirs, bytes),
        clock: clock(alloc)?,
    })
}

/// How many of them were answered.
fn count_answered<L: Drop, C: Drop>(done: &[Done<L, C>]) -> usize {
    done.iter()
        .filter(|d| d.served.how == ServeEnd::Done)
        .count()
}

/// Two workers, and two jobs of which each waits for the other's flag: how many were answered.
fn serve_both<'a, W: Threads + Wait + Sync>(
    rt: &W,
    alloc: Global,
    one: &'a AtomicBool,
    other: &'a AtomicBool,
) -> Result<usize, Fail> {
    let world = world_of(&[0; 32])?;
    let mut jobs = Vec::with_capacity(alloc, 2)?;
    jobs.push(flag_job(alloc, one, other)?)?;
    jobs.push(flag_job(alloc, other, one)?)?;
    let mut seeds = Vec::with_capacity(alloc, 2)?;
    seeds.push([0; 32])?;
    seeds.push([1; 32])?;
    let replay = PlainReplay::new(alloc);
    let end = pool_run(rt, alloc, jobs, seeds, replay, &world)?;
    Ok(count_answered(&end.done))
}

#[test]
fn both_must_run(rt: HostRuntime) -> Result<(), Fail> {
    let one = AtomicBool::new(false);
    let other = AtomicBool::new(false);
    assert_eq!(rt; serve_both(&rt, rt.alloc(), &one, &other)?, 2);
    Ok(())
}
