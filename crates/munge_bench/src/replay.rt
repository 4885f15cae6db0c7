//! Look-ups in replay structures that keep many pairs, purges of them, and the memory that they
//! take.
//!
//! A structure is kept as a service keeps it whose moment goes on: its pairs expire in 250
//! successive seconds, as many in each, and they came in the order in which they expire. In each
//! round the moment goes on by 10 seconds. The pairs of the next 10 seconds are looked up, then as
//! many that are kept, from all over the 250 seconds, then as many that have expired; then a purge
//! drops those of the first 10 seconds. Rounds are made until a second of elapsed time was
//! measured. Each line has the structure, how many pairs it keeps before a round, what was timed,
//! and the pace: of look-ups that said what they should, and of pairs that were dropped.
//!
//! The bytes are what the resident set of the process grew by (proc(5), VmRSS of
//! /proc/self/status) for each kept pair: once the pairs came in, and after the rounds.

use crate::pace::Pace;
use munge_types::{MacBytes, Pair, Replay, Verdict};
use replay_table::{PlainReplay, ReplayTable};
use std::alloc::{AllocError, Global};
use std::hash::{BuildHasherDefault, FoldHasher};
use std::rt::Files;
use std::time::{Clock, Duration, Instant};
use std::{fs, io};

/// In how many successive seconds the kept pairs expire.
const WINDOW: u32 = 250;

/// By how many seconds the moment goes on in a round.
const STEP: u32 = 10;

/// The moment at which a structure is filled.
const START: u32 = 1_000_000;

/// How long a measurement goes on, in seconds.
const SECONDS: u64 = 1;

/// The pair of this number among those of one expiry. Its MAC has the size of SHA-256, and bytes of
/// a congruential generator (Knuth's MMIX) over expiry and number.
fn pair_of(expiry: u32, number: u32) -> Pair {
    let mut state = u64::from(expiry) << 32 | u64::from(number);
    let mut mac = [0; 32];
    for byte in mac.iter_mut() {
        state = state
            .wrapping_mul(6_364_136_223_846_793_005)
            .wrapping_add(1_442_695_040_888_963_407);
        *byte = (state >> 56) as u8;
    }
    Pair {
        expiry: u64::from(expiry),
        mac: MacBytes::of(&mac),
    }
}

/// How many pairs were met in what time.
#[derive(Clone, Copy)]
struct Sum {
    pairs: u64,
    time: Duration,
}

impl Sum {
    const NOTHING: Sum = Sum {
        pairs: 0,
        time: Duration::ZERO,
    };

    fn add(&mut self, pairs: u64, time: Duration) {
        self.pairs = self.pairs.saturating_add(pairs);
        self.time = self.time.saturating_add(time);
    }

    fn pace(&self) -> Pace {
        Pace::new(self.pairs, self.time)
    }
}

/// What rounds measured.
#[derive(Clone, Copy)]
struct Sums {
    new: Sum,
    replayed: Sum,
    expired: Sum,
    dropped: Sum,
}

impl Sums {
    const NOTHING: Sums = Sums {
        new: Sum::NOTHING,
        replayed: Sum::NOTHING,
        expired: Sum::NOTHING,
        dropped: Sum::NOTHING,
    };

    fn time(&self) -> Duration {
        let looked_up = self.new.time.saturating_add(self.replayed.time);
        let others = self.expired.time.saturating_add(self.dropped.time);
        looked_up.saturating_add(others)
    }
}

/// A structure whose pairs expire from the moment on, so many in each second.
#[derive(Drop)]
struct Service<R> {
    replay: R,
    moment: u32,
    each: u32,
    batch: Vec<Pair>,
}

impl<R: Replay + Drop> Service<R> {
    /// A structure that is empty is filled.
    fn filled(alloc: Global, replay: R, each: u32) -> Result<Service<R>, AllocError> {
        let mut service = Service {
            replay,
            moment: START,
            each,
            batch: Vec::new(alloc),
        };
        for second in 0..WINDOW {
            for number in 0..each {
                let pair = pair_of(START + second, number);
                let Ok(_) = service.replay.admit(&pair, START) else {
                    return Err(AllocError);
                };
            }
        }
        Ok(service)
    }

    /// Looks the pairs of the batch up. How often that was said.
    fn look_up(&mut self, said: Verdict) -> u64 {
        let mut right = 0u64;
        for pair in &self.batch {
            if self.replay.admit(pair, self.moment) == Ok(said) {
                right = right.saturating_add(1);
            }
        }
        right
    }

    /// Makes a batch of the pairs of seconds that are so far from one another, the first so far from
    /// the moment.
    fn choose(&mut self, first: u32, apart: u32) -> Result<(), AllocError> {
        self.batch.clear();
        for step in 0..STEP {
            let later = first.saturating_add(apart.saturating_mul(step));
            let expiry = self.moment.saturating_add(later);
            for number in 0..self.each {
                self.batch.push(pair_of(expiry, number))?;
            }
        }
        Ok(())
    }

    fn round<C: Clock>(&mut self, clock: &C, sums: &mut Sums) -> io::Result<()> {
        self.choose(WINDOW, 1)?;
        let start = Instant::now(clock)?;
        let accepted = self.look_up(Verdict::Accepted);
        sums.new.add(accepted, start.elapsed(clock)?);

        self.choose(STEP, WINDOW / STEP)?;
        let start = Instant::now(clock)?;
        let replayed = self.look_up(Verdict::Replayed);
        sums.replayed.add(replayed, start.elapsed(clock)?);

        self.choose(0, 1)?;
        self.moment = self.moment.saturating_add(STEP);
        let start = Instant::now(clock)?;
        let expired = self.look_up(Verdict::Expired);
        sums.expired.add(expired, start.elapsed(clock)?);

        let start = Instant::now(clock)?;
        let purged = self.replay.purge(self.moment, u32::MAX);
        sums.dropped.add(purged.dropped, start.elapsed(clock)?);
        Ok(())
    }
}

/// The kilobytes of a process's resident set, by its status file, which has a line `VmRSS:`, blanks,
/// the number and ` kB`.
pub(crate) fn resident(status: &str) -> Option<u64> {
    for line in status.lines() {
        if let Some(after) = line.strip_prefix("VmRSS:") {
            return after.split_whitespace().next()?.parse().ok();
        }
    }
    None
}

fn resident_bytes<R: Files + Alloc>(rt: &R) -> io::Result<u64> {
    let status = fs::read_to_string(rt, "/proc/self/status")?;
    match resident(status.as_str()) {
        Some(kilobytes) => Ok(kilobytes.saturating_mul(1024)),
        None => Err(io::ErrorKind::InvalidData.into()),
    }
}

/// Times one structure, which is empty, and keeps `250 * each` pairs in it.
fn time<R, P>(rt: &R, alloc: Global, name: &str, empty: P, each: u32) -> io::Result<()>
where
    R: Clock + Print + Files + Alloc,
    P: Replay + Drop,
{
    let before = resident_bytes(rt)?;
    let mut service = Service::filled(alloc, empty, each)?;
    let kept = service.replay.kept();
    let filled = resident_bytes(rt)?.saturating_sub(before);
    let mut sums = Sums::NOTHING;
    for _ in 0..u64::MAX {
        service.round(rt, &mut sums)?;
        if sums.time().as_secs() >= SECONDS {
            break;
        }
    }
    let after = resident_bytes(rt)?.saturating_sub(before);
    println!(rt; "{name} {kept} new {}", sums.new.pace())?;
    println!(rt; "{name} {kept} replayed {}", sums.replayed.pace())?;
    println!(rt; "{name} {kept} expired {}", sums.expired.pace())?;
    println!(rt; "{name} {kept} purged {}", sums.dropped.pace())?;
    let pairs = kept.max(1);
    println!(rt; "{name} {kept} bytes {} {}", filled / pairs, after / pairs)
}

/// Times the table with a thousand pairs, ten, a hundred and a thousand times as many, and the list
/// with the first two numbers. The largest goes first, so that its memory is not what another has
/// freed.
pub fn run<R: Clock + Print + Files + Alloc>(rt: &R, alloc: Global) -> io::Result<()> {
    for each in [4000, 400, 40, 4] {
        let hash_state: BuildHasherDefault<FoldHasher> = BuildHasherDefault::new();
        time(
            rt,
            alloc,
            "table",
            ReplayTable::new(alloc, hash_state),
            each,
        )?;
    }
    for each in [40, 4] {
        time(rt, alloc, "list", PlainReplay::new(alloc), each)?;
    }
    Ok(())
}
