//! What one thread does while admits are timed.

use crate::caller::Caller;
use munge_types::{MacBytes, Pair, Verdict};
use std::alloc::{AllocError, Global};
use std::fmt;
use std::sync::Wait;
use std::sync::atomic::{AtomicU32, Ordering};
use std::time::{Clock, Instant};

/// How many pairs a thread admits in one round.
const ROUND: u8 = 32;

/// How many rounds a thread makes between two looks at the clock.
const ROUNDS: usize = 32;

/// How long a measurement goes on, in seconds.
const SECONDS: u64 = 1;

/// By how much a new pair expires after the moment at which it is made.
const AHEAD: u32 = 2;

/// Which pairs are looked up.
#[derive(Clone, Copy, Debug, PartialEq, Eq)]
pub(crate) enum Kind {
    /// Pairs that have expired at the moment of the look-up. The state stays empty.
    Expired,
    /// Pairs that were not looked up before, all of which are accepted. After each round a thread
    /// raises the moment that all threads share and purges at it, inside what is timed. So a state
    /// that walks over its pairs at each look-up keeps about a hundred of them, however many threads
    /// there are, and whichever way they come to it.
    New,
}

impl Kind {
    /// What every look-up says.
    fn verdict(self) -> Verdict {
        match self {
            Kind::Expired => Verdict::Expired,
            Kind::New => Verdict::Accepted,
        }
    }
}

impl fmt::Display for Kind {
    fn fmt<W: fmt::Write>(&self, f: &mut fmt::Formatter<W>) -> fmt::Result {
        match self {
            Kind::Expired => f.write_str("expired"),
            Kind::New => f.write_str("new"),
        }
    }
}

/// What the threads of one measurement share beside the replay state.
#[derive(Drop)]
pub(crate) struct Race {
    kind: Kind,
    start: Instant,
    moment: AtomicU32,
}

impl Race {
    pub(crate) fn new(kind: Kind, start: Instant) -> Race {
        Race {
            kind,
            start,
            moment: AtomicU32::new(1),
        }
    }
}

/// One thread: its way to the state, its pairs, and how many look-ups said what they should.
#[derive(Drop)]
pub(crate) struct Lane<C> {
    caller: C,
    pairs: Vec<Pair>,
    done: u64,
}

impl<C: Caller + Drop> Lane<C> {
    /// A thread of this number. Its pairs differ from those of other numbers.
    pub(crate) fn new(alloc: Global, number: u8, caller: C) -> Result<Lane<C>, AllocError> {
        let mut pairs = Vec::new(alloc);
        for place in 0..ROUND {
            let mut mac = [0; 32];
            mac[0] = place;
            mac[1] = number;
            pairs.push(Pair {
                expiry: 0,
                mac: MacBytes::of(&mac),
            })?;
        }
        Ok(Lane {
            caller,
            pairs,
            done: 0,
        })
    }

    pub(crate) fn done(&self) -> u64 {
        self.done
    }

    /// Makes rounds until the time is over.
    pub(crate) fn run<R: Wait + Clock>(&mut self, rt: &R, race: &Race) {
        for _ in 0..u64::MAX {
            for _ in 0..ROUNDS {
                self.round(rt, race);
            }
            match race.start.elapsed(rt) {
                Ok(time) if time.as_secs() < SECONDS => {}
                _ => return,
            }
        }
    }

    fn round<W: Wait>(&mut self, rt: &W, race: &Race) {
        for pair in self.pairs.iter_mut() {
            let moment = race.moment.load(Ordering::SeqCst);
            if race.kind == Kind::New {
                pair.expiry = u64::from(moment.saturating_add(AHEAD));
            }
            if self.caller.admit(rt, pair, moment) == Some(race.kind.verdict()) {
                self.done = self.done.saturating_add(1);
            }
        }
        if race.kind == Kind::New {
            let before = race.moment.fetch_add(1, Ordering::SeqCst);
            self.caller.purge(rt, before.saturating_add(1));
        }
    }
}
