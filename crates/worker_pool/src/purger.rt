//! The purger: at each tick it reads its clock, and purges the gate at that moment.

ghost use Rattle.std.specs.Prelude.{◌≡◌};
ghost use Rattle.worker_pool.specs.Purging.{HasTicked, IsNewPurger, OneMore};
ghost use Rattle.worker_pool.specs.Purging.{clock_sight, ticker_sight};

use byte_io::{Clock, Tick, Ticker};
use munge_types::Replay;
use replay_gate::{Gate, Pass};
use std::sync::Wait;

/// How many expiries one purge drops at most.
const SLICE: u32 = 1024;

/// A purger, and the counts of its ticks.
#[derive(Drop)]
pub(crate) struct Purger<C: Drop> {
    /// Its pass, whose entries are its purges.
    pub(crate) pass: Pass,
    /// What gives the moments of its purges, in seconds since 1970.
    pub(crate) clock: C,
    /// How many purges were made. The count stands still at its largest.
    pub(crate) purges: u64,
    /// At how many ticks the clock failed. The count stands still at its largest.
    pub(crate) missed: u64,
    /// The ticket of the last purge that found the gate worn.
    pub(crate) worn: Option<u64>,
    /// The ticker failed.
    pub(crate) failed: bool,
}

impl<C: Clock + Drop> Purger<C> {
    /// One tick: reads the clock once, and purges at that moment. Where the clock fails, the tick
    /// is missed; where the gate is worn, its ticket is kept.
    fn tick<R: Replay + Drop, W: Wait>(&mut self, rt: &W, gate: &Gate<R>)
        requires of_gate { self.old.pass.gate ≡ gate.now }
        ensures one_more { OneMore (clock_sight C.readings C.last_reading C.given C.clock_faults)
            gate.now self.old self.new }
        ensures failed { self.new.failed ≡ self.old.failed }
    {
        let Ok(moment) = self.clock.now() else {
            self.missed = self.missed.saturating_add(1);
            return;
        };
        match gate.purge(rt, &mut self.pass, moment, SLICE) {
            Ok(_) => self.purges = self.purges.saturating_add(1),
            Err(worn) => self.worn = Some(worn.0),
        }
    }
}

/// Purges at each tick, until the ticker is over or has failed. It goes on where the gate is worn.
pub(crate) fn purge_all<C: Clock + Drop, T: Ticker, R: Replay + Drop, W: Wait>(
    rt: &W,
    gate: &Gate<R>,
    purger: &mut Purger<C>,
    ticker: &mut T,
)
    requires { IsNewPurger gate.now purger.old }
    ensures { let sight = clock_sight C.readings C.last_reading C.given C.clock_faults in
        let ticks = ticker_sight T.due T.tick_faults T.is_over in
        HasTicked sight ticks gate.now purger.old purger.new ticker.old ticker.new }
{
    for _ in rt.forever() {
        match ticker.next() {
            Tick::Due => purger.tick(rt, gate),
            Tick::Stop => return,
            Tick::Failed => {
                purger.failed = true;
                return;
            }
        }
    }
}
