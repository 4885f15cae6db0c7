//! A clock in memory.

ghost use Rattle.std.specs.Prelude.{
  ◌≡◌,
  ◌≤◌,
  ◌⊎◌,
  [],
  ◌∷◌,
  Some,
  Contains,
  IsErr,
  IfOk,
  OnErr,
};
ghost use Rattle.byte_io.specs.Counts.{raised};
ghost use Rattle.byte_io.specs.MemClock.{after_reading, after_failed_call};

use super::calls::Calls;
use crate::clock::Clock;
use munge_types::Failed;
use std::marker::Model;

/// Readings in memory, given in their order.
#[derive(Drop)]
pub struct MemClock {
    readings: Vec<u32>,
    at: usize,
    last: u32,
    calls: Calls,
    given: u64,
}

impl Model for MemClock {
    ghost use Rattle.std.specs.Prelude.{◌≤◌, drop, vec_len};
    ghost use Rattle.byte_io.specs.MemClock.{ClockState};

    ghost Value = { ClockState };

    ghost view = { λ s. record {
      readings = drop s.at s.readings.items;
      fails = s.calls.fails.items;
      calls = s.calls.made;
      last = s.last;
      given = s.given;
      faults = s.calls.faults;
    } };

    ghost invariant = { λ s. s.at ≤ vec_len s.readings };
}

impl MemClock {
    /// Gives `readings` in their order. The calls whose numbers are in `fails` fail, counted from 1,
    /// and so does a call where no reading is left.
    pub fn new(readings: Vec<u32>, fails: Vec<u32>) -> MemClock
        ensures { result ≡ record {
          readings = readings.items;
          fails = fails.items;
          calls = 0;
          last = 0;
          given = 0;
          faults = 0;
        } }
    {
        MemClock {
            readings,
            at: 0,
            last: 0,
            calls: Calls::new(fails),
            given: 0,
        }
    }
}

impl Clock for MemClock {
    ghost readings = { λ s. Some s.readings };

    ghost last_reading = { λ s. s.last };

    ghost given = { λ s. s.given };

    ghost clock_faults = { λ s. s.faults };

    fn now(&mut self) -> Result<u32, Failed>
        ensures planned { Contains self.old.fails (raised self.old.calls) → IsErr result }
        ensures none_left { self.old.readings ≡ [] → IsErr result }
        ensures only { OnErr result
            (Contains self.old.fails (raised self.old.calls) ⊎ (self.old.readings ≡ [])) }

        ensures first { IfOk result (λ moment.
            self.old.readings ≡ moment ∷ self.new.readings) }
        ensures ok { IfOk result (λ moment.
            self.new ≡ after_reading self.old moment self.new.readings) }
        ensures err { OnErr result (self.new ≡ after_failed_call self.old) }
        ensures given_stay { self.old.given ≤ self.new.given }
        ensures faults_stay { self.old.faults ≤ self.new.faults }
    {
        self.calls.begin()?;
        if self.at == self.readings.len() {
            return Err(self.calls.fault());
        }
        let moment = self.readings[self.at];
        self.at += 1;
        self.last = moment;
        self.given = self.given.saturating_add(1);
        Ok(moment)
    }
}
