//! A ticker in memory.

ghost use Rattle.std.specs.Prelude.{◌≡◌, ◌<◌, ◌≤◌, ◌^◌, ◌↔◌, Some, Contains};
ghost use Rattle.byte_io.specs.Counts.{raised};
ghost use Rattle.byte_io.specs.Ticks.{Ticks, OnStop, faults_after_tick};

use super::calls::Calls;
use crate::ticker::{Tick, Ticker};
use std::marker::Model;

/// Due answers in memory, which come at once.
#[derive(Drop)]
pub struct MemTicker {
    due: u32,
    calls: Calls,
}

impl Model for MemTicker {
    ghost use Rattle.byte_io.specs.MemTicker.{TickerState};

    ghost Value = { TickerState };

    ghost view = { λ s. record {
      due = s.due;
      fails = s.calls.fails.items;
      calls = s.calls.made;
      faults = s.calls.faults;
    } };
}

impl MemTicker {
    /// Answers `due` times Due, and then Stop. The calls whose numbers are in `fails` fail, counted
    /// from 1.
    pub fn new(due: u32, fails: Vec<u32>) -> MemTicker
        ensures { result ≡ record { due = due; fails = fails.items; calls = 0; faults = 0 } }
    {
        MemTicker {
            due,
            calls: Calls::new(fails),
        }
    }
}

impl Ticker for MemTicker {
    ghost use Rattle.std.proofs.Common.{rules};

    ghost due = { λ s. Some s.due };

    ghost tick_faults = { λ s. s.faults };

    ghost is_over = { λ s. s.due ≡ 0 };

    fn next(&mut self) -> Tick
        ensures few { self.old.due < 2 ^ 64 }
        ensures planned { (result ≡ Tick.Failed)
            ↔ Contains self.old.fails (raised self.old.calls) }
        ensures told { Ticks (Some self.old.due) (Some self.new.due) result }
        ensures over { OnStop result (self.new.due ≡ 0) }
        ensures state { self.new ≡ record self.old {
          due = self.new.due;
          calls = raised self.old.calls;
          faults = faults_after_tick result self.old.faults;
        } }
        ensures faults_stay { self.old.faults ≤ self.new.faults }
    {
        let due = self.due;
        if self.calls.begin().is_err() {
            return Tick::Failed;
        }
        if due == 0 {
            return Tick::Stop;
        }
        self.due = due - 1;
        Tick::Due
    }

    ghost over_at_none = { Prim.search rules };
}
