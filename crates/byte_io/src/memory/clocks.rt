//! Clocks in memory.

ghost use Rattle.std.specs.Prelude.{◌≡◌, [], Some};
ghost use Rattle.byte_io.specs.MemLists.{lists_of};
ghost use Rattle.byte_io.specs.TakesFirst.{TakesFirst};

use super::clock::MemClock;
use crate::clocks::Clocks;
use std::alloc::Global;
use std::collections::VecDeque;
use std::marker::Model;

/// Lists of readings in memory, each for a clock, given in their order.
#[derive(Drop)]
pub struct MemClocks {
    alloc: Global,
    lists: VecDeque<Vec<u32>>,
}

impl Model for MemClocks {
    ghost use Rattle.std.specs.Prelude.{ℕ, List};
    ghost use Rattle.byte_io.specs.MemLists.{lists_of};

    ghost Value = { List (List ℕ) };

    ghost view = { λ s. lists_of s.lists.items };
}

impl MemClocks {
    /// The clocks have these lists of readings, in their order, and none of their calls is to fail
    /// before its readings are used up. Past the last list a clock has no reading.
    pub fn new(alloc: Global, readings: Vec<Vec<u32>>) -> MemClocks
        ensures { result ≡ lists_of readings.items }
    {
        MemClocks {
            alloc,
            lists: VecDeque::from_vec(readings),
        }
    }
}

impl Clocks for MemClocks {
    type One = MemClock;

    ghost clocks = { λ s. Some s };

    fn one(&mut self) -> MemClock
        ensures first { TakesFirst (Some self.old) (Some self.new) (Some result.readings) }
        ensures none_fails { result.fails ≡ [] }
        ensures calls { result.calls ≡ 0 }
        ensures last { result.last ≡ 0 }
        ensures given { result.given ≡ 0 }
        ensures faults { result.faults ≡ 0 }
    {
        let readings = match self.lists.pop_front() {
            Some(readings) => readings,
            None => Vec::new(self.alloc),
        };
        MemClock::new(readings, Vec::new(self.alloc))
    }
}
