//! A door in memory.

ghost use Rattle.std.specs.Prelude.{
  ◌≡◌,
  ◌<◌,
  ◌≤◌,
  ◌^◌,
  ◌↔◌,
  [],
  Some,
  Contains,
  All,
  length,
};
ghost use Rattle.byte_io.specs.Counts.{raised};
ghost use Rattle.byte_io.specs.Doors.{Accepts, IfConn, OnOver, faults_after_accept};
ghost use Rattle.byte_io.specs.MemDoor.{HasNoFault};

use super::calls::Calls;
use super::link::MemLink;
use crate::door::{Door, Next};
use std::collections::VecDeque;
use std::marker::Model;

/// Connections in memory, given in their order. None of them has had a fault.
#[derive(Drop)]
pub struct MemDoor {
    coming: VecDeque<MemLink>,
    calls: Calls,
}

impl Model for MemDoor {
    ghost use Rattle.std.specs.Prelude.{All};
    ghost use Rattle.byte_io.specs.MemDoor.{DoorState, HasNoFault};

    ghost Value = { DoorState };

    ghost view = { λ s. record {
      coming = s.coming.items;
      fails = s.calls.fails.items;
      calls = s.calls.made;
      faults = s.calls.faults;
    } };

    ghost invariant = { λ s. All HasNoFault s.coming.items };
}

impl MemDoor {
    /// Gives `conns` in their order, and is then over. The calls whose numbers are in `fails` fail,
    /// counted from 1.
    pub fn new(conns: Vec<MemLink>, fails: Vec<u32>) -> MemDoor
        requires { All HasNoFault conns.items }
        ensures { result ≡ record {
          coming = conns.items;
          fails = fails.items;
          calls = 0;
          faults = 0;
        } }
    {
        MemDoor {
            coming: VecDeque::from_vec(conns),
            calls: Calls::new(fails),
        }
    }
}

impl Door for MemDoor {
    ghost use Rattle.std.proofs.Common.{rules};

    type Conn = MemLink;

    ghost coming = { λ s. Some s.coming };

    ghost door_faults = { λ s. s.faults };

    ghost is_over = { λ s. s.coming ≡ [] };

    fn accept(&mut self) -> Next<MemLink>
        ensures few { length self.old.coming < 2 ^ 64 }
        ensures planned { (result ≡ Next.Failed)
            ↔ Contains self.old.fails (raised self.old.calls) }
        ensures told { Accepts (Some self.old.coming) (Some self.new.coming) result }
        ensures no_fault { IfConn result HasNoFault }
        ensures over { OnOver result (self.new.coming ≡ []) }
        ensures state { self.new ≡ record self.old {
          coming = self.new.coming;
          calls = raised self.old.calls;
          faults = faults_after_accept result self.old.faults;
        } }
        ensures faults_stay { self.old.faults ≤ self.new.faults }
    {
        if self.calls.begin().is_err() {
            return Next::Failed;
        }
        match self.coming.pop_front() {
            Some(conn) => Next::Conn(conn),
            None => Next::Over,
        }
    }

    ghost over_at_none = { Prim.search rules };
}
