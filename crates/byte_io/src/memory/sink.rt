//! A sink in memory.

ghost use Rattle.std.specs.Prelude.{
  ◌≡◌,
  ◌≤◌,
  [],
  Some,
  Contains,
  IsErr,
  IfOk,
  OnOk,
  OnErr,
  length,
};
ghost use Rattle.byte_io.specs.Counts.{raised};
ghost use Rattle.byte_io.specs.MemSink.{after_write, after_failed_write};

use super::calls::Calls;
use crate::sink::Sink;
use munge_types::Failed;
use std::alloc::Global;
use std::marker::Model;

/// Bytes in memory, which grow at their end.
#[derive(Drop)]
pub struct MemSink {
    bytes: Vec<u8>,
    calls: Calls,
}

impl Model for MemSink {
    ghost use Rattle.byte_io.specs.MemSink.{SinkState};

    ghost Value = { SinkState };

    ghost view = { λ s. record {
      taken = s.bytes.items;
      fails = s.calls.fails.items;
      writes = s.calls.made;
      faults = s.calls.faults;
    } };
}

impl MemSink {
    /// Has taken nothing yet. The writes whose numbers are in `fails` fail, counted from 1, and so
    /// does a write that finds no memory; any other takes all that it is given.
    pub fn new(alloc: Global, fails: Vec<u32>) -> MemSink
        ensures { result ≡ record { taken = []; fails = fails.items; writes = 0; faults = 0 } }
    {
        MemSink {
            bytes: Vec::new(alloc),
            calls: Calls::new(fails),
        }
    }

    /// The bytes that the sink took.
    pub fn taken(&self) -> &[u8]
        ensures { result.now ≡ self.now.taken }
    {
        self.bytes.as_slice()
    }
}

impl Sink for MemSink {
    ghost taken = { λ s. Some s.taken };

    ghost write_faults = { λ s. s.faults };

    ghost BesideWrites = { Unit {0} };

    ghost beside_writes = { λ _. tt };

    fn write(&mut self, from: &[u8]) -> Result<usize, Failed>
        ensures planned { Contains self.old.fails (raised self.old.writes) → IsErr result }
        ensures whole { IfOk result (λ n. n ≡ length from.now) }
        ensures ok { OnOk result (self.new ≡ after_write self.old from.now) }
        ensures err { OnErr result (self.new ≡ after_failed_write self.old) }
        ensures faults_stay { self.old.faults ≤ self.new.faults }
    {
        self.calls.begin()?;
        match self.bytes.extend_from_slice(from) {
            Ok(()) => Ok(from.len()),
            Err(_) => Err(self.calls.fault()),
        }
    }
}
