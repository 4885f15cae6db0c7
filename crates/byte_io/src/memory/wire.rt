//! A wire in memory.

ghost use Rattle.std.specs.Prelude.{
  ◌≡◌,
  ℕ,
  ◌≤◌,
  List,
  [],
  ◌∷◌,
  ◌++◌,
  Some,
  IfOk,
  OnOk,
  OnErr,
  length,
  map,
};
ghost use Rattle.std.specs.String.{string_bytes};
ghost use Rattle.byte_io.specs.MemLists.{lists_of};
ghost use Rattle.byte_io.specs.MemSink.{SinkState, WritesAll};
ghost use Rattle.byte_io.specs.MemSource.{SourceState, ReadsFront};
ghost use Rattle.byte_io.specs.MemWire.{DialsReply};

use super::calls::Calls;
use super::sink::MemSink;
use super::source::MemSource;
use crate::sink::Sink;
use crate::source::Source;
use crate::wire::Wire;
use munge_types::Failed;
use std::alloc::{AllocError, Global};
use std::collections::VecDeque;
use std::marker::Model;

/// Replies in memory, one for each dial, and the paths dialled and the bytes written.
#[derive(Drop)]
pub struct MemWire {
    alloc: Global,
    source: MemSource,
    sink: MemSink,
    replies: VecDeque<Vec<u8>>,
    dialled: Vec<String>,
    dials: Calls,
}

impl Model for MemWire {
    ghost use Rattle.std.specs.Prelude.{map};
    ghost use Rattle.std.specs.String.{string_bytes};
    ghost use Rattle.byte_io.specs.MemLists.{lists_of};
    ghost use Rattle.byte_io.specs.MemWire.{WireState};

    ghost Value = { WireState };

    ghost view = { λ s. record {
      source = s.source;
      sink = s.sink;
      replies = lists_of s.replies.items;
      dialled = map string_bytes s.dialled.items;
      fails = s.dials.fails.items;
      dials = s.dials.made;
      faults = s.dials.faults;
    } };
}

impl MemWire {
    /// Gives one of `replies` after each dial that succeeds, in their order, and then empty ones.
    /// The dials whose numbers are in `fails` fail, counted from 1, and so does one that finds no
    /// memory. No read fails, and a write only where it finds no memory.
    pub fn new(alloc: Global, replies: Vec<Vec<u8>>, fails: Vec<u32>) -> MemWire
        ensures { result ≡ record {
          source = record { left = []; piece = 0; fails = []; reads = 0; faults = 0; ends = 0 };
          sink = record { taken = []; fails = []; writes = 0; faults = 0 };
          replies = lists_of replies.items;
          dialled = [];
          fails = fails.items;
          dials = 0;
          faults = 0;
        } }
    {
        MemWire {
            alloc,
            source: MemSource::new(Vec::new(alloc), 0, Vec::new(alloc)),
            sink: MemSink::new(alloc, Vec::new(alloc)),
            replies: VecDeque::from_vec(replies),
            dialled: Vec::new(alloc),
            dials: Calls::new(fails),
        }
    }

    /// The bytes that were written, on all connections.
    pub fn taken(&self) -> &[u8]
        ensures { result.now ≡ self.now.sink.taken }
    {
        self.sink.taken()
    }

    /// The paths of the dials that succeeded.
    pub fn dialled(&self) -> &[String]
        ensures { map string_bytes result.now ≡ self.now.dialled }
    {
        self.dialled.as_slice()
    }
}

impl Source for MemWire {
    ghost left = { λ s. Some s.source.left };

    ghost read_faults = { λ s. s.source.faults };

    ghost ends = { λ s. s.source.ends };

    // What was written, and the dials.
    ghost BesideReads = { SinkState × List (List ℕ) × List (List ℕ) × ℕ };

    ghost beside_reads = { λ s. (s.sink, s.dialled, s.replies, s.faults) };

    fn read(&mut self, into: &mut [u8]) -> Result<usize, Failed>
        ensures within { IfOk result (λ n. n ≤ length into.new) }
        ensures source { ReadsFront self.old.source self.new.source result into.new }
        ensures others { self.new ≡ record self.old { source = self.new.source } }
        ensures ends_stay { self.old.source.ends ≤ self.new.source.ends }
        ensures faults_stay { self.old.source.faults ≤ self.new.source.faults }
    {
        self.source.read(into)
    }
}

impl Sink for MemWire {
    ghost taken = { λ s. Some s.sink.taken };

    ghost write_faults = { λ s. s.sink.faults };

    // What is read, and the dials.
    ghost BesideWrites = { SourceState × List (List ℕ) × List (List ℕ) × ℕ };

    ghost beside_writes = { λ s. (s.source, s.dialled, s.replies, s.faults) };

    fn write(&mut self, from: &[u8]) -> Result<usize, Failed>
        ensures sink { WritesAll self.old.sink self.new.sink result from.now }
        ensures others { self.new ≡ record self.old { sink = self.new.sink } }
        ensures faults_stay { self.old.sink.faults ≤ self.new.sink.faults }
    {
        self.sink.write(from)
    }
}

impl Wire for MemWire {
    ghost use Rattle.std.proofs.Common.{rules};

    ghost dialled = { λ s. Some s.dialled };

    ghost replies = { λ s. Some s.replies };

    ghost dial_faults = { λ s. s.faults };

    ghost BesideDials = { Unit {0} };

    ghost beside_dials = { λ _. tt };

    fn dial(&mut self, path: &str) -> Result<(), Failed>
        ensures dials { DialsReply self.old self.new result path.now }
        ensures faults_stay { self.old.faults ≤ self.new.faults }
    {
        self.dials.begin()?;
        if add_path(self.alloc, &mut self.dialled, path).is_err() {
            return Err(self.dials.fault());
        }
        let reply = match self.replies.pop_front() {
            Some(reply) => reply,
            None => Vec::new(self.alloc),
        };
        self.source.refill(reply);
        Ok(())
    }

    ghost reads_leave_taken = { Prim.search rules };

    ghost reads_leave_write_faults = { Prim.search rules };

    ghost reads_leave_dialled = { Prim.search rules };

    ghost reads_leave_replies = { Prim.search rules };

    ghost reads_leave_dial_faults = { Prim.search rules };

    ghost writes_leave_left = { Prim.search rules };

    ghost writes_leave_read_faults = { Prim.search rules };

    ghost writes_leave_ends = { Prim.search rules };

    ghost writes_leave_dialled = { Prim.search rules };

    ghost writes_leave_replies = { Prim.search rules };

    ghost writes_leave_dial_faults = { Prim.search rules };
}

/// Appends a path, or leaves the paths where there is no memory.
fn add_path(alloc: Global, paths: &mut Vec<String>, path: &str) -> Result<(), AllocError>
    ensures ok { OnOk result (map string_bytes paths.new.items
        ≡ map string_bytes paths.old.items ++ path.now ∷ []) }
    ensures err { OnErr result (paths.new.items ≡ paths.old.items) }
{
    let path = String::from_str(alloc, path)?;
    paths.push(path)?;
    Ok(())
}
