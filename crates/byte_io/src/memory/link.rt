//! A connection in memory.

ghost use Rattle.std.specs.Prelude.{◌≡◌, ℕ, ◌≤◌, [], Some, IfOk, length};
ghost use Rattle.byte_io.specs.Counts.{raised};
ghost use Rattle.byte_io.specs.MemSink.{SinkState, WritesAll};
ghost use Rattle.byte_io.specs.MemSource.{SourceState, ReadsFront};

use super::sink::MemSink;
use super::source::MemSource;
use crate::link::Link;
use crate::sink::Sink;
use crate::source::Source;
use munge_types::Failed;
use std::alloc::Global;
use std::marker::Model;

/// What a peer sends and what it is sent, in memory.
#[derive(Drop)]
pub struct MemLink {
    source: MemSource,
    sink: MemSink,
    rings: u64,
}

impl Model for MemLink {
    ghost use Rattle.byte_io.specs.MemLink.{LinkState};

    ghost Value = { LinkState };

    ghost view = { λ s. record { source = s.source; sink = s.sink; rings = s.rings } };
}

impl MemLink {
    /// Gives `bytes`, as many in one read as there is room for, and has taken nothing yet. The
    /// reads whose numbers are in `read_fails` fail, and the writes whose numbers are in
    /// `write_fails`, both counted from 1, and so does a write that finds no memory.
    pub fn new(
        alloc: Global,
        bytes: Vec<u8>,
        read_fails: Vec<u32>,
        write_fails: Vec<u32>,
    ) -> MemLink
        ensures { result ≡ record {
          source = record {
            left = bytes.items;
            piece = 0;
            fails = read_fails.items;
            reads = 0;
            faults = 0;
            ends = 0;
          };
          sink = record { taken = []; fails = write_fails.items; writes = 0; faults = 0 };
          rings = 0;
        } }
    {
        MemLink {
            source: MemSource::new(bytes, 0, read_fails),
            sink: MemSink::new(alloc, write_fails),
            rings: 0,
        }
    }

    /// The bytes that were written.
    pub fn taken(&self) -> &[u8]
        ensures { result.now ≡ self.now.sink.taken }
    {
        self.sink.taken()
    }
}

impl Source for MemLink {
    ghost left = { λ s. Some s.source.left };

    ghost read_faults = { λ s. s.source.faults };

    ghost ends = { λ s. s.source.ends };

    // What was written, and the rings.
    ghost BesideReads = { SinkState × ℕ };

    ghost beside_reads = { λ s. (s.sink, s.rings) };

    fn read(&mut self, into: &mut [u8]) -> Result<usize, Failed>
        ensures within { IfOk result (λ n. n ≤ length into.new) }
        ensures source { ReadsFront self.old.source self.new.source result into.new }
        ensures others { self.new ≡ record self.old { source = self.new.source } }
        ensures ends_stay { self.old.source.ends ≤ self.new.source.ends }
        ensures faults_stay { self.old.source.faults ≤ self.new.source.faults }
    {
        self.source.read(into)
    }
}

impl Sink for MemLink {
    ghost taken = { λ s. Some s.sink.taken };

    ghost write_faults = { λ s. s.sink.faults };

    // What is read, and the rings.
    ghost BesideWrites = { SourceState × ℕ };

    ghost beside_writes = { λ s. (s.source, s.rings) };

    fn write(&mut self, from: &[u8]) -> Result<usize, Failed>
        ensures sink { WritesAll self.old.sink self.new.sink result from.now }
        ensures others { self.new ≡ record self.old { sink = self.new.sink } }
        ensures faults_stay { self.old.sink.faults ≤ self.new.sink.faults }
    {
        self.sink.write(from)
    }
}

impl Link for MemLink {
    ghost use Rattle.std.proofs.Common.{rules};

    ghost rings = { λ s. s.rings };

    fn ring(&mut self)
        ensures rang { self.new ≡ record self.old { rings = raised self.old.rings } }
        ensures rings_stay { self.old.rings ≤ self.new.rings }
    {
        self.rings = self.rings.saturating_add(1);
    }

    ghost reads_leave_taken = { Prim.search rules };

    ghost reads_leave_write_faults = { Prim.search rules };

    ghost reads_leave_rings = { Prim.search rules };

    ghost writes_leave_left = { Prim.search rules };

    ghost writes_leave_read_faults = { Prim.search rules };

    ghost writes_leave_ends = { Prim.search rules };

    ghost writes_leave_rings = { Prim.search rules };
}
