//! The connection of a job.

ghost use Rattle.std.specs.Prelude.{◌≡◌, ℕ, ◌≤◌, [], ◌++◌, None, Some, drop, length, min, take};
ghost use Rattle.byte_io.specs.Counts.{raised};

use byte_io::{Link, Sink, Source};
use munge_types::Failed;
use std::marker::Model;

/// A connection whose peer has sent all that it will send, and takes each reply without keeping it.
/// No read and no write of it fails.
#[derive(Drop)]
pub struct LoadLink {
    bytes: Vec<u8>,
    at: usize,
    ends: u64,
    rings: u64,
}

impl Model for LoadLink {
    ghost use Rattle.std.specs.Prelude.{◌≤◌, drop, vec_len};
    ghost use Rattle.munged_run.specs.LoadLink.{LinkState};

    ghost Value = { LinkState };

    ghost view = { λ link. record {
      left = drop link.at link.bytes.items;
      ends = link.ends;
      rings = link.rings;
    } };

    ghost invariant = { λ link. link.at ≤ vec_len link.bytes };
}

impl LoadLink {
    /// The peer has sent these bytes.
    pub fn new(bytes: Vec<u8>) -> LoadLink
        ensures { result ≡ record { left = bytes.items; ends = 0; rings = 0 } }
    {
        LoadLink {
            bytes,
            at: 0,
            ends: 0,
            rings: 0,
        }
    }
}

/// Copies bytes from the front of `from` to the front of `into`, as many as there is room for.
fn copy_front(from: &[u8], into: &mut [u8]) -> usize
    ensures count { result ≡ min (length into.old) (length from.now) }
    ensures copied { from.now ≡ take result into.new ++ drop result from.now }
    ensures none { result ≡ 0 → 1 ≤ length into.old → from.now ≡ [] }
{
    let n = into.len().min(from.len());
    into[..n].copy_from_slice(&from[..n]);
    n
}

impl Source for LoadLink {
    ghost left = { λ link. Some link.left };

    ghost read_faults = { λ _. 0 };

    ghost ends = { λ link. link.ends };

    ghost BesideReads = { ℕ };

    ghost beside_reads = { λ link. link.rings };

    fn read(&mut self, into: &mut [u8]) -> Result<usize, Failed> {
        if into.is_empty() {
            return Ok(0);
        }
        let n = copy_front(&self.bytes[self.at..], into);
        if n == 0 {
            self.ends = self.ends.saturating_add(1);
            return Ok(0);
        }
        self.at += n;
        Ok(n)
    }
}

impl Sink for LoadLink {
    ghost use Rattle.munged_run.specs.LoadLink.{LinkState};

    ghost taken = { λ _. None };

    ghost write_faults = { λ _. 0 };

    ghost BesideWrites = { LinkState };

    ghost beside_writes = { λ link. link };

    fn write(&mut self, from: &[u8]) -> Result<usize, Failed> {
        Ok(from.len())
    }
}

impl Link for LoadLink {
    ghost use Rattle.std.proofs.Common.{rules};

    ghost rings = { λ link. link.rings };

    fn ring(&mut self) {
        self.rings = self.rings.saturating_add(1);
    }

    ghost reads_leave_taken = { Prim.search rules };

    ghost reads_leave_write_faults = { Prim.search rules };

    ghost reads_leave_rings = { Prim.search rules };

    ghost writes_leave_left = { Prim.search rules };

    ghost writes_leave_read_faults = { Prim.search rules };

    ghost writes_leave_ends = { Prim.search rules };

    ghost writes_leave_rings = { Prim.search rules };
}
