//! A source in memory.

ghost use Rattle.std.specs.Prelude.{
  ◌≡◌,
  ◌<◌,
  ◌≤◌,
  ◌↔◌,
  [],
  ◌++◌,
  Some,
  Contains,
  IsErr,
  IfOk,
  OnErr,
  length,
  take,
  drop,
  min,
};
ghost use Rattle.byte_io.specs.MemSource.{bound_of, after_read, after_failed_read};
ghost use Rattle.byte_io.specs.Counts.{raised};

use super::calls::Calls;
use crate::source::Source;
use munge_types::Failed;
use std::marker::Model;

/// Bytes in memory, read from their front.
#[derive(Drop)]
pub struct MemSource {
    bytes: Vec<u8>,
    at: usize,
    piece: u32,
    calls: Calls,
    ends: u64,
}

impl Model for MemSource {
    ghost use Rattle.std.specs.Prelude.{◌≤◌, drop, vec_len};
    ghost use Rattle.byte_io.specs.MemSource.{SourceState};

    ghost Value = { SourceState };

    ghost view = { λ s. record {
      left = drop s.at s.bytes.items;
      piece = s.piece;
      fails = s.calls.fails.items;
      reads = s.calls.made;
      faults = s.calls.faults;
      ends = s.ends;
    } };

    ghost invariant = { λ s. s.at ≤ vec_len s.bytes };
}

impl MemSource {
    /// Gives `bytes`, at most `piece` of them in one read, or with 0 as many as there is room for.
    /// The reads whose numbers are in `fails` fail, counted from 1.
    pub fn new(bytes: Vec<u8>, piece: u32, fails: Vec<u32>) -> MemSource
        ensures { result ≡ record {
          left = bytes.items;
          piece = piece;
          fails = fails.items;
          reads = 0;
          faults = 0;
          ends = 0;
        } }
    {
        MemSource {
            bytes,
            at: 0,
            piece,
            calls: Calls::new(fails),
            ends: 0,
        }
    }

    /// Gives `bytes` from now on, in place of those that were left.
    pub(super) fn refill(&mut self, bytes: Vec<u8>)
        ensures { self.new ≡ record self.old { left = bytes.items } }
    {
        self.bytes = bytes;
        self.at = 0;
    }
}

/// The most that one read gives into so much room.
fn bound_of_read(piece: u32, room: usize) -> usize
    ensures bound { result ≡ bound_of piece room }
    ensures some { 0 < room → 0 < result }
{
    if piece == 0 {
        room
    } else {
        room.min(piece as usize)
    }
}

/// Copies bytes from the front of `from` to the front of `into`, at most `most`.
fn copy_front(from: &[u8], into: &mut [u8], most: usize) -> usize
    requires { most ≤ length into.old }
    ensures count { result ≡ min most (length from.now) }
    ensures copied { from.now ≡ take result into.new ++ drop result from.now }
    ensures none { result ≡ 0 → 0 < most → from.now ≡ [] }
{
    let n = most.min(from.len());
    into[..n].copy_from_slice(&from[..n]);
    n
}

impl Source for MemSource {
    ghost left = { λ s. Some s.left };

    ghost read_faults = { λ s. s.faults };

    ghost ends = { λ s. s.ends };

    ghost BesideReads = { Unit {0} };

    ghost beside_reads = { λ _. tt };

    fn read(&mut self, into: &mut [u8]) -> Result<usize, Failed>
        ensures within { IfOk result (λ n. n ≤ length into.new) }
        ensures planned { IsErr result ↔ Contains self.old.fails (raised self.old.reads) }
        ensures count { IfOk result (λ n.
            n ≡ min (bound_of self.old.piece (length into.new)) (length self.old.left)) }
        ensures front { IfOk result (λ n. take n into.new ≡ take n self.old.left) }
        ensures ok { IfOk result (λ n. self.new ≡ after_read self.old n (length into.new)) }
        ensures err { OnErr result (self.new ≡ after_failed_read self.old) }
        ensures ends_stay { self.old.ends ≤ self.new.ends }
        ensures faults_stay { self.old.faults ≤ self.new.faults }
    {
        self.calls.begin()?;
        if into.is_empty() {
            return Ok(0);
        }
        let most = bound_of_read(self.piece, into.len());
        let n = copy_front(&self.bytes[self.at..], into, most);
        if n == 0 {
            self.ends = self.ends.saturating_add(1);
            return Ok(0);
        }
        self.at += n;
        Ok(n)
    }
}
