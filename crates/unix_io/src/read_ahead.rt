//! Bytes that were read before they were asked for.

ghost use Rattle.std.specs.Prelude.{
  ◌≡◌,
  ◌<◌,
  ◌≤◌,
  true,
  ◌↔◌,
  [],
  ◌++◌,
  length,
  take,
  drop,
  min,
  IsOkAnd,
  IfOk,
  OnOk,
  OnErr,
};
ghost use Rattle.std.specs.Io.KnownBytes.{
  Consumes,
  IsAtEnd,
  Keeps,
  ReadConsumes,
  prepend_known,
};

use std::io::{self, Read};
use std::marker::Model;

/// How many bytes are read ahead at most. A usual request has fewer, its head among them.
const ROOM: usize = 256;

/// Bytes that were read from a stream and not yet asked for, in their order. Contracts see the list
/// of them.
#[derive(Drop)]
pub struct ReadAhead {
    buffer: [u8; ROOM],
    start: usize,
    end: usize,
}

impl Model for ReadAhead {
    ghost use Rattle.std.specs.Prelude.{ℕ, ◌≤◌, List, take, drop};

    ghost Value = { List ℕ };

    ghost view = { λ s. drop s.start (take s.end s.buffer) };

    ghost invariant = { λ s. (s.start ≤ s.end) × (s.end ≤ 256) };
}

/// Copies the front of `from` to the front of `into`, as much as there is room for.
fn copy_front(from: &[u8], into: &mut [u8]) -> usize
    ensures count { result ≡ min (length into.new) (length from.now) }
    ensures copied { from.now ≡ take result into.new ++ drop result from.now }
{
    let n = into.len().min(from.len());
    into[..n].copy_from_slice(&from[..n]);
    n
}

impl ReadAhead {
    /// No bytes.
    pub fn new() -> ReadAhead
        ensures { result ≡ [] }
    {
        ReadAhead {
            buffer: [0; ROOM],
            start: 0,
            end: 0,
        }
    }

    /// Those that are left.
    fn bytes(&self) -> &[u8]
        ensures { result.now ≡ self.now }
    {
        &self.buffer[..self.end][self.start..]
    }

    /// Where none are left, reads once.
    fn fill<S: Read>(&mut self, from: &mut S) -> io::Result<()>
        requires { self.old ≡ [] }
        ensures ok { OnOk result
            (Consumes (S.remaining from.old) (S.remaining from.new) self.new) }
        ensures at_end { OnOk result (self.new ≡ [] → IsAtEnd (S.remaining from.new)) }
        ensures kept { OnErr result (Keeps (S.remaining from.old) (S.remaining from.new)) }
        ensures err { OnErr result (self.new ≡ []) }
    {
        self.start = 0;
        self.end = 0;
        self.end = from.read(&mut self.buffer)?;
        Ok(())
    }

    /// Moves the first of them to the front of `into`, as many as there is room for.
    fn hand_out(&mut self, into: &mut [u8]) -> usize
        ensures count { result ≡ min (length into.new) (length self.old) }
        ensures order { self.old ≡ take result into.new ++ self.new }
    {
        let n = copy_front(self.bytes(), into);
        self.start += n;
        n
    }

    /// Reads into the front of `into` what `from` has, by way of these bytes: as long as there are
    /// any, they are handed out and `from` is not asked. Into less room than it has for them it
    /// reads ahead. No bytes, for an `into` that is not empty, are the end of `from`.
    pub fn read<S: Read>(&mut self, from: &mut S, into: &mut [u8]) -> io::Result<usize>
        ensures within { IfOk result (λ n. n ≤ length into.new) }
        ensures consumed { ReadConsumes
            (prepend_known self.old (S.remaining from.old))
            (prepend_known self.new (S.remaining from.new)) result into.new }
        ensures held { 0 < length self.old → IsOkAnd result (λ n.
            (n ≡ min (length into.new) (length self.old))
            × (self.old ≡ take n into.new ++ self.new)) }
        ensures unasked { 0 < length self.old → from.new ≡ from.old }
        ensures err { OnErr result (self.new ≡ self.old) }
    {
        if into.is_empty() {
            return Ok(0);
        }
        if self.bytes().is_empty() {
            if into.len() >= ROOM {
                return from.read(into);
            }
            self.fill(from)?;
        }
        Ok(self.hand_out(into))
    }
}
