//! A source over a reader.

ghost use Rattle.std.specs.Prelude.{◌≡◌};
ghost use Rattle.std.specs.Io.{ReadsAtMost};
ghost use Rattle.std.specs.Io.KnownBytes.{ReadConsumes};

use super::TRIES;
use crate::source::Source;
use munge_types::Failed;
use std::io;
use std::io::{ErrorKind, Read};

/// A reader of std as a source, which tells the bytes that the reader tells.
#[derive(Drop)]
pub struct StdSource<R> {
    from: R,
    faults: u64,
    ends: u64,
}

impl<R: Read + Drop> StdSource<R> {
    /// Reads from `from`.
    pub fn new(from: R) -> StdSource<R>
        ensures left { ⟦<StdSource<R> as Source>⟧.left result ≡ R.remaining from }
        ensures faults { ⟦<StdSource<R> as Source>⟧.read_faults result ≡ 0 }
        ensures ends { ⟦<StdSource<R> as Source>⟧.ends result ≡ 0 }
    {
        StdSource {
            from,
            faults: 0,
            ends: 0,
        }
    }
}

/// One read, tried again where a signal interrupts it.
fn read_through_signals<R: Read>(from: &mut R, into: &mut [u8]) -> io::Result<usize>
    ensures bound { ReadsAtMost result into.new }
    ensures bytes { ReadConsumes (R.remaining from.old) (R.remaining from.new) result into.new }
{
    'tries: for _ in 0..TRIES {
        match from.read(into) {
            Ok(n) => return Ok(n),
            Err(e) => {
                if e.kind() != ErrorKind::Interrupted {
                    return Err(e);
                }
            }
        }
    }
    Err(io::Error::from(ErrorKind::Interrupted))
}

impl<R: Read + Drop> Source for StdSource<R> {
    ghost left = { λ s. R.remaining s.from };

    ghost read_faults = { λ s. s.faults };

    ghost ends = { λ s. s.ends };

    ghost BesideReads = { Unit {0} };

    ghost beside_reads = { λ _. tt };

    fn read(&mut self, into: &mut [u8]) -> Result<usize, Failed> {
        match read_through_signals(&mut self.from, into) {
            Ok(n) => {
                if n == 0 && !into.is_empty() {
                    self.ends = self.ends.saturating_add(1);
                }
                Ok(n)
            }
            Err(_) => {
                self.faults = self.faults.saturating_add(1);
                Err(Failed)
            }
        }
    }
}
