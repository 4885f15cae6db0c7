//! A sink over a writer.

ghost use Rattle.std.specs.Prelude.{◌≡◌};
ghost use Rattle.std.specs.Io.{WritesAtMost};
ghost use Rattle.std.specs.Io.KnownBytes.{WriteAppends};

use super::TRIES;
use crate::sink::Sink;
use munge_types::Failed;
use std::io;
use std::io::{ErrorKind, Write};

/// A writer of std as a sink, which tells the bytes that the writer tells. It flushes nothing, so
/// the writer is one that keeps no bytes back.
#[derive(Drop)]
pub struct StdSink<W> {
    to: W,
    faults: u64,
}

impl<W: Write + Drop> StdSink<W> {
    /// Writes to `to`.
    pub fn new(to: W) -> StdSink<W>
        ensures taken { ⟦<StdSink<W> as Sink>⟧.taken result ≡ W.contents to }
        ensures faults { ⟦<StdSink<W> as Sink>⟧.write_faults result ≡ 0 }
    {
        StdSink { to, faults: 0 }
    }
}

/// One write, tried again where a signal interrupts it.
fn write_through_signals<W: Write>(to: &mut W, from: &[u8]) -> io::Result<usize>
    ensures bound { WritesAtMost result from.now }
    ensures bytes { WriteAppends (W.contents to.old) (W.contents to.new) result from.now }
{
    'tries: for _ in 0..TRIES {
        match to.write(from) {
            Ok(n) => return Ok(n),
            Err(e) => {
                if e.kind() != ErrorKind::Interrupted {
                    return Err(e);
                }
            }
        }
    }
    Err(io::Error::from(ErrorKind::Interrupted))
}

impl<W: Write + Drop> Sink for StdSink<W> {
    ghost taken = { λ s. W.contents s.to };

    ghost write_faults = { λ s. s.faults };

    ghost BesideWrites = { Unit {0} };

    ghost beside_writes = { λ _. tt };

    fn write(&mut self, from: &[u8]) -> Result<usize, Failed> {
        match write_through_signals(&mut self.to, from) {
            Ok(n) if n > 0 || from.is_empty() => Ok(n),
            _ => {
                self.faults = self.faults.saturating_add(1);
                Err(Failed)
            }
        }
    }
}
