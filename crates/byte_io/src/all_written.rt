//! Writing all of a text.

ghost use Rattle.std.specs.Prelude.{◌≡◌, ◌≤◌, length};
ghost use Rattle.std.specs.Io.KnownBytes.{Appends};
ghost use Rattle.byte_io.specs.Counts.{Rose};
ghost use Rattle.byte_io.specs.AllWritten.{bytes_written, IsBelow, MatchAllWritten};

use crate::sink::Sink;
use munge_types::Failed;

/// How much of a text went out.
#[derive(Clone, Copy, Debug, PartialEq, Eq)]
pub enum AllWritten {
    /// All of it.
    All,
    /// Its first bytes, so many; then a write failed.
    Failed(usize),
}

/// Writes `from` until all of it went out or a write fails.
pub fn write_all<O: Sink>(out: &mut O, from: &[u8]) -> AllWritten
    ensures appended { Appends (O.taken out.old) (O.taken out.new)
        (bytes_written result from.now) }
    ensures below { IsBelow result (length from.now) }

    ensures failed { MatchAllWritten result
        (O.write_faults out.new ≡ O.write_faults out.old)
        (Rose (O.write_faults out.old) (O.write_faults out.new)) }
    ensures faults_stay { O.write_faults out.old ≤ O.write_faults out.new }

    ensures beside { O.beside_writes out.new ≡ O.beside_writes out.old }
{
    let mut written = 0;
    'put: while written < from.len() {
        match out.write(&from[written..]) {
            Ok(n) => written += n,
            Err(Failed) => return AllWritten::Failed(written),
        }
    }
    AllWritten::All
}
