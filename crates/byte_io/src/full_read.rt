//! Reading until a buffer is full.

ghost use Rattle.std.specs.Prelude.{◌≡◌, ◌≤◌, length, ⊤};
ghost use Rattle.std.specs.Io.KnownBytes.{Consumes, IsAtEnd};
ghost use Rattle.byte_io.specs.Counts.{Rose};
ghost use Rattle.byte_io.specs.FullRead.{bytes_read, IsBelow, MatchFullRead};

use crate::source::Source;
use munge_types::Failed;

/// How far a buffer was filled.
#[derive(Clone, Copy, Debug, PartialEq, Eq)]
pub enum FullRead {
    /// All of it.
    Full,
    /// Its first bytes, so many; then the input ended.
    Short(usize),
    /// Its first bytes, so many; then a read failed.
    Failed(usize),
}

/// Reads until `into` is full, the input ends or a read fails.
pub fn read_full<I: Source>(input: &mut I, into: &mut [u8]) -> FullRead
    ensures consumed { Consumes (I.left input.old) (I.left input.new)
        (bytes_read result into.new) }
    ensures below { IsBelow result (length into.new) }

    ensures ended { MatchFullRead result
        (I.ends input.new ≡ I.ends input.old)
        (Rose (I.ends input.old) (I.ends input.new))
        (I.ends input.new ≡ I.ends input.old) }
    ensures at_end { MatchFullRead result ⊤ (IsAtEnd (I.left input.new)) ⊤ }
    ensures ends_stay { I.ends input.old ≤ I.ends input.new }

    ensures failed { MatchFullRead result
        (I.read_faults input.new ≡ I.read_faults input.old)
        (I.read_faults input.new ≡ I.read_faults input.old)
        (Rose (I.read_faults input.old) (I.read_faults input.new)) }
    ensures faults_stay { I.read_faults input.old ≤ I.read_faults input.new }

    ensures beside { I.beside_reads input.new ≡ I.beside_reads input.old }
{
    let mut filled = 0;
    'fill: while filled < into.len() {
        match input.read(&mut into[filled..]) {
            Ok(0) => return FullRead::Short(filled),
            Ok(n) => filled += n,
            Err(Failed) => return FullRead::Failed(filled),
        }
    }
    FullRead::Full
}
