//! Where bytes come from.

ghost use Rattle.std.specs.Prelude.{
  ◌≡◌,
  ℕ,
  ◌<◌,
  ◌≤◌,
  List,
  Option,
  length,
  MatchResult,
  IfOk,
  OnOk,
  OnErr,
};
ghost use Rattle.std.specs.Io.KnownBytes.{ReadConsumes};
ghost use Rattle.byte_io.specs.Counts.{Rose};

use munge_types::Failed;

/// A stream of bytes that comes in.
pub trait Source {
    // The bytes left to read, where the source tells them.
    ghost left: { Self → Option (List ℕ) };

    // How many reads failed.
    ghost read_faults: { Self → ℕ };

    // How many reads found the end of input.
    ghost ends: { Self → ℕ };

    // What an object that is more than a source holds besides. A read leaves it as it is.
    ghost BesideReads: { Type 0 };

    ghost beside_reads: { Self → BesideReads };

    /// Reads into the front of `into`, and returns how many bytes were read. None, for an `into`
    /// that is not empty, is the end of input. `Failed` has read nothing.
    fn read(&mut self, into: &mut [u8]) -> Result<usize, Failed>
        ensures within { IfOk result (λ n. n ≤ length into.new) }
        ensures consumed { ReadConsumes (left self.old) (left self.new) result into.new }

        ensures ended { IfOk result (λ n.
            n ≡ 0 → 0 < length into.new → Rose (ends self.old) (ends self.new)) }
        ensures open { MatchResult result
            (λ n. 0 < n → ends self.new ≡ ends self.old)
            (λ _. ends self.new ≡ ends self.old) }
        ensures empty { length into.new ≡ 0 → ends self.new ≡ ends self.old }
        ensures ends_stay { ends self.old ≤ ends self.new }

        ensures failed { OnErr result (Rose (read_faults self.old) (read_faults self.new)) }
        ensures sound { OnOk result (read_faults self.new ≡ read_faults self.old) }
        ensures faults_stay { read_faults self.old ≤ read_faults self.new }

        ensures beside { beside_reads self.new ≡ beside_reads self.old };
}
