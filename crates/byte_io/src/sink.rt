//! Where bytes go.

ghost use Rattle.std.specs.Prelude.{
  ◌≡◌,
  ℕ,
  ◌<◌,
  ◌≤◌,
  List,
  Option,
  length,
  IfOk,
  OnOk,
  OnErr,
};
ghost use Rattle.std.specs.Io.KnownBytes.{WriteAppends};
ghost use Rattle.byte_io.specs.Counts.{Rose};

use munge_types::Failed;

/// A stream of bytes that goes out.
pub trait Sink {
    // The bytes that the sink took, where it tells them.
    ghost taken: { Self → Option (List ℕ) };

    // How many writes failed.
    ghost write_faults: { Self → ℕ };

    // What an object that is more than a sink holds besides. A write leaves it as it is.
    ghost BesideWrites: { Type 0 };

    ghost beside_writes: { Self → BesideWrites };

    /// Writes the front of `from`, and returns how many bytes were taken: at least one, unless
    /// `from` is empty. `Failed` has taken nothing.
    fn write(&mut self, from: &[u8]) -> Result<usize, Failed>
        ensures within { IfOk result (λ n. n ≤ length from.now) }
        ensures some { IfOk result (λ n. 0 < length from.now → 0 < n) }
        ensures appended { WriteAppends (taken self.old) (taken self.new) result from.now }

        ensures failed { OnErr result (Rose (write_faults self.old) (write_faults self.new)) }
        ensures sound { OnOk result (write_faults self.new ≡ write_faults self.old) }
        ensures faults_stay { write_faults self.old ≤ write_faults self.new }

        ensures beside { beside_writes self.new ≡ beside_writes self.old };
}
