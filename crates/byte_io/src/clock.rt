//! What time it is.

ghost use Rattle.std.specs.Prelude.{
  ◌≡◌,
  ℕ,
  ◌≤◌,
  List,
  [],
  ◌∷◌,
  Option,
  IfOk,
  OnOk,
  OnErr,
};
ghost use Rattle.std.specs.Io.KnownBytes.{Consumes, Keeps};
ghost use Rattle.byte_io.specs.Counts.{Rose};

use munge_types::Failed;

/// A clock, which may step back between two readings.
pub trait Clock: Send {
    // The readings still to come, where the clock tells them.
    ghost readings: { Self → Option (List ℕ) };

    // What the last call that was `Ok` gave, and 0 before the first.
    ghost last_reading: { Self → ℕ };

    // How many readings were given.
    ghost given: { Self → ℕ };

    // How many calls failed.
    ghost clock_faults: { Self → ℕ };

    /// The seconds since the first of January 1970, UTC. `Failed` has used up no reading.
    fn now(&mut self) -> Result<u32, Failed>
        ensures first { IfOk result (λ moment.
            Consumes (readings self.old) (readings self.new) (moment ∷ [])) }
        ensures last { IfOk result (λ moment. last_reading self.new ≡ moment) }
        ensures counted { OnOk result (Rose (given self.old) (given self.new)) }
        ensures given_stay { given self.old ≤ given self.new }

        ensures failed { OnErr result (Rose (clock_faults self.old) (clock_faults self.new)) }
        ensures sound { OnOk result (clock_faults self.new ≡ clock_faults self.old) }
        ensures faults_stay { clock_faults self.old ≤ clock_faults self.new }

        ensures kept { OnErr result (Keeps (readings self.old) (readings self.new)) }
        ensures last_kept { OnErr result (last_reading self.new ≡ last_reading self.old) }
        ensures given_kept { OnErr result (given self.new ≡ given self.old) };
}
