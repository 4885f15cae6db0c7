//! Where clocks come from.

ghost use Rattle.std.specs.Prelude.{◌≡◌, ℕ, List, Option};
ghost use Rattle.byte_io.specs.TakesFirst.{TakesFirst};

use crate::clock::Clock;

/// It hands out clocks, one for each worker.
pub trait Clocks {
    /// A clock of these.
    type One: Clock;

    // The readings of the clocks still to come, a list for each, where they are told.
    ghost clocks: { Self → Option (List (List ℕ)) };

    /// The next clock, which has given nothing yet and has not failed. Past the last list of
    /// readings that is told, it has no reading.
    fn one(&mut self) -> Self::One
        ensures first { TakesFirst (clocks self.old) (clocks self.new)
            (Self.One.readings result) }
        ensures last { Self.One.last_reading result ≡ 0 }
        ensures given { Self.One.given result ≡ 0 }
        ensures faults { Self.One.clock_faults result ≡ 0 };
}
