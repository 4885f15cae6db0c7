//! The clock of a job.

ghost use Rattle.std.specs.Prelude.{◌≡◌, None};
ghost use Rattle.load_maker.specs.Credentials.{moment};

use byte_io::Clock;
use munge_types::Failed;

/// When each credential of a load is presented, in seconds since 1970.
const MOMENT: u32 = 1_000_000;

/// A clock that stands still at the moment at which the credentials of a load are presented.
#[derive(Drop)]
pub struct LoadClock {
    /// How many readings it gave.
    given: u64,
}

impl LoadClock {
    /// A clock that has given nothing yet.
    pub fn new() -> LoadClock
        ensures { result.given ≡ 0 }
    {
        LoadClock { given: 0 }
    }
}

impl Clock for LoadClock {
    ghost readings = { λ _. None };

    ghost last_reading = { λ _. moment };

    ghost given = { λ clock. clock.given };

    ghost clock_faults = { λ _. 0 };

    fn now(&mut self) -> Result<u32, Failed> {
        self.given = self.given.saturating_add(1);
        Ok(MOMENT)
    }
}
