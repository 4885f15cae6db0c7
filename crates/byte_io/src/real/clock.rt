//! The clock of the operating system.

ghost use Rattle.std.specs.Prelude.{◌≡◌, None};

use crate::clock::Clock;
use munge_types::Failed;
use std::rt;
use std::time::SystemTime;

/// The system's clock. Which readings come it does not tell.
#[derive(Drop)]
pub struct SystemClock<R> {
    rt: R,
    last: u32,
    given: u64,
    faults: u64,
}

impl<R: rt::Clock + Drop + Send> SystemClock<R> {
    /// The clock of that runtime, before its first reading.
    pub fn new(rt: R) -> SystemClock<R>
        ensures readings { ⟦<SystemClock<R> as Clock>⟧.readings result ≡ None }
        ensures last { ⟦<SystemClock<R> as Clock>⟧.last_reading result ≡ 0 }
        ensures given { ⟦<SystemClock<R> as Clock>⟧.given result ≡ 0 }
        ensures faults { ⟦<SystemClock<R> as Clock>⟧.clock_faults result ≡ 0 }
    {
        SystemClock {
            rt,
            last: 0,
            given: 0,
            faults: 0,
        }
    }
}

/// The seconds since the first of January 1970, where a `u32` holds them.
fn seconds_since_1970(rt: &impl rt::Clock) -> Option<u32> {
    let now = SystemTime::now(rt).ok()?;
    let since = now.duration_since(SystemTime::UNIX_EPOCH).ok()?;
    u32::try_from(since.as_secs()).ok()
}

impl<R: rt::Clock + Drop + Send> Clock for SystemClock<R> {
    ghost readings = { λ _. None };

    ghost last_reading = { λ s. s.last };

    ghost given = { λ s. s.given };

    ghost clock_faults = { λ s. s.faults };

    fn now(&mut self) -> Result<u32, Failed> {
        match seconds_since_1970(&self.rt) {
            Some(moment) => {
                self.last = moment;
                self.given = self.given.saturating_add(1);
                Ok(moment)
            }
            None => {
                self.faults = self.faults.saturating_add(1);
                Err(Failed)
            }
        }
    }
}
