//! A ticker that sleeps.

ghost use Rattle.std.specs.Prelude.{◌≡◌, None, IfOk};
ghost use Rattle.unix_io.specs.Idle.{Idle};

use crate::hall::UnixHall;
use crate::shared::Shared;
use crate::state::Seen;
use byte_io::{Tick, Ticker};
use munge_types::NoMemory;
use std::alloc::Global;
use std::io::ErrorKind;
use std::net::Net;
use std::sync::{Arc, Wait};
use std::time::{Duration, Instant};
use std::{io, rt};

/// It is due after so many seconds, again and again. It stops at once where the stop flag of its
/// hall goes up, and where no door of the hall is open: each is over, has failed or was dropped, or
/// none was opened yet. How often it will be due it does not tell.
#[derive(Drop)]
pub struct SleepTicker<R> {
    rt: R,
    shared: Arc<Shared, Global>,
    seconds: u32,
    seen: Seen,
    faults: u64,
}

impl<R: rt::Files + Net + rt::Clock + Wait + Copy + Send> SleepTicker<R> {
    /// The ticker that ends with that hall's doors. It is due after each `seconds` seconds, counted
    /// from the call that waits for it.
    pub fn new(hall: &UnixHall<R>, seconds: u32) -> Result<SleepTicker<R>, NoMemory>
        ensures due { IfOk result (λ ticker. ⟦<SleepTicker<R> as Ticker>⟧.due ticker ≡ None) }
        ensures faults { IfOk result (λ ticker.
            ⟦<SleepTicker<R> as Ticker>⟧.tick_faults ticker ≡ 0) }
    {
        Ok(SleepTicker {
            rt: hall.runtime(),
            shared: hall.share()?,
            seconds,
            seen: Seen::nothing(),
            faults: 0,
        })
    }
}

impl<R: rt::Clock + Wait> SleepTicker<R> {
    /// Waits until the time is over, or until nobody comes any more. It fails where the clock
    /// cannot be read.
    fn wait(&self) -> io::Result<Seen> {
        let time = Duration::from_secs(u64::from(self.seconds));
        let since = Instant::now(&self.rt)?;
        let seen = self.shared.wait(&self.rt, time);
        if !seen.is_idle() && since.elapsed(&self.rt)? < time {
            return Err(io::Error::from(ErrorKind::Other));
        }
        Ok(seen)
    }
}

impl<R: rt::Clock + Wait + Copy + Send> Ticker for SleepTicker<R> {
    ghost due = { λ _. None };

    ghost tick_faults = { λ s. s.faults };

    ghost is_over = { λ s. Idle s.seen };

    fn next(&mut self) -> Tick {
        match self.wait() {
            Ok(seen) => {
                self.seen = seen;
                if seen.is_idle() {
                    Tick::Stop
                } else {
                    Tick::Due
                }
            }
            Err(_) => {
                self.faults = self.faults.saturating_add(1);
                Tick::Failed
            }
        }
    }

    ghost over_at_none = { λ _. tt };
}
