//! How long a call takes on average.

ghost use Rattle.std.specs.Prelude.{◌≡◌, ◌+◌, ◌-◌, ◌*◌, ◌/◌, ◌^◌, max, min};

use crate::pace::Pace;
use std::time::{CpuClock, Duration};
use std::{fmt, io};

/// How long a measurement goes on, in milliseconds.
const MILLIS: u128 = 250;

/// Tenths of a nanosecond of processor time. It is shown in nanoseconds.
#[derive(Clone, Copy)]
pub(crate) struct Cost {
    tenths: u128,
}

impl Cost {
    /// No time.
    pub(crate) const NOTHING: Cost = Cost { tenths: 0 };

    /// That of a call: calls are made until the thread has used a quarter of a second, with a look at
    /// the clock behind each so many. As many are made before, so that their buffers are in memory.
    pub(crate) fn of<F: FnMut() -> io::Result<()>>(
        clock: &impl CpuClock,
        calls: u32,
        mut call: F,
    ) -> io::Result<Cost>
        requires { F.IsAlwaysCallable call }
    {
        for _ in 0..calls {
            call()?;
        }
        let start = clock.thread_cpu_time()?;
        let mut done = 0u64;
        let mut time = Duration::ZERO;
        for _ in 0..u64::MAX {
            for _ in 0..calls {
                call()?;
            }
            done = done.saturating_add(u64::from(calls));
            time = clock.thread_cpu_time()?.saturating_sub(start);
            if time.as_millis() >= MILLIS {
                break;
            }
        }
        Ok(Cost::each(done, time))
    }

    /// That of each of so many calls.
    pub(crate) fn each(calls: u64, time: Duration) -> Cost {
        Cost {
            tenths: Pace::new(calls, time).tenths(),
        }
    }

    /// Together with another, up to the largest number.
    pub(crate) fn with(self, other: Cost) -> Cost
        ensures { result.tenths ≡ min (self.tenths + other.tenths) (2 ^ 128 - 1) }
    {
        Cost {
            tenths: self.tenths.saturating_add(other.tenths),
        }
    }

    /// Tenths of a million bytes a second, rounded down, where each call goes over so many bytes.
    pub(crate) fn rate(self, bytes: u32) -> u128
        ensures { result ≡ bytes * 100000 / max self.tenths 1 }
    {
        u128::from(bytes) * 100_000 / self.tenths.max(1)
    }
}

impl fmt::Display for Cost {
    fn fmt<W: fmt::Write>(&self, f: &mut fmt::Formatter<W>) -> fmt::Result {
        let whole = self.tenths / 10;
        let tenth = self.tenths % 10;
        write!(f, "{whole}.{tenth}")
    }
}
