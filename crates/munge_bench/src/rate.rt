//! How many bytes a loop gets through in a second.

use std::time::{CpuClock, Duration};
use std::{fmt, io};

/// How long a measurement goes on, in seconds.
const SECONDS: u64 = 1;

/// Bytes, and the processor time that they took. It is shown in millions of bytes a second.
#[derive(Clone, Copy)]
pub struct Rate {
    bytes: u64,
    time: Duration,
}

impl Rate {
    /// Makes passes over `bytes` bytes until the thread has used a second.
    pub fn of<F: FnMut()>(clock: &impl CpuClock, bytes: u64, mut pass: F) -> io::Result<Rate>
        requires { F.IsAlwaysCallable pass }
    {
        let start = clock.thread_cpu_time()?;
        let mut done = Rate {
            bytes: 0,
            time: Duration::ZERO,
        };
        for _ in 0..u64::MAX {
            pass();
            done.bytes = done.bytes.saturating_add(bytes);
            done.time = clock.thread_cpu_time()?.saturating_sub(start);
            if done.time.as_secs() >= SECONDS {
                break;
            }
        }
        Ok(done)
    }
}

impl fmt::Display for Rate {
    fn fmt<W: fmt::Write>(&self, f: &mut fmt::Formatter<W>) -> fmt::Result {
        let millis = u64::try_from(self.time.as_millis()).unwrap_or(u64::MAX);
        let tenths = self.bytes / millis.saturating_mul(100).max(1);
        let whole = tenths / 10;
        let tenth = tenths % 10;
        write!(f, "{whole}.{tenth} MB/s")
    }
}
