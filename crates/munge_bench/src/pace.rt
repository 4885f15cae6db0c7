//! How many pairs were looked up, or dropped, in how much time.

ghost use Rattle.std.specs.Prelude.{◌≡◌, ◌*◌, ◌/◌, max};

use std::fmt;
use std::time::Duration;

const NANOS_OF_A_SECOND: u128 = 1_000_000_000;

/// Pairs, and the elapsed nanoseconds that they took. It is shown as pairs a second, and as
/// nanoseconds a pair, the latter rounded down to tenths.
#[derive(Clone, Copy)]
pub(crate) struct Pace {
    pairs: u64,
    nanos: u64,
}

impl Pace {
    pub(crate) fn new(pairs: u64, time: Duration) -> Pace {
        Pace {
            pairs,
            nanos: u64::try_from(time.as_nanos()).unwrap_or(u64::MAX),
        }
    }

    /// Pairs a second, rounded down.
    pub(crate) fn a_second(&self) -> u128
        ensures { result ≡ self.now.pairs * 1000000000 / max self.now.nanos 1 }
    {
        u128::from(self.pairs) * NANOS_OF_A_SECOND / u128::from(self.nanos.max(1))
    }

    /// Tenths of a nanosecond for each pair, rounded down.
    pub(crate) fn tenths(&self) -> u128
        ensures { result ≡ self.now.nanos * 10 / max self.now.pairs 1 }
    {
        u128::from(self.nanos) * 10 / u128::from(self.pairs.max(1))
    }
}

impl fmt::Display for Pace {
    fn fmt<W: fmt::Write>(&self, f: &mut fmt::Formatter<W>) -> fmt::Result {
        let a_second = self.a_second();
        let whole = self.tenths() / 10;
        let tenth = self.tenths() % 10;
        write!(f, "{a_second} pairs/s {whole}.{tenth} ns")
    }
}
