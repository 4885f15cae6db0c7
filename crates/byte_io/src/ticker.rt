//! When it is time.

ghost use Rattle.std.specs.Prelude.{◌≡◌, ℕ, ◌<◌, ◌≤◌, ◌^◌, ◌↔◌, Option, IfSome};
ghost use Rattle.byte_io.specs.Ticks.{Ticks, OnStop, CountsTickFault};

/// What a ticker answers.
#[derive(Clone, Copy, Debug, PartialEq, Eq)]
pub enum Tick {
    /// It is time.
    Due,
    /// The ticker is over.
    Stop,
    /// The ticker failed.
    Failed,
}

/// It tells when it is time, again and again, until it is over.
pub trait Ticker: Send {
    // How many Due answers are still to come, where the ticker tells it.
    ghost due: { Self → Option ℕ };

    // How many calls failed.
    ghost tick_faults: { Self → ℕ };

    // No Due answer comes any more. What that means is the ticker's own.
    ghost is_over: { Self → Type 0 };

    /// Waits until it is time, until the ticker is over, or until it fails.
    fn next(&mut self) -> Tick
        ensures few { IfSome (due self.old) (λ n. n < 2 ^ 64) }
        ensures told { Ticks (due self.old) (due self.new) result }
        ensures over { OnStop result (is_over self.new) }
        ensures counted { CountsTickFault result
            (tick_faults self.old) (tick_faults self.new) }
        ensures faults_stay { tick_faults self.old ≤ tick_faults self.new };

    // Where the ticker tells, it is over exactly where no Due answer is to come.
    ghost over_at_none: { (ticker : Self) → IfSome (due ticker) (λ n. is_over ticker ↔ (n ≡ 0)) };
}
