//! Clocks of the operating system.

ghost use Rattle.std.specs.Prelude.{◌≡◌, None};

use byte_io::{Clocks, SystemClock};
use std::rt::HostRuntime;

/// It hands out the system's clock, as often as it is asked. Which readings come it does not tell.
#[derive(Drop)]
pub struct SystemClocks {
    rt: HostRuntime,
}

impl SystemClocks {
    /// The clocks of that runtime.
    pub fn new(rt: HostRuntime) -> SystemClocks
        ensures clocks { ⟦<SystemClocks as Clocks>⟧.clocks result ≡ None }
    {
        SystemClocks { rt }
    }
}

impl Clocks for SystemClocks {
    type One = SystemClock<HostRuntime>;

    ghost clocks = { λ _. None };

    fn one(&mut self) -> SystemClock<HostRuntime> {
        SystemClock::new(self.rt)
    }
}
