//! How a thread calls a replay state that it shares with others: through a gate, or under a mutex.

ghost use Rattle.std.specs.Prelude.{◌≡◌};

use munge_types::{Pair, Replay, Verdict};
use replay_gate::{Gate, Pass};
use replay_table::PlainReplay;
use std::sync::{Mutex, Wait};

/// The replay state that threads share.
pub(crate) type State = PlainReplay;

/// One thread's way to a shared replay state.
pub(crate) trait Caller {
    /// Looks the pair up at the moment, and enters it where it is accepted. None where that was
    /// refused.
    fn admit<W: Wait>(&mut self, rt: &W, pair: &Pair, moment: u32) -> Option<Verdict>;

    /// Raises the floor to the moment, and drops every pair that expires below it.
    fn purge<W: Wait>(&mut self, rt: &W, moment: u32);
}

/// A pass of a gate.
#[derive(Drop)]
pub(crate) struct AtGate<'a> {
    gate: &'a Gate<State>,
    pass: Pass,
    ghost of_gate: { pass.gate ≡ gate.now },
}

impl<'a> AtGate<'a> {
    pub(crate) fn new(gate: &'a Gate<State>, pass: Pass) -> AtGate<'a>
        requires { pass.gate ≡ gate.now }
    {
        AtGate { gate, pass }
    }
}

impl Caller for AtGate<'_> {
    fn admit<W: Wait>(&mut self, rt: &W, pair: &Pair, moment: u32) -> Option<Verdict> {
        match self.gate.admit(rt, &mut self.pass, pair, moment) {
            Ok(admitted) => Some(admitted.verdict),
            Err(_) => None,
        }
    }

    fn purge<W: Wait>(&mut self, rt: &W, moment: u32) {
        let _ = self.gate.purge(rt, &mut self.pass, moment, u32::MAX);
    }
}

/// A reference to a mutex.
#[derive(Drop)]
pub(crate) struct AtMutex<'a> {
    state: &'a Mutex<State>,
}

impl<'a> AtMutex<'a> {
    pub(crate) fn new(state: &'a Mutex<State>) -> AtMutex<'a> {
        AtMutex { state }
    }
}

impl Caller for AtMutex<'_> {
    fn admit<W: Wait>(&mut self, rt: &W, pair: &Pair, moment: u32) -> Option<Verdict> {
        self.state.lock(rt).admit(pair, moment).ok()
    }

    fn purge<W: Wait>(&mut self, rt: &W, moment: u32) {
        self.state.lock(rt).purge(moment, u32::MAX);
    }
}
