//! Closing a gate.

ghost use Rattle.std.specs.Prelude.{◌≡◌, ◌+◌, ◌≤◌, ◌<◌, length};
ghost use Rattle.std.specs.List.{IsDistinct};
ghost use Rattle.munge_types.specs.History.{accepted};
ghost use Rattle.munge_types.specs.Pair.{pair_eq};
ghost use Rattle.munge_types.specs.StandsFor.{Stands};
ghost use Rattle.replay_gate.specs.Makers.{AreMadeBy};
ghost use Rattle.replay_gate.specs.Worn.{worn_at};

use crate::gate::Gate;
use crate::pass::Pass;
use munge_types::Replay;

/// What a gate leaves.
#[derive(Drop)]
pub struct Closed<R: Replay + Drop> {
    /// The state, which stands for the gate's whole history.
    pub state: R,
    /// How many entries that history has.
    pub length: u64,
}

impl<R: Replay + Drop> Gate<R> {
    /// Closes the gate, with a pass that stands for all of them. What the pass has seen is the whole
    /// history. On a gate made by `new` whose history is shorter than 2^62 entries, no call of its
    /// passes found it worn. It takes no memory.
    pub fn close(self, pass: Pass) -> Closed<R>
        requires gate { pass.gate ≡ self }
        requires whole { pass.share ≡ self.passes }
        ensures length { result.length ≡ length pass.seen }
        ensures stands { Stands (R.remembered result.state) pass.seen }
        ensures made { AreMadeBy pass.numbers pass.seen }
        ensures once { IsDistinct pair_eq (accepted pass.seen) }
        ensures highest { pass.highest ≤ self.start + length pass.seen }
        ensures not_worn { self.start ≡ 0 → length pass.seen < worn_at → pass.highest < worn_at }
    {
        let Pass {
            badge,
            number: _,
            spare: _,
            share: _,
            length,
        } = pass;
        let Gate { table, origin: _ } = self;
        let mut closed = table.close_with(badge.into_seat());
        let state = closed.take(0);
        closed.free();
        Closed { state, length }
    }
}
