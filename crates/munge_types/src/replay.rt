//! What every replay structure promises.

ghost use Rattle.std.specs.Prelude.{◌≡◌, ℕ, max, min, ◌+◌, ◌++◌, ◌∷◌, [], List, filter, length, IfOk, OnOk, OnErr};
ghost use Rattle.std.specs.List.Sorted.{IsPermutation};
ghost use Rattle.munge_types.specs.History.{verdict, with_accepted};
ghost use Rattle.munge_types.specs.Live.{is_live, live};
ghost use Rattle.munge_types.specs.Purge.{expiries_below, purged};
ghost use Rattle.munge_types.specs.StandsFor.{Remembered, Stands};
ghost use Rattle.munge_types.specs.declared.history.Event.{Event};
ghost use Rattle.munge_types.specs.declared.history.Event.TheVariants.{Admit, Purge};
ghost use Rattle.munge_types.specs.declared.history.Verdict.TheVariants.{Accepted};
ghost use Rattle.munge_types.specs.declared.pair.Pair.{Pair};

use crate::{NoMemory, Pair, Verdict};

/// What a purge did.
#[derive(Clone, Copy, Debug, PartialEq, Eq)]
pub struct Purged {
    /// How many pairs were dropped.
    pub dropped: u64,
    /// How many distinct expiries below the floor are still kept.
    pub left: u64,
}

/// A structure that remembers which pairs were accepted. It may forget those whose expiry is below
/// its floor, and answers as if it had kept them all.
///
/// Contracts see what a state remembers, its floor and the pairs that it keeps, and say of it that it
/// stands for a history: for every history that it stood for before a call, it stands afterwards for
/// that history and the call's event, with whatever pass number.
pub trait Replay: Send {
    ghost remembered: { Self → Remembered };

    /// Looks the pair up at a moment, in seconds since 1970, and enters it where it is accepted.
    /// Memory is taken only then, and where there is none the state is as before.
    fn admit(&mut self, pair: &Pair, moment: u32) -> Result<Verdict, NoMemory>
        ensures verdict { IfOk result (λ said. (history : List Event)
            → Stands (remembered self.old) history → said ≡ verdict history pair.now moment) }
        ensures stands { OnOk result ((history : List Event) (pass : ℕ)
            → Stands (remembered self.old) history
            → Stands (remembered self.new) (history ++ Admit pass pair.now moment ∷ [])) }
        ensures kept { IfOk result (λ said. IsPermutation
            (with_accepted said (remembered self.old).pairs pair.now) (remembered self.new).pairs) }
        ensures wanted { OnErr result ((history : List Event) → Stands (remembered self.old) history
            → verdict history pair.now moment ≡ Accepted) }
        ensures same_floor { (remembered self.new).floor ≡ (remembered self.old).floor }
        ensures same { OnErr result (remembered self.new ≡ remembered self.old) };

    /// Raises the floor to the moment, where it is lower, and drops the pairs of the `slice` least
    /// expiries below the new floor, of all where there are no more. It takes no memory. A slice of
    /// `u32::MAX` bounds nothing.
    fn purge(&mut self, moment: u32, slice: u32) -> Purged
        ensures floor { (remembered self.new).floor ≡ max moment (remembered self.old).floor }
        ensures kept { IsPermutation
            (purged (remembered self.new).floor slice (remembered self.old).pairs)
            (remembered self.new).pairs }
        ensures dropped { let before = length (remembered self.old).pairs in
            result.dropped + length (remembered self.new).pairs ≡ before }
        ensures left { let floor = (remembered self.new).floor in
            let below = expiries_below floor (remembered self.old).pairs in
            result.left + min below slice ≡ below }
        ensures whole { slice ≡ u32.MAX → result.left ≡ 0 }
        ensures only_live { result.left ≡ 0 → IsPermutation
            (filter (is_live (remembered self.new).floor) (remembered self.old).pairs)
            (remembered self.new).pairs }

        ensures stands { (history : List Event) (pass : ℕ) → Stands (remembered self.old) history
            → Stands (remembered self.new) (history ++ Purge pass moment ∷ []) }
        ensures live { result.left ≡ 0 → (history : List Event) (pass : ℕ)
            → Stands (remembered self.old) history
            → length (remembered self.new).pairs ≡ live (history ++ Purge pass moment ∷ []) };

    /// How many pairs are kept.
    fn kept(&self) -> u64
        ensures { result ≡ length (remembered self.now).pairs };

    /// The greatest moment of the purges so far, and 0 before the first.
    fn floor(&self) -> u32
        ensures { result ≡ (remembered self.now).floor };
}
