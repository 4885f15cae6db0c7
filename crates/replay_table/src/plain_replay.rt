//! The plain replay structure: one list of pairs, and the program that the clauses of `Replay` read
//! like.

ghost use Rattle.std.specs.Prelude.{◌≡◌, []};
ghost use Rattle.munge_types.specs.StandsFor.{Stands};

use crate::expiries::pass_expiries;
use munge_types::{NoMemory, Pair, Purged, Replay, Verdict};
use std::alloc::Global;

/// A replay structure that keeps its pairs in the order in which they were accepted, and looks
/// through all of them.
#[derive(Debug, Drop)]
pub struct PlainReplay {
    floor: u32,
    pairs: Vec<Pair>,
}

impl PlainReplay {
    /// A structure with floor 0 that keeps nothing. It stands for the empty history. It takes no
    /// memory, and `admit` takes its memory from `alloc`.
    pub fn new(alloc: Global) -> PlainReplay
        ensures floor { (⟦<PlainReplay as Replay>⟧.remembered result).floor ≡ 0 }
        ensures kept { (⟦<PlainReplay as Replay>⟧.remembered result).pairs ≡ [] }
        ensures stands { Stands (⟦<PlainReplay as Replay>⟧.remembered result) [] }
    {
        PlainReplay {
            floor: 0,
            pairs: Vec::new(alloc),
        }
    }
}

impl Replay for PlainReplay {
    ghost remembered = { λ state. record { floor = state.floor; pairs = state.pairs.items } };

    fn admit(&mut self, pair: &Pair, moment: u32) -> Result<Verdict, NoMemory> {
        if pair.expiry < u64::from(moment.max(self.floor)) {
            return Ok(Verdict::Expired);
        }
        if self.pairs.contains(pair) {
            return Ok(Verdict::Replayed);
        }
        self.pairs.push(*pair)?;
        Ok(Verdict::Accepted)
    }

    fn purge(&mut self, moment: u32, slice: u32) -> Purged {
        let floor = moment.max(self.floor);
        let dropped = pass_expiries(&self.pairs, 0, u64::from(floor), u64::from(slice));
        let left = pass_expiries(&self.pairs, dropped.until, u64::from(floor), u64::MAX);
        let before = self.pairs.len();
        self.pairs.retain(|pair| dropped.until <= pair.expiry);
        self.floor = floor;
        Purged {
            dropped: (before - self.pairs.len()) as u64,
            left: left.count,
        }
    }

    fn kept(&self) -> u64 {
        self.pairs.len() as u64
    }

    fn floor(&self) -> u32 {
        self.floor
    }
}
