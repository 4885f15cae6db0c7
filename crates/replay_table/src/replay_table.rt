//! The purged table: a replay structure for many pairs.

ghost use Rattle.std.specs.Prelude.{◌≡◌, []};
ghost use Rattle.munge_types.specs.StandsFor.{Stands};
ghost use Rattle.replay_table.specs.Groups.{expiries_under, pairs_of};

use crate::indexed_pairs::IndexedPairs;
use munge_types::{NoMemory, Pair, Purged, Replay, Verdict};
use std::alloc::Global;
use std::hash::BuildHasher;

/// A replay structure that keeps its pairs in a hashed set, and by their expiry. A look-up does not
/// go through them, and a purge costs time in the pairs that it drops and in the expiries that the
/// floor passes for the first time.
#[derive(Debug, Drop)]
pub struct ReplayTable<S: BuildHasher> {
    floor: u32,
    below: u64,
    pairs: IndexedPairs<S>,
    ghost counted: { below ≡ expiries_under floor pairs },
}

impl<S: BuildHasher + Drop + Send> ReplayTable<S> {
    /// A table with floor 0 that keeps nothing, over a hash state of std. It stands for the empty
    /// history. It takes no memory, and `admit` takes its memory from `alloc`.
    pub fn new(alloc: Global, hash_state: S) -> ReplayTable<S>
        ensures floor { (⟦<ReplayTable<S> as Replay>⟧.remembered result).floor ≡ 0 }
        ensures kept { (⟦<ReplayTable<S> as Replay>⟧.remembered result).pairs ≡ [] }
        ensures stands { Stands (⟦<ReplayTable<S> as Replay>⟧.remembered result) [] }
    {
        ReplayTable {
            floor: 0,
            below: 0,
            pairs: IndexedPairs::new(alloc, hash_state),
        }
    }
}

impl<S: BuildHasher + Drop + Send> Replay for ReplayTable<S> {
    ghost remembered = { λ state. record { floor = state.floor; pairs = pairs_of state.pairs } };

    fn admit(&mut self, pair: &Pair, moment: u32) -> Result<Verdict, NoMemory> {
        if pair.expiry < u64::from(moment.max(self.floor)) {
            return Ok(Verdict::Expired);
        }
        if self.pairs.contains(pair) {
            return Ok(Verdict::Replayed);
        }
        self.pairs.insert(pair)?;
        Ok(Verdict::Accepted)
    }

    fn purge(&mut self, moment: u32, slice: u32) -> Purged {
        let floor = moment.max(self.floor);
        let passed = self
            .pairs
            .expiries_between(u64::from(self.floor), u64::from(floor));
        let below = self.below + passed as u64;
        let count = below.min(u64::from(slice));
        let before = self.pairs.len();
        self.pairs.drop_least_expiries(count);
        self.floor = floor;
        self.below = below - count;
        Purged {
            dropped: (before - self.pairs.len()) as u64,
            left: self.below,
        }
    }

    fn kept(&self) -> u64 {
        self.pairs.len() as u64
    }

    fn floor(&self) -> u32 {
        self.floor
    }
}
