//! Pairs that are found by themselves and by their expiry.

ghost use Rattle.std.specs.Prelude.{◌≡◌, ◌≤◌, [], OnOk, OnErr, length, drop, false};
ghost use Rattle.std.specs.List.{list_any};
ghost use Rattle.munge_types.specs.Pair.{pair_eq};
ghost use Rattle.replay_table.specs.Expiries.{HasExpiries};
ghost use Rattle.replay_table.specs.Groups.{pairs_of, AddsPair, IsGrouped};

use crate::macs::Macs;
use munge_types::Pair;
use std::alloc::{AllocError, Global};
use std::collections::{BTreeMap, HashSet};
use std::hash::BuildHasher;
use std::marker::Model;

/// Pairs, none twice: an ordered map from expiry to the MACs of that expiry, and a hashed set of the
/// same pairs. Contracts see the groups of the map.
#[derive(Debug, Drop)]
pub(crate) struct IndexedPairs<S: BuildHasher> {
    alloc: Global,
    by_expiry: BTreeMap<u64, Macs>,
    set: HashSet<Pair, S>,
}

impl<S: BuildHasher> Model for IndexedPairs<S> {
    ghost use Rattle.std.specs.Prelude.{ℕ, List};
    ghost use Rattle.replay_table.specs.IndexedPairs.{HoldTheSame};

    ghost Value = { List (ℕ × List (List ℕ)) };

    ghost view = { λ pairs. pairs.by_expiry.entries };

    ghost invariant = { λ pairs. HoldTheSame pairs.by_expiry.entries pairs.set.keys };
}

impl<S: BuildHasher + Drop> IndexedPairs<S> {
    /// No pairs, and no memory.
    pub(crate) fn new(alloc: Global, hash_state: S) -> IndexedPairs<S>
        ensures { result ≡ [] }
    {
        IndexedPairs {
            alloc,
            by_expiry: BTreeMap::new(alloc),
            set: HashSet::with_hasher(alloc, hash_state),
        }
    }

    /// How many pairs there are.
    pub(crate) fn len(&self) -> usize
        ensures { result ≡ length (pairs_of self.now) }
    {
        self.set.len()
    }

    /// Whether the pair is among them.
    pub(crate) fn contains(&self, pair: &Pair) -> bool
        ensures { result ≡ list_any (pair_eq pair.now) (pairs_of self.now) }
    {
        self.set.contains(pair)
    }

    /// How many distinct expiries are at least `from` and below `to`.
    pub(crate) fn expiries_between(&self, from: u64, to: u64) -> usize
        requires { from ≤ to }
        ensures grouped { IsGrouped self.now }
        ensures counted { HasExpiries from to result (pairs_of self.now) }
    {
        self.by_expiry.range(from..to).count()
    }

    /// Enters a pair that is not among them. Without memory for it they are as before.
    pub(crate) fn insert(&mut self, pair: &Pair) -> Result<(), AllocError>
        requires { list_any (pair_eq pair.now) (pairs_of self.old) ≡ false }
        ensures inserted { OnOk result (AddsPair self.old self.new pair.now) }
        ensures err { OnErr result (self.new ≡ self.old) }
    {
        // Once the map has the MAC nothing may fail, so the set's room comes first.
        self.set.reserve(1)?;
        put_mac(&mut self.by_expiry, self.alloc, pair)?;
        let _ = self.set.insert(*pair);
        Ok(())
    }

    /// Takes the least expiry out, with its pairs.
    fn drop_least_expiry(&mut self)
        ensures { self.new ≡ drop 1 self.old }
    {
        if let Some((expiry, mut macs)) = self.by_expiry.pop_first() {
            'macs: while let Some(mac) = macs.pop() {
                self.set.remove(&Pair { expiry, mac });
            }
        }
    }

    /// Takes so many of the least expiries out, with their pairs.
    pub(crate) fn drop_least_expiries(&mut self, count: u64)
        ensures { self.new ≡ drop count self.old }
    {
        'expiries: for _ in 0..count {
            self.drop_least_expiry();
        }
    }
}

/// Puts the MAC of the pair to those of its expiry. Without memory for it the map is as before.
fn put_mac(
    by_expiry: &mut BTreeMap<u64, Macs>,
    alloc: Global,
    pair: &Pair,
) -> Result<(), AllocError>
    requires { IsGrouped by_expiry.old.entries }
    ensures grouped { IsGrouped by_expiry.new.entries }
    ensures put { OnOk result (AddsPair by_expiry.old.entries by_expiry.new.entries pair.now) }
    ensures err { OnErr result (by_expiry.new.entries ≡ by_expiry.old.entries) }
{
    if let Some(macs) = by_expiry.get_mut(&pair.expiry) {
        macs.push(&pair.mac)?;
        return Ok(());
    }
    let mut macs = Macs::new(alloc);
    macs.push(&pair.mac)?;
    by_expiry.insert(pair.expiry, macs)?;
    Ok(())
}
