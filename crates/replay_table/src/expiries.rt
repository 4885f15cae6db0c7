//! Walks over the distinct expiries of pairs, the least first.

ghost use Rattle.std.specs.Prelude.{◌≡◌, ◌<◌, ◌≤◌, min, nat_le, map, filter, fold};
ghost use Rattle.replay_table.specs.Expiries.{HasExpiries};

use munge_types::Pair;

/// How far a walk came.
#[derive(Clone, Copy, Debug, PartialEq, Eq)]
pub(crate) struct Passed {
    /// It passed the expiries below this one.
    pub(crate) until: u64,
    /// How many distinct expiries it passed.
    pub(crate) count: u64,
}

/// Passes the distinct expiries of the pairs that are at least `from` and below `bound`, the least
/// first, and at most so many of them.
pub(crate) fn pass_expiries(pairs: &[Pair], from: u64, bound: u64, most: u64) -> Passed
    requires { from ≤ bound }
    ensures from { from ≤ result.until }
    ensures bound { result.until ≤ bound }
    ensures counted { HasExpiries from result.until result.count pairs.now }
    ensures most { result.count ≤ most }
    ensures all { result.count < most → HasExpiries result.until bound 0 pairs.now }
    ensures few { result.count ≤ bound }
{
    let mut until = from;
    'expiries: for count in 0..most {
        let expiry = next_expiry(pairs, until, bound);
        if expiry == bound {
            return Passed { until, count };
        }
        until = expiry + 1;
    }
    Passed { until, count: most }
}

/// The least expiry of the pairs that is at least `from` and below `bound`, and `bound` where there
/// is none.
fn next_expiry(pairs: &[Pair], from: u64, bound: u64) -> u64
    ensures { result ≡ fold min bound (filter (nat_le from) (map (λ pair. pair.expiry) pairs.now)) }
{
    pairs
        .iter()
        .map(|pair| pair.expiry)
        .filter(|expiry| from <= *expiry)
        .fold(bound, |least, expiry| least.min(expiry))
}
