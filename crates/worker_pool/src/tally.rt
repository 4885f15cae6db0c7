//! How many look-ups were made, and what was said of them.

ghost use Rattle.std.specs.Prelude.{◌≡◌};
ghost use Rattle.std.specs.List.{count_by};
ghost use Rattle.munge_types.specs.declared.history.Verdict.TheVariants.{Accepted, Expired, Replayed};
ghost use Rattle.decode_rules.specs.VerdictRules.{verdict_rule};
ghost use Rattle.worker_pool.specs.Pool.{Tallies};
ghost use Rattle.worker_pool.specs.Tally.{tells, tells_look_up};
ghost use Rattle.worker_pool.specs.Tallying.{CountedBoth, CountedOne, more_counted};

use crate::job::Done;
use munge_types::Verdict;
use session_core::Served;

/// The look-ups of a history, and those of each verdict.
#[derive(Clone, Copy, Debug, PartialEq, Eq)]
pub struct Tally {
    /// All look-ups.
    pub presented: u64,
    /// Those of pairs that were accepted.
    pub accepted: u64,
    /// Those of pairs that had been accepted before.
    pub replayed: u64,
    /// Those of pairs that had expired.
    pub expired: u64,
}

impl Tally {
    /// Nothing was counted.
    pub(crate) fn none() -> Tally
        ensures { result ≡ record { presented = 0; accepted = 0; replayed = 0; expired = 0 } }
    {
        Tally {
            presented: 0,
            accepted: 0,
            replayed: 0,
            expired: 0,
        }
    }

    /// With what is told of one connection more. A count stands still at 2^64 - 1.
    pub(crate) fn with(self, served: &Served) -> Tally
        ensures { CountedOne served.now.place served.now.rule self result }
    {
        Tally {
            presented: more_if(looked_up(served), self.presented),
            accepted: more_if(was_told(served, Verdict::Accepted), self.accepted),
            replayed: more_if(was_told(served, Verdict::Replayed), self.replayed),
            expired: more_if(was_told(served, Verdict::Expired), self.expired),
        }
    }

    /// What both counted. A count stands still at 2^64 - 1.
    pub(crate) fn and(self, other: Tally) -> Tally
        ensures { CountedBoth self other result }
    {
        Tally {
            presented: self.presented.saturating_add(other.presented),
            accepted: self.accepted.saturating_add(other.accepted),
            replayed: self.replayed.saturating_add(other.replayed),
            expired: self.expired.saturating_add(other.expired),
        }
    }
}

/// One more where it is so.
fn more_if(so: bool, count: u64) -> u64
    ensures { result ≡ more_counted so count }
{
    if so { count.saturating_add(1) } else { count }
}

/// The decode rule that a look-up with this verdict comes to.
fn rule_of(said: Verdict) -> u8
    ensures { result ≡ verdict_rule said }
{
    match said {
        Verdict::Accepted => 0,
        Verdict::Expired => 13,
        Verdict::Replayed => 14,
    }
}

/// Whether its entry is a look-up.
fn looked_up(served: &Served) -> bool
    ensures { result ≡ tells_look_up served.now.place served.now.rule }
{
    match (served.place, served.rule) {
        (Some(_), Some(_)) => true,
        _ => false,
    }
}

/// Whether its entry is a look-up with this verdict.
fn was_told(served: &Served, said: Verdict) -> bool
    ensures { result ≡ tells said served.now.place served.now.rule }
{
    match (served.place, served.rule) {
        (Some(_), Some(rule)) => rule == rule_of(said),
        _ => false,
    }
}

/// How many of the jobs looked a pair up that had this verdict.
fn count<L: Drop, C: Drop>(done: &[Done<L, C>], said: Verdict) -> u64
    ensures { result ≡ count_by (λ d. tells said d.served.place d.served.rule) done.now }
{
    done.iter().filter(|d| was_told(&d.served, said)).count() as u64
}

/// How many of the jobs looked a pair up.
fn count_look_ups<L: Drop, C: Drop>(done: &[Done<L, C>]) -> u64
    ensures { result ≡ count_by (λ d. tells_look_up d.served.place d.served.rule) done.now }
{
    done.iter().filter(|d| looked_up(&d.served)).count() as u64
}

/// Counts what is told of the jobs.
pub(crate) fn count_all<L: Drop, C: Drop>(done: &[Done<L, C>]) -> Tally
    ensures { Tallies done.now result }
{
    Tally {
        presented: count_look_ups(done),
        accepted: count(done, Verdict::Accepted),
        replayed: count(done, Verdict::Replayed),
        expired: count(done, Verdict::Expired),
    }
}
