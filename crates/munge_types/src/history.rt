//! What happens to a replay state, in order, and what it answers.

use crate::Pair;

/// What a look-up in the replay state says of a pair.
#[derive(Clone, Copy, Debug, PartialEq, Eq)]
pub enum Verdict {
    /// The pair was not accepted before. It is now.
    Accepted,
    /// The pair's expiry has passed.
    Expired,
    /// The pair was accepted before.
    Replayed,
}

/// One event of a history, made by the pass of that number. A history is a list of events, the
/// latest last.
#[derive(Clone, Copy, Debug, PartialEq, Eq)]
pub enum Event {
    /// A look-up of the pair at this moment, and its entry where it is accepted.
    Admit { pass: u32, pair: Pair, moment: u32 },
    /// Pairs that expired before this moment may be forgotten.
    Purge { pass: u32, moment: u32 },
    /// Nothing happened: a look-up found no memory.
    Idle { pass: u32 },
}
