//! A pool whose ticker waits until both connections of its door are kept.

ghost use Rattle.std.specs.Prelude.{◌≡◌, None};
ghost use Rattle.worker_pool.specs.Books.{Appended};

use super::daemon::{counts, link, post, serve_ticked};
use crate::{Book, Handled};
use byte_io::{MemDoor, Tick, Ticker};
use munge_types::Replay;
use std::alloc::Global;
use std::sync::Wait;
use std::sync::atomic::{AtomicU32, Ordering};
use std::test::Fail;
use std::thread::{self, Threads};

/// How often the count is looked at.
const TURNS: u32 = 1_000_000;

/// A book that raises a shared count at each connection, and drops it. It tells nothing.
#[derive(Drop)]
struct CountBook<'a> {
    count: &'a AtomicU32,
}

impl<'a, L: Drop> Book<L> for CountBook<'a> {
    ghost use Rattle.std.specs.Prelude.{None};

    ghost kept = { λ _. None };

    fn keep(&mut self, handled: Handled<L>)
        ensures appended { Appended None handled None }
    {
        drop(handled);
        self.count.fetch_add(1, Ordering::SeqCst);
    }
}

/// Whether the count came to two, which is looked at a million times, with a yield after each.
fn comes_to_two(count: &AtomicU32) -> bool {
    for _ in 0..TURNS {
        if count.load(Ordering::SeqCst) == 2 {
            return true;
        }
        thread::yield_now();
    }
    false
}

/// A ticker that gives one Due once the count is two, and is then over. It fails where the count
/// does not come to that. It tells nothing of its answers.
#[derive(Drop)]
struct CountTicker<'a> {
    count: &'a AtomicU32,
    is_over: bool,
    faults: u64,
}

impl<'a> Ticker for CountTicker<'a> {
    ghost use Rattle.std.proofs.Common.{rules};
    ghost use Rattle.std.specs.Prelude.{true};

    ghost due = { λ _. None };

    ghost tick_faults = { λ s. s.faults };

    ghost is_over = { λ s. s.is_over ≡ true };

    fn next(&mut self) -> Tick {
        if self.is_over {
            return Tick::Stop;
        }
        if comes_to_two(self.count) {
            self.is_over = true;
            return Tick::Due;
        }
        self.faults = self.faults.saturating_add(1);
        Tick::Failed
    }

    ghost over_at_none = { Prim.search rules };
}

/// What a purge left.
#[derive(Drop, Debug, PartialEq, Eq)]
struct Purged {
    /// Look-ups, those accepted, replayed and expired.
    counts: (u64, u64, u64, u64),
    /// How many purges were made.
    purges: u64,
    /// How many entries the gate's history has.
    length: u64,
    /// How many pairs are kept.
    kept: u64,
}

/// Two connections with one text that is good until 1300, and a purge at this moment once both are
/// kept.
fn purge_at<W: Threads + Wait + Sync>(rt: &W, alloc: Global, moment: u32) -> Result<Purged, Fail> {
    let count = AtomicU32::new(0);
    let mut ticker = CountTicker {
        count: &count,
        is_over: false,
        faults: 0,
    };
    let door = MemDoor::new(vec![in alloc; link(alloc)?, link(alloc)?]?, Vec::new(alloc));
    let posts = vec![in alloc; post(door)]?;
    let books = vec![in alloc; CountBook { count: &count }, CountBook { count: &count }]?;
    let end = serve_ticked(rt, alloc, posts, moment, &mut ticker, books)?;
    Ok(Purged {
        counts: counts(&end.tally),
        purges: end.purges,
        length: end.closed.length,
        kept: end.closed.state.kept(),
    })
}

#[test]
fn a_purge_drops_what_has_expired(rt: HostRuntime) -> Result<(), Fail> {
    for (moment, kept) in [(1300, 1), (1301, 0)] {
        let want = Purged {
            counts: (2, 1, 1, 0),
            purges: 1,
            length: 3,
            kept,
        };
        assert_eq!(rt; purge_at(&rt, rt.alloc(), moment)?, want, "at {moment}");
    }
    Ok(())
}
