//! A daemon whose purge comes once both connections were served.

ghost use Rattle.std.specs.Prelude.{◌≡◌, None, true};
ghost use Rattle.worker_pool.specs.Books.{Appended};

use super::serve::hall_of_two;
use super::serving::{Given, USUAL, Wanted, serve};
use byte_io::{Tick, Ticker};
use std::sync::atomic::{AtomicU64, Ordering};
use std::test::Fail;
use std::thread;
use worker_pool::{Book, Books, Handled};

/// How often the count is looked at.
const TURNS: u32 = 1_000_000;

/// It raises a count that all books share at each connection that it takes, and drops it. It tells
/// nothing.
#[derive(Drop)]
struct CountBook<'a> {
    count: &'a AtomicU64,
}

impl<'a, L: Drop> Book<L> for CountBook<'a> {
    ghost use Rattle.std.specs.Prelude.{None};

    ghost kept = { λ s. None };

    fn keep(&mut self, handled: Handled<L>)
        ensures appended { Appended None handled None }
    {
        drop(handled);
        self.count.fetch_add(1, Ordering::SeqCst);
    }
}

/// It hands out books with one count.
#[derive(Drop)]
struct CountBooks<'a> {
    count: &'a AtomicU64,
}

impl<'a, L: Drop> Books<L> for CountBooks<'a> {
    type One = CountBook<'a>;

    fn one(&mut self) -> CountBook<'a> {
        CountBook { count: self.count }
    }
}

/// It is due once the count is 2, and is then over. It fails where the count does not come to that
/// while it is looked at a million times, with a yield after each. It tells nothing.
#[derive(Drop)]
struct CountTicker<'a> {
    count: &'a AtomicU64,
    over: bool,
    faults: u64,
}

/// Whether the count came to 2.
fn comes_to_two(count: &AtomicU64) -> bool {
    for _ in 0..TURNS {
        if count.load(Ordering::SeqCst) == 2 {
            return true;
        }
        thread::yield_now();
    }
    false
}

impl<'a> Ticker for CountTicker<'a> {
    ghost use Rattle.std.proofs.Common.{rules};

    ghost due = { λ _. None };

    ghost tick_faults = { λ s. s.faults };

    ghost is_over = { λ s. s.over ≡ true };

    fn next(&mut self) -> Tick {
        if self.over {
            return Tick::Stop;
        }
        if comes_to_two(self.count) {
            self.over = true;
            return Tick::Due;
        }
        self.faults = self.faults.saturating_add(1);
        Tick::Failed
    }

    ghost over_at_none = { Prim.search rules };
}

#[test]
fn purge_once_both_were_served(rt: HostRuntime) -> Result<(), Fail> {
    let count = AtomicU64::new(0);
    let mut books = CountBooks { count: &count };
    let mut ticker = CountTicker {
        count: &count,
        over: false,
        faults: 0,
    };
    let given = Given {
        purge_moment: 1301,
        ..USUAL
    };
    let wanted = Wanted {
        status: 0,
        printed: "ready\npresented 2 accepted 1 replayed 1 expired 0 kept 0\n",
        said: "",
    };
    let mut hall = hall_of_two(rt.alloc())?;
    serve(
        &rt,
        rt.alloc(),
        &given,
        &mut hall,
        &mut ticker,
        &mut books,
        &wanted,
    )?;
    Ok(())
}
