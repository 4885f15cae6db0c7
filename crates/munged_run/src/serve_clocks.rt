//! The clocks and the books of a daemon's workers.

ghost use Rattle.std.specs.Prelude.{◌≡◌, [], IfOk, length};
ghost use Rattle.std.specs.List.{All};
ghost use Rattle.munged_run.specs.ServeClocks.{ClocksTaken};
ghost use Rattle.worker_pool.specs.Books.{Holds};
ghost use Rattle.worker_pool.specs.Purging.{clock_sight};

use byte_io::Clocks;
use munge_types::NoMemory;
use std::alloc::Global;
use worker_pool::Books;

/// Takes so many clocks, in order.
pub fn take_clocks<C: Clocks>(
    alloc: Global,
    clocks: &mut C,
    count: usize,
) -> Result<Vec<C::One>, NoMemory>
where
    C::One: Drop,
    ensures taken { IfOk result (λ taken. ClocksTaken
        (clock_sight C.One.readings C.One.last_reading C.One.given C.One.clock_faults)
        taken.items (C.clocks clocks.old) (C.clocks clocks.new)) }
    ensures count { IfOk result (λ taken. length taken.items ≡ count) }
{
    let mut taken = Vec::with_capacity(alloc, count)?;
    'clocks: for _ in 0..count {
        taken.push_reserved(clocks.one());
    }
    Ok(taken)
}

/// Takes so many books, each of which is empty where it tells.
pub fn take_books<L: Drop, B: Books<L>>(
    alloc: Global,
    books: &mut B,
    count: usize,
) -> Result<Vec<B::One>, NoMemory>
where
    B::One: Drop,
    ensures empty { IfOk result (λ taken. All (λ book. Holds (B.One.kept book) []) taken.items) }
    ensures count { IfOk result (λ taken. length taken.items ≡ count) }
{
    let mut taken = Vec::with_capacity(alloc, count)?;
    'books: for _ in 0..count {
        taken.push_reserved(books.one());
    }
    Ok(taken)
}
