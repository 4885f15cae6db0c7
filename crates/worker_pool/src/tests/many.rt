//! As many doors as workers, and more connections than the queue has room for.

ghost use Rattle.std.specs.Prelude.{◌≡◌, [], Some, None, IfOk, length};
ghost use Rattle.std.specs.List.{All};
ghost use Rattle.byte_io.specs.MemDoor.{HasNoFault};

use super::daemon::{REQUEST, Served, Turn, counts, post, turns_of};
use super::world_of;
use crate::{MemBook, Post, daemon_pool};
use byte_io::{Door, MemClock, MemLink, MemTicker, Next};
use replay_table::PlainReplay;
use std::alloc::{AllocError, Global};
use std::sync::Wait;
use std::test::Fail;
use std::thread::Threads;

/// A connection with the request, or one that gives nothing.
fn conn(alloc: Global, asks: bool) -> Result<MemLink, AllocError>
    ensures { IfOk result HasNoFault }
{
    let bytes = if asks {
        REQUEST.to_vec(alloc)?
    } else {
        Vec::new(alloc)
    };
    Ok(MemLink::new(alloc, bytes, Vec::new(alloc), Vec::new(alloc)))
}

/// How many doors there are, and how many workers.
const DOORS: u32 = 64;

/// How many connections a door makes.
const CONNS: u32 = 100;

/// One of so many connections of a door has the request, its first one too.
const ASKS: u32 = 20;

/// A door that makes so many connections. It tells nothing of them.
#[derive(Drop)]
struct CountDoor {
    alloc: Global,
    coming: u32,
    faults: u64,
}

impl Door for CountDoor {
    ghost use Rattle.std.proofs.Common.{rules};

    type Conn = MemLink;

    ghost coming = { λ _. None };

    ghost door_faults = { λ s. s.faults };

    ghost is_over = { λ s. s.coming ≡ 0 };

    fn accept(&mut self) -> Next<MemLink> {
        if self.coming == 0 {
            return Next::Over;
        }
        let asks = self.coming % ASKS == 0;
        self.coming -= 1;
        match conn(self.alloc, asks) {
            Ok(conn) => Next::Conn(conn),
            Err(_) => {
                self.faults = self.faults.saturating_add(1);
                Next::Failed
            }
        }
    }

    ghost over_at_none = { Prim.search rules };
}

/// 64 posts with 100 connections each.
fn posts(alloc: Global) -> Result<Vec<Post<CountDoor>>, AllocError>
    ensures { IfOk result (λ posts. length posts.items ≡ 64) }
{
    let mut posts = Vec::with_capacity(alloc, 64)?;
    'posts: for _ in 0..DOORS {
        let door = CountDoor {
            alloc,
            coming: CONNS,
            faults: 0,
        };
        posts.push(post(door))?;
    }
    Ok(posts)
}

/// A clock that gives 1000 for each of the 320 requests.
fn clock(alloc: Global) -> Result<MemClock, AllocError> {
    Ok(MemClock::new(vec![in alloc; 1000; 320]?, Vec::new(alloc)))
}

/// 64 of these clocks.
fn clocks(alloc: Global) -> Result<Vec<MemClock>, AllocError>
    ensures { IfOk result (λ clocks. length clocks.items ≡ 64) }
{
    let mut clocks = Vec::with_capacity(alloc, 64)?;
    'clocks: for _ in 0..DOORS {
        clocks.push(clock(alloc)?)?;
    }
    Ok(clocks)
}

/// 64 empty books.
fn books(alloc: Global) -> Result<Vec<MemBook<MemLink>>, AllocError>
    ensures count { IfOk result (λ books. length books.items ≡ 64) }
    ensures empty { IfOk result (λ books. All (λ book. book ≡ Some []) books.items) }
{
    let mut books = Vec::with_capacity(alloc, 64)?;
    'books: for _ in 0..DOORS {
        books.push(MemBook::new(alloc))?;
    }
    Ok(books)
}

/// Serves those posts by 64 workers, with room for one connection between them.
fn serve_all<W: Threads + Wait + Sync>(rt: &W, alloc: Global) -> Result<Served<CountDoor>, Fail> {
    let world = world_of(&[0; 32])?;
    let mut ticker = MemTicker::new(0, Vec::new(alloc));
    Ok(daemon_pool(
        rt,
        alloc,
        posts(alloc)?,
        clocks(alloc)?,
        clock(alloc)?,
        &mut ticker,
        vec![in alloc; [0; 32]; 64]?,
        books(alloc)?,
        1,
        PlainReplay::new(alloc),
        &world,
    )?)
}

/// The connections of all doors, in order.
fn all_turns(alloc: Global) -> Result<Vec<Turn>, AllocError> {
    let mut turns = Vec::new(alloc);
    for post in 0..DOORS {
        for turn in 0..CONNS {
            let asks = turn % ASKS == 0;
            turns.push((post, u64::from(turn), asks, !asks))?;
        }
    }
    Ok(turns)
}

#[test]
fn many_doors_come_to_one_tally(rt: HostRuntime) -> Result<(), Fail> {
    let alloc = rt.alloc();
    let want = all_turns(alloc)?;
    for run in 0..20 {
        let end = serve_all(&rt, alloc)?;
        assert_eq!(rt; counts(&end.tally), (320, 1, 319, 0), "in run {run}");
        let turns = turns_of(alloc, &end.books)?;
        assert!(rt; turns.as_slice() == want.as_slice(), "in run {run}");
    }
    Ok(())
}
