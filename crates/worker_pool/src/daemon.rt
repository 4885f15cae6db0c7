//! The daemon's pool: an acceptor for each post, workers, and a purger, beside each other.

ghost use Rattle.std.specs.Prelude.{◌≡◌, ◌≤◌, [], IfOk, OnErr, length};
ghost use Rattle.std.specs.List.{All};
ghost use Rattle.munge_types.specs.StandsFor.{Stands};
ghost use Rattle.worker_pool.specs.Accepting.{door_sight};
ghost use Rattle.worker_pool.specs.Books.{Holds};
ghost use Rattle.worker_pool.specs.Cases.{link_sight};
ghost use Rattle.worker_pool.specs.Daemon.{DaemonRan, daemon_sight, given_of, handed_back, told_of};
ghost use Rattle.worker_pool.specs.Desks.{desk_sight};
ghost use Rattle.worker_pool.specs.Purging.{clock_sight, ticker_sight};
ghost use Rattle.worker_pool.specs.Work.{IsMade};

use crate::book::Book;
use crate::crew::{meet_desks, new_desks};
use crate::desk::Shared;
use crate::post::{Post, Waiting, let_out};
use crate::purger::Purger;
use crate::queue::Queue;
use crate::shift::work;
use crate::signal::Signal;
use crate::tally::Tally;
use byte_io::{Clock, Door, Ticker};
use decode_rules::World;
use munge_types::{NoMemory, Replay};
use replay_gate::{Closed, Entry, Gate};
use std::alloc::Global;
use std::sync::Wait;
use std::thread::Threads;

/// What a daemon's pool leaves.
#[derive(Drop)]
pub struct DaemonPool<D: Door + Drop, C: Drop, R: Replay + Drop, B: Drop>
where
    D::Conn: Drop,
{
    /// The posts as they were given, each with its door as it was left.
    pub posts: Vec<Post<D>>,
    /// The workers' clocks, in order.
    pub clocks: Vec<C>,
    /// The purger's clock.
    pub purge_clock: C,
    /// How many purges were made.
    pub purges: u64,
    /// At how many ticks the purger's clock failed, so that none was made.
    pub missed: u64,
    /// The workers' books, in order.
    pub books: Vec<B>,
    /// The connections that nobody served, since the gate was worn.
    pub left: Vec<Waiting<D::Conn>>,
    /// Whether the ticker failed.
    pub ticker_failed: bool,
    /// The ticket of a call that found the gate worn, if one did.
    pub worn: Option<u64>,
    /// The look-ups of the gate's history.
    pub tally: Tally,
    /// The replay state, and how many entries the gate's history has.
    pub closed: Closed<R>,
}

/// Serves the connections of the posts' doors, each for the caller of its post, on one new gate. It
/// returns once each door and the ticker are over or have failed, and the queue is empty or the gate
/// is worn. There are 1 to 64 posts; a worker for each seed, 1 to 64;
/// a clock and a book for each worker, which is empty where it tells; and the state stands for the
/// empty history. Each post has an acceptor, which puts its connections into a queue that holds so
/// many, 1 to 1024. The worker w, counted from 0, has the seed w, serves what it takes from the
/// queue by the clock w, and hands it to the book w. A purger makes a purge at each Due of the
/// ticker, with the moment of its clock. Acceptors, workers and purger have a thread each where one
/// can be made; where none can, they run one after the other, and a daemon does not serve. All
/// memory of its own is taken before the first connection is accepted; `NoMemory` is answered before
/// it, and posts, clocks, books and state are dropped then. After a ticket was found worn all go on,
/// and what the queue then holds at the end is `left`. It waits for its threads.
pub fn daemon_pool<D, C, T, R, B, W>(
    rt: &W,
    alloc: Global,
    posts: Vec<Post<D>>,
    clocks: Vec<C>,
    purge_clock: C,
    ticker: &mut T,
    seeds: Vec<[u8; 32]>,
    books: Vec<B>,
    queue: u32,
    replay: R,
    world: &World,
) -> Result<DaemonPool<D, C, R, B>, NoMemory>
where
    D: Door + Drop,
    D::Conn: Drop,
    C: Clock + Drop,
    T: Ticker,
    R: Replay + Drop,
    B: Book<D::Conn> + Drop,
    W: Threads + Wait + Sync,
    requires posts { (1 ≤ length posts.items) × (length posts.items ≤ 64) }
    requires workers { (1 ≤ length seeds.items) × (length seeds.items ≤ 64) }
    requires clocks { length clocks.items ≡ length seeds.items }
    requires books { length books.items ≡ length seeds.items }
    requires empty_books { All (λ book. Holds (B.kept book) []) books.items }
    requires queue { (1 ≤ queue) × (queue ≤ 1024) }
    requires empty { Stands (R.remembered replay) [] }

    // For a world that is made of some three files, as every one is.
    ensures ran { IsMade world.now → IfOk result (λ end.
        let desks = desk_sight
        (link_sight D.Conn.left D.Conn.ends D.Conn.taken D.Conn.rings
        D.Conn.read_faults D.Conn.write_faults)
        C.readings C.last_reading C.given C.clock_faults B.kept in
        let sight = daemon_sight (door_sight D.coming D.door_faults D.is_over) desks
        (clock_sight C.readings C.last_reading C.given C.clock_faults)
        (ticker_sight T.due T.tick_faults T.is_over) in
        let given = given_of world.now posts.items seeds.items clocks.items purge_clock
        ticker.old in
        let back = handed_back end.posts.items end.clocks.items end.books.items end.purge_clock
        ticker.new in
        let told = told_of end.purges end.missed end.ticker_failed end.worn end.tally
        end.closed.length (R.remembered end.closed.state) in
        DaemonRan sight given back end.left.items told) }
    // Where there is no memory, nothing was begun.
    ensures untouched { OnErr result (ticker.new ≡ ticker.old) }
{
    let workers = seeds.len();
    let mut ended_posts = Vec::with_capacity(alloc, posts.len())?;
    let mut ended_desks = Vec::with_capacity(alloc, workers)?;
    let mut rest = Vec::with_capacity(alloc, queue as usize)?;
    let mut left = Vec::with_capacity(alloc, queue as usize)?;
    let mut ended_clocks = Vec::with_capacity(alloc, workers)?;
    let mut ended_books = Vec::with_capacity(alloc, workers)?;
    let signal = Signal::new(posts.len() as u32);
    let (line, hand) = Queue::ruled(alloc, queue as usize)?;
    let Entry { gate, pass } = Gate::new(alloc, replay, workers as u32 + 1)?;
    let mut home = pass;
    let desks = new_desks(alloc, &gate, &mut home, clocks, seeds, books)?;
    let mut purger = Purger {
        pass: home,
        clock: purge_clock,
        purges: 0,
        missed: 0,
        worn: None,
        failed: false,
    };
    let shared = Shared {
        gate: &gate,
        queue: &line,
        signal: &signal,
        world,
    };
    work(
        rt,
        alloc,
        &shared,
        &mut purger,
        ticker,
        hand,
        posts,
        desks,
        &mut ended_posts,
        &mut ended_desks,
        &mut rest,
    )?;
    let Purger {
        pass,
        clock: purge_clock,
        purges,
        missed,
        mut worn,
        failed: ticker_failed,
    } = purger;
    let mut tally = Tally::none();
    let all = meet_desks(
        &gate,
        pass,
        ended_desks,
        &mut ended_clocks,
        &mut ended_books,
        &mut tally,
        &mut worn,
    );
    let closed = gate.close(all);
    let_out(rest, &mut left);
    Ok(DaemonPool {
        posts: ended_posts,
        clocks: ended_clocks,
        purge_clock,
        purges,
        missed,
        books: ended_books,
        left,
        ticker_failed,
        worn,
        tally,
        closed,
    })
}
