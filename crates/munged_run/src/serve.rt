//! The command `serve`.

ghost use Rattle.std.specs.Prelude.{
  ◌≡◌,
  ◌≢◌,
  ◌≤◌,
  None,
  Some,
  IfOk,
  OnErr,
  false,
  length,
  option_map,
};
ghost use Rattle.byte_io.specs.Counts.{Rose};
ghost use Rattle.munged_files.specs.Ending.{
  Ended,
  Says,
  errors_of,
  socket_failed,
};
ghost use Rattle.munged_files.specs.EndingTold.{ending_told};
ghost use Rattle.munged_files.specs.Faults.{FaultOf};
ghost use Rattle.munged_run.specs.Output.{output_of};
ghost use Rattle.munged_run.specs.Serve.{
  HasTotals,
  NamesNoFile,
  SaidSo,
  SaidTotals,
  ServeCame,
  Served,
  ServedAt,
  ServedBy,
  ServedOver,
  after_serving,
  outside_of,
  pool_of,
  times_of,
};
ghost use Rattle.munged_run.specs.ServeDoors.{has_failed as any_failed};
ghost use Rattle.munged_files.specs.Status.{failed_socket, unread_file};
ghost use Rattle.munged_run.specs.Totals.{totals_line};
ghost use Rattle.worker_pool.specs.Accepting.{door_sight};
ghost use Rattle.worker_pool.specs.Cases.{link_sight};
ghost use Rattle.worker_pool.specs.Daemon.{daemon_sight, told_of};
ghost use Rattle.worker_pool.specs.Desks.{desk_sight};
ghost use Rattle.worker_pool.specs.Purging.{clock_sight, ticker_sight};
ghost use Rattle.worker_pool.specs.Work.{IsMade};

use crate::check::OPTIONS_ROOM;
use crate::daemon_end::DaemonEnd;
use crate::kept::Kept;
use crate::serve_clocks::{take_books, take_clocks};
use crate::serve_doors::{has_failed, open_doors};
use crate::serve_files::{Provided, read_world};
use crate::totals::write_totals;
use byte_io::{Clocks, Door, Files, Hall, Sink, Ticker};
use munge_types::{Failed, NoMemory, Replay};
use munged_files::{Ending, end, put, read_file};
use option_file::Options;
use replay_table::ReplayTable;
use std::alloc::Global;
use std::hash::{BuildHasherDefault, FoldHasher};
use std::sync::Wait;
use std::thread::Threads;
use worker_pool::{Books, DaemonPool, Post, Tally, daemon_pool};

/// What is printed as soon as every door is open.
const READY: &str = "ready\n";

/// How the program ends, and what the pool has left, where one served.
#[derive(Drop)]
struct ServeEnd<'a, D: Door + Drop, C: Drop, B: Drop>
where
    D::Conn: Drop,
{
    ending: Ending<'a>,
    served: Option<DaemonPool<D, C, Kept, B>>,
}

impl<'a, D: Door + Drop, C: Drop, B: Drop> ServeEnd<'a, D, C, B>
where
    D::Conn: Drop,
{
    /// The program ends so, and nothing was served.
    fn unserved(ending: Ending<'a>) -> ServeEnd<'a, D, C, B>
        ensures ending { ending_told result.ending ≡ ending_told ending.entry }
        ensures none { result.served ≡ None }
    {
        ServeEnd {
            ending,
            served: None,
        }
    }
}

/// Serves by the option file of that path: reads it and the files that it names, opens a door for
/// each of its sockets, prints `ready`, serves until all doors are over or have failed, and prints
/// the totals. Says how the program ends. Where a file is refused, a door cannot be opened, or
/// `ready` cannot be printed, nothing is served.
pub fn run_serve<F, H, O, E, C, T, B, W>(
    rt: &W,
    alloc: Global,
    config: &str,
    files: &mut F,
    hall: &mut H,
    out: &mut O,
    err: &mut E,
    clocks: &mut C,
    ticker: &mut T,
    books: &mut B,
) -> DaemonEnd<H::Door, C::One, B::One>
where
    F: Files,
    H: Hall,
    H::Door: Drop,
    <H::Door as Door>::Conn: Drop,
    O: Sink,
    E: Sink,
    C: Clocks,
    C::One: Drop,
    T: Ticker,
    B: Books<<H::Door as Door>::Conn>,
    B::One: Drop,
    W: Threads + Wait + Sync,
    ensures came { let desks = desk_sight
        (link_sight H.Door.Conn.left H.Door.Conn.ends H.Door.Conn.taken H.Door.Conn.rings
        H.Door.Conn.read_faults H.Door.Conn.write_faults)
        C.One.readings C.One.last_reading C.One.given C.One.clock_faults B.One.kept in
        let sight = daemon_sight (door_sight H.Door.coming H.Door.door_faults H.Door.is_over) desks
        (clock_sight C.One.readings C.One.last_reading C.One.given C.One.clock_faults)
        (ticker_sight T.due T.tick_faults T.is_over) in
        let output = output_of (errors_of (O.taken out.old) (O.write_faults out.old))
        (errors_of (O.taken out.new) (O.write_faults out.new)) in
        let before = outside_of (H.doors hall.old) (times_of (C.clocks clocks.old) ticker.old) in
        let after = outside_of (H.doors hall.new) (times_of (C.clocks clocks.new) ticker.new) in
        let served = option_map (λ pool. pool_of
        pool.posts.items pool.clocks.items pool.purge_clock pool.books.items pool.left.items
        (told_of pool.purges pool.missed pool.ticker_failed
        pool.worn pool.tally pool.closed.length (⟦<Kept as Replay>⟧.remembered pool.closed.state)))
        result.served in
        Ended (ServeCame sight (F.files files.old) config.now (out.new ≡ out.old) output
        before after served)
        (Says (errors_of (E.taken err.old) (E.write_faults err.old))
        (errors_of (E.taken err.new) (E.write_faults err.new))) result.status }
    ensures totals { let served = option_map (λ pool. pool_of
        pool.posts.items pool.clocks.items pool.purge_clock pool.books.items pool.left.items
        (told_of pool.purges pool.missed pool.ticker_failed
        pool.worn pool.tally pool.closed.length (⟦<Kept as Replay>⟧.remembered pool.closed.state)))
        result.served in
        HasTotals served result.tally result.kept }
    ensures no_answer { result.malformed ≡ false }

    ensures file_fault { result.status ≡ unread_file
        → Rose (F.file_faults files.old) (F.file_faults files.new) }
    ensures files_sound { result.status ≢ unread_file
        → F.file_faults files.new ≡ F.file_faults files.old }
    ensures hall_fault { result.status ≡ failed_socket → result.served ≡ None
        → Rose (H.hall_faults hall.old) (H.hall_faults hall.new) }
    ensures hall_sound { result.status ≢ failed_socket
        → H.hall_faults hall.new ≡ H.hall_faults hall.old }

    ensures files_stay { F.files files.new ≡ F.files files.old }
    ensures left { H.left hall.new ≡ H.left hall.old }
    ensures taken { H.taken hall.new ≡ H.taken hall.old }
    ensures dialled { H.dialled hall.new ≡ H.dialled hall.old }
    ensures replies { H.replies hall.new ≡ H.replies hall.old }
    ensures ends { H.ends hall.new ≡ H.ends hall.old }
    ensures read_faults { H.read_faults hall.new ≡ H.read_faults hall.old }
    ensures write_faults { H.write_faults hall.new ≡ H.write_faults hall.old }
    ensures dial_faults { H.dial_faults hall.new ≡ H.dial_faults hall.old }
{
    let bytes = match read_file(alloc, files, config, OPTIONS_ROOM) {
        Ok(bytes) => bytes,
        Err(ending) => return DaemonEnd::unserved(end(err, ending)),
    };
    match Options::read(alloc, &bytes) {
        Ok(options) => {
            let ended = serve_by(rt, alloc, &options, files, hall, out, clocks, ticker, books);
            let status = end(err, ended.ending);
            end_of(status, ended.served)
        }
        Err(refused) => DaemonEnd::unserved(end(err, Ending::by(&refused))),
    }
}

/// The daemon ends with this status, and this was served.
fn end_of<D, C, B>(status: u8, served: Option<DaemonPool<D, C, Kept, B>>) -> DaemonEnd<D, C, B>
where
    D: Door + Drop,
    D::Conn: Drop,
    C: Drop,
    B: Drop,
    ensures status { result.status ≡ status }
    ensures same { result.served ≡ served }
    ensures totals { let pool = option_map (λ pool. pool_of
        pool.posts.items pool.clocks.items pool.purge_clock pool.books.items pool.left.items
        (told_of pool.purges pool.missed pool.ticker_failed
        pool.worn pool.tally pool.closed.length (⟦<Kept as Replay>⟧.remembered pool.closed.state)))
        served in
        HasTotals pool result.tally result.kept }
    ensures no_answer { result.malformed ≡ false }
{
    match served {
        Some(pool) => DaemonEnd {
            status,
            tally: pool.tally,
            kept: pool.closed.state.kept(),
            served: Some(pool),
            malformed: false,
        },
        None => DaemonEnd::unserved(status),
    }
}

/// Serves by these options.
fn serve_by<'a, F, H, O, C, T, B, W>(
    rt: &W,
    alloc: Global,
    options: &'a Options,
    files: &mut F,
    hall: &mut H,
    out: &mut O,
    clocks: &mut C,
    ticker: &mut T,
    books: &mut B,
) -> ServeEnd<'a, H::Door, C::One, B::One>
where
    F: Files,
    H: Hall,
    H::Door: Drop,
    <H::Door as Door>::Conn: Drop,
    O: Sink,
    C: Clocks,
    C::One: Drop,
    T: Ticker,
    B: Books<<H::Door as Door>::Conn>,
    B::One: Drop,
    W: Threads + Wait + Sync,
    ensures by { let desks = desk_sight
        (link_sight H.Door.Conn.left H.Door.Conn.ends H.Door.Conn.taken H.Door.Conn.rings
        H.Door.Conn.read_faults H.Door.Conn.write_faults)
        C.One.readings C.One.last_reading C.One.given C.One.clock_faults B.One.kept in
        let sight = daemon_sight (door_sight H.Door.coming H.Door.door_faults H.Door.is_over) desks
        (clock_sight C.One.readings C.One.last_reading C.One.given C.One.clock_faults)
        (ticker_sight T.due T.tick_faults T.is_over) in
        let output = output_of (errors_of (O.taken out.old) (O.write_faults out.old))
        (errors_of (O.taken out.new) (O.write_faults out.new)) in
        let before = outside_of (H.doors hall.old) (times_of (C.clocks clocks.old) ticker.old) in
        let after = outside_of (H.doors hall.new) (times_of (C.clocks clocks.new) ticker.new) in
        let served = option_map (λ pool. pool_of
        pool.posts.items pool.clocks.items pool.purge_clock pool.books.items pool.left.items
        (told_of pool.purges pool.missed pool.ticker_failed
        pool.worn pool.tally pool.closed.length (⟦<Kept as Replay>⟧.remembered pool.closed.state)))
        result.served in
        ServedBy sight (F.files files.old) options.now (out.new ≡ out.old) output
        before after served (ending_told result.ending) }
    ensures file_fault { FaultOf (ending_told result.ending)
        (F.file_faults files.old) (F.file_faults files.new) }
    ensures hall_fault { ending_told result.ending ≡ socket_failed → result.served ≡ None
        → Rose (H.hall_faults hall.old) (H.hall_faults hall.new) }
    ensures hall_sound { ending_told result.ending ≢ socket_failed
        → H.hall_faults hall.new ≡ H.hall_faults hall.old }
    ensures files_stay { F.files files.new ≡ F.files files.old }
    ensures left { H.left hall.new ≡ H.left hall.old }
    ensures taken { H.taken hall.new ≡ H.taken hall.old }
    ensures dialled { H.dialled hall.new ≡ H.dialled hall.old }
    ensures replies { H.replies hall.new ≡ H.replies hall.old }
    ensures ends { H.ends hall.new ≡ H.ends hall.old }
    ensures read_faults { H.read_faults hall.new ≡ H.read_faults hall.old }
    ensures write_faults { H.write_faults hall.new ≡ H.write_faults hall.old }
    ensures dial_faults { H.dial_faults hall.new ≡ H.dial_faults hall.old }
{
    match read_world(alloc, options, files) {
        Ok(provided) => serve_over(
            rt, alloc, options, provided, hall, out, clocks, ticker, books,
        ),
        Err(ending) => ServeEnd::unserved(ending),
    }
}

/// Opens the doors, and serves what comes there.
fn serve_over<'a, H, O, C, T, B, W>(
    rt: &W,
    alloc: Global,
    options: &Options,
    provided: Provided,
    hall: &mut H,
    out: &mut O,
    clocks: &mut C,
    ticker: &mut T,
    books: &mut B,
) -> ServeEnd<'a, H::Door, C::One, B::One>
where
    H: Hall,
    H::Door: Drop,
    <H::Door as Door>::Conn: Drop,
    O: Sink,
    C: Clocks,
    C::One: Drop,
    T: Ticker,
    B: Books<<H::Door as Door>::Conn>,
    B::One: Drop,
    W: Threads + Wait + Sync,
    requires workers { (1 ≤ length provided.seeds.items) × (length provided.seeds.items ≤ 64) }
    ensures over { let desks = desk_sight
        (link_sight H.Door.Conn.left H.Door.Conn.ends H.Door.Conn.taken H.Door.Conn.rings
        H.Door.Conn.read_faults H.Door.Conn.write_faults)
        C.One.readings C.One.last_reading C.One.given C.One.clock_faults B.One.kept in
        let sight = daemon_sight (door_sight H.Door.coming H.Door.door_faults H.Door.is_over) desks
        (clock_sight C.One.readings C.One.last_reading C.One.given C.One.clock_faults)
        (ticker_sight T.due T.tick_faults T.is_over) in
        let output = output_of (errors_of (O.taken out.old) (O.write_faults out.old))
        (errors_of (O.taken out.new) (O.write_faults out.new)) in
        let before = outside_of (H.doors hall.old) (times_of (C.clocks clocks.old) ticker.old) in
        let after = outside_of (H.doors hall.new) (times_of (C.clocks clocks.new) ticker.new) in
        let served = option_map (λ pool. pool_of
        pool.posts.items pool.clocks.items pool.purge_clock pool.books.items pool.left.items
        (told_of pool.purges pool.missed pool.ticker_failed
        pool.worn pool.tally pool.closed.length (⟦<Kept as Replay>⟧.remembered pool.closed.state)))
        result.served in
        IsMade provided.world → ServedOver sight options.now provided.world
        provided.seeds.items (out.new ≡ out.old) output before after served
        (ending_told result.ending) }
    ensures hall_fault { ending_told result.ending ≡ socket_failed → result.served ≡ None
        → Rose (H.hall_faults hall.old) (H.hall_faults hall.new) }
    ensures hall_sound { ending_told result.ending ≢ socket_failed
        → H.hall_faults hall.new ≡ H.hall_faults hall.old }
    ensures no_file { NamesNoFile (ending_told result.ending) }
    ensures left { H.left hall.new ≡ H.left hall.old }
    ensures taken { H.taken hall.new ≡ H.taken hall.old }
    ensures dialled { H.dialled hall.new ≡ H.dialled hall.old }
    ensures replies { H.replies hall.new ≡ H.replies hall.old }
    ensures ends { H.ends hall.new ≡ H.ends hall.old }
    ensures read_faults { H.read_faults hall.new ≡ H.read_faults hall.old }
    ensures write_faults { H.write_faults hall.new ≡ H.write_faults hall.old }
    ensures dial_faults { H.dial_faults hall.new ≡ H.dial_faults hall.old }
{
    match open_doors(alloc, options.sockets(), hall) {
        Ok(posts) => serve_at(
            rt,
            alloc,
            options.queue(),
            provided,
            posts,
            out,
            clocks,
            ticker,
            books,
        ),
        Err(ending) => ServeEnd::unserved(ending),
    }
}

/// Prints `ready`, serves the posts, and prints the totals.
fn serve_at<'a, D, O, C, T, B, W>(
    rt: &W,
    alloc: Global,
    queue: u32,
    provided: Provided,
    posts: Vec<Post<D>>,
    out: &mut O,
    clocks: &mut C,
    ticker: &mut T,
    books: &mut B,
) -> ServeEnd<'a, D, C::One, B::One>
where
    D: Door + Drop,
    D::Conn: Drop,
    O: Sink,
    C: Clocks,
    C::One: Drop,
    T: Ticker,
    B: Books<D::Conn>,
    B::One: Drop,
    W: Threads + Wait + Sync,
    requires posts { (1 ≤ length posts.items) × (length posts.items ≤ 64) }
    requires workers { (1 ≤ length provided.seeds.items) × (length provided.seeds.items ≤ 64) }
    requires queue { (1 ≤ queue) × (queue ≤ 1024) }
    ensures at { let desks = desk_sight
        (link_sight D.Conn.left D.Conn.ends D.Conn.taken D.Conn.rings
        D.Conn.read_faults D.Conn.write_faults)
        C.One.readings C.One.last_reading C.One.given C.One.clock_faults B.One.kept in
        let sight = daemon_sight (door_sight D.coming D.door_faults D.is_over) desks
        (clock_sight C.One.readings C.One.last_reading C.One.given C.One.clock_faults)
        (ticker_sight T.due T.tick_faults T.is_over) in
        let output = output_of (errors_of (O.taken out.old) (O.write_faults out.old))
        (errors_of (O.taken out.new) (O.write_faults out.new)) in
        let before = times_of (C.clocks clocks.old) ticker.old in
        let after = times_of (C.clocks clocks.new) ticker.new in
        let served = option_map (λ pool. pool_of
        pool.posts.items pool.clocks.items pool.purge_clock pool.books.items pool.left.items
        (told_of pool.purges pool.missed pool.ticker_failed
        pool.worn pool.tally pool.closed.length (⟦<Kept as Replay>⟧.remembered pool.closed.state)))
        result.served in
        IsMade provided.world → ServedAt sight provided.world provided.seeds.items
        posts.items output before after served (ending_told result.ending) }
    ensures no_fault_alone { ending_told result.ending ≡ socket_failed → result.served ≢ None }
    ensures no_file { NamesNoFile (ending_told result.ending) }
{
    match put(out, READY) {
        Ok(()) => {}
        Err(Failed) => return ServeEnd::unserved(Ending::OutputFailed),
    }
    match serve_posts(rt, alloc, queue, provided, posts, clocks, ticker, books) {
        Ok(pool) => say_totals(out, pool),
        Err(NoMemory) => ServeEnd::unserved(Ending::NoMemory),
    }
}

/// Serves the posts, with a clock and a book for each worker, and the next clock for the purger.
fn serve_posts<D, C, T, B, W>(
    rt: &W,
    alloc: Global,
    queue: u32,
    provided: Provided,
    posts: Vec<Post<D>>,
    clocks: &mut C,
    ticker: &mut T,
    books: &mut B,
) -> Result<DaemonPool<D, C::One, Kept, B::One>, NoMemory>
where
    D: Door + Drop,
    D::Conn: Drop,
    C: Clocks,
    C::One: Drop,
    T: Ticker,
    B: Books<D::Conn>,
    B::One: Drop,
    W: Threads + Wait + Sync,
    requires posts { (1 ≤ length posts.items) × (length posts.items ≤ 64) }
    requires workers { (1 ≤ length provided.seeds.items) × (length provided.seeds.items ≤ 64) }
    requires queue { (1 ≤ queue) × (queue ≤ 1024) }
    ensures served { let desks = desk_sight
        (link_sight D.Conn.left D.Conn.ends D.Conn.taken D.Conn.rings
        D.Conn.read_faults D.Conn.write_faults)
        C.One.readings C.One.last_reading C.One.given C.One.clock_faults B.One.kept in
        let sight = daemon_sight (door_sight D.coming D.door_faults D.is_over) desks
        (clock_sight C.One.readings C.One.last_reading C.One.given C.One.clock_faults)
        (ticker_sight T.due T.tick_faults T.is_over) in
        let before = times_of (C.clocks clocks.old) ticker.old in
        let after = times_of (C.clocks clocks.new) ticker.new in
        IsMade provided.world → IfOk result (λ pool.
        Served sight provided.world provided.seeds.items posts.items before after
        (pool_of
        pool.posts.items pool.clocks.items pool.purge_clock pool.books.items pool.left.items
        (told_of pool.purges pool.missed pool.ticker_failed
        pool.worn pool.tally pool.closed.length
        (⟦<Kept as Replay>⟧.remembered pool.closed.state)))) }
    ensures untouched { OnErr result (ticker.new ≡ ticker.old) }
{
    let Provided { world, seeds } = provided;
    let workers = seeds.len();
    let worker_books = take_books(alloc, books, workers)?;
    let worker_clocks = take_clocks(alloc, clocks, workers)?;
    let purge_clock = clocks.one();
    let hash_state: BuildHasherDefault<FoldHasher> = BuildHasherDefault::new();
    let replay = ReplayTable::new(alloc, hash_state);
    daemon_pool(
        rt,
        alloc,
        posts,
        worker_clocks,
        purge_clock,
        ticker,
        seeds,
        worker_books,
        queue,
        replay,
        &world,
    )
}

/// Prints the totals of what was served, and says how the program ends.
fn say_totals<'a, D, O, C, B>(out: &mut O, pool: DaemonPool<D, C, Kept, B>) -> ServeEnd<'a, D, C, B>
where
    D: Door + Drop,
    D::Conn: Drop,
    O: Sink,
    C: Drop,
    B: Drop,
    ensures same { result.served ≡ Some pool }
    ensures said { let output = output_of (errors_of (O.taken out.old) (O.write_faults out.old))
        (errors_of (O.taken out.new) (O.write_faults out.new)) in
        SaidTotals (any_failed pool.posts.items) pool.ticker_failed pool.worn
        (totals_line pool.tally (length (⟦<Kept as Replay>⟧.remembered pool.closed.state).pairs))
        output (ending_told result.ending) }
{
    let printed = print_totals(out, pool.tally, pool.closed.state.kept());
    let ending = end_after(
        has_failed(&pool.posts),
        pool.ticker_failed,
        pool.worn,
        printed,
    );
    ServeEnd {
        ending,
        served: Some(pool),
    }
}

/// Prints the totals, and says whether they were printed.
fn print_totals<O: Sink>(out: &mut O, tally: Tally, kept: u64) -> bool
    ensures { let output = output_of (errors_of (O.taken out.old) (O.write_faults out.old))
        (errors_of (O.taken out.new) (O.write_faults out.new)) in
        SaidSo result output (totals_line tally kept) }
{
    match write_totals(out, tally, kept) {
        Ok(()) => true,
        Err(Failed) => false,
    }
}

/// How the program ends once the doors were served.
fn end_after(
    door_failed: bool,
    ticker_failed: bool,
    worn: Option<u64>,
    printed: bool,
) -> Ending<'static>
    ensures { ending_told result ≡ after_serving door_failed ticker_failed worn printed }
{
    if door_failed {
        return Ending::SocketFailed;
    }
    if ticker_failed {
        return Ending::TickerFailed;
    }
    match worn {
        Some(ticket) => Ending::Worn(ticket),
        None if printed => Ending::Done,
        None => Ending::OutputFailed,
    }
}
