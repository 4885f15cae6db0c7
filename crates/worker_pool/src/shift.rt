//! A daemon's threads at work, from the passes of the queue to what is left in it.

ghost use Rattle.std.specs.Prelude.{
  ◌≡◌,
  ◌+◌,
  ◌<◌,
  ◌≤◌,
  [],
  OnErr,
  OnOk,
  flat_map,
  length,
  map,
  reverse,
  vec_capacity,
  vec_len,
};
ghost use Rattle.std.specs.List.{All};
ghost use Rattle.crossbeam_queue.specs.Passes.{IsPassOf, ruled_capacity, view};
ghost use Rattle.worker_pool.specs.Accepting.{EachAccepted, HasAccepted, door_sight};
ghost use Rattle.worker_pool.specs.Cases.{link_sight};
ghost use Rattle.worker_pool.specs.Closing.{ClosesUp, HasEnded, HasEndedSeat, WorkedAll};
ghost use Rattle.worker_pool.specs.Desks.{IsNewDesk, desk_sight};
ghost use Rattle.worker_pool.specs.Holders.{HasParts, IsNewLedger, put_by};
ghost use Rattle.worker_pool.specs.Purging.{HasTicked, IsNewPurger, clock_sight, ticker_sight};
ghost use Rattle.worker_pool.specs.Queue.{ledger, whole};
ghost use Rattle.worker_pool.specs.Seats.{EachServed, HasServedSeat, IsNewSeat};

use crate::acceptor::accept_all;
use crate::beside::purge_accept_and_serve;
use crate::book::Book;
use crate::desk::{Desk, Shared, serve_queue};
use crate::drain::drain;
use crate::holders::{Holder, gather, spread};
use crate::post::{Post, Queued};
use crate::purger::Purger;
use crate::queue::QueuePass;
use byte_io::{Clock, Door, Ticker};
use munge_types::{NoMemory, Replay};
use std::alloc::Global;
use std::sync::Wait;
use std::thread::Threads;

/// Lets acceptors, workers and the purger work beside each other, each in a thread.
fn run<D, C, T, R, B, W>(
    rt: &W,
    alloc: Global,
    shared: &Shared<'_, D::Conn, R>,
    purger: &mut Purger<C>,
    ticker: &mut T,
    posts: &mut [Holder<Queued<D::Conn>, Post<D>>],
    desks: &mut [Holder<Queued<D::Conn>, Desk<C, B>>],
)
where
    D: Door + Drop,
    D::Conn: Drop,
    C: Clock + Drop,
    T: Ticker,
    R: Replay + Drop,
    B: Book<D::Conn> + Drop,
    W: Threads + Wait + Sync,
    requires purger { IsNewPurger shared.now.gate.now purger.old }
    requires posts { All (IsNewLedger shared.now.queue.now) posts.old }
    requires desks { let sight = desk_sight
        (link_sight D.Conn.left D.Conn.ends D.Conn.taken D.Conn.rings
        D.Conn.read_faults D.Conn.write_faults)
        C.readings C.last_reading C.given C.clock_faults B.kept in
        All (IsNewSeat sight shared.now.gate.now shared.now.queue.now) desks.old }
    ensures purger { HasTicked
        (clock_sight C.readings C.last_reading C.given C.clock_faults)
        (ticker_sight T.due T.tick_faults T.is_over)
        shared.now.gate.now purger.old purger.new ticker.old ticker.new }
    ensures posts { EachAccepted (door_sight D.coming D.door_faults D.is_over)
        shared.now.queue.now posts.old posts.new }
    ensures desks { let sight = desk_sight
        (link_sight D.Conn.left D.Conn.ends D.Conn.taken D.Conn.rings
        D.Conn.read_faults D.Conn.write_faults)
        C.readings C.last_reading C.given C.clock_faults B.kept in
        EachServed sight shared.now.world.now shared.now.queue.now desks.old desks.new }
{
    purge_accept_and_serve(
        rt,
        shared.gate,
        purger,
        ticker,
        posts,
        &|_, post: &mut Holder<Queued<D::Conn>, Post<D>>|
            requires { IsNewLedger shared.now.queue.now post.old }
            ensures { HasAccepted (door_sight D.coming D.door_faults D.is_over)
                shared.entry.now.queue.now post.old post.new }
        { accept_all(rt, shared.queue, shared.signal, post) },
        desks,
        &|_, desk: &mut Holder<Queued<D::Conn>, Desk<C, B>>|
            requires { let sight = desk_sight
                (link_sight D.Conn.left D.Conn.ends D.Conn.taken D.Conn.rings
                D.Conn.read_faults D.Conn.write_faults)
                C.readings C.last_reading C.given C.clock_faults B.kept in
                IsNewSeat sight shared.now.gate.now shared.now.queue.now desk.old }
            ensures { let sight = desk_sight
                (link_sight D.Conn.left D.Conn.ends D.Conn.taken D.Conn.rings
                D.Conn.read_faults D.Conn.write_faults)
                C.readings C.last_reading C.given C.clock_faults B.kept in
                HasServedSeat sight shared.entry.now.world.now shared.entry.now.queue.now
                desk.old desk.new }
        { serve_queue(rt, alloc, shared, desk) },
    );
}

/// The same, of lists that it hands on.
fn run_all<D, C, T, R, B, W>(
    rt: &W,
    alloc: Global,
    shared: &Shared<'_, D::Conn, R>,
    purger: &mut Purger<C>,
    ticker: &mut T,
    mut posts: Vec<Holder<Queued<D::Conn>, Post<D>>>,
    mut desks: Vec<Holder<Queued<D::Conn>, Desk<C, B>>>,
) -> (
    Vec<Holder<Queued<D::Conn>, Post<D>>>,
    Vec<Holder<Queued<D::Conn>, Desk<C, B>>>,
)
where
    D: Door + Drop,
    D::Conn: Drop,
    C: Clock + Drop,
    T: Ticker,
    R: Replay + Drop,
    B: Book<D::Conn> + Drop,
    W: Threads + Wait + Sync,
    requires purger { IsNewPurger shared.now.gate.now purger.old }
    requires posts { All (IsNewLedger shared.now.queue.now) posts.items }
    requires desks { let sight = desk_sight
        (link_sight D.Conn.left D.Conn.ends D.Conn.taken D.Conn.rings
        D.Conn.read_faults D.Conn.write_faults)
        C.readings C.last_reading C.given C.clock_faults B.kept in
        All (IsNewSeat sight shared.now.gate.now shared.now.queue.now) desks.items }
    ensures purger { HasTicked
        (clock_sight C.readings C.last_reading C.given C.clock_faults)
        (ticker_sight T.due T.tick_faults T.is_over)
        shared.now.gate.now purger.old purger.new ticker.old ticker.new }
    ensures as_many_posts { length result.0.items ≡ length posts.items }
    ensures posts { EachAccepted (door_sight D.coming D.door_faults D.is_over)
        shared.now.queue.now posts.items result.0.items }
    ensures as_many_desks { length result.1.items ≡ length desks.items }
    ensures desks { let sight = desk_sight
        (link_sight D.Conn.left D.Conn.ends D.Conn.taken D.Conn.rings
        D.Conn.read_faults D.Conn.write_faults)
        C.readings C.last_reading C.given C.clock_faults B.kept in
        EachServed sight shared.now.world.now shared.now.queue.now
        desks.items result.1.items }
{
    run(rt, alloc, shared, purger, ticker, &mut posts, &mut desks);
    (posts, desks)
}

/// Takes all passes of the queue back, and has the last worker of the list serve what is left.
fn close_up<D, C, R, B, W>(
    rt: &W,
    alloc: Global,
    shared: &Shared<'_, D::Conn, R>,
    mut home: QueuePass<Queued<D::Conn>>,
    posts: Vec<Holder<Queued<D::Conn>, Post<D>>>,
    desks: Vec<Holder<Queued<D::Conn>, Desk<C, B>>>,
    ended_posts: &mut Vec<Post<D>>,
    ended_desks: &mut Vec<Desk<C, B>>,
    left: &mut Vec<Queued<D::Conn>>,
)
where
    D: Door + Drop,
    D::Conn: Drop,
    C: Clock + Drop,
    R: Replay + Drop,
    B: Book<D::Conn> + Drop,
    W: Wait,
    requires home { HasParts shared.now.queue.now home }
    requires parts { (view home).parts + length posts.items + length desks.items ≡ whole }
    requires nothing { ((view home).put ≡ []) × ((view home).taken ≡ []) }
    requires posts { All (HasEnded shared.now.queue.now) posts.items }
    requires desks { All (HasEndedSeat shared.now.gate.now shared.now.queue.now) desks.items }
    requires some { 0 < length desks.items }
    requires none { (ended_posts.old.items ≡ []) × (ended_desks.old.items ≡ [])
        × (left.old.items ≡ []) }
    requires room_posts { vec_len ended_posts.old + vec_len posts ≤ vec_capacity ended_posts.old }
    requires room_desks { vec_len ended_desks.old + vec_len desks ≤ vec_capacity ended_desks.old }
    requires room_left { ruled_capacity shared.now.queue.now ≤ vec_capacity left.old }
    ensures posts { ended_posts.new.items ≡ map (λ h. h.state) (reverse posts.items) }
    ensures closed { let sight = desk_sight
        (link_sight D.Conn.left D.Conn.ends D.Conn.taken D.Conn.rings
        D.Conn.read_faults D.Conn.write_faults)
        C.readings C.last_reading C.given C.clock_faults B.kept in
        ClosesUp sight shared.now.world.now shared.now.gate.now shared.now.queue.now
        (flat_map put_by (reverse posts.items)) desks.items ended_desks.new.items
        left.new.items }
    ensures count { length ended_desks.new.items ≡ length desks.items }
    ensures few { length left.new.items ≤ ruled_capacity shared.now.queue.now }
{
    gather(shared.queue, &mut home, posts, ended_posts);
    gather(shared.queue, &mut home, desks, ended_desks);
    let Some(mut last) = ended_desks.pop() else {
        unreachable!()
    };
    drain(rt, alloc, shared, &mut home, &mut last, left);
    ended_desks.push_reserved(last);
}

/// Hands the passes of the queue out, lets all work, and has what is left served. There is room for
/// the posts, for the workers, and for all that the queue holds.
pub(crate) fn work<D, C, T, R, B, W>(
    rt: &W,
    alloc: Global,
    shared: &Shared<'_, D::Conn, R>,
    purger: &mut Purger<C>,
    ticker: &mut T,
    mut home: QueuePass<Queued<D::Conn>>,
    posts: Vec<Post<D>>,
    desks: Vec<Desk<C, B>>,
    ended_posts: &mut Vec<Post<D>>,
    ended_desks: &mut Vec<Desk<C, B>>,
    left: &mut Vec<Queued<D::Conn>>,
) -> Result<(), NoMemory>
where
    D: Door + Drop,
    D::Conn: Drop,
    C: Clock + Drop,
    T: Ticker,
    R: Replay + Drop,
    B: Book<D::Conn> + Drop,
    W: Threads + Wait + Sync,
    requires purger { IsNewPurger shared.now.gate.now purger.old }
    requires home { IsPassOf shared.now.queue.now home × (view home ≡ ledger whole [] []) }
    requires desks { let sight = desk_sight
        (link_sight D.Conn.left D.Conn.ends D.Conn.taken D.Conn.rings
        D.Conn.read_faults D.Conn.write_faults)
        C.readings C.last_reading C.given C.clock_faults B.kept in
        All (IsNewDesk sight shared.now.gate.now) desks.items }
    requires some { 0 < length desks.items }
    requires few { (length posts.items ≤ 64) × (length desks.items ≤ 64) }
    requires none { (ended_posts.old.items ≡ []) × (ended_desks.old.items ≡ [])
        × (left.old.items ≡ []) }
    requires room_posts { vec_len ended_posts.old + vec_len posts ≤ vec_capacity ended_posts.old }
    requires room_desks { vec_len ended_desks.old + vec_len desks ≤ vec_capacity ended_desks.old }
    requires room_left { ruled_capacity shared.now.queue.now ≤ vec_capacity left.old }
    ensures purger { OnOk result (HasTicked
        (clock_sight C.readings C.last_reading C.given C.clock_faults)
        (ticker_sight T.due T.tick_faults T.is_over)
        shared.now.gate.now purger.old purger.new ticker.old ticker.new) }
    ensures worked { let sight = desk_sight
        (link_sight D.Conn.left D.Conn.ends D.Conn.taken D.Conn.rings
        D.Conn.read_faults D.Conn.write_faults)
        C.readings C.last_reading C.given C.clock_faults B.kept in
        OnOk result (WorkedAll (door_sight D.coming D.door_faults D.is_over) sight
        shared.now.world.now posts.items ended_posts.new.items
        desks.items ended_desks.new.items left.new.items) }
    ensures count { OnOk result (length ended_desks.new.items ≡ length desks.items) }
    ensures few { OnOk result (length left.new.items ≤ ruled_capacity shared.now.queue.now) }
    ensures untouched { OnErr result (ticker.new ≡ ticker.old) }
{
    let posts = spread(alloc, shared.queue, &mut home, posts)?;
    let desks = spread(alloc, shared.queue, &mut home, desks)?;
    let (posts, desks) = run_all(rt, alloc, shared, purger, ticker, posts, desks);
    close_up(
        rt,
        alloc,
        shared,
        home,
        posts,
        desks,
        ended_posts,
        ended_desks,
        left,
    );
    Ok(())
}
