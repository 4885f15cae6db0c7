//! Acceptors, workers and the purger beside each other, each in a thread.

ghost use Rattle.worker_pool.specs.Beside.{EachDone, MayBegin};
ghost use Rattle.worker_pool.specs.Purging.{HasTicked, IsNewPurger, clock_sight, ticker_sight};

use crate::purger::{Purger, purge_all};
use byte_io::{Clock, Ticker};
use munge_types::Replay;
use replay_gate::Gate;
use std::sync::Wait;
use std::thread::{self, Threads, join_mut};

/// Does one kind of work with each post and another with each desk, each in a thread.
fn accept_and_serve<P, D, A, S, W>(rt: &W, posts: &mut [P], accept: &A, desks: &mut [D], serve: &S)
where
    P: Send,
    D: Send,
    A: Fn(usize, &mut P) + Sync,
    S: Fn(usize, &mut D) + Sync,
    W: Threads + Wait + Sync,
    requires posts { MayBegin A.Fn accept.now posts.old }
    requires desks { MayBegin S.Fn serve.now desks.old }
    ensures posts { EachDone A.Fn accept.now posts.old posts.new }
    ensures desks { EachDone S.Fn serve.now desks.old desks.new }
{
    let mut first = ||
        requires { MayBegin A.Fn accept.now posts.now }
        ensures { EachDone A.Fn accept.entry.now posts.entry.now posts.exit.now }
    {
        let threads = posts.len().max(1);
        thread::for_each_mut(rt, posts, threads, accept);
    };
    let mut second = ||
        requires { MayBegin S.Fn serve.now desks.now }
        ensures { EachDone S.Fn serve.entry.now desks.entry.now desks.exit.now }
    {
        let threads = desks.len().max(1);
        thread::for_each_mut(rt, desks, threads, serve);
    };
    join_mut(rt, &mut first, &mut second);
}

/// The same, with the purger beside them.
pub(crate) fn purge_accept_and_serve<C, T, R, P, D, A, S, W>(
    rt: &W,
    gate: &Gate<R>,
    purger: &mut Purger<C>,
    ticker: &mut T,
    posts: &mut [P],
    accept: &A,
    desks: &mut [D],
    serve: &S,
)
where
    C: Clock + Drop,
    T: Ticker,
    R: Replay + Drop,
    P: Send,
    D: Send,
    A: Fn(usize, &mut P) + Sync,
    S: Fn(usize, &mut D) + Sync,
    W: Threads + Wait + Sync,
    requires purger { IsNewPurger gate.now purger.old }
    requires posts { MayBegin A.Fn accept.now posts.old }
    requires desks { MayBegin S.Fn serve.now desks.old }
    ensures purger { HasTicked
        (clock_sight C.readings C.last_reading C.given C.clock_faults)
        (ticker_sight T.due T.tick_faults T.is_over)
        gate.now purger.old purger.new ticker.old ticker.new }
    ensures posts { EachDone A.Fn accept.now posts.old posts.new }
    ensures desks { EachDone S.Fn serve.now desks.old desks.new }
{
    let mut purge = ||
        requires { IsNewPurger gate.now purger.now }
        ensures { HasTicked
            (clock_sight C.readings C.last_reading C.given C.clock_faults)
            (ticker_sight T.due T.tick_faults T.is_over)
            gate.entry.now purger.entry.now purger.exit.now ticker.entry.now ticker.exit.now }
    { purge_all(rt, gate, purger, ticker) };
    let mut work = ||
        requires { MayBegin A.Fn accept.now posts.now × MayBegin S.Fn serve.now desks.now }
        ensures { EachDone A.Fn accept.entry.now posts.entry.now posts.exit.now
            × EachDone S.Fn serve.entry.now desks.entry.now desks.exit.now }
    { accept_and_serve(rt, posts, accept, desks, serve) };
    join_mut(rt, &mut purge, &mut work);
}
