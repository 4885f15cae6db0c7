//! What lets acceptors and workers sleep. No clause speaks of it: by a fault of it no item is lost
//! or served twice, but a thread may sleep for too long. Why none does:
//!
//! A thread reads the counts before it tries, and falls asleep only while the count that it waits
//! for is as it was. So a move that is counted after that reading keeps it awake or wakes it.
//!
//! Say that items lie in the queue. No attempt that began after the queue was last empty has found
//! nothing, so each worker that sleeps read the count before that moment, and once a push since
//! then is counted no other falls asleep. Each of these pushes, after it is counted, wakes one of
//! those that still sleep, and that one goes on, as the count has moved. There were at least as
//! many pushes since then as there are items, so at least as many workers are awake, or all.
//!
//! The same holds of free places and of acceptors that found the queue full. How many of them sleep
//! is counted under the lock under which they fall asleep: where a worker finds none, each acceptor
//! that comes later sees that the count has moved.
//!
//! An acceptor ends after its last push was counted. It lowers the number of open ones, which
//! counts as a move, and wakes all workers. A worker that read that none is open, and then found
//! nothing, has nothing to wait for.

use std::sync::{Condvar, Mutex, Wait};

/// What has moved so far. The counts begin again after 2^64 moves.
#[derive(Clone, Copy)]
pub(crate) struct Moves {
    /// How often an item was put, or an acceptor ended.
    put: u64,
    /// How often an item was taken.
    taken: u64,
    /// How many acceptors have not ended.
    open_acceptors: u32,
    /// How many acceptors sleep before a full queue.
    before_full: u32,
}

impl Moves {
    /// Whether all acceptors have ended.
    pub(crate) fn has_ended(self) -> bool {
        self.open_acceptors == 0
    }
}

/// On what acceptors and workers of a queue sleep.
#[derive(Drop)]
pub(crate) struct Signal {
    moves: Mutex<Moves>,
    /// Workers sleep on it that found no item.
    filled: Condvar,
    /// Acceptors sleep on it that found no room.
    freed: Condvar,
}

impl Signal {
    /// For so many acceptors, each of which has to call `close` once.
    pub(crate) fn new(open: u32) -> Signal {
        Signal {
            moves: Mutex::new(Moves {
                put: 0,
                taken: 0,
                open_acceptors: open,
                before_full: 0,
            }),
            filled: Condvar::new(),
            freed: Condvar::new(),
        }
    }

    /// What a thread remembers before it tries.
    pub(crate) fn now<W: Wait>(&self, rt: &W) -> Moves {
        *self.moves.lock(rt)
    }

    /// Tells that an item was put, and wakes a worker.
    pub(crate) fn tell_put<W: Wait>(&self, rt: &W) {
        let mut moves = self.moves.lock(rt);
        moves.put = moves.put.wrapping_add(1);
        drop(moves);
        self.filled.notify_one();
    }

    /// Tells that an item was taken, and wakes an acceptor, if one sleeps.
    pub(crate) fn tell_taken<W: Wait>(&self, rt: &W) {
        let mut moves = self.moves.lock(rt);
        moves.taken = moves.taken.wrapping_add(1);
        let someone_sleeps = moves.before_full > 0;
        drop(moves);
        if someone_sleeps {
            self.freed.notify_one();
        }
    }

    /// Tells that an acceptor has ended, and wakes all workers.
    pub(crate) fn close<W: Wait>(&self, rt: &W) {
        let mut moves = self.moves.lock(rt);
        moves.put = moves.put.wrapping_add(1);
        moves.open_acceptors = moves.open_acceptors.saturating_sub(1);
        drop(moves);
        self.filled.notify_all();
    }

    /// Sleeps until something was put since `seen`, or an acceptor has ended since.
    pub(crate) fn wait_for_item<W: Wait>(&self, rt: &W, seen: Moves) {
        let moves = self.moves.lock(rt);
        self.filled.wait_while(rt, moves, |now| now.put == seen.put);
    }

    /// Sleeps until something was taken since `seen`.
    pub(crate) fn wait_for_room<W: Wait>(&self, rt: &W, seen: Moves) {
        let mut moves = self.moves.lock(rt);
        moves.before_full = moves.before_full.saturating_add(1);
        let mut moves = self
            .freed
            .wait_while(rt, moves, |now| now.taken == seen.taken);
        moves.before_full = moves.before_full.saturating_sub(1);
    }
}
