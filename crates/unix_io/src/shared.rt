//! What a hall, its doors, their connections and its ticker share.

use crate::state::{Seen, State};
use munge_types::NoMemory;
use std::alloc::Global;
use std::os::unix::net::UnixStream;
use std::sync::{Condvar, Mutex, Wait};
use std::time::{Clock, Duration};

/// The stop flag and the open doors, behind a lock, and a way to wait for them.
#[derive(Drop)]
pub struct Shared {
    state: Mutex<State>,
    changed: Condvar,
}

impl Shared {
    /// The flag is down, and no door is open.
    pub fn new(alloc: Global) -> Shared {
        Shared {
            state: Mutex::new(State::new(alloc)),
            changed: Condvar::new(),
        }
    }

    /// The flag and the number of open doors, as they stand now.
    pub fn look<R: Wait>(&self, rt: &R) -> Seen {
        self.state.lock(rt).seen()
    }

    /// One door more is open, with this handle of its listening socket. Returns its number.
    pub fn add<R: Wait>(&self, rt: &R, socket: UnixStream) -> Result<u64, NoMemory> {
        self.state.lock(rt).add(socket)
    }

    /// The door of that number is open no more.
    pub fn remove<R: Wait>(&self, rt: &R, number: u64) {
        self.state.lock(rt).remove(number);
        self.changed.notify_all();
    }

    /// Raises the flag, and ends all accepts and pauses that wait.
    pub fn stop<R: Wait>(&self, rt: &R) {
        self.state.lock(rt).stop();
        self.changed.notify_all();
    }

    /// Waits so long, or until nobody comes any more: the flag is up, or no door is open.
    pub fn wait<R: Wait + Clock>(&self, rt: &R, time: Duration) -> Seen {
        let state = self.state.lock(rt);
        let ended = self
            .changed
            .wait_timeout_while(rt, state, time, |state| !state.seen().is_idle());
        ended.0.seen()
    }
}
