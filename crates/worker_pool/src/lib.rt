//! A pool of workers: each serves its share of the connections, in a thread of its own, and all of
//! them on one gate, so that their look-ups make one history.
#![tactic(auto)]

mod acceptor;
mod beside;
mod book;
mod books;
mod crew;
mod daemon;
mod deal;
mod desk;
mod drain;
mod drop_book;
mod handled;
mod holders;
mod job;
mod lane;
mod mem_book;
mod moves;
mod pool;
mod post;
mod purger;
mod queue;
mod shift;
mod signal;
mod tally;

pub use book::Book;
pub use books::Books;
pub use daemon::{DaemonPool, daemon_pool};
pub use drop_book::{DropBook, DropBooks};
pub use handled::Handled;
pub use job::{Done, Job};
pub use mem_book::{MemBook, MemBooks};
pub use pool::{PoolEnd, pool_run};
pub use post::{Post, Waiting};
pub use tally::Tally;

#[cfg(test)]
mod tests;
