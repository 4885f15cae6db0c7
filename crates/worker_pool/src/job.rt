//! What a pool is given to serve, and what came of it.

use munge_types::Identity;
use session_core::Served;

/// A connection that is to be served for a caller, and the clock that its request is answered by.
#[derive(Drop)]
pub struct Job<L: Drop, C: Drop> {
    /// The caller.
    pub who: Identity,
    /// The connection.
    pub conn: L,
    /// The clock, of which at most one reading is taken.
    pub clock: C,
}

/// A job that was served.
#[derive(Drop)]
pub struct Done<L: Drop, C: Drop> {
    /// The job's number, from 0 in the order in which the jobs were given.
    pub job: u32,
    /// The number of the pass that served it, which its entry carries.
    pub pass: u32,
    /// The connection, as it was left.
    pub conn: L,
    /// The clock, as it was left.
    pub clock: C,
    /// What came of it.
    pub served: Served,
}
