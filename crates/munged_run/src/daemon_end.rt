//! How the daemon ends.

ghost use Rattle.std.specs.Prelude.{◌≡◌, None, false};
ghost use Rattle.munged_run.specs.Output.{NothingServed};

use crate::kept::Kept;
use byte_io::Door;
use worker_pool::{DaemonPool, Tally};

/// How the daemon ends.
#[derive(Drop)]
pub struct DaemonEnd<D: Door + Drop, C: Drop, B: Drop>
where
    D::Conn: Drop,
{
    /// The status of the process.
    pub status: u8,
    /// The look-ups of the closing history.
    pub tally: Tally,
    /// How many pairs are kept at the end.
    pub kept: u64,
    /// What the pool of a daemon that served has left; nothing after any other command, and where
    /// nothing was served.
    pub served: Option<DaemonPool<D, C, Kept, B>>,
    /// The answer to a request to stop was another than that the daemon stops.
    pub malformed: bool,
}

impl<D: Door + Drop, C: Drop, B: Drop> DaemonEnd<D, C, B>
where
    D::Conn: Drop,
{
    /// The daemon ends with this status, and nothing was served.
    pub(crate) fn unserved(status: u8) -> DaemonEnd<D, C, B>
        ensures status { result.status ≡ status }
        ensures nothing { NothingServed result.tally result.kept }
        ensures none { result.served ≡ None }
        ensures no_answer { result.malformed ≡ false }
    {
        DaemonEnd {
            status,
            tally: Tally {
                presented: 0,
                accepted: 0,
                replayed: 0,
                expired: 0,
            },
            kept: 0,
            served: None,
            malformed: false,
        }
    }
}
