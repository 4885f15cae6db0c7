//! A connection that a door gave.

ghost use Rattle.std.specs.Prelude.{◌≡◌, ℕ, None, IfOk};

use crate::read_ahead::ReadAhead;
use crate::shared::Shared;
use crate::timed_stream::TimedStream;
use byte_io::{Link, Sink, Source};
use munge_types::Failed;
use std::alloc::Global;
use std::os::unix::net::UnixStream;
use std::sync::{Arc, Wait};
use std::time::Duration;
use std::{io, rt};

/// A connection that was accepted. Its peer has a time for the request, counted from the accept,
/// and the same again to take the reply, counted from the first write; past it, a read or a write
/// that would have to wait fails. Short reads are served from bytes that were read ahead, so that a
/// usual request takes one call of the system; what came behind a request is dropped with the
/// connection. What goes over it it does not tell.
#[derive(Drop)]
pub struct UnixLink<R> {
    rt: R,
    shared: Arc<Shared, Global>,
    stream: TimedStream<R>,
    ahead: ReadAhead,
    read_faults: u64,
    ends: u64,
    write_faults: u64,
    rings: u64,
}

impl<R: rt::Clock + Copy> UnixLink<R> {
    /// A connection that is accepted now, whose peer has so much time.
    pub(crate) fn new(
        rt: R,
        shared: &Arc<Shared, Global>,
        stream: UnixStream,
        time: Duration,
    ) -> io::Result<UnixLink<R>>
        ensures read_faults { IfOk result (λ link. link.read_faults ≡ 0) }
        ensures write_faults { IfOk result (λ link. link.write_faults ≡ 0) }
    {
        let shared = Arc::try_clone(shared)?;
        let stream = TimedStream::new(rt, stream, time)?;
        Ok(UnixLink {
            rt,
            shared,
            stream,
            ahead: ReadAhead::new(),
            read_faults: 0,
            ends: 0,
            write_faults: 0,
            rings: 0,
        })
    }
}

impl<R: rt::Clock + Copy> Source for UnixLink<R> {
    ghost left = { λ _. None };

    ghost read_faults = { λ s. s.read_faults };

    ghost ends = { λ s. s.ends };

    // The faults of writes, and the rings.
    ghost BesideReads = { ℕ × ℕ };

    ghost beside_reads = { λ s. (s.write_faults, s.rings) };

    fn read(&mut self, into: &mut [u8]) -> Result<usize, Failed> {
        match self.ahead.read(&mut self.stream, into) {
            Ok(n) => {
                if n == 0 && !into.is_empty() {
                    self.ends = self.ends.saturating_add(1);
                }
                Ok(n)
            }
            Err(_) => {
                self.read_faults = self.read_faults.saturating_add(1);
                Err(Failed)
            }
        }
    }
}

impl<R: rt::Clock + Copy> Sink for UnixLink<R> {
    ghost taken = { λ _. None };

    ghost write_faults = { λ s. s.write_faults };

    // The faults and ends of reads, and the rings.
    ghost BesideWrites = { ℕ × ℕ × ℕ };

    ghost beside_writes = { λ s. (s.read_faults, s.ends, s.rings) };

    fn write(&mut self, from: &[u8]) -> Result<usize, Failed> {
        match self.stream.write(from) {
            Ok(n) if n > 0 || from.is_empty() => Ok(n),
            _ => {
                self.write_faults = self.write_faults.saturating_add(1);
                Err(Failed)
            }
        }
    }
}

impl<R: rt::Clock + Wait + Copy + Send> Link for UnixLink<R> {
    ghost use Rattle.std.proofs.Common.{rules};

    ghost rings = { λ s. s.rings };

    // It raises the flag of its hall, and ends the accepts of all its doors.
    fn ring(&mut self) {
        self.shared.stop(&self.rt);
        self.rings = self.rings.saturating_add(1);
    }

    ghost reads_leave_taken = { Prim.search rules };

    ghost reads_leave_write_faults = { Prim.search rules };

    ghost reads_leave_rings = { Prim.search rules };

    ghost writes_leave_left = { Prim.search rules };

    ghost writes_leave_read_faults = { Prim.search rules };

    ghost writes_leave_ends = { Prim.search rules };

    ghost writes_leave_rings = { Prim.search rules };
}
