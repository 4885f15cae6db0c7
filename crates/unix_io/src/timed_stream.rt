//! A connection whose peer has a time for its request, and a time to take the reply.

ghost use Rattle.std.specs.Prelude.{◌≤◌, length, IfOk};

use libc::net::{POLLIN, POLLOUT, poll};
use libc::types::pollfd;
use std::io::{self, ErrorKind, Read, Write};
use std::os::fd::AsRawFd;
use std::os::unix::net::UnixStream;
use std::rt;
use std::time::{Duration, Instant};

/// How often a read or a write is tried that cannot be done at once.
const TRIES: u32 = 1000;

/// A stream. What can be done at once is done without a look at the clock. Else a read waits until
/// its peer's time for the request is over, counted from when the stream was made, and a write until
/// the time for the reply is over, counted from the first write that had to wait. Past that time
/// neither waits: it fails.
#[derive(Drop)]
pub struct TimedStream<R> {
    rt: R,
    stream: UnixStream,
    time: Duration,
    accepted: Instant,
    answered: Option<Instant>,
}

impl<R: rt::Clock + Copy> TimedStream<R> {
    /// A stream whose peer has so much time for a request from now on, and so much for a reply.
    pub fn new(rt: R, stream: UnixStream, time: Duration) -> io::Result<TimedStream<R>> {
        let accepted = Instant::now(&rt)?;
        stream.set_nonblocking(true)?;
        Ok(TimedStream {
            rt,
            stream,
            time,
            accepted,
            answered: None,
        })
    }

    /// Waits until that event may have come, as long as a time has not gone by that began at
    /// `since`. It fails where less than a millisecond of it is left.
    fn wait(&self, event: i16, since: Instant) -> io::Result<()> {
        let past = since.elapsed(&self.rt)?;
        let left = self.time.saturating_sub(past).as_millis();
        if left == 0 {
            return Err(io::Error::from(ErrorKind::TimedOut));
        }
        let mut asked = [pollfd {
            fd: self.stream.as_raw_fd(),
            events: event,
            revents: 0,
        }];
        // Whether it came, or a signal, or nothing in that time, the next try shows.
        let _ = poll(&mut asked, i32::try_from(left).unwrap_or(i32::MAX));
        Ok(())
    }

    /// Waits until a write may be possible, as long as the reply has time, which begins with the
    /// first of these waits.
    fn wait_to_write(&mut self) -> io::Result<()> {
        let since = match self.answered {
            Some(since) => since,
            None => Instant::now(&self.rt)?,
        };
        self.answered = Some(since);
        self.wait(POLLOUT, since)
    }

    /// Writes the front of `from`.
    pub fn write(&mut self, from: &[u8]) -> io::Result<usize>
        ensures { IfOk result (λ n. n ≤ length from.now) }
    {
        for _ in 0..TRIES {
            match self.stream.write(from) {
                Ok(n) => return Ok(n),
                Err(e) => match e.kind() {
                    ErrorKind::WouldBlock => self.wait_to_write()?,
                    ErrorKind::Interrupted => {}
                    _ => return Err(e),
                },
            }
        }
        Err(io::Error::from(ErrorKind::Interrupted))
    }
}

impl<R: rt::Clock + Copy> Read for TimedStream<R> {
    fn read(&mut self, into: &mut [u8]) -> io::Result<usize> {
        for _ in 0..TRIES {
            match self.stream.read(into) {
                Ok(n) => return Ok(n),
                Err(e) => match e.kind() {
                    ErrorKind::WouldBlock => self.wait(POLLIN, self.accepted)?,
                    ErrorKind::Interrupted => {}
                    _ => return Err(e),
                },
            }
        }
        Err(io::Error::from(ErrorKind::Interrupted))
    }
}
