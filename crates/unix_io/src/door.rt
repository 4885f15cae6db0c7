//! A door at a path of the file system.

ghost use Rattle.std.specs.Prelude.{◌≡◌, None, IfSome, IfOk};
ghost use Rattle.unix_io.specs.Idle.{Stopped};

use crate::link::UnixLink;
use crate::listening_socket::ListeningSocket;
use crate::shared::Shared;
use crate::socket_file::Owner;
use crate::state::Seen;
use byte_io::{Door, Next};
use std::alloc::Global;
use std::net::Net;
use std::sync::{Arc, Wait};
use std::time::Duration;
use std::{io, rt};

/// The system's number of the error that a socket is of a kind that accepts nothing.
const EOPNOTSUPP: i32 = 95;

/// How many milliseconds a door pauses where an accept failed for a cause that passes.
const PAUSE: u64 = 100;

/// The door at a path. It gives what connects there, in its order, until the stop flag is up; it
/// then gives what had connected before, and is over. (Where the flag goes up while accepts fail for
/// a cause that passes, it is over at once.) What comes it does not tell.
#[derive(Drop)]
pub struct UnixDoor<R: rt::Files + Wait + Copy> {
    rt: R,
    shared: Arc<Shared, Global>,
    // None once it is over, or has failed.
    socket: Option<ListeningSocket<R>>,
    time: Duration,
    seen: Seen,
    faults: u64,
}

/// No accept at that socket succeeds any more. After any other failure the next one may: the peer
/// is gone, the call was interrupted, or descriptors or memory of the system are used up for the
/// moment.
fn is_unusable(error: &io::Error) -> bool {
    matches!(
        error.raw_os_error(),
        Some(libc::EBADF | libc::EINVAL | libc::ENOTSOCK | EOPNOTSUPP)
    )
}

impl<R: rt::Files + Net + rt::Clock + Wait + Copy> UnixDoor<R> {
    /// A door at that path, for that owner, whose peers have so much time for a request, and so
    /// much again to take the reply.
    pub(crate) fn open(
        rt: R,
        alloc: Global,
        shared: &Arc<Shared, Global>,
        path: &str,
        owner: Option<Owner>,
        time: Duration,
    ) -> io::Result<UnixDoor<R>>
        ensures { IfOk result (λ door. door.faults ≡ 0) }
    {
        let mine = Arc::try_clone(shared)?;
        let socket = ListeningSocket::open(rt, alloc, Arc::try_clone(shared)?, path, owner)?;
        Ok(UnixDoor {
            rt,
            shared: mine,
            socket: Some(socket),
            time,
            seen: Seen::nothing(),
            faults: 0,
        })
    }
}

impl<R: rt::Files + rt::Clock + Wait + Copy> UnixDoor<R> {
    /// Waits for the next connection; None where the socket gives none any more.
    fn wait_for_link(&self) -> Option<UnixLink<R>>
        ensures read_faults { IfSome result (λ link. link.read_faults ≡ 0) }
        ensures write_faults { IfSome result (λ link. link.write_faults ≡ 0) }
    {
        let socket = self.socket.as_ref()?;
        for _ in self.rt.forever() {
            let link = match socket.accept() {
                Ok(stream) => UnixLink::new(self.rt, &self.shared, stream, self.time),
                Err(error) => Err(error),
            };
            match link {
                Ok(link) => return Some(link),
                Err(error) => {
                    if !self.goes_on(&error) {
                        return None;
                    }
                }
            }
        }
        None
    }

    /// Whether to accept again, after an accept that failed so. Where it is, a pause is over.
    fn goes_on(&self, error: &io::Error) -> bool {
        if is_unusable(error) {
            return false;
        }
        let pause = Duration::from_millis(PAUSE);
        !self.shared.wait(&self.rt, pause).is_stopped()
    }
}

impl<R: rt::Files + rt::Clock + Wait + Copy + Send> Door for UnixDoor<R> {
    type Conn = UnixLink<R>;

    ghost coming = { λ _. None };

    ghost door_faults = { λ s. s.faults };

    ghost is_over = { λ s. Stopped s.seen };

    fn accept(&mut self) -> Next<UnixLink<R>> {
        if let Some(link) = self.wait_for_link() {
            return Next::Conn(link);
        }
        self.socket = None;
        self.seen = self.shared.look(&self.rt);
        if self.seen.is_stopped() {
            return Next::Over;
        }
        self.faults = self.faults.saturating_add(1);
        Next::Failed
    }

    ghost over_at_none = { λ _. tt };
}
