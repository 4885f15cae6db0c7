//! An open door's socket.

use crate::shared::Shared;
use crate::socket_file::{Owner, SocketFile, listen};
use std::alloc::Global;
use std::io::{self, ErrorKind};
use std::net::Net;
use std::os::fd::OwnedFd;
use std::os::unix::net::{UnixListener, UnixStream};
use std::rt;
use std::sync::{Arc, Wait};

/// A socket that takes connections, as one of the open doors. With it its file goes.
pub struct ListeningSocket<R: rt::Files + Wait + Copy> {
    rt: R,
    shared: Arc<Shared, Global>,
    number: u64,
    file: SocketFile<R>,
    listener: UnixListener,
}

impl<R: rt::Files + Net + Wait + Copy> ListeningSocket<R> {
    /// A socket at that path, for that owner, as one door more of those that share.
    pub fn open(
        rt: R,
        alloc: Global,
        shared: Arc<Shared, Global>,
        path: &str,
        owner: Option<Owner>,
    ) -> io::Result<ListeningSocket<R>> {
        let (listener, file) = listen(rt, alloc, path, owner)?;
        let handle = UnixStream::from(OwnedFd::from(listener.try_clone()?));
        let Ok(number) = shared.add(&rt, handle) else {
            return Err(io::Error::from(ErrorKind::OutOfMemory));
        };
        Ok(ListeningSocket {
            rt,
            shared,
            number,
            file,
            listener,
        })
    }
}

impl<R: rt::Files + Wait + Copy> ListeningSocket<R> {
    /// Waits for the next connection. It fails where the stop flag goes up, once no connection
    /// waits any more.
    pub fn accept(&self) -> io::Result<UnixStream> {
        let (stream, _) = self.listener.accept()?;
        Ok(stream)
    }
}

impl<R: rt::Files + Wait + Copy> Drop for ListeningSocket<R> {
    // The file goes while the socket is open, since until then no other file has its numbers.
    fn drop(self) {
        self.shared.remove(&self.rt, self.number);
        let ListeningSocket {
            rt: _,
            shared: _,
            number: _,
            file,
            listener,
        } = self;
        drop(file);
        drop(listener);
    }
}
