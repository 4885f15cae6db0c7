//! The file of a socket.

use std::alloc::Global;
use std::fs::{self, Permissions};
use std::io::{self, ErrorKind};
use std::net::Net;
use std::os::fd::{AsFd, AsRawFd, OwnedFd};
use std::os::unix::fs::{FileTypeExt, MetadataExt, PermissionsExt, chown};
use std::os::unix::net::{SocketAddr, UnixListener, UnixStream};
use std::rt;

/// Read and written by its owner alone.
const MODE: u32 = 0o600;

/// As many connections wait for an accept as the system allows.
const BACKLOG: i32 = -1;

/// Who may connect.
#[derive(Clone, Copy)]
pub struct Owner {
    /// The user that a socket's file belongs to.
    pub uid: u32,
    /// The group that it belongs to.
    pub gid: u32,
}

/// The file of a socket that was bound here. It is removed at the end, unless another file stands
/// under its path by then.
pub struct SocketFile<R: rt::Files + Copy> {
    rt: R,
    path: String,
    device: u64,
    inode: u64,
}

impl<R: rt::Files + Copy> SocketFile<R> {
    /// Whether this very file still stands under its path.
    fn stands(&self) -> bool {
        match fs::symlink_metadata(&self.rt, self.path.as_str()) {
            Ok(found) => found.dev() == self.device && found.ino() == self.inode,
            Err(_) => false,
        }
    }

    /// Leaves it to its owner alone. Where the owner cannot be changed, it stays the process's own.
    fn restrict(&self, owner: Option<Owner>) -> io::Result<()> {
        let path = self.path.as_str();
        fs::set_permissions(&self.rt, path, Permissions::from_mode(MODE))?;
        if let Some(Owner { uid, gid }) = owner {
            let _ = chown(&self.rt, path, Some(uid), Some(gid));
        }
        Ok(())
    }

    /// Gives it another path.
    fn move_to(&mut self, path: String) -> io::Result<()> {
        fs::rename(&self.rt, self.path.as_str(), path.as_str())?;
        self.path = path;
        Ok(())
    }
}

impl<R: rt::Files + Copy> Drop for SocketFile<R> {
    fn drop(self) {
        if self.stands() {
            let _ = fs::remove_file(&self.rt, self.path.as_str());
        }
        let SocketFile {
            rt: _,
            path: _,
            device: _,
            inode: _,
        } = self;
    }
}

/// Removes a socket at that path that nobody serves any more. Where another file stands there, or
/// where somebody serves, it fails and leaves it alone.
fn clear_way<R: rt::Files + Net>(rt: &R, path: &str) -> io::Result<()> {
    match fs::symlink_metadata(rt, path) {
        Ok(found) if found.file_type().is_socket() => {}
        Ok(_) => return Err(io::Error::from(ErrorKind::AlreadyExists)),
        Err(e) if e.kind() == ErrorKind::NotFound => return Ok(()),
        Err(e) => return Err(e),
    }
    match UnixStream::connect(rt, path) {
        Ok(_) => Err(io::Error::from(ErrorKind::AddrInUse)),
        Err(e) if e.kind() == ErrorKind::ConnectionRefused => fs::remove_file(rt, path),
        Err(e) => Err(e),
    }
}

/// A new socket with a file at that path, where there is none yet. It takes no connection.
fn bind<R: rt::Files + Net + Copy>(rt: R, path: String) -> io::Result<(OwnedFd, SocketFile<R>)> {
    let address = SocketAddr::from_pathname(path.as_str())?;
    let socket = rt.unix_socket()?;
    rt.bind_unix(socket.as_fd(), &address)?;
    match fs::symlink_metadata(&rt, path.as_str()) {
        Ok(found) => {
            let file = SocketFile {
                rt,
                path,
                device: found.dev(),
                inode: found.ino(),
            };
            Ok((socket, file))
        }
        Err(e) => {
            let _ = fs::remove_file(&rt, path.as_str());
            Err(e)
        }
    }
}

/// From now on the socket takes connections.
fn start(socket: &OwnedFd) -> io::Result<()> {
    if libc::net::listen(socket.as_raw_fd(), BACKLOG) == 0 {
        Ok(())
    } else {
        Err(io::Error::from(ErrorKind::Other))
    }
}

/// A socket that takes connections at that path, and its file, which is its owner's alone before
/// the first of them can come. Until then it stands beside the path, with a `~` at its end.
pub fn listen<R: rt::Files + Net + Copy>(
    rt: R,
    alloc: Global,
    path: &str,
    owner: Option<Owner>,
) -> io::Result<(UnixListener, SocketFile<R>)> {
    let last = path.to_string(alloc)?;
    let first = format!(in alloc; "{path}~")?;
    clear_way(&rt, path)?;
    clear_way(&rt, first.as_str())?;
    let (socket, mut file) = bind(rt, first)?;
    file.restrict(owner)?;
    start(&socket)?;
    file.move_to(last)?;
    Ok((UnixListener::from(socket), file))
}
