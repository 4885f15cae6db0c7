//! Where sockets lie: the file system.

ghost use Rattle.std.specs.Prelude.{◌≡◌, ℕ, None, IfOk};

use crate::door::UnixDoor;
use crate::shared::Shared;
use crate::socket_file::Owner;
use byte_io::{FileFail, Hall, Sink, Source, Wire};
use munge_types::{Failed, NoMemory};
use std::alloc::{AllocError, Global};
use std::io::{ErrorKind, Read, Write};
use std::net::Net;
use std::os::unix::net::UnixStream;
use std::rt;
use std::sync::{Arc, Wait};
use std::time::Duration;

/// How many seconds a peer has for its request, and how many to take the reply.
const SECONDS: u64 = 5;

/// Who may connect at a path.
#[derive(Drop)]
struct NamedOwner {
    path: String,
    owner: Owner,
}

/// Where doors are opened at paths of the file system, and dials go out to such paths. What it does
/// it does not tell.
///
/// Its doors, their connections and its ticker share one flag. A connection that rings raises it:
/// then accepts and tickers that wait end at once, and doors are over once they have given what
/// connected before. A door's socket has the mode 0600 before the first can connect, and the owner
/// that was set; where the owner cannot be changed, it stays the process's own. Until then it stands
/// under the path with a `~` behind it, so a path has at most 106 bytes. Its file is removed when the
/// door is over, has failed or is dropped. A peer has 5 seconds for its request, counted from its
/// accept, and 5 more to take the reply.
#[derive(Drop)]
pub struct UnixHall<R> {
    rt: R,
    shared: Arc<Shared, Global>,
    owners: Vec<NamedOwner>,
    time: Duration,
    wire: Option<UnixStream>,
    read_faults: u64,
    ends: u64,
    write_faults: u64,
    dial_faults: u64,
    hall_faults: u64,
}

impl<R: rt::Files + Net + rt::Clock + Wait + Copy + Send> UnixHall<R> {
    /// No doors, a lowered flag, and no connection.
    pub fn new(rt: R, alloc: Global) -> Result<UnixHall<R>, NoMemory>
        ensures left { IfOk result (λ hall.
            ⟦<UnixHall<R> as Source>⟧.left hall ≡ None) }
        ensures taken { IfOk result (λ hall.
            ⟦<UnixHall<R> as Sink>⟧.taken hall ≡ None) }
        ensures dialled { IfOk result (λ hall.
            ⟦<UnixHall<R> as Wire>⟧.dialled hall ≡ None) }
        ensures replies { IfOk result (λ hall.
            ⟦<UnixHall<R> as Wire>⟧.replies hall ≡ None) }
        ensures doors { IfOk result (λ hall.
            ⟦<UnixHall<R> as Hall>⟧.doors hall ≡ None) }
        ensures read_faults { IfOk result (λ hall.
            ⟦<UnixHall<R> as Source>⟧.read_faults hall ≡ 0) }
        ensures ends { IfOk result (λ hall.
            ⟦<UnixHall<R> as Source>⟧.ends hall ≡ 0) }
        ensures write_faults { IfOk result (λ hall.
            ⟦<UnixHall<R> as Sink>⟧.write_faults hall ≡ 0) }
        ensures dial_faults { IfOk result (λ hall.
            ⟦<UnixHall<R> as Wire>⟧.dial_faults hall ≡ 0) }
        ensures hall_faults { IfOk result (λ hall.
            ⟦<UnixHall<R> as Hall>⟧.hall_faults hall ≡ 0) }
    {
        Ok(UnixHall {
            rt,
            shared: Arc::new(alloc, Shared::new(alloc))?,
            owners: Vec::new(alloc),
            time: Duration::from_secs(SECONDS),
            wire: None,
            read_faults: 0,
            ends: 0,
            write_faults: 0,
            dial_faults: 0,
            hall_faults: 0,
        })
    }
}

impl<R: Copy> UnixHall<R> {
    /// The door at that path is for this user and this group: the file of its socket will be
    /// theirs, where this process may give it away. It is told before the door is opened; what was
    /// told of that path first holds.
    pub fn set_owner(
        &mut self,
        alloc: Global,
        path: &str,
        uid: u32,
        gid: u32,
    ) -> Result<(), NoMemory>
        ensures { self.new ≡ record self.old { owners = self.new.owners } }
    {
        let named = NamedOwner {
            path: path.to_string(alloc)?,
            owner: Owner { uid, gid },
        };
        self.owners.push(named)?;
        Ok(())
    }

    /// Peers of doors that are opened from now on have so much time.
    #[cfg(test)]
    pub(crate) fn set_time(&mut self, time: Duration) {
        self.time = time;
    }

    /// Who may connect at that path, where it was told.
    fn owner_of(&self, path: &str) -> Option<Owner> {
        let named = self
            .owners
            .iter()
            .find(|named| named.path.as_str() == path)?;
        Some(named.owner)
    }

    /// The runtime.
    pub(crate) fn runtime(&self) -> R {
        self.rt
    }

    /// The flag and the open doors, to be shared once more.
    pub(crate) fn share(&self) -> Result<Arc<Shared, Global>, AllocError> {
        Arc::try_clone(&self.shared)
    }
}

impl<R: Copy> Source for UnixHall<R> {
    ghost left = { λ _. None };

    ghost read_faults = { λ s. s.read_faults };

    ghost ends = { λ s. s.ends };

    // The faults of writes, dials and doors.
    ghost BesideReads = { ℕ × ℕ × ℕ };

    ghost beside_reads = { λ s. (s.write_faults, s.dial_faults, s.hall_faults) };

    // Before the first dial there is nothing to read.
    fn read(&mut self, into: &mut [u8]) -> Result<usize, Failed> {
        let got = match &mut self.wire {
            Some(wire) => wire.read(into),
            None => Ok(0),
        };
        match got {
            Ok(n) => {
                if n == 0 && !into.is_empty() {
                    self.ends = self.ends.saturating_add(1);
                }
                Ok(n)
            }
            Err(_) => {
                self.read_faults = self.read_faults.saturating_add(1);
                Err(Failed)
            }
        }
    }
}

impl<R: Copy> Sink for UnixHall<R> {
    ghost taken = { λ _. None };

    ghost write_faults = { λ s. s.write_faults };

    // The faults and ends of reads, and the faults of dials and doors.
    ghost BesideWrites = { ℕ × ℕ × ℕ × ℕ };

    ghost beside_writes = { λ s. (s.read_faults, s.ends, s.dial_faults, s.hall_faults) };

    // Before the first dial nothing is taken.
    fn write(&mut self, from: &[u8]) -> Result<usize, Failed> {
        let put = match &mut self.wire {
            Some(wire) => wire.write(from),
            None => Ok(0),
        };
        match put {
            Ok(n) if n > 0 || from.is_empty() => Ok(n),
            _ => {
                self.write_faults = self.write_faults.saturating_add(1);
                Err(Failed)
            }
        }
    }
}

impl<R: Net + Copy> Wire for UnixHall<R> {
    ghost use Rattle.std.proofs.Common.{rules};

    ghost dialled = { λ _. None };

    ghost replies = { λ _. None };

    ghost dial_faults = { λ s. s.dial_faults };

    // The faults of doors.
    ghost BesideDials = { ℕ };

    ghost beside_dials = { λ s. s.hall_faults };

    fn dial(&mut self, path: &str) -> Result<(), Failed> {
        match UnixStream::connect(&self.rt, path) {
            Ok(wire) => {
                self.wire = Some(wire);
                Ok(())
            }
            Err(_) => {
                self.dial_faults = self.dial_faults.saturating_add(1);
                Err(Failed)
            }
        }
    }

    ghost reads_leave_taken = { Prim.search rules };

    ghost reads_leave_write_faults = { Prim.search rules };

    ghost reads_leave_dialled = { Prim.search rules };

    ghost reads_leave_replies = { Prim.search rules };

    ghost reads_leave_dial_faults = { Prim.search rules };

    ghost writes_leave_left = { Prim.search rules };

    ghost writes_leave_read_faults = { Prim.search rules };

    ghost writes_leave_ends = { Prim.search rules };

    ghost writes_leave_dialled = { Prim.search rules };

    ghost writes_leave_replies = { Prim.search rules };

    ghost writes_leave_dial_faults = { Prim.search rules };
}

impl<R: rt::Files + Net + rt::Clock + Wait + Copy + Send> Hall for UnixHall<R> {
    ghost use Rattle.std.proofs.Common.{rules};

    type Door = UnixDoor<R>;

    ghost doors = { λ _. None };

    ghost hall_faults = { λ s. s.hall_faults };

    // It fails where somebody serves at that path, and where another file than a socket stands
    // there, which is left alone.
    fn open_door(&mut self, alloc: Global, path: &str) -> Result<UnixDoor<R>, FileFail> {
        let owner = self.owner_of(path);
        match UnixDoor::open(self.rt, alloc, &self.shared, path, owner, self.time) {
            Ok(door) => Ok(door),
            Err(e) if e.kind() == ErrorKind::OutOfMemory => Err(FileFail::NoMemory),
            Err(_) => {
                self.hall_faults = self.hall_faults.saturating_add(1);
                Err(FileFail::Failed)
            }
        }
    }

    ghost reads_leave_doors = { Prim.search rules };

    ghost reads_leave_hall_faults = { Prim.search rules };

    ghost writes_leave_doors = { Prim.search rules };

    ghost writes_leave_hall_faults = { Prim.search rules };

    ghost dials_leave_doors = { Prim.search rules };

    ghost dials_leave_hall_faults = { Prim.search rules };
}
