//! The stop flag and the open doors.

ghost use Rattle.std.specs.Prelude.{◌≡◌, true, ◌↔◌, vec_len};
ghost use Rattle.unix_io.specs.Idle.{Idle, Stopped};

use munge_types::NoMemory;
use std::alloc::Global;
use std::net::Shutdown;
use std::os::unix::net::UnixStream;

/// What was seen of the stop flag and of the open doors, as they stood together at one moment.
#[derive(Clone, Copy)]
pub struct Seen {
    stopped: bool,
    open_doors: usize,
}

impl Seen {
    /// Before the first look: nobody asked to stop, and no door was open.
    pub fn nothing() -> Seen {
        Seen {
            stopped: false,
            open_doors: 0,
        }
    }

    /// The stop flag was up.
    pub fn is_stopped(&self) -> bool
        ensures { (result ≡ true) ↔ Stopped self.now }
    {
        self.stopped
    }

    /// Nobody comes any more: the flag was up, or no door was open.
    pub fn is_idle(&self) -> bool
        ensures { (result ≡ true) ↔ Idle self.now }
    {
        self.stopped || self.open_doors == 0
    }
}

/// A door that is open.
#[derive(Drop)]
struct OpenDoor {
    number: u64,
    // A second handle of its listening socket, as a stream, since a stream can be shut down.
    socket: UnixStream,
}

impl OpenDoor {
    /// Ends the accepts that wait, and all later ones once no connection waits any more. Later
    /// dials are refused.
    fn shut(&self) {
        let _ = self.socket.shutdown(Shutdown::Both);
    }
}

/// The stop flag, and the doors that are open.
#[derive(Drop)]
pub struct State {
    stopped: bool,
    doors: Vec<OpenDoor>,
    next: u64,
}

impl State {
    /// The flag is down, and no door is open.
    pub fn new(alloc: Global) -> State {
        State {
            stopped: false,
            doors: Vec::new(alloc),
            next: 0,
        }
    }

    /// The flag and the number of open doors.
    pub fn seen(&self) -> Seen
        ensures stopped { result.stopped ≡ self.now.stopped }
        ensures open_doors { result.open_doors ≡ vec_len self.now.doors }
    {
        Seen {
            stopped: self.stopped,
            open_doors: self.doors.len(),
        }
    }

    /// One door more is open, with this handle of its listening socket. Returns its number.
    pub fn add(&mut self, socket: UnixStream) -> Result<u64, NoMemory> {
        let number = self.next;
        let door = OpenDoor { number, socket };
        if self.stopped {
            door.shut();
        }
        self.doors.push(door)?;
        self.next = number.wrapping_add(1);
        Ok(number)
    }

    /// The door of that number is open no more.
    pub fn remove(&mut self, number: u64) {
        self.doors.retain(|door| door.number != number);
    }

    /// Raises the flag, and ends all accepts that wait.
    pub fn stop(&mut self)
        ensures { self.new.stopped ≡ true }
    {
        self.stopped = true;
        for door in &self.doors {
            door.shut();
        }
    }
}
