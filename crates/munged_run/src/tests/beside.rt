//! A daemon whose connections want each other to be read beside them.

ghost use Rattle.std.specs.Prelude.{◌≡◌, ℕ, ◌≤◌, None};

use super::serving::{FIRST, REQUEST, SERVED, USUAL, assert_serves};
use byte_io::{Door, FileFail, Hall, Link, MemLink, MemTicker, MemWire, Next, Sink, Source, Wire};
use munge_types::Failed;
use std::alloc::Global;
use std::sync::atomic::{AtomicBool, Ordering};
use std::test::Fail;
use std::thread;

/// How often the other's flag is looked at.
const TURNS: u32 = 1_000_000;

/// The flags of two connections.
#[derive(Drop)]
struct Flags {
    first: AtomicBool,
    second: AtomicBool,
}

/// A connection that raises its flag at each read, and gives its bytes only once the other's flag
/// is up. It tells nothing of its bytes.
#[derive(Drop)]
struct FlagLink<'a> {
    mine: &'a AtomicBool,
    theirs: &'a AtomicBool,
    link: MemLink,
    faults: u64,
}

/// Whether the flag went up, which is looked at a million times, with a yield after each.
fn comes_up(flag: &AtomicBool) -> bool {
    for _ in 0..TURNS {
        if flag.load(Ordering::SeqCst) {
            return true;
        }
        thread::yield_now();
    }
    false
}

impl<'a> Source for FlagLink<'a> {
    ghost left = { λ _. None };

    ghost read_faults = { λ s. s.faults };

    ghost ends = { λ s. s.link.source.ends };

    // The faults of writes, and the rings.
    ghost BesideReads = { ℕ × ℕ };

    ghost beside_reads = { λ s. (s.link.sink.faults, s.link.rings) };

    fn read(&mut self, into: &mut [u8]) -> Result<usize, Failed> {
        self.mine.store(true, Ordering::SeqCst);
        let read = if comes_up(self.theirs) {
            self.link.read(into)
        } else {
            Err(Failed)
        };
        if read.is_err() {
            self.faults = self.faults.saturating_add(1);
        }
        read
    }
}

impl<'a> Sink for FlagLink<'a> {
    ghost taken = { λ _. None };

    ghost write_faults = { λ s. s.link.sink.faults };

    // The ends, the rings, and the faults of reads.
    ghost BesideWrites = { ℕ × ℕ × ℕ };

    ghost beside_writes = { λ s. (s.link.source.ends, s.link.rings, s.faults) };

    fn write(&mut self, from: &[u8]) -> Result<usize, Failed> {
        self.link.write(from)
    }
}

impl<'a> Link for FlagLink<'a> {
    ghost use Rattle.std.proofs.Common.{rules};

    ghost rings = { λ s. s.link.rings };

    fn ring(&mut self) {
        self.link.ring()
    }

    ghost reads_leave_taken = { Prim.search rules };

    ghost reads_leave_write_faults = { Prim.search rules };

    ghost reads_leave_rings = { Prim.search rules };

    ghost writes_leave_left = { Prim.search rules };

    ghost writes_leave_read_faults = { Prim.search rules };

    ghost writes_leave_ends = { Prim.search rules };

    ghost writes_leave_rings = { Prim.search rules };
}

/// A door with two connections, of which each waits for the other's flag, and of which so many were
/// given. It tells nothing of them.
#[derive(Drop)]
struct FlagDoor<'a> {
    alloc: Global,
    flags: &'a Flags,
    given: u32,
    faults: u64,
}

impl<'a> Door for FlagDoor<'a> {
    ghost use Rattle.std.proofs.Common.{rules};

    type Conn = FlagLink<'a>;

    ghost coming = { λ _. None };

    ghost door_faults = { λ s. s.faults };

    ghost is_over = { λ s. 2 ≤ s.given };

    fn accept(&mut self) -> Next<FlagLink<'a>> {
        let (mine, theirs) = match self.given {
            0 => (&self.flags.first, &self.flags.second),
            1 => (&self.flags.second, &self.flags.first),
            _ => return Next::Over,
        };
        self.given += 1;
        match REQUEST.to_vec(self.alloc) {
            Ok(bytes) => Next::Conn(FlagLink {
                mine,
                theirs,
                link: MemLink::new(
                    self.alloc,
                    bytes,
                    Vec::new(self.alloc),
                    Vec::new(self.alloc),
                ),
                faults: 0,
            }),
            Err(_) => {
                self.faults = self.faults.saturating_add(1);
                Next::Failed
            }
        }
    }

    ghost over_at_none = { Prim.search rules };
}

/// A hall whose door at one path gives two such connections, and whose other doors give none. It
/// tells nothing of them, nor of its wire.
#[derive(Drop)]
struct FlagHall<'a> {
    flags: &'a Flags,
    wire: MemWire,
}

impl<'a> Source for FlagHall<'a> {
    ghost left = { λ _. None };

    ghost read_faults = { λ s. s.wire.source.faults };

    ghost ends = { λ s. s.wire.source.ends };

    // The faults of writes and of dials.
    ghost BesideReads = { ℕ × ℕ };

    ghost beside_reads = { λ s. (s.wire.sink.faults, s.wire.faults) };

    fn read(&mut self, into: &mut [u8]) -> Result<usize, Failed> {
        self.wire.read(into)
    }
}

impl<'a> Sink for FlagHall<'a> {
    ghost taken = { λ _. None };

    ghost write_faults = { λ s. s.wire.sink.faults };

    // The faults of reads, the ends, and the faults of dials.
    ghost BesideWrites = { ℕ × ℕ × ℕ };

    ghost beside_writes = { λ s. (s.wire.source.faults, s.wire.source.ends, s.wire.faults) };

    fn write(&mut self, from: &[u8]) -> Result<usize, Failed> {
        self.wire.write(from)
    }
}

impl<'a> Wire for FlagHall<'a> {
    ghost use Rattle.std.proofs.Common.{rules};

    ghost dialled = { λ _. None };

    ghost replies = { λ _. None };

    ghost dial_faults = { λ s. s.wire.faults };

    ghost BesideDials = { Unit {0} };

    ghost beside_dials = { λ _. tt };

    fn dial(&mut self, path: &str) -> Result<(), Failed> {
        self.wire.dial(path)
    }

    ghost reads_leave_taken = { Prim.search rules };

    ghost reads_leave_write_faults = { Prim.search rules };

    ghost reads_leave_dialled = { Prim.search rules };

    ghost reads_leave_replies = { Prim.search rules };

    ghost reads_leave_dial_faults = { Prim.search rules };

    ghost writes_leave_left = { Prim.search rules };

    ghost writes_leave_read_faults = { Prim.search rules };

    ghost writes_leave_ends = { Prim.search rules };

    ghost writes_leave_dialled = { Prim.search rules };

    ghost writes_leave_replies = { Prim.search rules };

    ghost writes_leave_dial_faults = { Prim.search rules };
}

impl<'a> Hall for FlagHall<'a> {
    ghost use Rattle.std.proofs.Common.{rules};

    type Door = FlagDoor<'a>;

    ghost doors = { λ _. None };

    ghost hall_faults = { λ _. 0 };

    fn open_door(&mut self, alloc: Global, path: &str) -> Result<FlagDoor<'a>, FileFail> {
        let given = if path == "ann.socket" { 0 } else { 2 };
        Ok(FlagDoor {
            alloc,
            flags: self.flags,
            given,
            faults: 0,
        })
    }

    ghost reads_leave_doors = { Prim.search rules };

    ghost reads_leave_hall_faults = { Prim.search rules };

    ghost writes_leave_doors = { Prim.search rules };

    ghost writes_leave_hall_faults = { Prim.search rules };

    ghost dials_leave_doors = { Prim.search rules };

    ghost dials_leave_hall_faults = { Prim.search rules };
}

#[test]
fn both_must_serve(rt: HostRuntime) -> Result<(), Fail> {
    let alloc = rt.alloc();
    let flags = Flags {
        first: AtomicBool::new(false),
        second: AtomicBool::new(false),
    };
    let mut hall = FlagHall {
        flags: &flags,
        wire: MemWire::new(alloc, Vec::new(alloc), Vec::new(alloc)),
    };
    let mut ticker = MemTicker::new(0, Vec::new(alloc));
    assert_serves(
        &rt,
        alloc,
        &USUAL,
        &mut hall,
        &mut ticker,
        &SERVED,
        Some(FIRST),
    )
}
