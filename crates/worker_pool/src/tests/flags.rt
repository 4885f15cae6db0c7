//! A connection that wants another to be read beside it.

ghost use Rattle.std.specs.Prelude.{◌≡◌, ℕ, ◌≤◌, None, IfOk, OnOk, OnErr};

use byte_io::{Door, Link, MemLink, Next, Sink, Source};
use munge_types::Failed;
use std::alloc::Global;
use std::sync::atomic::{AtomicBool, Ordering};
use std::thread;

/// How often the other's flag is looked at.
const TURNS: u32 = 1_000_000;

/// A connection that raises its flag at each read, and gives its bytes only once the other's flag
/// is up. It tells nothing of its bytes.
#[derive(Drop)]
pub(super) struct FlagLink<'a> {
    mine: &'a AtomicBool,
    theirs: &'a AtomicBool,
    link: MemLink,
    faults: u64,
}

impl<'a> FlagLink<'a> {
    pub(super) fn new(
        alloc: Global,
        mine: &'a AtomicBool,
        theirs: &'a AtomicBool,
        bytes: Vec<u8>,
    ) -> FlagLink<'a>
        ensures reads { result.faults ≡ 0 }
        ensures writes { result.link.sink.faults ≡ 0 }
    {
        FlagLink {
            mine,
            theirs,
            link: MemLink::new(alloc, bytes, Vec::new(alloc), Vec::new(alloc)),
            faults: 0,
        }
    }
}

/// Whether the flag went up, which is looked at a million times, with a yield after each.
fn comes_up(flag: &AtomicBool) -> bool {
    for _ in 0..TURNS {
        if flag.load(Ordering::SeqCst) {
            return true;
        }
        thread::yield_now();
    }
    false
}

impl<'a> Source for FlagLink<'a> {
    ghost use Rattle.byte_io.specs.MemSink.{SinkState};

    ghost left = { λ s. None };

    ghost read_faults = { λ s. s.faults };

    ghost ends = { λ s. s.link.source.ends };

    ghost BesideReads = { SinkState × ℕ };

    ghost beside_reads = { λ s. (s.link.sink, s.link.rings) };

    fn read(&mut self, into: &mut [u8]) -> Result<usize, Failed> {
        self.mine.store(true, Ordering::SeqCst);
        let read = if comes_up(self.theirs) {
            self.link.read(into)
        } else {
            Err(Failed)
        };
        if read.is_err() {
            self.faults = self.faults.saturating_add(1);
        }
        read
    }
}

impl<'a> Sink for FlagLink<'a> {
    ghost use Rattle.byte_io.specs.MemSource.{SourceState};

    ghost taken = { λ s. None };

    ghost write_faults = { λ s. s.link.sink.faults };

    ghost BesideWrites = { SourceState × ℕ × ℕ };

    ghost beside_writes = { λ s. (s.link.source, s.link.rings, s.faults) };

    fn write(&mut self, from: &[u8]) -> Result<usize, Failed> {
        self.link.write(from)
    }
}

impl<'a> Link for FlagLink<'a> {
    ghost use Rattle.std.proofs.Common.{rules};

    ghost rings = { λ s. s.link.rings };

    fn ring(&mut self) {
        self.link.ring()
    }

    ghost reads_leave_taken = { Prim.search rules };

    ghost reads_leave_write_faults = { Prim.search rules };

    ghost reads_leave_rings = { Prim.search rules };

    ghost writes_leave_left = { Prim.search rules };

    ghost writes_leave_read_faults = { Prim.search rules };

    ghost writes_leave_ends = { Prim.search rules };

    ghost writes_leave_rings = { Prim.search rules };
}

/// A door with two connections, of which each waits for the other's flag. It tells nothing of them.
#[derive(Drop)]
pub(super) struct FlagDoor<'a> {
    alloc: Global,
    one: &'a AtomicBool,
    other: &'a AtomicBool,
    bytes: &'a [u8],
    given: u32,
    faults: u64,
}

impl<'a> FlagDoor<'a> {
    /// Both connections give these bytes.
    pub(super) fn new(
        alloc: Global,
        one: &'a AtomicBool,
        other: &'a AtomicBool,
        bytes: &'a [u8],
    ) -> FlagDoor<'a> {
        FlagDoor {
            alloc,
            one,
            other,
            bytes,
            given: 0,
            faults: 0,
        }
    }
}

impl<'a> Door for FlagDoor<'a> {
    ghost use Rattle.std.proofs.Common.{rules};

    type Conn = FlagLink<'a>;

    ghost coming = { λ _. None };

    ghost door_faults = { λ s. s.faults };

    ghost is_over = { λ s. 2 ≤ s.given };

    fn accept(&mut self) -> Next<FlagLink<'a>> {
        let (mine, theirs) = match self.given {
            0 => (self.one, self.other),
            1 => (self.other, self.one),
            _ => return Next::Over,
        };
        self.given += 1;
        match self.bytes.to_vec(self.alloc) {
            Ok(bytes) => Next::Conn(FlagLink::new(self.alloc, mine, theirs, bytes)),
            Err(_) => {
                self.faults = self.faults.saturating_add(1);
                Next::Failed
            }
        }
    }

    ghost over_at_none = { Prim.search rules };
}
