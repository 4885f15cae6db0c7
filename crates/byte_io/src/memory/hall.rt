//! A hall in memory.

ghost use Rattle.std.specs.Prelude.{
  ◌≡◌,
  ◌≢◌,
  ℕ,
  ◌≤◌,
  ◌⊎◌,
  List,
  Some,
  None,
  Err,
  bytes_eq,
  Contains,
  All,
  IfOk,
  IsErrOf,
  length,
  map,
};
ghost use Rattle.std.specs.List.{position_from};
ghost use Rattle.std.specs.String.{string_bytes};
ghost use Rattle.byte_io.specs.Counts.{raised};
ghost use Rattle.byte_io.specs.Files.{faults_after};
ghost use Rattle.byte_io.specs.MemDoor.{DoorState};
ghost use Rattle.byte_io.specs.MemHall.{HasNoDoorFault, doors_of};
ghost use Rattle.byte_io.specs.MemSink.{SinkState, WritesAll};
ghost use Rattle.byte_io.specs.MemSource.{SourceState, ReadsFront};
ghost use Rattle.byte_io.specs.MemWire.{DialsReply};
ghost use Rattle.byte_io.specs.OpensDoor.{door_of, OpensDoor};

use super::calls::Calls;
use super::door::MemDoor;
use super::wire::MemWire;
use crate::files::FileFail;
use crate::hall::Hall;
use crate::sink::Sink;
use crate::source::Source;
use crate::wire::Wire;
use munge_types::Failed;
use std::alloc::Global;
use std::marker::Model;

/// A door in memory, with the path of its socket.
#[derive(Drop)]
pub struct NamedDoor {
    /// The path at which it is opened.
    pub path: String,
    /// The door itself.
    pub door: MemDoor,
}

/// Doors in memory, each opened once, beside a wire. Of two with one path the first is opened
/// first.
#[derive(Drop)]
pub struct MemHall {
    doors: Vec<NamedDoor>,
    wire: MemWire,
    calls: Calls,
}

impl Model for MemHall {
    ghost use Rattle.std.specs.Prelude.{All};
    ghost use Rattle.byte_io.specs.MemHall.{HallState, HasNoDoorFault, doors_of};

    ghost Value = { HallState };

    ghost view = { λ s. record {
      doors = doors_of s.doors.items;
      wire = s.wire;
      fails = s.calls.fails.items;
      calls = s.calls.made;
      faults = s.calls.faults;
    } };

    ghost invariant = { λ s. All HasNoDoorFault s.doors.items };
}

impl MemHall {
    /// Opens `doors` by their paths, and dials over `wire`. The calls of `open_door` whose numbers
    /// are in `fails` fail, counted from 1, and so does one with a path of which no door is left.
    pub fn new(doors: Vec<NamedDoor>, wire: MemWire, fails: Vec<u32>) -> MemHall
        requires { All HasNoDoorFault doors.items }
        ensures { result ≡ record {
          doors = doors_of doors.items;
          wire = wire;
          fails = fails.items;
          calls = 0;
          faults = 0;
        } }
    {
        MemHall {
            doors,
            wire,
            calls: Calls::new(fails),
        }
    }

    /// The bytes that were written, on all connections.
    pub fn taken(&self) -> &[u8]
        ensures { result.now ≡ self.now.wire.sink.taken }
    {
        self.wire.taken()
    }

    /// The paths of the dials that succeeded.
    pub fn dialled(&self) -> &[String]
        ensures { map string_bytes result.now ≡ self.now.wire.dialled }
    {
        self.wire.dialled()
    }
}

impl Source for MemHall {
    ghost left = { λ s. Some s.wire.source.left };

    ghost read_faults = { λ s. s.wire.source.faults };

    ghost ends = { λ s. s.wire.source.ends };

    // What was written, the dials, and the doors.
    ghost BesideReads = { SinkState × List (List ℕ) × List (List ℕ) × ℕ
        × List (List ℕ × DoorState) × ℕ };

    ghost beside_reads = { λ s.
        (s.wire.sink, s.wire.dialled, s.wire.replies, s.wire.faults, s.doors, s.faults) };

    fn read(&mut self, into: &mut [u8]) -> Result<usize, Failed>
        ensures within { IfOk result (λ n. n ≤ length into.new) }
        ensures source { ReadsFront self.old.wire.source self.new.wire.source result into.new }
        ensures others { self.new ≡ record self.old {
          wire = record self.old.wire { source = self.new.wire.source };
        } }
        ensures ends_stay { self.old.wire.source.ends ≤ self.new.wire.source.ends }
        ensures faults_stay { self.old.wire.source.faults ≤ self.new.wire.source.faults }
    {
        self.wire.read(into)
    }
}

impl Sink for MemHall {
    ghost taken = { λ s. Some s.wire.sink.taken };

    ghost write_faults = { λ s. s.wire.sink.faults };

    // What is read, the dials, and the doors.
    ghost BesideWrites = { SourceState × List (List ℕ) × List (List ℕ) × ℕ
        × List (List ℕ × DoorState) × ℕ };

    ghost beside_writes = { λ s.
        (s.wire.source, s.wire.dialled, s.wire.replies, s.wire.faults, s.doors, s.faults) };

    fn write(&mut self, from: &[u8]) -> Result<usize, Failed>
        ensures sink { WritesAll self.old.wire.sink self.new.wire.sink result from.now }
        ensures others { self.new ≡ record self.old {
          wire = record self.old.wire { sink = self.new.wire.sink };
        } }
        ensures faults_stay { self.old.wire.sink.faults ≤ self.new.wire.sink.faults }
    {
        self.wire.write(from)
    }
}

impl Wire for MemHall {
    ghost use Rattle.std.proofs.Common.{rules};

    ghost dialled = { λ s. Some s.wire.dialled };

    ghost replies = { λ s. Some s.wire.replies };

    ghost dial_faults = { λ s. s.wire.faults };

    // The doors.
    ghost BesideDials = { List (List ℕ × DoorState) × ℕ };

    ghost beside_dials = { λ s. (s.doors, s.faults) };

    fn dial(&mut self, path: &str) -> Result<(), Failed>
        ensures dials { DialsReply self.old.wire self.new.wire result path.now }
        ensures others { self.new ≡ record self.old { wire = self.new.wire } }
        ensures faults_stay { self.old.wire.faults ≤ self.new.wire.faults }
    {
        self.wire.dial(path)
    }

    ghost reads_leave_taken = { Prim.search rules };

    ghost reads_leave_write_faults = { Prim.search rules };

    ghost reads_leave_dialled = { Prim.search rules };

    ghost reads_leave_replies = { Prim.search rules };

    ghost reads_leave_dial_faults = { Prim.search rules };

    ghost writes_leave_left = { Prim.search rules };

    ghost writes_leave_read_faults = { Prim.search rules };

    ghost writes_leave_ends = { Prim.search rules };

    ghost writes_leave_dialled = { Prim.search rules };

    ghost writes_leave_replies = { Prim.search rules };

    ghost writes_leave_dial_faults = { Prim.search rules };
}

/// The place of the first door of that path.
fn find_door(doors: &[NamedDoor], path: &str) -> Option<usize>
    ensures { result
        ≡ position_from (λ named. bytes_eq (string_bytes named.path) path.now) 0 doors.now }
{
    doors.iter().position(|named| named.path.as_str() == path)
}

impl Hall for MemHall {
    ghost use Rattle.std.proofs.Common.{rules};

    type Door = MemDoor;

    ghost doors = { λ s. Some s.doors };

    ghost hall_faults = { λ s. s.faults };

    fn open_door(&mut self, _alloc: Global, path: &str) -> Result<MemDoor, FileFail>
        ensures planned { Contains self.old.fails (raised self.old.calls)
            → IsErrOf result FileFail.Failed }
        ensures absent { door_of self.old.doors path.now ≡ None
            → IsErrOf result FileFail.Failed }
        ensures only { IsErrOf result FileFail.Failed
            → Contains self.old.fails (raised self.old.calls)
            ⊎ (door_of self.old.doors path.now ≡ None) }
        ensures memory { result ≢ Err FileFail.NoMemory }

        ensures opened { OpensDoor (Some self.old.doors) (Some self.new.doors) path.now result }
        ensures no_fault { IfOk result (λ door. door.faults ≡ 0) }
        ensures state { self.new ≡ record self.old {
          doors = self.new.doors;
          calls = raised self.old.calls;
          faults = faults_after result self.old.faults;
        } }
        ensures faults_stay { self.old.faults ≤ self.new.faults }
    {
        if self.calls.begin().is_err() {
            return Err(FileFail::Failed);
        }
        match find_door(self.doors.as_slice(), path) {
            Some(place) => {
                let named = self.doors.remove(place);
                Ok(named.door)
            }
            None => {
                self.calls.fault();
                Err(FileFail::Failed)
            }
        }
    }

    ghost reads_leave_doors = { Prim.search rules };

    ghost reads_leave_hall_faults = { Prim.search rules };

    ghost writes_leave_doors = { Prim.search rules };

    ghost writes_leave_hall_faults = { Prim.search rules };

    ghost dials_leave_doors = { Prim.search rules };

    ghost dials_leave_hall_faults = { Prim.search rules };
}
