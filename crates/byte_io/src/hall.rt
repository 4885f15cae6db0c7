//! Where doors are opened, and connections go out.

ghost use Rattle.std.specs.Prelude.{◌≡◌, ℕ, ◌≤◌, List, Option, IfOk};
ghost use Rattle.byte_io.specs.Beside.{Leaves};
ghost use Rattle.byte_io.specs.Files.{CountsFileFault};
ghost use Rattle.byte_io.specs.OpensDoor.{OpensDoor};

use crate::door::Door;
use crate::files::FileFail;
use crate::wire::Wire;
use std::alloc::Global;

/// A place where sockets lie: doors are opened there, and a wire goes out from there.
pub trait Hall: Wire {
    /// A door of this hall.
    type Door: Door;

    // The doors still to be opened, with their paths, where the hall tells them.
    ghost doors: { Self → Option (List (List ℕ × Self.Door)) };

    // How many doors could not be opened.
    ghost hall_faults: { Self → ℕ };

    /// The first door of that path that is still to be opened, which has had no fault yet.
    /// `NoMemory` and `Failed` open none.
    fn open_door(&mut self, alloc: Global, path: &str) -> Result<Self::Door, FileFail>
        ensures opened { OpensDoor (doors self.old) (doors self.new) path.now result }
        ensures no_fault { IfOk result (λ door. Self.Door.door_faults door ≡ 0) }
        ensures counted { CountsFileFault result
            (hall_faults self.old) (hall_faults self.new) }
        ensures faults_stay { hall_faults self.old ≤ hall_faults self.new }

        ensures left { Self.left self.new ≡ Self.left self.old }
        ensures read_faults { Self.read_faults self.new ≡ Self.read_faults self.old }
        ensures ends { Self.ends self.new ≡ Self.ends self.old }
        ensures taken { Self.taken self.new ≡ Self.taken self.old }
        ensures write_faults { Self.write_faults self.new ≡ Self.write_faults self.old }
        ensures dialled { Self.dialled self.new ≡ Self.dialled self.old }
        ensures replies { Self.replies self.new ≡ Self.replies self.old }
        ensures dial_faults { Self.dial_faults self.new ≡ Self.dial_faults self.old };

    // A read, a write and a dial leave the doors.
    ghost reads_leave_doors: { Leaves Self.beside_reads doors };

    ghost reads_leave_hall_faults: { Leaves Self.beside_reads hall_faults };

    ghost writes_leave_doors: { Leaves Self.beside_writes doors };

    ghost writes_leave_hall_faults: { Leaves Self.beside_writes hall_faults };

    ghost dials_leave_doors: { Leaves Self.beside_dials doors };

    ghost dials_leave_hall_faults: { Leaves Self.beside_dials hall_faults };
}
