//! Connections that go out.

ghost use Rattle.std.specs.Prelude.{◌≡◌, ℕ, ◌≤◌, List, Option, OnOk, OnErr};
ghost use Rattle.byte_io.specs.Beside.{Leaves};
ghost use Rattle.byte_io.specs.Counts.{Rose};
ghost use Rattle.byte_io.specs.Dials.{Dials};
ghost use Rattle.byte_io.specs.TakesFirst.{TakesFirst};

use crate::sink::Sink;
use crate::source::Source;
use munge_types::Failed;

/// One outgoing connection at a time. Before the first dial there is none, and nothing to read.
pub trait Wire: Source + Sink {
    // The paths of the dials that succeeded, where the wire tells them.
    ghost dialled: { Self → Option (List (List ℕ)) };

    // The replies still to come, one for each dial, where the wire tells them.
    ghost replies: { Self → Option (List (List ℕ)) };

    // How many dials failed.
    ghost dial_faults: { Self → ℕ };

    // What an object that is more than a wire holds besides. A dial leaves it as it is.
    ghost BesideDials: { Type 0 };

    ghost beside_dials: { Self → BesideDials };

    /// Connects to the socket of that path. Reads and writes are then of the new connection, whose
    /// bytes to read are the first reply still to come, or none past the last. `Failed` leaves the
    /// connection that there was.
    fn dial(&mut self, path: &str) -> Result<(), Failed>
        ensures path { OnOk result (Dials (dialled self.old) (dialled self.new) path.now) }
        ensures path_kept { OnErr result (dialled self.new ≡ dialled self.old) }

        ensures reply { OnOk result
            (TakesFirst (replies self.old) (replies self.new) (Self.left self.new)) }
        ensures reply_kept { OnErr result (replies self.new ≡ replies self.old) }
        ensures left_kept { OnErr result (Self.left self.new ≡ Self.left self.old) }

        ensures failed { OnErr result (Rose (dial_faults self.old) (dial_faults self.new)) }
        ensures sound { OnOk result (dial_faults self.new ≡ dial_faults self.old) }
        ensures faults_stay { dial_faults self.old ≤ dial_faults self.new }

        ensures read_faults { Self.read_faults self.new ≡ Self.read_faults self.old }
        ensures ends { Self.ends self.new ≡ Self.ends self.old }
        ensures taken { Self.taken self.new ≡ Self.taken self.old }
        ensures write_faults { Self.write_faults self.new ≡ Self.write_faults self.old }

        ensures beside { beside_dials self.new ≡ beside_dials self.old };

    // A read leaves what was written, and the dials.
    ghost reads_leave_taken: { Leaves Self.beside_reads Self.taken };

    ghost reads_leave_write_faults: { Leaves Self.beside_reads Self.write_faults };

    ghost reads_leave_dialled: { Leaves Self.beside_reads dialled };

    ghost reads_leave_replies: { Leaves Self.beside_reads replies };

    ghost reads_leave_dial_faults: { Leaves Self.beside_reads dial_faults };

    // A write leaves what is read, and the dials.
    ghost writes_leave_left: { Leaves Self.beside_writes Self.left };

    ghost writes_leave_read_faults: { Leaves Self.beside_writes Self.read_faults };

    ghost writes_leave_ends: { Leaves Self.beside_writes Self.ends };

    ghost writes_leave_dialled: { Leaves Self.beside_writes dialled };

    ghost writes_leave_replies: { Leaves Self.beside_writes replies };

    ghost writes_leave_dial_faults: { Leaves Self.beside_writes dial_faults };
}
