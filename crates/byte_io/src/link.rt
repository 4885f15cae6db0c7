//! Connections.

ghost use Rattle.std.specs.Prelude.{◌≡◌, ℕ, ◌≤◌};
ghost use Rattle.byte_io.specs.Beside.{Leaves};
ghost use Rattle.byte_io.specs.Counts.{Rose};

use crate::sink::Sink;
use crate::source::Source;

/// A connection that a door gave: what its peer sends is read, and what is written goes to the peer.
pub trait Link: Source + Sink + Send {
    // How often the service was asked to stop.
    ghost rings: { Self → ℕ };

    /// Asks the service to stop. It cannot fail, and reads and writes nothing.
    fn ring(&mut self)
        ensures rang { Rose (rings self.old) (rings self.new) }
        ensures rings_stay { rings self.old ≤ rings self.new }

        ensures left { Self.left self.new ≡ Self.left self.old }
        ensures read_faults { Self.read_faults self.new ≡ Self.read_faults self.old }
        ensures ends { Self.ends self.new ≡ Self.ends self.old }
        ensures taken { Self.taken self.new ≡ Self.taken self.old }
        ensures write_faults { Self.write_faults self.new ≡ Self.write_faults self.old };

    // A read leaves what was written, and the rings.
    ghost reads_leave_taken: { Leaves Self.beside_reads Self.taken };

    ghost reads_leave_write_faults: { Leaves Self.beside_reads Self.write_faults };

    ghost reads_leave_rings: { Leaves Self.beside_reads rings };

    // A write leaves what is read, and the rings.
    ghost writes_leave_left: { Leaves Self.beside_writes Self.left };

    ghost writes_leave_read_faults: { Leaves Self.beside_writes Self.read_faults };

    ghost writes_leave_ends: { Leaves Self.beside_writes Self.ends };

    ghost writes_leave_rings: { Leaves Self.beside_writes rings };
}
