//! Where connections come from.

ghost use Rattle.std.specs.Prelude.{
  ◌≡◌,
  ℕ,
  ◌<◌,
  ◌≤◌,
  ◌^◌,
  ◌↔◌,
  List,
  [],
  Option,
  length,
  IfSome,
};
ghost use Rattle.byte_io.specs.Doors.{Accepts, IfConn, OnOver, CountsDoorFault};

use crate::link::Link;

/// What a door answers.
#[derive(Debug, Drop)]
pub enum Next<C> {
    /// A connection.
    Conn(C),
    /// The door is over.
    Over,
    /// The door failed.
    Failed,
}

/// A place where connections come in, one after the other, until it is over.
pub trait Door: Send {
    /// A connection of this door.
    type Conn: Link;

    // The connections still to come, where the door tells them.
    ghost coming: { Self → Option (List Self.Conn) };

    // How many calls failed.
    ghost door_faults: { Self → ℕ };

    // No connection comes any more. What that means is the door's own.
    ghost is_over: { Self → Type 0 };

    /// Waits for the next connection, which has had no fault yet.
    fn accept(&mut self) -> Next<Self::Conn>
        ensures few { IfSome (coming self.old) (λ conns. length conns < 2 ^ 64) }
        ensures told { Accepts (coming self.old) (coming self.new) result }
        ensures no_read_fault { IfConn result (λ conn. Self.Conn.read_faults conn ≡ 0) }
        ensures no_write_fault { IfConn result (λ conn. Self.Conn.write_faults conn ≡ 0) }
        ensures over { OnOver result (is_over self.new) }
        ensures counted { CountsDoorFault result
            (door_faults self.old) (door_faults self.new) }
        ensures faults_stay { door_faults self.old ≤ door_faults self.new };

    // Where the door tells, it is over exactly where no connection is to come.
    ghost over_at_none: { (door : Self)
        → IfSome (coming door) (λ conns. is_over door ↔ (conns ≡ [])) };
}
