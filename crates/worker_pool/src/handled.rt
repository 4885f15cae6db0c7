//! A connection that was served.

use session_core::Served;

/// A connection that a door gave, as it was left after it was served.
#[derive(Drop)]
pub struct Handled<L: Drop> {
    /// The number of its post.
    pub post: u32,
    /// Its number among the connections of that post's door.
    pub turn: u64,
    /// The number of the pass that served it, which its entry carries.
    pub pass: u32,
    /// The connection, as it was left.
    pub conn: L,
    /// What came of it.
    pub served: Served,
}
