//! Where connections come from, and what is told of one that came.

ghost use Rattle.std.specs.Prelude.{◌≡◌, ◌+◌, ◌≤◌, [], map, vec_capacity, vec_len};

use munge_types::Identity;

/// A door, and the caller that whoever connects to it is.
#[derive(Drop)]
pub struct Post<D: Drop> {
    /// The caller.
    pub who: Identity,
    /// The door.
    pub door: D,
    /// Whether the door has failed, so that no more was asked of it. What is given here is not
    /// looked at.
    pub failed: bool,
}

/// A connection that a door gave.
#[derive(Drop)]
pub struct Waiting<L: Drop> {
    /// The number of its post, from 0 in the order in which the posts were given.
    pub post: u32,
    /// Its number among the connections of that door, from 0. It stands still at 2^64 - 1.
    pub turn: u64,
    /// The connection.
    pub conn: L,
}

/// The same on its way to a worker, with the caller of its post.
#[derive(Drop)]
pub(crate) struct Queued<L: Drop> {
    pub(crate) who: Identity,
    pub(crate) waiting: Waiting<L>,
}

/// The connections without their callers, in the same order.
pub(crate) fn let_out<L: Drop>(mut queued: Vec<Queued<L>>, left: &mut Vec<Waiting<L>>)
    requires none { left.old.items ≡ [] }
    requires room { vec_len left.old + vec_len queued ≤ vec_capacity left.old }
    ensures { left.new.items ≡ map (λ q. q.waiting) queued.items }
{
    while let Some(one) = queued.pop() {
        left.push_reserved(one.waiting);
    }
    left.reverse();
}
