//! Putting items into the queue and taking them from it.

ghost use Rattle.std.specs.Prelude.{◌≡◌, ◌≤◌, ◌+◌, ◌++◌, [], length, vec_capacity};
ghost use Rattle.std.specs.List.Sorted.{IsPermutation};
ghost use Rattle.crossbeam_queue.specs.Passes.{view, ruled_capacity};
ghost use Rattle.worker_pool.specs.Queue.{HasPut, whole};
ghost use Rattle.worker_pool.specs.Holders.{HasParts, HasTakenOrLeft, HasTakenOrNone};

use crate::queue::{Puts, Queue, QueuePass, Takes};
use crate::signal::Signal;
use std::sync::Wait;

/// Puts the item, and sleeps while the queue is full.
pub(crate) fn put<T, W: Wait>(
    rt: &W,
    queue: &Queue<T>,
    signal: &Signal,
    pass: &mut QueuePass<T>,
    item: T,
)
    requires { HasParts queue.now pass.old }
    ensures pass { HasParts queue.now pass.new }
    ensures put { HasPut (view pass.old) item (view pass.new) }
{
    let mut item = item;
    for _ in rt.forever() {
        let seen = signal.now(rt);
        match queue.push_as::<Puts, W>(rt, pass, item) {
            Ok(()) => {
                signal.tell_put(rt);
                return;
            }
            Err(back) => {
                item = back;
                signal.wait_for_room(rt, seen);
            }
        }
    }
    unreachable!()
}

/// Takes an item, and sleeps while there is none. `None` comes only after all acceptors have ended,
/// of which no clause speaks.
pub(crate) fn take<T, W: Wait>(
    rt: &W,
    queue: &Queue<T>,
    signal: &Signal,
    pass: &mut QueuePass<T>,
) -> Option<T>
    requires { HasParts queue.now pass.old }
    ensures pass { HasParts queue.now pass.new }
    ensures taken { HasTakenOrNone (view pass.old) result (view pass.new) }
{
    for _ in rt.forever() {
        let seen = signal.now(rt);
        match queue.pop_as::<Takes, W>(rt, pass) {
            Some(item) => {
                signal.tell_taken(rt);
                return Some(item);
            }
            None => {
                if seen.has_ended() {
                    return None;
                }
                signal.wait_for_item(rt, seen);
            }
        }
    }
    unreachable!()
}

/// Takes an item, and does not sleep. `None` says that the queue was empty: to whoever has all
/// parts, that all that was put was taken.
pub(crate) fn take_left<T, W: Wait>(rt: &W, queue: &Queue<T>, pass: &mut QueuePass<T>) -> Option<T>
    requires { HasParts queue.now pass.old }
    ensures pass { HasParts queue.now pass.new }
    ensures taken { HasTakenOrLeft (view pass.old) result (view pass.new) }
{
    match queue.pop_as::<Takes, W>(rt, pass) {
        Some(item) => {
            queue.learn_as::<Takes>(pass);
            Some(item)
        }
        None => None,
    }
}

/// How many items are in the queue, for whoever has all parts.
pub(crate) fn count_left<T, W: Wait>(rt: &W, queue: &Queue<T>, pass: &mut QueuePass<T>) -> usize
    requires parts { HasParts queue.now pass.old }
    requires whole { (view pass.old).parts ≡ whole }
    ensures pass { HasParts queue.now pass.new }
    ensures view { view pass.new ≡ view pass.old }
    ensures most { result ≤ ruled_capacity queue.now }
    ensures count { length (view pass.old).put ≡ length (view pass.old).taken + result }
{
    queue.len_as::<Takes, W>(rt, pass)
}

/// Takes all that is left into a vector that has room for it, for whoever has all parts.
pub(crate) fn collect<T, W: Wait>(
    rt: &W,
    queue: &Queue<T>,
    pass: &mut QueuePass<T>,
    left: &mut Vec<T>,
)
    requires parts { HasParts queue.now pass.old }
    requires whole { (view pass.old).parts ≡ whole }
    requires none { left.old.items ≡ [] }
    requires room { ruled_capacity queue.now ≤ vec_capacity left.old }
    ensures same { IsPermutation (view pass.old).put ((view pass.old).taken ++ left.new.items) }
    ensures few { length left.new.items ≤ ruled_capacity queue.now }
{
    let _most = count_left(rt, queue, pass);
    for _ in rt.forever() {
        let Some(item) = take_left(rt, queue, pass) else {
            break;
        };
        left.push_reserved(item);
    }
}
