//! Passes of the queue, handed out and taken back.

ghost use Rattle.std.specs.Prelude.{◌≡◌, ◌≤◌, ◌<◌, ◌+◌, ◌^◌, [], length, map, reverse, IfOk, OnOk, vec_len, vec_capacity};
ghost use Rattle.std.specs.List.{All, range_with_len};
ghost use Rattle.crossbeam_queue.specs.Passes.{view, IsPassOf};
ghost use Rattle.worker_pool.specs.Holders.{HasGiven, HasParts, HasTakenIn, IsNewLedger};

use crate::queue::{Cut, Queue, QueuePass};
use munge_types::NoMemory;
use std::alloc::Global;

/// A pass of the queue with its number, beside what its holder works with.
#[derive(Drop)]
pub(crate) struct Holder<T, S: Drop> {
    pub(crate) number: u32,
    pub(crate) pass: QueuePass<T>,
    pub(crate) state: S,
}

/// Gives each of these states a pass of the queue, with one part of those that `home` has. The
/// last state comes first; the numbers are the states' places, from 0.
pub(crate) fn spread<T, S: Drop>(
    alloc: Global,
    queue: &Queue<T>,
    home: &mut QueuePass<T>,
    mut states: Vec<S>,
) -> Result<Vec<Holder<T, S>>, NoMemory>
    requires home { IsPassOf queue.now home.old }
    requires parts { length states.items < (view home.old).parts }
    requires few { length states.items < 2 ^ 32 }
    ensures home { OnOk result (HasGiven queue.now (length states.items) home.old home.new) }
    ensures each { IfOk result (λ holders. All (IsNewLedger queue.now) holders.items) }
    ensures states { IfOk result (λ holders.
        map (λ h. h.state) (reverse holders.items) ≡ states.items) }
    ensures numbers { IfOk result (λ holders.
        map (λ h. h.number) (reverse holders.items) ≡ range_with_len 0 (length states.items)) }
{
    let mut holders = Vec::with_capacity(alloc, states.len())?;
    while let Some(state) = states.pop() {
        let pass = queue.another::<Cut>(home);
        let number = states.len() as u32;
        holders.push_reserved(Holder {
            number,
            pass,
            state,
        });
    }
    Ok(holders)
}

/// Takes the passes back into `home`, the last one first, and leaves the states in that order.
pub(crate) fn gather<T, S: Drop>(
    queue: &Queue<T>,
    home: &mut QueuePass<T>,
    mut holders: Vec<Holder<T, S>>,
    states: &mut Vec<S>,
)
    requires home { HasParts queue.now home.old }
    requires each { All (λ h. IsPassOf queue.now h.pass) holders.items }
    requires none { states.old.items ≡ [] }
    requires room { vec_len states.old + vec_len holders ≤ vec_capacity states.old }
    ensures home { HasTakenIn queue.now (reverse holders.items) home.old home.new }
    ensures states { states.new.items ≡ map (λ h. h.state) (reverse holders.items) }
{
    while let Some(holder) = holders.pop() {
        let Holder {
            number: _,
            pass,
            state,
        } = holder;
        queue.absorb::<Cut>(home, pass);
        states.push_reserved(state);
    }
}
