//! What is left in the queue when acceptors and workers have ended.

ghost use Rattle.std.specs.Prelude.{◌≡◌, ◌≤◌, [], length, vec_capacity};
ghost use Rattle.crossbeam_queue.specs.Passes.{ruled_capacity, view};
ghost use Rattle.worker_pool.specs.Cases.{link_sight};
ghost use Rattle.worker_pool.specs.Desks.{desk_sight};
ghost use Rattle.worker_pool.specs.Drains.{Drained, ServedRest};
ghost use Rattle.worker_pool.specs.Holders.{HasParts};
ghost use Rattle.worker_pool.specs.Queue.{whole};
ghost use Rattle.worker_pool.specs.Single.{IsSingle};

use crate::book::Book;
use crate::desk::{Desk, Shared, handle};
use crate::moves::{collect, take_left};
use crate::post::Queued;
use crate::queue::QueuePass;
use byte_io::{Clock, Link};
use munge_types::Replay;
use session_core::Rooms;
use std::alloc::Global;
use std::sync::Wait;

/// Serves what is left, until a ticket is worn, which it gives.
fn serve_rest<L, C, B, R, W>(
    rt: &W,
    alloc: Global,
    shared: &Shared<'_, L, R>,
    pass: &mut QueuePass<Queued<L>>,
    desk: &mut Desk<C, B>,
) -> Option<u64>
where
    L: Link + Drop,
    C: Clock + Drop,
    B: Book<L> + Drop,
    R: Replay + Drop,
    W: Wait,
    requires parts { HasParts shared.now.queue.now pass.old }
    requires whole { (view pass.old).parts ≡ whole }
    requires single { IsSingle shared.now.gate.now desk.old.pass }
    ensures pass { HasParts shared.now.queue.now pass.new }
    ensures rest { let sight = desk_sight
        (link_sight L.left L.ends L.taken L.rings L.read_faults L.write_faults)
        C.readings C.last_reading C.given C.clock_faults B.kept in
        ServedRest sight shared.now.world.now shared.now.gate.now
        (view pass.old) (view pass.new) desk.old desk.new result }
{
    let mut rooms = Rooms::new(alloc);
    for _ in rt.forever() {
        let Some(taken) = take_left(rt, shared.queue, pass) else {
            return None;
        };
        let Shared { gate, world, .. } = shared;
        if let Some(ticket) = handle(rt, alloc, &mut rooms, gate, world, desk, taken) {
            return Some(ticket);
        }
    }
    unreachable!()
}

/// Serves what is left. At the first ticket that is worn it keeps what is still in the queue.
pub(crate) fn drain<L, C, B, R, W>(
    rt: &W,
    alloc: Global,
    shared: &Shared<'_, L, R>,
    pass: &mut QueuePass<Queued<L>>,
    desk: &mut Desk<C, B>,
    left: &mut Vec<Queued<L>>,
)
where
    L: Link + Drop,
    C: Clock + Drop,
    B: Book<L> + Drop,
    R: Replay + Drop,
    W: Wait,
    requires parts { HasParts shared.now.queue.now pass.old }
    requires whole { (view pass.old).parts ≡ whole }
    requires single { IsSingle shared.now.gate.now desk.old.pass }
    requires none { left.old.items ≡ [] }
    requires room { ruled_capacity shared.now.queue.now ≤ vec_capacity left.old }
    ensures few { length left.new.items ≤ ruled_capacity shared.now.queue.now }
    ensures drained { let sight = desk_sight
        (link_sight L.left L.ends L.taken L.rings L.read_faults L.write_faults)
        C.readings C.last_reading C.given C.clock_faults B.kept in
        Drained sight shared.now.world.now shared.now.gate.now
        (view pass.old) desk.old desk.new left.new.items }
{
    if serve_rest(rt, alloc, shared, pass, desk).is_some() {
        collect(rt, shared.queue, pass, left);
    }
}
