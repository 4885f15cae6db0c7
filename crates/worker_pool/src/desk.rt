//! A worker that takes connections from the queue and serves them.

ghost use Rattle.std.specs.Prelude.{◌≡◌};
ghost use Rattle.worker_pool.specs.Cases.{link_sight};
ghost use Rattle.worker_pool.specs.Desks.{Handles, desk_sight, later_of, worn_of};
ghost use Rattle.worker_pool.specs.Seats.{HasServedSeat, IsNewSeat};

use crate::book::Book;
use crate::handled::Handled;
use crate::holders::Holder;
use crate::moves::take;
use crate::post::{Queued, Waiting};
use crate::queue::Queue;
use crate::signal::Signal;
use crate::tally::Tally;
use byte_io::{Clock, Link};
use cred_seal::Dice;
use decode_rules::World;
use munge_types::Replay;
use replay_gate::{Gate, Pass};
use session_core::{Rooms, ServeEnd, serve_in};
use std::alloc::Global;
use std::sync::Wait;

/// What all workers share.
#[derive(Drop)]
pub(crate) struct Shared<'a, L: Drop, R: Replay + Drop> {
    pub(crate) gate: &'a Gate<R>,
    pub(crate) queue: &'a Queue<Queued<L>>,
    pub(crate) signal: &'a Signal,
    pub(crate) world: &'a World,
}

/// A worker.
#[derive(Drop)]
pub(crate) struct Desk<C: Drop, B: Drop> {
    pub(crate) pass: Pass,
    pub(crate) clock: C,
    pub(crate) dice: Dice,
    pub(crate) book: B,
    /// What was told of its connections.
    pub(crate) tally: Tally,
    /// The last ticket at which it found the gate worn.
    pub(crate) worn: Option<u64>,
}

/// The later one of two tickets, where there is one.
pub(crate) fn later(old: Option<u64>, found: Option<u64>) -> Option<u64>
    ensures { result ≡ later_of old found }
{
    match found {
        Some(ticket) => Some(ticket),
        None => old,
    }
}

/// The ticket at which the gate was found worn, if it was.
fn worn_ticket(how: ServeEnd) -> Option<u64>
    ensures { result ≡ worn_of how }
{
    match how {
        ServeEnd::Worn(ticket) => Some(ticket),
        ServeEnd::Done
        | ServeEnd::Stopped
        | ServeEnd::Quiet
        | ServeEnd::ReadFault
        | ServeEnd::WriteFault
        | ServeEnd::ClockFault
        | ServeEnd::Malformed
        | ServeEnd::NoMemory => None,
    }
}

/// Serves a connection in these buffers, for the caller of its post, and hands it to the book. It
/// gives the ticket at which it found the gate worn, if it did.
pub(crate) fn handle<L, C, B, R, W>(
    rt: &W,
    alloc: Global,
    rooms: &mut Rooms,
    gate: &Gate<R>,
    world: &World,
    desk: &mut Desk<C, B>,
    taken: Queued<L>,
) -> Option<u64>
where
    L: Link + Drop,
    C: Clock + Drop,
    B: Book<L> + Drop,
    R: Replay + Drop,
    W: Wait,
    requires { desk.old.pass.gate ≡ gate.now }
    ensures handles { let sight = desk_sight
        (link_sight L.left L.ends L.taken L.rings L.read_faults L.write_faults)
        C.readings C.last_reading C.given C.clock_faults B.kept in
        Handles sight world.now desk.old taken desk.new }
    ensures worn { desk.new.worn ≡ later_of desk.old.worn result }
{
    let Queued { who, waiting } = taken;
    let Waiting {
        post,
        turn,
        mut conn,
    } = waiting;
    let pass = desk.pass.number();
    let served = serve_in(
        rt,
        alloc,
        rooms,
        &mut conn,
        &mut desk.clock,
        gate,
        &mut desk.pass,
        &mut desk.dice,
        who,
        world,
    );
    desk.tally = desk.tally.with(&served);
    let worn = worn_ticket(served.how);
    desk.worn = later(desk.worn, worn);
    desk.book.keep(Handled {
        post,
        turn,
        pass,
        conn,
        served,
    });
    worn
}

/// Serves what the worker takes from the queue, in buffers that it keeps between connections, until
/// the queue is empty and all acceptors have ended.
pub(crate) fn serve_queue<L, C, B, R, W>(
    rt: &W,
    alloc: Global,
    shared: &Shared<'_, L, R>,
    seat: &mut Holder<Queued<L>, Desk<C, B>>,
)
where
    L: Link + Drop,
    C: Clock + Drop,
    B: Book<L> + Drop,
    R: Replay + Drop,
    W: Wait,
    requires { let sight = desk_sight
        (link_sight L.left L.ends L.taken L.rings L.read_faults L.write_faults)
        C.readings C.last_reading C.given C.clock_faults B.kept in
        IsNewSeat sight shared.now.gate.now shared.now.queue.now seat.old }
    ensures { let sight = desk_sight
        (link_sight L.left L.ends L.taken L.rings L.read_faults L.write_faults)
        C.readings C.last_reading C.given C.clock_faults B.kept in
        HasServedSeat sight shared.now.world.now shared.now.queue.now seat.old seat.new }
{
    let mut rooms = Rooms::new(alloc);
    for _ in rt.forever() {
        let Some(taken) = take(rt, shared.queue, shared.signal, &mut seat.pass) else {
            break;
        };
        let Shared { gate, world, .. } = shared;
        handle(rt, alloc, &mut rooms, gate, world, &mut seat.state, taken);
    }
}
