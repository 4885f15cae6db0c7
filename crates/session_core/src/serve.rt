//! Serving one connection: one request at most, answered on a gate.

ghost use Rattle.std.specs.Prelude.{◌≡◌, None};
ghost use Rattle.decode_rules.specs.Terms.{IsMadeOf, WorldFiles, terms_of};
ghost use Rattle.session_core.specs.Answering.{is_last};
ghost use Rattle.session_core.specs.Causes.{ClockCausedBy, LinkCausedBy, link_faults_of};
ghost use Rattle.session_core.specs.Connection.{TakesReading, connection_of, timing_of};
ghost use Rattle.session_core.specs.OnGate.{Draws, PassGoesOn, Serves};
ghost use Rattle.session_core.specs.Reached.{CountsWriteFault, Sends, SendsWhat, Tells, peer_of};
ghost use Rattle.session_core.specs.Partial.{count_of, end_of};
ghost use Rattle.session_core.specs.Requests.{IsRequest};
ghost use Rattle.session_core.specs.Service.{service_of};
ghost use Rattle.session_core.specs.Things.{input_of};
ghost use Rattle.session_core.specs.WholeRequest.{IsCompleteByLink};

use crate::Rooms;
use crate::reached::{Reached, Unreplied, reach};
use crate::request::{Unread, read_alone};
use crate::served::{ServeEnd, Served};
use crate::turn::stops;
use byte_io::{AllWritten, Clock, Link, write_all};
use cred_seal::Dice;
use decode_rules::World;
use munge_types::{Identity, Replay};
use replay_gate::{Gate, Pass};
use std::alloc::Global;
use std::sync::Wait;
use wire_msg::{Bytes, Message};

/// Reads one request of a connection and nothing beyond it, answers it on the gate, and writes the
/// reply. For an encode and a decode request the clock is read once, after it was read whole. An
/// encode request draws six words of the dice; a decode request that breaks none of the rules 1 to
/// 12 makes an entry by the pass. Stop, by a caller who has control, is answered, and then the
/// daemon is asked to stop. All memory of a reply is taken before its entry is made. It may wait for
/// the other passes of the gate.
pub fn serve_one<L: Link, C: Clock, R: Replay + Drop, W: Wait>(
    rt: &W,
    alloc: Global,
    conn: &mut L,
    clock: &mut C,
    gate: &Gate<R>,
    pass: &mut Pass,
    dice: &mut Dice,
    who: Identity,
    world: &World,
) -> Served
    requires of_gate { pass.old.gate ≡ gate.now }

    // For all files that the world is made of.
    ensures serves { (files : WorldFiles) → IsMadeOf world.now files
        → let service = service_of (terms_of world.now who files) dice.old.seed pass.old.number in
        let before = connection_of (input_of (L.left conn.old) (L.ends conn.old))
        (L.taken conn.old) (L.rings conn.old) in
        let after = connection_of (input_of (L.left conn.new) (L.ends conn.new))
        (L.taken conn.new) (L.rings conn.new) in
        Serves service pass.old pass.new before after result result.place }
    ensures reading { TakesReading
        (timing_of (C.readings clock.old) (C.last_reading clock.old) (C.given clock.old))
        (timing_of (C.readings clock.new) (C.last_reading clock.new) (C.given clock.new))
        result.moment }
    ensures draws { Draws dice.old dice.new result.drawn }
    ensures pass { PassGoesOn pass.old pass.new }

    ensures link_caused { LinkCausedBy
        (link_faults_of (L.read_faults conn.old) (L.write_faults conn.old))
        (link_faults_of (L.read_faults conn.new) (L.write_faults conn.new)) result.how }
    ensures clock_caused { ClockCausedBy
        (C.clock_faults clock.old) (C.clock_faults clock.new) result.how }

    // What no fault of the connection can excuse.
    ensures complete { IsCompleteByLink
        (connection_of (input_of (L.left conn.old) (L.ends conn.old))
        (L.taken conn.old) (L.rings conn.old))
        (link_faults_of (L.read_faults conn.old) (L.write_faults conn.old))
        (link_faults_of (L.read_faults conn.new) (L.write_faults conn.new)) result }
{
    let mut rooms = Rooms::new(alloc);
    serve_in(
        rt, alloc, &mut rooms, conn, clock, gate, pass, dice, who, world,
    )
}

/// Serves one connection as `serve_one` does, in buffers that the caller keeps between connections.
pub fn serve_in<L: Link, C: Clock, R: Replay + Drop, W: Wait>(
    rt: &W,
    alloc: Global,
    rooms: &mut Rooms,
    conn: &mut L,
    clock: &mut C,
    gate: &Gate<R>,
    pass: &mut Pass,
    dice: &mut Dice,
    who: Identity,
    world: &World,
) -> Served
    requires of_gate { pass.old.gate ≡ gate.now }

    // For all files that the world is made of.
    ensures serves { (files : WorldFiles) → IsMadeOf world.now files
        → let service = service_of (terms_of world.now who files) dice.old.seed pass.old.number in
        let before = connection_of (input_of (L.left conn.old) (L.ends conn.old))
        (L.taken conn.old) (L.rings conn.old) in
        let after = connection_of (input_of (L.left conn.new) (L.ends conn.new))
        (L.taken conn.new) (L.rings conn.new) in
        Serves service pass.old pass.new before after result result.place }
    ensures reading { TakesReading
        (timing_of (C.readings clock.old) (C.last_reading clock.old) (C.given clock.old))
        (timing_of (C.readings clock.new) (C.last_reading clock.new) (C.given clock.new))
        result.moment }
    ensures draws { Draws dice.old dice.new result.drawn }
    ensures pass { PassGoesOn pass.old pass.new }

    ensures link_caused { LinkCausedBy
        (link_faults_of (L.read_faults conn.old) (L.write_faults conn.old))
        (link_faults_of (L.read_faults conn.new) (L.write_faults conn.new)) result.how }
    ensures clock_caused { ClockCausedBy
        (C.clock_faults clock.old) (C.clock_faults clock.new) result.how }

    // What no fault of the connection can excuse.
    ensures complete { IsCompleteByLink
        (connection_of (input_of (L.left conn.old) (L.ends conn.old))
        (L.taken conn.old) (L.rings conn.old))
        (link_faults_of (L.read_faults conn.old) (L.write_faults conn.old))
        (link_faults_of (L.read_faults conn.new) (L.write_faults conn.new)) result }
{
    match read_alone(alloc, rooms, conn) {
        Ok(heard) => {
            let request = heard.request;
            let reached = reach(
                rt, alloc, rooms, clock, gate, pass, dice, who, world, &request,
            );
            let served = send(rooms, conn, who, &request, heard.size, reached);
            rooms.keep_body(request);
            served
        }
        Err(cause) => unheard(cause),
    }
}

/// Writes the reply to a request of so many bytes, where there is one, and asks the daemon to stop
/// where it says that it will.
fn send<L: Link>(
    rooms: &mut Rooms,
    conn: &mut L,
    who: Identity,
    request: &Message,
    size: u64,
    reached: Reached,
) -> Served
    requires fits { IsRequest request.now }

    ensures tells { Tells request.now size reached result }
    ensures sends { SendsWhat reached.reply (is_last who request.now)
        (peer_of (L.taken conn.old) (L.rings conn.old))
        (peer_of (L.taken conn.new) (L.rings conn.new)) result.how }
    ensures faults { CountsWriteFault result.how (L.write_faults conn.old) (L.write_faults conn.new) }
    ensures left { L.left conn.new ≡ L.left conn.old }
    ensures ends { L.ends conn.new ≡ L.ends conn.old }
    ensures reads_sound { L.read_faults conn.new ≡ L.read_faults conn.old }
{
    let Reached {
        reply,
        moment,
        rule,
        place,
        drawn,
    } = reached;
    let how = match reply {
        Ok(reply) => {
            let how = send_reply(conn, stops(who, request), &reply);
            rooms.keep_frame(reply.into_vec());
            how
        }
        Err(Unreplied::ClockFault) => ServeEnd::ClockFault,
        Err(Unreplied::NoMemory) => ServeEnd::NoMemory,
        Err(Unreplied::Worn(ticket)) => ServeEnd::Worn(ticket),
    };
    Served {
        how,
        kind: Some(request.kind().number()),
        read: size,
        moment,
        rule,
        place,
        drawn,
    }
}

/// Writes a reply, and then asks the daemon to stop where the request did.
fn send_reply<L: Link>(conn: &mut L, stops: bool, reply: &Bytes) -> ServeEnd
    ensures sends { Sends reply.now stops
        (peer_of (L.taken conn.old) (L.rings conn.old))
        (peer_of (L.taken conn.new) (L.rings conn.new)) result }
    ensures faults { CountsWriteFault result (L.write_faults conn.old) (L.write_faults conn.new) }
    ensures left { L.left conn.new ≡ L.left conn.old }
    ensures ends { L.ends conn.new ≡ L.ends conn.old }
    ensures reads_sound { L.read_faults conn.new ≡ L.read_faults conn.old }
{
    match write_all(conn, reply.bytes()) {
        AllWritten::All => {
            if !stops {
                return ServeEnd::Done;
            }
            conn.ring();
            ServeEnd::Stopped
        }
        AllWritten::Failed(_) => ServeEnd::WriteFault,
    }
}

/// No request came.
fn unheard(cause: Unread) -> Served
    ensures { result ≡ record {
      how = end_of cause;
      kind = None;
      read = count_of cause;
      moment = None;
      rule = None;
      place = None;
      drawn = None;
    } }
{
    let (how, read) = match cause {
        Unread::Ended => (ServeEnd::Quiet, 0),
        Unread::Malformed(read) => (ServeEnd::Malformed, read),
        Unread::ReadFault(read) => (ServeEnd::ReadFault, read),
        Unread::NoMemory(read) => (ServeEnd::NoMemory, read),
    };
    Served {
        how,
        kind: None,
        read,
        moment: None,
        rule: None,
        place: None,
        drawn: None,
    }
}
