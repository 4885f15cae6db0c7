//! Answering a request on a gate, before anything is sent.

ghost use Rattle.std.specs.Prelude.{◌≡◌, ◌≢◌, ℕ, List, None, Some, Ok, Err};
ghost use Rattle.decode_rules.specs.Prepared.{IsReady};
ghost use Rattle.decode_rules.specs.Terms.{IsMadeOf, WorldFiles, terms_of};
ghost use Rattle.wire_msg.specs.declared.message.Message.TheVariants.{
  DecodeRequest,
  EncodeRequest,
  Stop,
};
ghost use Rattle.session_core.specs.Connection.{TakesReading, timing_of};
ghost use Rattle.session_core.specs.OnGate.{Draws, PassGoesOn};
ghost use Rattle.session_core.specs.Reached.{
  ComesTo,
  CountsClockFault,
  Reaches,
  notes_reached,
};
ghost use Rattle.session_core.specs.Requests.{IsRequest};
ghost use Rattle.session_core.specs.Service.{Service, service_of};

use crate::Rooms;
use crate::answer::bye;
use crate::encode::seal_reply;
use byte_io::Clock;
use cred_seal::Dice;
use decode_rules::{Prepared, Ready, Reply, World, complete, prepare_in};
use munge_types::{Identity, NoMemory, Replay};
use replay_gate::{Gate, GateRefused, Pass};
use std::alloc::Global;
use std::sync::Wait;
use wire_msg::{Bytes, EncodeAsk, Message};

/// Why a request has no reply.
#[derive(Clone, Copy, Debug, PartialEq, Eq)]
pub(crate) enum Unreplied {
    /// The clock gave no reading.
    ClockFault,
    /// No memory was left.
    NoMemory,
    /// The gate gives no more tickets: this one was read.
    Worn(u64),
}

/// What a request came to.
#[derive(Drop)]
pub(crate) struct Reached {
    /// The reply's frame, or why there is none.
    pub(crate) reply: Result<Bytes, Unreplied>,
    /// The moment that the clock gave for it.
    pub(crate) moment: Option<u32>,
    /// The rule of a decode reply.
    pub(crate) rule: Option<u8>,
    /// The place of the entry that was made.
    pub(crate) place: Option<u64>,
    /// The place of the first word that was drawn.
    pub(crate) drawn: Option<u128>,
}

/// What comes of a request of a client.
pub(crate) fn reach<C: Clock, R: Replay + Drop, W: Wait>(
    rt: &W,
    alloc: Global,
    rooms: &mut Rooms,
    clock: &mut C,
    gate: &Gate<R>,
    pass: &mut Pass,
    dice: &mut Dice,
    who: Identity,
    world: &World,
    request: &Message,
) -> Reached
    requires of_gate { pass.old.gate ≡ gate.now }
    requires fits { IsRequest request.now }

    ensures reaches { (files : WorldFiles) → IsMadeOf world.now files
        → let service = service_of (terms_of world.now who files) dice.old.seed pass.old.number in
        Reaches service pass.old pass.new request.now result result.place }
    ensures reading { TakesReading
        (timing_of (C.readings clock.old) (C.last_reading clock.old) (C.given clock.old))
        (timing_of (C.readings clock.new) (C.last_reading clock.new) (C.given clock.new))
        result.moment }
    ensures draws { Draws dice.old dice.new result.drawn }
    ensures pass { PassGoesOn pass.old pass.new }
    ensures faults { CountsClockFault result.reply
        (C.clock_faults clock.old) (C.clock_faults clock.new) }
{
    match request {
        Message::EncodeRequest(ask) => reach_seal(alloc, rooms, clock, dice, who, world, ask),
        Message::DecodeRequest(text) => {
            reach_gate(rt, rooms, clock, gate, pass, who, world, text)
        }
        Message::Stop => reach_stop(rooms, who),
        Message::EncodeReply(_) | Message::DecodeReply(_) | Message::Bye(_) => unreachable!(),
    }
}

/// What comes of an encode request.
fn reach_seal<C: Clock>(
    alloc: Global,
    rooms: &mut Rooms,
    clock: &mut C,
    dice: &mut Dice,
    who: Identity,
    world: &World,
    ask: &EncodeAsk,
) -> Reached
    ensures comes { (files : WorldFiles) (number : ℕ) → IsMadeOf world.now files
        → let service = service_of (terms_of world.now who files) dice.old.seed number in
        ComesTo service None (EncodeRequest ask.now) (notes_reached result) result.reply }
    ensures nowhere { result.place ≡ None }
    ensures not_worn { (ticket : ℕ) → result.reply ≢ Err (Unreplied.Worn ticket) }
    ensures reading { TakesReading
        (timing_of (C.readings clock.old) (C.last_reading clock.old) (C.given clock.old))
        (timing_of (C.readings clock.new) (C.last_reading clock.new) (C.given clock.new))
        result.moment }
    ensures draws { Draws dice.old dice.new result.drawn }
    ensures faults { CountsClockFault result.reply
        (C.clock_faults clock.old) (C.clock_faults clock.new) }
{
    let Ok(moment) = clock.now() else {
        return unreached(Unreplied::ClockFault, None);
    };
    let drawn = dice.draw();
    match seal_reply(alloc, rooms.frame(), world, who, moment, ask, &drawn) {
        Ok(reply) => Reached {
            reply: Ok(Bytes::of(reply)),
            moment: Some(moment),
            rule: None,
            place: None,
            drawn: Some(drawn.place),
        },
        Err(NoMemory) => Reached {
            reply: Err(Unreplied::NoMemory),
            moment: Some(moment),
            rule: None,
            place: None,
            drawn: Some(drawn.place),
        },
    }
}

/// What comes of a decode request with this text.
fn reach_gate<C: Clock, R: Replay + Drop, W: Wait>(
    rt: &W,
    rooms: &mut Rooms,
    clock: &mut C,
    gate: &Gate<R>,
    pass: &mut Pass,
    who: Identity,
    world: &World,
    text: &Bytes,
) -> Reached
    requires of_gate { pass.old.gate ≡ gate.now }

    ensures reaches { (files : WorldFiles) (seed : List ℕ) → IsMadeOf world.now files
        → let service = service_of (terms_of world.now who files) seed pass.old.number in
        Reaches service pass.old pass.new (DecodeRequest text.now) result result.place }
    ensures reading { TakesReading
        (timing_of (C.readings clock.old) (C.last_reading clock.old) (C.given clock.old))
        (timing_of (C.readings clock.new) (C.last_reading clock.new) (C.given clock.new))
        result.moment }
    ensures undrawn { result.drawn ≡ None }
    ensures pass { PassGoesOn pass.old pass.new }
    ensures faults { CountsClockFault result.reply
        (C.clock_faults clock.old) (C.clock_faults clock.new) }
{
    let Ok(moment) = clock.now() else {
        return unreached(Unreplied::ClockFault, None);
    };
    let memory = rooms.frame();
    let Ok(work) = rooms.work(text.bytes().len()) else {
        return unreached(Unreplied::NoMemory, Some(moment));
    };
    match prepare_in(memory, world, who, moment, work, text.bytes()) {
        Ok(Prepared::Refused(reply)) => replied(reply, moment, None),
        Ok(Prepared::Ready(ready)) => enter(rt, gate, pass, ready, moment),
        Err(NoMemory) => unreached(Unreplied::NoMemory, Some(moment)),
    }
}

/// What comes of a credential that breaks none of the rules 1 to 12: the gate is asked.
fn enter<R: Replay + Drop, W: Wait>(
    rt: &W,
    gate: &Gate<R>,
    pass: &mut Pass,
    ready: Ready,
    moment: u32,
) -> Reached
    requires of_gate { pass.old.gate ≡ gate.now }

    ensures reaches { (service : Service) (text : List ℕ) → service.number ≡ pass.old.number
        → IsReady service.terms moment text ready
        → Reaches service pass.old pass.new (DecodeRequest text) result result.place }
    ensures moment { result.moment ≡ Some moment }
    ensures undrawn { result.drawn ≡ None }
    ensures pass { PassGoesOn pass.old pass.new }
    ensures timed { result.reply ≢ Err Unreplied.ClockFault }
{
    match gate.admit(rt, pass, ready.pair(), moment) {
        Ok(admitted) => {
            let reply = complete(ready, admitted.verdict, admitted.place);
            replied(reply, moment, Some(admitted.place))
        }
        Err(GateRefused::NoMemory) => Reached {
            reply: Err(Unreplied::NoMemory),
            moment: Some(moment),
            rule: None,
            place: Some(pass.length() - 1),
            drawn: None,
        },
        Err(GateRefused::Worn(ticket)) => unreached(Unreplied::Worn(ticket), Some(moment)),
    }
}

/// What comes of a request to stop.
fn reach_stop(rooms: &mut Rooms, who: Identity) -> Reached
    ensures comes { (service : Service) → service.terms.who ≡ who
        → ComesTo service None Stop (notes_reached result) result.reply }
    ensures nowhere { result.place ≡ None }
    ensures untimed { result.moment ≡ None }
    ensures undrawn { result.drawn ≡ None }
    ensures not_worn { (ticket : ℕ) → result.reply ≢ Err (Unreplied.Worn ticket) }
    ensures timed { result.reply ≢ Err Unreplied.ClockFault }
{
    match bye(rooms.frame(), who) {
        Ok(reply) => Reached {
            reply: Ok(Bytes::of(reply)),
            moment: None,
            rule: None,
            place: None,
            drawn: None,
        },
        Err(NoMemory) => unreached(Unreplied::NoMemory, None),
    }
}

/// A decode request of this moment was answered, with an entry at this place or with none.
fn replied(reply: Reply, moment: u32, place: Option<u64>) -> Reached
    ensures { result ≡ record {
      reply = Ok reply.bytes;
      moment = Some moment;
      rule = Some reply.rule;
      place = place;
      drawn = None;
    } }
{
    let rule = reply.rule();
    Reached {
        reply: Ok(Bytes::of(reply.into_bytes())),
        moment: Some(moment),
        rule: Some(rule),
        place,
        drawn: None,
    }
}

/// There is no reply, for this cause, and no entry was made.
fn unreached(cause: Unreplied, moment: Option<u32>) -> Reached
    ensures { result ≡ record {
      reply = Err cause;
      moment = moment;
      rule = None;
      place = None;
      drawn = None;
    } }
{
    Reached {
        reply: Err(cause),
        moment,
        rule: None,
        place: None,
        drawn: None,
    }
}
