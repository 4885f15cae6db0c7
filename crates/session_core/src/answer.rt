//! Answering a request of any kind.

ghost use Rattle.std.specs.Prelude.{◌≡◌, ◌≢◌, ℕ, ◌+◌, ◌<◌, ◌≤◌, ◌^◌, ◌++◌, List, length, IfOk, IfErr};
ghost use Rattle.byte_io.specs.Counts.{Rose};
ghost use Rattle.munge_types.specs.StandsFor.{Stands};
ghost use Rattle.munge_types.specs.Status.{status_number};
ghost use Rattle.munge_types.specs.declared.history.Event.{Event};
ghost use Rattle.wire_msg.specs.Spelling.{frame_of};
ghost use Rattle.wire_msg.specs.declared.message.Message.TheVariants.{Bye};
ghost use Rattle.decode_rules.specs.Terms.{IsMadeOf, WorldFiles};
ghost use Rattle.session_core.specs.AllLive.{AllLive};
ghost use Rattle.session_core.specs.Answering.{Own, stop_status};
ghost use Rattle.session_core.specs.Requests.{IsRequest};
ghost use Rattle.session_core.specs.Seed.{place_of, seed_of};
ghost use Rattle.session_core.specs.Session.{session_of};
ghost use Rattle.session_core.specs.Turn.{IsAnswered, IsAt, LeavesUnanswered, stage_of};

use crate::Rooms;
use crate::decode::decode;
use crate::encode::encode;
use byte_io::Clock;
use cred_seal::Dice;
use decode_rules::World;
use munge_types::{Identity, NoMemory, Replay, Status};
use std::alloc::Global;
use wire_msg::{FrameRefused, Message, frame_in};

/// A reply, and how many events the session has made when it is given.
#[derive(Drop)]
pub(crate) struct Answer {
    pub(crate) reply: Vec<u8>,
    pub(crate) entries: u64,
}

/// Why a request is not answered.
#[derive(Clone, Copy, Debug, PartialEq, Eq)]
pub(crate) enum Unanswered {
    /// The clock gave no reading.
    ClockFault,
    /// No memory was left.
    NoMemory,
}

/// Answers a request, after so many events of the session's own. For an encode or a decode request
/// the clock is read once.
pub(crate) fn make_answer<C: Clock, R: Replay>(
    alloc: Global,
    rooms: &mut Rooms,
    clock: &mut C,
    replay: &mut R,
    dice: &mut Option<Dice>,
    who: Identity,
    world: &World,
    request: &Message,
    entries: u64,
) -> Result<Answer, Unanswered>
    requires fits { IsRequest request.now }
    requires few { entries + 2 < 2 ^ 64 }

    ensures answered { (files : WorldFiles) (base : List Event) (own : Own)
        → IsMadeOf world.now files → Stands (R.remembered replay.old) (base ++ own.events)
        → IsAt own (stage_of entries (place_of dice.old))
        → IfOk result (λ answer. IsAnswered
        (session_of world.now who files (seed_of dice.old) base) own request.now answer.reply.items
        (C.readings clock.old) (C.readings clock.new) (R.remembered replay.new)
        (stage_of answer.entries (place_of dice.new))) }
    ensures unanswered { (files : WorldFiles) (base own : List Event)
        → Stands (R.remembered replay.old) (base ++ own)
        → IfErr result (LeavesUnanswered
        (session_of world.now who files (seed_of dice.old) base) own request.now
        (C.readings clock.old) (C.readings clock.new) (R.remembered replay.new)) }

    ensures clock_fault { result ≡ Err Unanswered.ClockFault
        → Rose (C.clock_faults clock.old) (C.clock_faults clock.new) }
    ensures clock_sound { result ≢ Err Unanswered.ClockFault
        → C.clock_faults clock.new ≡ C.clock_faults clock.old }

    ensures same_seed { seed_of dice.new ≡ seed_of dice.old }
    ensures bound { IfOk result (λ answer. answer.entries ≤ entries + 2) }
    ensures live { AllLive (R.remembered replay.old) → AllLive (R.remembered replay.new) }
{
    match request {
        Message::EncodeRequest(ask) => {
            let Ok(moment) = clock.now() else {
                return Err(Unanswered::ClockFault);
            };
            match encode(alloc, rooms, dice, who, world, moment, ask) {
                Ok(reply) => Ok(Answer { reply, entries }),
                Err(NoMemory) => Err(Unanswered::NoMemory),
            }
        }
        Message::DecodeRequest(text) => {
            let Ok(moment) = clock.now() else {
                return Err(Unanswered::ClockFault);
            };
            match decode(rooms, replay, who, world, moment, text.bytes(), entries) {
                Ok(answer) => Ok(answer),
                Err(NoMemory) => Err(Unanswered::NoMemory),
            }
        }
        Message::Stop => match bye(rooms.frame(), who) {
            Ok(reply) => Ok(Answer { reply, entries }),
            Err(NoMemory) => Err(Unanswered::NoMemory),
        },
        Message::EncodeReply(_) | Message::DecodeReply(_) | Message::Bye(_) => unreachable!(),
    }
}

/// The answer to Stop, in the memory of this vector as far as that goes: only a caller who has
/// control may stop.
pub(crate) fn bye(memory: Vec<u8>, who: Identity) -> Result<Vec<u8>, NoMemory>
    ensures { let status = status_number (stop_status who) in
        IfOk result (λ reply. reply.items ≡ frame_of (Bye status)) }
{
    let status = if who.control {
        Status::Success
    } else {
        Status::Unauthorized
    };
    match frame_in(memory, &Message::Bye(status.number())) {
        Ok(reply) => Ok(reply),
        Err(FrameRefused::NoMemory) => Err(NoMemory),
        Err(FrameRefused::TooLong(_)) => unreachable!(),
    }
}
