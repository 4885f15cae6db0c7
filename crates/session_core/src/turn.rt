//! One request of a session: reading it, answering it, and writing the reply.

ghost use Rattle.std.specs.Prelude.{
  ◌≡◌,
  ◌≢◌,
  ℕ,
  ◌+◌,
  ◌<◌,
  ◌≤◌,
  ◌^◌,
  ◌++◌,
  [],
  List,
  IfOk,
  IfErr,
  OnOk,
};
ghost use Rattle.byte_io.specs.Counts.{Rose};
ghost use Rattle.munge_types.specs.StandsFor.{Stands};
ghost use Rattle.munge_types.specs.declared.history.Event.{Event};
ghost use Rattle.wire_msg.specs.declared.kind.Side.TheVariants.{Requests};
ghost use Rattle.decode_rules.specs.Terms.{IsMadeOf, WorldFiles};
ghost use Rattle.session_core.specs.AllLive.{AllLive};
ghost use Rattle.session_core.specs.Answering.{Own, is_last};
ghost use Rattle.session_core.specs.Reading.{FindsEnd, how_of};
ghost use Rattle.session_core.specs.Seed.{place_of, seed_of};
ghost use Rattle.session_core.specs.Session.{session_of};
ghost use Rattle.session_core.specs.Things.{input_of, outside_of, things_of};
ghost use Rattle.session_core.specs.Turn.{HasEnded, IsAt, IsTurned, stage_of};

use crate::answer::{Unanswered, make_answer};
use crate::request::{Unread, read_request};
use crate::{HowEnded, Rooms};
use byte_io::{AllWritten, Clock, Sink, Source, write_all};
use cred_seal::Dice;
use decode_rules::World;
use munge_types::{Identity, Replay};
use std::alloc::Global;
use wire_msg::{Feeder, Message};

/// A request that was answered.
#[derive(Clone, Copy, Debug, PartialEq, Eq)]
pub(crate) struct Turned {
    /// How many events the session has made.
    pub(crate) entries: u64,
    /// The session is over: it was stopped.
    pub(crate) over: bool,
}

/// Reads the next request and answers it, after so many events of the session's own. An `Err` says
/// how the session ends.
pub(crate) fn take_turn<I: Source, O: Sink, C: Clock, R: Replay>(
    alloc: Global,
    input: &mut I,
    feeder: &mut Feeder,
    rooms: &mut Rooms,
    out: &mut O,
    clock: &mut C,
    replay: &mut R,
    dice: &mut Option<Dice>,
    who: Identity,
    world: &World,
    entries: u64,
) -> Result<Turned, HowEnded>
    requires side { feeder.old.side ≡ Requests }
    requires between { feeder.old.unfinished ≡ [] }
    requires far_from_end { feeder.old.begins + 2097159 < 2 ^ 64 }
    requires few_entries { entries + 2 < 2 ^ 64 }

    ensures turned { (files : WorldFiles) (base : List Event) (own : Own) → IsMadeOf world.now files
        → Stands (R.remembered replay.old) (base ++ own.events)
        → IsAt own (stage_of entries (place_of dice.old))
        → let before = outside_of (input_of (I.left input.old) (I.ends input.old))
        (O.taken out.old) (C.readings clock.old) in
        let after = outside_of (input_of (I.left input.new) (I.ends input.new))
        (O.taken out.new) (C.readings clock.new) in
        IfOk result (λ turned. IsTurned (session_of world.now who files (seed_of dice.old) base) own
        (things_of before (R.remembered replay.old)) (things_of after (R.remembered replay.new))
        feeder.old.begins feeder.new.begins turned.over
        (stage_of turned.entries (place_of dice.new))) }
    ensures ended { (files : WorldFiles) (base : List Event) (own : Own) → IsMadeOf world.now files
        → Stands (R.remembered replay.old) (base ++ own.events)
        → IsAt own (stage_of entries (place_of dice.old))
        → let before = outside_of (input_of (I.left input.old) (I.ends input.old))
        (O.taken out.old) (C.readings clock.old) in
        let after = outside_of (input_of (I.left input.new) (I.ends input.new))
        (O.taken out.new) (C.readings clock.new) in
        IfErr result (HasEnded (session_of world.now who files (seed_of dice.old) base) own
        (things_of before (R.remembered replay.old)) (things_of after (R.remembered replay.new))
        feeder.old.begins) }

    ensures side { feeder.new.side ≡ feeder.old.side }
    ensures between { OnOk result (feeder.new.unfinished ≡ []) }
    ensures begins_bound { OnOk result (feeder.new.begins ≤ feeder.old.begins + 2097159) }
    ensures same_seed { seed_of dice.new ≡ seed_of dice.old }
    ensures entries_bound { IfOk result (λ turned. turned.entries ≤ entries + 2) }

    ensures read_fault { result ≡ Err HowEnded.ReadFault
        → Rose (I.read_faults input.old) (I.read_faults input.new) }
    ensures reads_sound { result ≢ Err HowEnded.ReadFault
        → I.read_faults input.new ≡ I.read_faults input.old }
    ensures write_fault { result ≡ Err HowEnded.WriteFault
        → Rose (O.write_faults out.old) (O.write_faults out.new) }
    ensures writes_sound { result ≢ Err HowEnded.WriteFault
        → O.write_faults out.new ≡ O.write_faults out.old }
    ensures clock_fault { result ≡ Err HowEnded.ClockFault
        → Rose (C.clock_faults clock.old) (C.clock_faults clock.new) }
    ensures clock_sound { result ≢ Err HowEnded.ClockFault
        → C.clock_faults clock.new ≡ C.clock_faults clock.old }
    ensures ends_stay { I.ends input.old ≤ I.ends input.new }
    ensures ends_kept { OnOk result (I.ends input.new ≡ I.ends input.old) }
    ensures found { IfErr result (λ how. FindsEnd how (I.ends input.old) (I.ends input.new)) }

    ensures live { AllLive (R.remembered replay.old) → AllLive (R.remembered replay.new) }
{
    let request = match read_request(input, feeder, rooms) {
        Ok(request) => request,
        Err(cause) => return Err(ended_by(cause, feeder.place())),
    };
    let over = stops(who, &request);
    let answer = match make_answer(
        alloc, rooms, clock, replay, dice, who, world, &request, entries,
    ) {
        Ok(answer) => answer,
        Err(Unanswered::ClockFault) => return Err(HowEnded::ClockFault),
        Err(Unanswered::NoMemory) => return Err(HowEnded::NoMemory),
    };
    match write_all(out, &answer.reply) {
        AllWritten::All => {
            rooms.keep_body(request);
            rooms.keep_frame(answer.reply);
            Ok(Turned {
                entries: answer.entries,
                over,
            })
        }
        AllWritten::Failed(_) => Err(HowEnded::WriteFault),
    }
}

/// Whether the session is over once this request is answered.
pub(crate) fn stops(who: Identity, request: &Message) -> bool
    ensures { result ≡ is_last who request.now }
{
    match request {
        Message::Stop => who.control,
        Message::EncodeRequest(_) | Message::DecodeRequest(_) => false,
        Message::EncodeReply(_) | Message::DecodeReply(_) | Message::Bye(_) => false,
    }
}

/// How a session ends where no request was read, at this byte of the input.
fn ended_by(cause: Unread, begins: u64) -> HowEnded
    ensures { result ≡ how_of cause begins }
{
    match cause {
        Unread::Ended => HowEnded::Done,
        Unread::Malformed(_) => HowEnded::Malformed(begins),
        Unread::ReadFault(_) => HowEnded::ReadFault,
        Unread::NoMemory(_) => HowEnded::NoMemory,
    }
}
