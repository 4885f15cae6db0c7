//! A session: the loop over the requests of a stream.

ghost use Rattle.std.specs.Prelude.{◌≡◌, ◌≢◌, ◌≤◌, ℕ, List, []};
ghost use Rattle.byte_io.specs.Counts.{Rose};
ghost use Rattle.munge_types.specs.StandsFor.{Stands};
ghost use Rattle.munge_types.specs.declared.history.Event.{Event};
ghost use Rattle.wire_msg.specs.declared.kind.Side.TheVariants.{Requests};
ghost use Rattle.decode_rules.specs.Terms.{IsMadeOf, WorldFiles};
ghost use Rattle.session_core.specs.AllLive.{AllLive};
ghost use Rattle.session_core.specs.Reading.{FindsEnd};
ghost use Rattle.session_core.specs.RunSoFar.{IsAsked};
ghost use Rattle.session_core.specs.Seed.{place_of, seed_of};
ghost use Rattle.session_core.specs.Session.{session_of};
ghost use Rattle.session_core.specs.SessionRan.{SessionRan};
ghost use Rattle.session_core.specs.Things.{input_of, outside_of, things_of};

use crate::turn::take_turn;
use crate::{HowEnded, Rooms, SessionEnd};
use byte_io::{Clock, FullRead, Sink, Source, read_full};
use cred_seal::Dice;
use decode_rules::World;
use munge_types::{Identity, Replay};
use std::alloc::Global;
use wire_msg::{Feeder, Side};

/// The most requests that one session answers.
const REQUEST_LIMIT: u32 = 1_048_576;

/// Reads requests from `input`, one after another, and writes a reply to each to `out`, until the
/// input ends between two of them, a caller who has control asks to stop, something fails, or
/// 1,048,576 requests are answered and one more byte comes. For each encode and decode request the
/// clock is read once, after it was read whole. Salts and initial vectors are drawn from the seed
/// of 32 bytes, from its first word on; without a seed nothing is sealed. A session that ended by a
/// fault or for want of memory writes nothing more.
pub fn session<I: Source, O: Sink, C: Clock, R: Replay>(
    alloc: Global,
    input: &mut I,
    out: &mut O,
    clock: &mut C,
    replay: &mut R,
    who: Identity,
    world: &World,
    seed: Option<[u8; 32]>,
) -> SessionEnd
    // For all files that the world is made of, and each history that the state stands for at entry.
    ensures ran { (files : WorldFiles) (base : List Event) → IsMadeOf world.now files
        → Stands (R.remembered replay.old) base
        → let before = outside_of (input_of (I.left input.old) (I.ends input.old))
        (O.taken out.old) (C.readings clock.old) in
        let after = outside_of (input_of (I.left input.new) (I.ends input.new))
        (O.taken out.new) (C.readings clock.new) in
        SessionRan (session_of world.now who files seed base) result
        (things_of before (R.remembered replay.old)) (things_of after (R.remembered replay.new)) }

    // Where no kept pair is below the floor at entry, none is at the end.
    ensures live { AllLive (R.remembered replay.old) → AllLive (R.remembered replay.new) }

    ensures read_fault { result.how ≡ HowEnded.ReadFault
        → Rose (I.read_faults input.old) (I.read_faults input.new) }
    ensures write_fault { result.how ≡ HowEnded.WriteFault
        → Rose (O.write_faults out.old) (O.write_faults out.new) }
    ensures clock_fault { result.how ≡ HowEnded.ClockFault
        → Rose (C.clock_faults clock.old) (C.clock_faults clock.new) }
    ensures reads_sound { result.how ≢ HowEnded.ReadFault
        → I.read_faults input.new ≡ I.read_faults input.old }
    ensures writes_sound { result.how ≢ HowEnded.WriteFault
        → O.write_faults out.new ≡ O.write_faults out.old }
    ensures clock_sound { result.how ≢ HowEnded.ClockFault
        → C.clock_faults clock.new ≡ C.clock_faults clock.old }
    ensures found { FindsEnd result.how (I.ends input.old) (I.ends input.new) }
{
    let mut rooms = Rooms::new(alloc);
    let mut feeder = Feeder::new(alloc, Side::Requests);
    let mut dice = dice_of(seed);
    answer_all(
        alloc,
        input,
        &mut feeder,
        &mut rooms,
        out,
        clock,
        replay,
        &mut dice,
        who,
        world,
    )
}

/// Answers the requests of a session that begins.
fn answer_all<I: Source, O: Sink, C: Clock, R: Replay>(
    alloc: Global,
    input: &mut I,
    feeder: &mut Feeder,
    rooms: &mut Rooms,
    out: &mut O,
    clock: &mut C,
    replay: &mut R,
    dice: &mut Option<Dice>,
    who: Identity,
    world: &World,
) -> SessionEnd
    requires side { feeder.old.side ≡ Requests }
    requires between { feeder.old.unfinished ≡ [] }
    requires begins { feeder.old.begins ≡ 0 }
    requires place { place_of dice.old ≡ 0 }

    ensures ran { (files : WorldFiles) (base : List Event) → IsMadeOf world.now files
        → Stands (R.remembered replay.old) base
        → let before = outside_of (input_of (I.left input.old) (I.ends input.old))
        (O.taken out.old) (C.readings clock.old) in
        let after = outside_of (input_of (I.left input.new) (I.ends input.new))
        (O.taken out.new) (C.readings clock.new) in
        SessionRan (session_of world.now who files (seed_of dice.old) base) result
        (things_of before (R.remembered replay.old)) (things_of after (R.remembered replay.new)) }
    ensures live { AllLive (R.remembered replay.old) → AllLive (R.remembered replay.new) }
    ensures read_fault { result.how ≡ HowEnded.ReadFault
        → Rose (I.read_faults input.old) (I.read_faults input.new) }
    ensures write_fault { result.how ≡ HowEnded.WriteFault
        → Rose (O.write_faults out.old) (O.write_faults out.new) }
    ensures clock_fault { result.how ≡ HowEnded.ClockFault
        → Rose (C.clock_faults clock.old) (C.clock_faults clock.new) }
    ensures reads_sound { result.how ≢ HowEnded.ReadFault
        → I.read_faults input.new ≡ I.read_faults input.old }
    ensures writes_sound { result.how ≢ HowEnded.WriteFault
        → O.write_faults out.new ≡ O.write_faults out.old }
    ensures clock_sound { result.how ≢ HowEnded.ClockFault
        → C.clock_faults clock.new ≡ C.clock_faults clock.old }
    ensures found { FindsEnd result.how (I.ends input.old) (I.ends input.new) }
{
    let mut entries = 0;
    'requests: for answered in 0..REQUEST_LIMIT {
        match take_turn(
            alloc, input, feeder, rooms, out, clock, replay, dice, who, world, entries,
        ) {
            Ok(turned) => {
                if turned.over {
                    return SessionEnd {
                        answered: answered + 1,
                        how: HowEnded::Done,
                    };
                }
                entries = turned.entries;
            }
            Err(how) => return SessionEnd { answered, how },
        }
    }
    SessionEnd {
        answered: REQUEST_LIMIT,
        how: end_of_budget(input),
    }
}

/// The dice of a seed, if there is one, at its first word.
fn dice_of(seed: Option<[u8; 32]>) -> Option<Dice>
    ensures seed { seed_of result ≡ seed }
    ensures place { place_of result ≡ 0 }
{
    match seed {
        Some(seed) => Some(Dice::new(seed)),
        None => None,
    }
}

/// How a session ends that answered all the requests that it may: the input is asked for one byte
/// more.
fn end_of_budget<I: Source>(input: &mut I) -> HowEnded
    ensures asked { IsAsked result (input_of (I.left input.old) (I.ends input.old))
        (input_of (I.left input.new) (I.ends input.new)) }
    ensures read_fault { result ≡ HowEnded.ReadFault
        → Rose (I.read_faults input.old) (I.read_faults input.new) }
    ensures reads_sound { result ≢ HowEnded.ReadFault
        → I.read_faults input.new ≡ I.read_faults input.old }
    ensures ends_stay { I.ends input.old ≤ I.ends input.new }
    ensures found { FindsEnd result (I.ends input.old) (I.ends input.new) }
{
    let mut byte = [0; 1];
    match read_full(input, &mut byte) {
        FullRead::Full => HowEnded::Budget,
        FullRead::Short(_) => HowEnded::Done,
        FullRead::Failed(_) => HowEnded::ReadFault,
    }
}
