//! remunge.

ghost use Rattle.std.specs.Prelude.{◌≡◌, ◌≢◌, ◌⊎◌, codes, map};
ghost use Rattle.std.specs.String.{string_bytes};
ghost use Rattle.byte_io.specs.Counts.{Rose};
ghost use Rattle.munge_tools.specs.Ending.{Ended, IsAfterReply, IsOfReply, Says, errors_of};
ghost use Rattle.munge_tools.specs.Remunge.{EndsBy, MakingCame, RemungeCame, Told};
ghost use Rattle.munge_tools.specs.RemungeAble.{CanRun, TotalsPrinted};
ghost use Rattle.munge_tools.specs.RemungeAskedTold.{remunge_told};
ghost use Rattle.munge_tools.specs.Status.{failed_output, unreached, want_of_memory};
ghost use Rattle.munge_tools.specs.Wire.{WireFailed, WireSound, seen_by};

use crate::ending::{Ending, end};
use crate::munge::PAYLOAD_LIMIT;
use crate::output::print;
use crate::remunge_words::{AskedRemunge, remunge_words};
use crate::rounds::run_rounds;
use crate::totals::Totals;
use crate::words::Unread;
use byte_io::{Sink, Wire};
use munge_types::{Failed, NoMemory};
use std::alloc::Global;
use wire_msg::laws::{frame_has_one_message, no_frame_goes_on_to_another};

/// Does what the words of remunge ask for, which do not hold the program's name: it has
/// credentials made, and opened where that is asked for, and prints how many were. It returns the
/// status of the process: 0 where each reply had status 0, and 1 where one had not. Where the
/// status is 3 or above, one line on `err` says why.
pub fn remunge_run<O: Sink, E: Sink, W: Wire>(
    alloc: Global,
    words: &[String],
    out: &mut O,
    err: &mut E,
    wire: &mut W,
) -> u8
    ensures ran { let seen = seen_by W.dialled W.replies W.left W.taken W.ends
        W.dial_faults W.read_faults W.write_faults in
        Ended (RemungeCame (map string_bytes words.now) (out.new ≡ out.old) (wire.new ≡ wire.old)
        (O.taken out.old) (O.taken out.new) (seen wire.old) (seen wire.new))
        (Says (errors_of (E.taken err.old) (E.write_faults err.old))
        (errors_of (E.taken err.new) (E.write_faults err.new)))
        (codes "remunge") result }

    ensures wire_fault { let seen = seen_by W.dialled W.replies W.left W.taken W.ends
        W.dial_faults W.read_faults W.write_faults in
        result ≡ unreached → WireFailed (seen wire.old) (seen wire.new) }
    ensures write_fault { result ≡ failed_output
        → Rose (O.write_faults out.old) (O.write_faults out.new) }
    ensures wire_sound { let seen = seen_by W.dialled W.replies W.left W.taken W.ends
        W.dial_faults W.read_faults W.write_faults in
        result ≢ unreached → WireSound (seen wire.old) (seen wire.new) }
    ensures writes_sound { result ≢ failed_output
        → O.write_faults out.new ≡ O.write_faults out.old }

    // Nothing else than want of memory keeps it from its totals.
    ensures complete { let seen = seen_by W.dialled W.replies W.left W.taken W.ends
        W.dial_faults W.read_faults W.write_faults in
        (can : CanRun (map string_bytes words.now) (seen wire.old))
        → ¬ WireFailed (seen wire.old) (seen wire.new)
        → ¬ Rose (O.write_faults out.old) (O.write_faults out.new)
        → (result ≡ want_of_memory)
        ⊎ TotalsPrinted can.asked (O.taken out.old) (O.taken out.new)
        (seen wire.old) (seen wire.new) result }
{
    frame_has_one_message();
    no_frame_goes_on_to_another();
    let ending = run(alloc, words, out, wire);
    end("remunge", err, ending)
}

/// Does what the words ask for, and says how remunge ends.
fn run<O: Sink, W: Wire>(alloc: Global, words: &[String], out: &mut O, wire: &mut W) -> Ending
    ensures came { let seen = seen_by W.dialled W.replies W.left W.taken W.ends
        W.dial_faults W.read_faults W.write_faults in
        RemungeCame (map string_bytes words.now) (out.new ≡ out.old) (wire.new ≡ wire.old)
        (O.taken out.old) (O.taken out.new) (seen wire.old) (seen wire.new) result }

    ensures of_reply { IsOfReply result }
    ensures wire_fault { let seen = seen_by W.dialled W.replies W.left W.taken W.ends
        W.dial_faults W.read_faults W.write_faults in
        result ≡ Ending.Unreached → WireFailed (seen wire.old) (seen wire.new) }
    ensures write_fault { result ≡ Ending.OutputFailed
        → Rose (O.write_faults out.old) (O.write_faults out.new) }
    ensures wire_sound { let seen = seen_by W.dialled W.replies W.left W.taken W.ends
        W.dial_faults W.read_faults W.write_faults in
        result ≢ Ending.Unreached → WireSound (seen wire.old) (seen wire.new) }
    ensures writes_sound { result ≢ Ending.OutputFailed
        → O.write_faults out.new ≡ O.write_faults out.old }
{
    match remunge_words(alloc, words) {
        Ok(asked) => make_all(alloc, &asked, out, wire),
        Err(Unread::Refused) => Ending::BadWords,
        Err(Unread::NoMemory) => Ending::NoMemory,
    }
}

/// Has the credentials made that are asked for, prints the totals, and says how remunge ends.
fn make_all<O: Sink, W: Wire>(
    alloc: Global,
    asked: &AskedRemunge<'_>,
    out: &mut O,
    wire: &mut W,
) -> Ending
    ensures came { let seen = seen_by W.dialled W.replies W.left W.taken W.ends
        W.dial_faults W.read_faults W.write_faults in
        MakingCame (remunge_told asked.now) (out.new ≡ out.old) (wire.new ≡ wire.old)
        (O.taken out.old) (O.taken out.new) (seen wire.old) (seen wire.new) result }

    ensures of_reply { IsOfReply result }
    ensures wire_fault { let seen = seen_by W.dialled W.replies W.left W.taken W.ends
        W.dial_faults W.read_faults W.write_faults in
        result ≡ Ending.Unreached → WireFailed (seen wire.old) (seen wire.new) }
    ensures write_fault { result ≡ Ending.OutputFailed
        → Rose (O.write_faults out.old) (O.write_faults out.new) }
    ensures wire_sound { let seen = seen_by W.dialled W.replies W.left W.taken W.ends
        W.dial_faults W.read_faults W.write_faults in
        result ≢ Ending.Unreached → WireSound (seen wire.old) (seen wire.new) }
    ensures writes_sound { result ≢ Ending.OutputFailed
        → O.write_faults out.new ≡ O.write_faults out.old }
{
    if asked.payload.len() > PAYLOAD_LIMIT as usize {
        return Ending::TooLong;
    }
    match run_rounds(alloc, wire, asked) {
        Ok(totals) => tell(alloc, totals, out),
        Err(why) => Ending::of(why),
    }
}

/// Prints the totals, and says how remunge ends.
fn tell<O: Sink>(alloc: Global, totals: Totals, out: &mut O) -> Ending
    ensures told { Told totals (out.new ≡ out.old) (O.taken out.old) (O.taken out.new) result }
    ensures of_reply { IsAfterReply result }
    ensures write_fault { result ≡ Ending.OutputFailed
        → Rose (O.write_faults out.old) (O.write_faults out.new) }
    ensures writes_sound { result ≢ Ending.OutputFailed
        → O.write_faults out.new ≡ O.write_faults out.old }
{
    let text = match totals.line(alloc) {
        Ok(text) => text,
        Err(NoMemory) => return Ending::NoMemory,
    };
    match print(out, text.as_slice()) {
        Ok(()) => ending_by(totals),
        Err(Failed) => Ending::OutputFailed,
    }
}

/// How remunge ends by its totals.
fn ending_by(totals: Totals) -> Ending
    ensures ends { EndsBy totals result }
    ensures of_reply { IsAfterReply result }
    ensures done { result ≢ Ending.OutputFailed }
{
    if totals.failed == 0 {
        Ending::Done(0)
    } else {
        Ending::Done(1)
    }
}
