//! unmunge.

ghost use Rattle.std.specs.Prelude.{◌≡◌, ◌≢◌, ◌⊎◌, codes, false, map};
ghost use Rattle.std.specs.String.{string_bytes};
ghost use Rattle.std.specs.Io.KnownBytes.{Appends};
ghost use Rattle.byte_io.specs.Counts.{Rose};
ghost use Rattle.munge_tools.specs.Able.{CanOpen};
ghost use Rattle.munge_tools.specs.Ending.{Ended, IsAfterReply, IsOfReply, Says, errors_of};
ghost use Rattle.munge_tools.specs.Fitting.{FitsDecodeSaid};
ghost use Rattle.munge_tools.specs.Printed.{printed_text};
ghost use Rattle.munge_tools.specs.ReplyRead.{input_of};
ghost use Rattle.munge_tools.specs.Status.{failed_input, failed_output, unreached, want_of_memory};
ghost use Rattle.munge_tools.specs.Things.{same_of, things_of};
ghost use Rattle.munge_tools.specs.Unmunge.{OpeningCame, Shown, UnmungeCame};
ghost use Rattle.munge_tools.specs.UnmungeAskedTold.{unmunge_told};
ghost use Rattle.munge_tools.specs.Wire.{WireFailed, WireSound, seen_by};

use crate::ending::{Ending, end};
use crate::input::read_input;
use crate::output::print;
use crate::printing::printed;
use crate::replies::ask_to_open;
use crate::unmunge_words::{AskedUnmunge, unmunge_words};
use crate::words::Unread;
use byte_io::{Sink, Source, Wire};
use munge_types::{Failed, NoMemory};
use std::alloc::Global;
use wire_msg::laws::{frame_has_one_message, no_frame_goes_on_to_another};
use wire_msg::{BODY_LIMIT, Bytes, DecodeSaid};

/// Does what the words of unmunge ask for, which do not hold the program's name: it reads a text,
/// has the daemon open it, and prints what the reply says. It returns the status of the process,
/// which is that of a reply that fits. Where the status is its own, one line on `err` says why.
pub fn unmunge_run<I: Source, O: Sink, E: Sink, W: Wire>(
    alloc: Global,
    words: &[String],
    input: &mut I,
    out: &mut O,
    err: &mut E,
    wire: &mut W,
) -> u8
    ensures ran { let seen = seen_by W.dialled W.replies W.left W.taken W.ends
        W.dial_faults W.read_faults W.write_faults in
        let before = things_of (input_of (I.left input.old) (I.ends input.old))
        (O.taken out.old) (seen wire.old) in
        let after = things_of (input_of (I.left input.new) (I.ends input.new))
        (O.taken out.new) (seen wire.new) in
        let same = same_of (input.new ≡ input.old) (out.new ≡ out.old) (wire.new ≡ wire.old) in
        Ended (UnmungeCame (map string_bytes words.now) same before after)
        (Says (errors_of (E.taken err.old) (E.write_faults err.old))
        (errors_of (E.taken err.new) (E.write_faults err.new)))
        (codes "unmunge") result }

    ensures wire_fault { let seen = seen_by W.dialled W.replies W.left W.taken W.ends
        W.dial_faults W.read_faults W.write_faults in
        result ≡ unreached → WireFailed (seen wire.old) (seen wire.new) }
    ensures read_fault { result ≡ failed_input
        → Rose (I.read_faults input.old) (I.read_faults input.new) }
    ensures write_fault { result ≡ failed_output
        → Rose (O.write_faults out.old) (O.write_faults out.new) }
    ensures wire_sound { let seen = seen_by W.dialled W.replies W.left W.taken W.ends
        W.dial_faults W.read_faults W.write_faults in
        result ≢ unreached → WireSound (seen wire.old) (seen wire.new) }
    ensures reads_sound { result ≢ failed_input
        → I.read_faults input.new ≡ I.read_faults input.old }
    ensures writes_sound { result ≢ failed_output
        → O.write_faults out.new ≡ O.write_faults out.old }

    // Nothing else than want of memory keeps it from what a fitting reply says.
    ensures complete { let seen = seen_by W.dialled W.replies W.left W.taken W.ends
        W.dial_faults W.read_faults W.write_faults in
        let before = things_of (input_of (I.left input.old) (I.ends input.old))
        (O.taken out.old) (seen wire.old) in
        let after = things_of (input_of (I.left input.new) (I.ends input.new))
        (O.taken out.new) (seen wire.new) in
        (can : CanOpen (map string_bytes words.now) before)
        → ¬ WireFailed before.wire after.wire
        → ¬ Rose (I.read_faults input.old) (I.read_faults input.new)
        → ¬ Rose (O.write_faults out.old) (O.write_faults out.new)
        → (result ≡ want_of_memory) ⊎ ((result ≡ can.said.status)
        × (can.asked.no_output ≡ false
        → Appends before.taken after.taken (printed_text can.said))) }
{
    frame_has_one_message();
    no_frame_goes_on_to_another();
    let ending = run(alloc, words, input, out, wire);
    end("unmunge", err, ending)
}

/// Does what the words ask for, and says how unmunge ends.
fn run<I: Source, O: Sink, W: Wire>(
    alloc: Global,
    words: &[String],
    input: &mut I,
    out: &mut O,
    wire: &mut W,
) -> Ending
    ensures came { let seen = seen_by W.dialled W.replies W.left W.taken W.ends
        W.dial_faults W.read_faults W.write_faults in
        let before = things_of (input_of (I.left input.old) (I.ends input.old))
        (O.taken out.old) (seen wire.old) in
        let after = things_of (input_of (I.left input.new) (I.ends input.new))
        (O.taken out.new) (seen wire.new) in
        let same = same_of (input.new ≡ input.old) (out.new ≡ out.old) (wire.new ≡ wire.old) in
        UnmungeCame (map string_bytes words.now) same before after result }

    ensures of_reply { IsOfReply result }
    ensures wire_fault { let seen = seen_by W.dialled W.replies W.left W.taken W.ends
        W.dial_faults W.read_faults W.write_faults in
        result ≡ Ending.Unreached → WireFailed (seen wire.old) (seen wire.new) }
    ensures read_fault { result ≡ Ending.InputFailed
        → Rose (I.read_faults input.old) (I.read_faults input.new) }
    ensures write_fault { result ≡ Ending.OutputFailed
        → Rose (O.write_faults out.old) (O.write_faults out.new) }
    ensures wire_sound { let seen = seen_by W.dialled W.replies W.left W.taken W.ends
        W.dial_faults W.read_faults W.write_faults in
        result ≢ Ending.Unreached → WireSound (seen wire.old) (seen wire.new) }
    ensures reads_sound { result ≢ Ending.InputFailed
        → I.read_faults input.new ≡ I.read_faults input.old }
    ensures writes_sound { result ≢ Ending.OutputFailed
        → O.write_faults out.new ≡ O.write_faults out.old }
{
    match unmunge_words(alloc, words) {
        Ok(asked) => open_text(alloc, asked, input, out, wire),
        Err(Unread::Refused) => Ending::BadWords,
        Err(Unread::NoMemory) => Ending::NoMemory,
    }
}

/// Has the daemon open the text of the input, prints what is asked for, and says how unmunge ends.
fn open_text<I: Source, O: Sink, W: Wire>(
    alloc: Global,
    asked: AskedUnmunge<'_>,
    input: &mut I,
    out: &mut O,
    wire: &mut W,
) -> Ending
    ensures came { let seen = seen_by W.dialled W.replies W.left W.taken W.ends
        W.dial_faults W.read_faults W.write_faults in
        let before = things_of (input_of (I.left input.old) (I.ends input.old))
        (O.taken out.old) (seen wire.old) in
        let after = things_of (input_of (I.left input.new) (I.ends input.new))
        (O.taken out.new) (seen wire.new) in
        let same = same_of (input.new ≡ input.old) (out.new ≡ out.old) (wire.new ≡ wire.old) in
        OpeningCame (unmunge_told asked.entry) same before after result }

    ensures of_reply { IsOfReply result }
    ensures wire_fault { let seen = seen_by W.dialled W.replies W.left W.taken W.ends
        W.dial_faults W.read_faults W.write_faults in
        result ≡ Ending.Unreached → WireFailed (seen wire.old) (seen wire.new) }
    ensures read_fault { result ≡ Ending.InputFailed
        → Rose (I.read_faults input.old) (I.read_faults input.new) }
    ensures write_fault { result ≡ Ending.OutputFailed
        → Rose (O.write_faults out.old) (O.write_faults out.new) }
    ensures wire_sound { let seen = seen_by W.dialled W.replies W.left W.taken W.ends
        W.dial_faults W.read_faults W.write_faults in
        result ≢ Ending.Unreached → WireSound (seen wire.old) (seen wire.new) }
    ensures reads_sound { result ≢ Ending.InputFailed
        → I.read_faults input.new ≡ I.read_faults input.old }
    ensures writes_sound { result ≢ Ending.OutputFailed
        → O.write_faults out.new ≡ O.write_faults out.old }
{
    let text = match read_input(alloc, input, BODY_LIMIT) {
        Ok(text) => text,
        Err(ending) => return ending,
    };
    match ask_to_open(alloc, wire, asked.socket, Bytes::of(text)) {
        Ok(said) => show(alloc, &said, asked.no_output, out),
        Err(why) => Ending::of(why),
    }
}

/// Prints what a reply says, unless nothing is to be printed, and says how unmunge ends.
fn show<O: Sink>(alloc: Global, said: &DecodeSaid, no_output: bool, out: &mut O) -> Ending
    requires { FitsDecodeSaid said.now }
    ensures shown { Shown said.now no_output (out.new ≡ out.old)
        (O.taken out.old) (O.taken out.new) result }
    ensures of_reply { IsAfterReply result }
    ensures write_fault { result ≡ Ending.OutputFailed
        → Rose (O.write_faults out.old) (O.write_faults out.new) }
    ensures writes_sound { result ≢ Ending.OutputFailed
        → O.write_faults out.new ≡ O.write_faults out.old }
{
    if no_output {
        return Ending::Done(said.status);
    }
    let text = match printed(alloc, said) {
        Ok(text) => text,
        Err(NoMemory) => return Ending::NoMemory,
    };
    match print(out, text.as_slice()) {
        Ok(()) => Ending::Done(said.status),
        Err(Failed) => Ending::OutputFailed,
    }
}
