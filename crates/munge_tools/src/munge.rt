//! munge.

ghost use Rattle.std.specs.Prelude.{◌≡◌, ◌≢◌, ◌≤◌, ◌⊎◌, Err, IfErr, IfOk, codes, length, map};
ghost use Rattle.std.specs.String.{string_bytes};
ghost use Rattle.std.specs.Io.KnownBytes.{Appends};
ghost use Rattle.byte_io.specs.Counts.{Rose};
ghost use Rattle.munge_tools.specs.Able.{CanSeal};
ghost use Rattle.munge_tools.specs.Ending.{Ended, IsAfterReply, IsBeforeDial, IsOfReply, Says, errors_of};
ghost use Rattle.munge_tools.specs.Fitting.{FitsEncodeSaid};
ghost use Rattle.munge_tools.specs.Munge.{
  Answered,
  AskedCame,
  IsPayload,
  MungeCame,
  NoPayload,
  TextRefused,
  payload_limit,
  text_line,
};
ghost use Rattle.munge_tools.specs.MungeAskedTold.{munge_told, payload_told};
ghost use Rattle.munge_tools.specs.ReplyRead.{input_of};
ghost use Rattle.munge_tools.specs.Status.{failed_input, failed_output, unreached, want_of_memory};
ghost use Rattle.munge_tools.specs.Things.{same_of, things_of};
ghost use Rattle.munge_tools.specs.Wire.{WireFailed, WireSound, seen_by};

use crate::ending::{Ending, end};
use crate::input::read_input;
use crate::munge_words::{AskedMunge, Payload, munge_words};
use crate::output::print_line;
use crate::replies::ask_to_seal;
use crate::words::Unread;
use byte_io::{Sink, Source, Wire};
use munge_types::Failed;
use std::alloc::Global;
use wire_msg::laws::{frame_has_one_message, no_frame_goes_on_to_another};
use wire_msg::{Bytes, EncodeAsk, EncodeSaid};

/// The most bytes of a payload.
pub(crate) const PAYLOAD_LIMIT: u32 = 1_048_576;

/// Does what the words of munge ask for, which do not hold the program's name, and returns the
/// status of the process. Where that is not 0, one line on `err` says why.
pub fn munge_run<I: Source, O: Sink, E: Sink, W: Wire>(
    alloc: Global,
    words: &[String],
    input: &mut I,
    out: &mut O,
    err: &mut E,
    wire: &mut W,
) -> u8
    ensures ran { let seen = seen_by W.dialled W.replies W.left W.taken W.ends
        W.dial_faults W.read_faults W.write_faults in
        let before = things_of (input_of (I.left input.old) (I.ends input.old))
        (O.taken out.old) (seen wire.old) in
        let after = things_of (input_of (I.left input.new) (I.ends input.new))
        (O.taken out.new) (seen wire.new) in
        let same = same_of (input.new ≡ input.old) (out.new ≡ out.old) (wire.new ≡ wire.old) in
        Ended (MungeCame (map string_bytes words.now) same before after)
        (Says (errors_of (E.taken err.old) (E.write_faults err.old))
        (errors_of (E.taken err.new) (E.write_faults err.new)))
        (codes "munge") result }

    ensures wire_fault { let seen = seen_by W.dialled W.replies W.left W.taken W.ends
        W.dial_faults W.read_faults W.write_faults in
        result ≡ unreached → WireFailed (seen wire.old) (seen wire.new) }
    ensures read_fault { result ≡ failed_input
        → Rose (I.read_faults input.old) (I.read_faults input.new) }
    ensures write_fault { result ≡ failed_output
        → Rose (O.write_faults out.old) (O.write_faults out.new) }
    ensures wire_sound { let seen = seen_by W.dialled W.replies W.left W.taken W.ends
        W.dial_faults W.read_faults W.write_faults in
        result ≢ unreached → WireSound (seen wire.old) (seen wire.new) }
    ensures reads_sound { result ≢ failed_input
        → I.read_faults input.new ≡ I.read_faults input.old }
    ensures writes_sound { result ≢ failed_output
        → O.write_faults out.new ≡ O.write_faults out.old }

    // Nothing else than want of memory keeps it from what a fitting reply says.
    ensures complete { let seen = seen_by W.dialled W.replies W.left W.taken W.ends
        W.dial_faults W.read_faults W.write_faults in
        let before = things_of (input_of (I.left input.old) (I.ends input.old))
        (O.taken out.old) (seen wire.old) in
        let after = things_of (input_of (I.left input.new) (I.ends input.new))
        (O.taken out.new) (seen wire.new) in
        (can : CanSeal (map string_bytes words.now) before)
        → ¬ WireFailed before.wire after.wire
        → ¬ Rose (I.read_faults input.old) (I.read_faults input.new)
        → ¬ Rose (O.write_faults out.old) (O.write_faults out.new)
        → (result ≡ want_of_memory) ⊎ ((result ≡ can.said.status)
        × (can.said.status ≡ 0 → Appends before.taken after.taken (text_line can.said.text))) }
{
    frame_has_one_message();
    no_frame_goes_on_to_another();
    let ending = run(alloc, words, input, out, wire);
    end("munge", err, ending)
}

/// Does what the words ask for, and says how munge ends.
fn run<I: Source, O: Sink, W: Wire>(
    alloc: Global,
    words: &[String],
    input: &mut I,
    out: &mut O,
    wire: &mut W,
) -> Ending
    ensures came { let seen = seen_by W.dialled W.replies W.left W.taken W.ends
        W.dial_faults W.read_faults W.write_faults in
        let before = things_of (input_of (I.left input.old) (I.ends input.old))
        (O.taken out.old) (seen wire.old) in
        let after = things_of (input_of (I.left input.new) (I.ends input.new))
        (O.taken out.new) (seen wire.new) in
        let same = same_of (input.new ≡ input.old) (out.new ≡ out.old) (wire.new ≡ wire.old) in
        MungeCame (map string_bytes words.now) same before after result }

    ensures of_reply { IsOfReply result }
    ensures wire_fault { let seen = seen_by W.dialled W.replies W.left W.taken W.ends
        W.dial_faults W.read_faults W.write_faults in
        result ≡ Ending.Unreached → WireFailed (seen wire.old) (seen wire.new) }
    ensures read_fault { result ≡ Ending.InputFailed
        → Rose (I.read_faults input.old) (I.read_faults input.new) }
    ensures write_fault { result ≡ Ending.OutputFailed
        → Rose (O.write_faults out.old) (O.write_faults out.new) }
    ensures wire_sound { let seen = seen_by W.dialled W.replies W.left W.taken W.ends
        W.dial_faults W.read_faults W.write_faults in
        result ≢ Ending.Unreached → WireSound (seen wire.old) (seen wire.new) }
    ensures reads_sound { result ≢ Ending.InputFailed
        → I.read_faults input.new ≡ I.read_faults input.old }
    ensures writes_sound { result ≢ Ending.OutputFailed
        → O.write_faults out.new ≡ O.write_faults out.old }
{
    match munge_words(alloc, words) {
        Ok(asked) => seal(alloc, asked, input, out, wire),
        Err(Unread::Refused) => Ending::BadWords,
        Err(Unread::NoMemory) => Ending::NoMemory,
    }
}

/// Has the daemon seal what is asked for, prints the text, and says how munge ends.
fn seal<I: Source, O: Sink, W: Wire>(
    alloc: Global,
    asked: AskedMunge<'_>,
    input: &mut I,
    out: &mut O,
    wire: &mut W,
) -> Ending
    ensures came { let seen = seen_by W.dialled W.replies W.left W.taken W.ends
        W.dial_faults W.read_faults W.write_faults in
        let before = things_of (input_of (I.left input.old) (I.ends input.old))
        (O.taken out.old) (seen wire.old) in
        let after = things_of (input_of (I.left input.new) (I.ends input.new))
        (O.taken out.new) (seen wire.new) in
        let same = same_of (input.new ≡ input.old) (out.new ≡ out.old) (wire.new ≡ wire.old) in
        AskedCame (munge_told asked.entry) same before after result }

    ensures of_reply { IsOfReply result }
    ensures wire_fault { let seen = seen_by W.dialled W.replies W.left W.taken W.ends
        W.dial_faults W.read_faults W.write_faults in
        result ≡ Ending.Unreached → WireFailed (seen wire.old) (seen wire.new) }
    ensures read_fault { result ≡ Ending.InputFailed
        → Rose (I.read_faults input.old) (I.read_faults input.new) }
    ensures write_fault { result ≡ Ending.OutputFailed
        → Rose (O.write_faults out.old) (O.write_faults out.new) }
    ensures wire_sound { let seen = seen_by W.dialled W.replies W.left W.taken W.ends
        W.dial_faults W.read_faults W.write_faults in
        result ≢ Ending.Unreached → WireSound (seen wire.old) (seen wire.new) }
    ensures reads_sound { result ≢ Ending.InputFailed
        → I.read_faults input.new ≡ I.read_faults input.old }
    ensures writes_sound { result ≢ Ending.OutputFailed
        → O.write_faults out.new ≡ O.write_faults out.old }
{
    let payload = match payload_of(alloc, asked.payload, input) {
        Ok(payload) => payload,
        Err(ending) => return ending,
    };
    let ask = EncodeAsk {
        cipher: asked.cipher,
        kind: asked.mac,
        ttl: asked.ttl,
        for_uid: asked.for_uid,
        for_gid: asked.for_gid,
        payload,
    };
    match ask_to_seal(alloc, wire, asked.socket, ask) {
        Ok(said) => answer(&said, out),
        Err(why) => Ending::of(why),
    }
}

/// What is to be sealed, or how munge ends where that is too long or not to be had.
fn payload_of<I: Source>(alloc: Global, asked: Payload<'_>, input: &mut I) -> Result<Bytes, Ending>
    ensures within { IfOk result (λ bytes. length bytes ≤ payload_limit) }
    ensures payload { IfOk result (λ bytes. IsPayload (payload_told asked.entry)
        (input.new ≡ input.old)
        (input_of (I.left input.old) (I.ends input.old))
        (input_of (I.left input.new) (I.ends input.new)) bytes) }
    ensures none { IfErr result (NoPayload (payload_told asked.entry) (input.new ≡ input.old)
        (input_of (I.left input.old) (I.ends input.old))
        (input_of (I.left input.new) (I.ends input.new))) }
    ensures own { IfErr result IsBeforeDial }
    ensures fault { result ≡ Err Ending.InputFailed
        → Rose (I.read_faults input.old) (I.read_faults input.new) }
    ensures sound { result ≢ Err Ending.InputFailed
        → I.read_faults input.new ≡ I.read_faults input.old }
{
    match asked {
        Payload::Text(text) => payload_of_text(alloc, text),
        Payload::Nothing => Ok(Bytes::of(Vec::new(alloc))),
        Payload::Input => match read_input(alloc, input, PAYLOAD_LIMIT) {
            Ok(bytes) => Ok(Bytes::of(bytes)),
            Err(ending) => Err(ending),
        },
    }
}

/// The bytes of a text, unless it is too long.
fn payload_of_text(alloc: Global, text: &str) -> Result<Bytes, Ending>
    ensures within { IfOk result (λ bytes. length bytes ≤ payload_limit) }
    ensures same { IfOk result (λ bytes. bytes ≡ text.now) }
    ensures refused { IfErr result (TextRefused text.now) }
{
    if text.len() > PAYLOAD_LIMIT as usize {
        return Err(Ending::TooLong);
    }
    match Vec::from_slice(alloc, text.as_bytes()) {
        Ok(bytes) => Ok(Bytes::of(bytes)),
        Err(_) => Err(Ending::NoMemory),
    }
}

/// Prints the text of a reply that has one, and says how munge ends.
fn answer<O: Sink>(said: &EncodeSaid, out: &mut O) -> Ending
    requires { FitsEncodeSaid said.now }
    ensures answered { Answered said.now (out.new ≡ out.old)
        (O.taken out.old) (O.taken out.new) result }
    ensures of_reply { IsAfterReply result }
    ensures write_fault { result ≡ Ending.OutputFailed
        → Rose (O.write_faults out.old) (O.write_faults out.new) }
    ensures writes_sound { result ≢ Ending.OutputFailed
        → O.write_faults out.new ≡ O.write_faults out.old }
{
    if said.status != 0 {
        return Ending::Refused(said.status);
    }
    match print_line(out, said.text.bytes()) {
        Ok(()) => Ending::Done(0),
        Err(Failed) => Ending::OutputFailed,
    }
}
