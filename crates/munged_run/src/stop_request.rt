//! A request to stop, and the answer to it.

ghost use Rattle.std.specs.Prelude.{◌≡◌, ◌≢◌, ◌≤◌, IfOk, length};
ghost use Rattle.byte_io.specs.Counts.{Rose};
ghost use Rattle.session_core.specs.Things.{input_of};
ghost use Rattle.wire_msg.specs.FrameHead.{body_limit};
ghost use Rattle.wire_msg.specs.Spelling.{body_of, frame_of};
ghost use Rattle.munged_run.specs.Stop.{StopAsked, is_other, stop_answer, stop_request};
ghost use Rattle.munged_run.specs.StopAnswer.{AnswerRead};
ghost use Rattle.munged_run.specs.Wire.{WireFailed, WireSound, seen_by};
ghost use Rattle.munged_run.specs.declared.stop_request.AskedToStop.TheVariants.{Failed};

use byte_io::{AllWritten, FullRead, Hall, Source, read_full, write_all};
use munge_types::NoMemory;
use std::alloc::Global;
use wire_msg::{FrameRefused, Message, frame};

/// How many bytes the answer has that the daemon stops.
const ANSWER_SIZE: usize = 8;

/// What came of asking a daemon to stop.
#[derive(Clone, Copy, Debug, PartialEq, Eq)]
pub enum AskedToStop {
    /// No socket has control.
    NoControl,
    /// No memory was left, and nothing was dialled.
    NoMemory,
    /// The dial, a write or a read failed.
    Failed,
    /// The answer is another than that the daemon stops, or ended before it could be that.
    Other,
    /// The daemon says that it stops.
    Stops,
}

impl AskedToStop {
    /// There was an answer, and it is another than that the daemon stops.
    pub fn is_other(self) -> bool
        ensures { result ≡ is_other self }
    {
        matches!(self, AskedToStop::Other)
    }
}

/// Dials the socket of this path, asks to stop and reads the answer. All memory is taken before the
/// dial.
pub fn ask_to_stop<H: Hall>(alloc: Global, hall: &mut H, path: &str) -> AskedToStop
    ensures asked { let seen = seen_by H.dialled H.replies H.left H.taken H.ends
        H.dial_faults H.read_faults H.write_faults in
        StopAsked path.now (hall.new ≡ hall.old) (seen hall.old) (seen hall.new) result }
    ensures fault { let seen = seen_by H.dialled H.replies H.left H.taken H.ends
        H.dial_faults H.read_faults H.write_faults in
        result ≡ Failed → WireFailed (seen hall.old) (seen hall.new) }
    ensures sound { let seen = seen_by H.dialled H.replies H.left H.taken H.ends
        H.dial_faults H.read_faults H.write_faults in
        result ≢ Failed → WireSound (seen hall.old) (seen hall.new) }
    ensures doors { H.doors hall.new ≡ H.doors hall.old }
    ensures hall_faults { H.hall_faults hall.new ≡ H.hall_faults hall.old }
{
    let Ok(request) = short_frame(alloc, &Message::Stop) else {
        return AskedToStop::NoMemory;
    };
    let Ok(answer) = short_frame(alloc, &Message::Bye(0)) else {
        return AskedToStop::NoMemory;
    };
    over_wire(hall, path, request.as_slice(), answer.as_slice())
}

/// The frame of a message that fits one.
fn short_frame(alloc: Global, message: &Message) -> Result<Vec<u8>, NoMemory>
    requires { length (body_of message.now) ≤ body_limit }
    ensures { IfOk result (λ bytes. bytes.items ≡ frame_of message.now) }
{
    match frame(alloc, message) {
        Ok(bytes) => Ok(bytes),
        Err(FrameRefused::TooLong(_)) => unreachable!(),
        Err(FrameRefused::NoMemory) => Err(NoMemory),
    }
}

/// Dials the socket of this path, sends the request and reads the answer, which is right where it is
/// this one.
fn over_wire<H: Hall>(hall: &mut H, path: &str, request: &[u8], answer: &[u8]) -> AskedToStop
    requires request { request.now ≡ stop_request }
    requires answer { answer.now ≡ stop_answer }
    ensures asked { let seen = seen_by H.dialled H.replies H.left H.taken H.ends
        H.dial_faults H.read_faults H.write_faults in
        StopAsked path.now (hall.new ≡ hall.old) (seen hall.old) (seen hall.new) result }
    ensures fault { let seen = seen_by H.dialled H.replies H.left H.taken H.ends
        H.dial_faults H.read_faults H.write_faults in
        result ≡ Failed → WireFailed (seen hall.old) (seen hall.new) }
    ensures sound { let seen = seen_by H.dialled H.replies H.left H.taken H.ends
        H.dial_faults H.read_faults H.write_faults in
        result ≢ Failed → WireSound (seen hall.old) (seen hall.new) }
    ensures doors { H.doors hall.new ≡ H.doors hall.old }
    ensures hall_faults { H.hall_faults hall.new ≡ H.hall_faults hall.old }
{
    let Ok(()) = hall.dial(path) else {
        return AskedToStop::Failed;
    };
    match write_all(hall, request) {
        AllWritten::All => read_answer(hall, answer),
        AllWritten::Failed(_) => AskedToStop::Failed,
    }
}

/// Reads an answer, which is right where it is this one. No byte behind it is read.
fn read_answer<I: Source>(input: &mut I, answer: &[u8]) -> AskedToStop
    requires { answer.now ≡ stop_answer }
    ensures read { AnswerRead (input_of (I.left input.old) (I.ends input.old))
        (input_of (I.left input.new) (I.ends input.new)) result }
    ensures fault { result ≡ Failed → Rose (I.read_faults input.old) (I.read_faults input.new) }
    ensures sound { result ≢ Failed → I.read_faults input.new ≡ I.read_faults input.old }
    ensures beside { I.beside_reads input.new ≡ I.beside_reads input.old }
{
    let mut bytes = [0u8; ANSWER_SIZE];
    match read_full(input, &mut bytes) {
        FullRead::Full => {
            if bytes.as_slice() == answer {
                AskedToStop::Stops
            } else {
                AskedToStop::Other
            }
        }
        FullRead::Short(_) => AskedToStop::Other,
        FullRead::Failed(_) => AskedToStop::Failed,
    }
}
