//! Reading a reply of the daemon.

ghost use Rattle.std.specs.Prelude.{◌≡◌, ◌≢◌, ℕ, ◌≤◌, ◌++◌, List, [], Err, IfErr, IfOk, length};
ghost use Rattle.byte_io.specs.Counts.{Rose};
ghost use Rattle.std.specs.Io.KnownBytes.{Consumes};
ghost use Rattle.wire_msg.specs.Fits.{IsMessage};
ghost use Rattle.wire_msg.specs.Frame.{IsFrame, IsUnfinished};
ghost use Rattle.wire_msg.specs.Spelling.{frame_of};
ghost use Rattle.wire_msg.specs.declared.kind.Side.TheVariants.{Replies};
ghost use Rattle.munge_tools.specs.ReplyRead.{Came, PieceRefused, Stopped, Took, input_of};

use crate::exchange::Unheard;
use byte_io::Source;
use munge_types::{Failed, NoMemory};
use std::alloc::Global;
use wire_msg::laws::fronts_are_unfinished;
use wire_msg::{Fed, Feeder, Message, Side};

/// How far a reply came by one read.
#[derive(Drop)]
pub enum Step {
    /// All of it.
    Whole(Message),
    /// Some more of it.
    Part,
}

/// Reads one reply and nothing beyond it, by pieces of the buffer's size at most.
pub fn read_reply<I: Source>(
    alloc: Global,
    input: &mut I,
    buffer: &mut [u8],
) -> Result<Message, Unheard>
    requires { 1 ≤ length buffer.old }
    ensures fits { IfOk result (IsMessage Replies) }
    ensures read { IfOk result (λ message.
        Consumes (I.left input.old) (I.left input.new) (frame_of message)) }
    ensures stopped { IfErr result (Stopped []
        (input_of (I.left input.old) (I.ends input.old))
        (input_of (I.left input.new) (I.ends input.new))) }
    ensures fault { result ≡ Err Unheard.Unreached
        → Rose (I.read_faults input.old) (I.read_faults input.new) }
    ensures sound { result ≢ Err Unheard.Unreached
        → I.read_faults input.new ≡ I.read_faults input.old }
    ensures beside { I.beside_reads input.new ≡ I.beside_reads input.old }
{
    fronts_are_unfinished();
    let mut feeder = Feeder::new(alloc, Side::Replies);
    'pieces: loop {
        match read_piece(input, &mut feeder, buffer) {
            Ok(Step::Whole(message)) => return Ok(message),
            Ok(Step::Part) => {}
            Err(why) => return Err(why),
        }
    }
}

/// Reads some more of a reply.
fn read_piece<I: Source>(
    input: &mut I,
    feeder: &mut Feeder,
    buffer: &mut [u8],
) -> Result<Step, Unheard>
    requires side { feeder.old.side ≡ Replies }
    requires unfinished { IsUnfinished Replies feeder.old.unfinished }
    requires room { 1 ≤ length buffer.old }
    ensures took { IfOk result (Took feeder.old feeder.new
        (input_of (I.left input.old) (I.ends input.old))
        (input_of (I.left input.new) (I.ends input.new))) }
    ensures stopped { IfErr result (Stopped feeder.old.unfinished
        (input_of (I.left input.old) (I.ends input.old))
        (input_of (I.left input.new) (I.ends input.new))) }
    ensures fault { result ≡ Err Unheard.Unreached
        → Rose (I.read_faults input.old) (I.read_faults input.new) }
    ensures sound { result ≢ Err Unheard.Unreached
        → I.read_faults input.new ≡ I.read_faults input.old }
    ensures side { feeder.new.side ≡ Replies }
    ensures beside { I.beside_reads input.new ≡ I.beside_reads input.old }
{
    let size = feeder.wanted().min(buffer.len());
    let piece = &mut buffer[..size];
    match input.read(piece) {
        Ok(0) => Err(Unheard::BadReply),
        Ok(count) => take_piece(feeder, &piece[..count]),
        Err(Failed) => Err(Unheard::Unreached),
    }
}

/// How far a reply comes by a piece, which is no longer than what is wanted of it.
fn take_piece(feeder: &mut Feeder, piece: &[u8]) -> Result<Step, Unheard>
    requires side { feeder.old.side ≡ Replies }
    requires some { 1 ≤ length piece.now }
    requires within { (more : List ℕ) → IsFrame Replies (feeder.old.unfinished ++ more)
        → length piece.now ≤ length more }
    ensures came { IfOk result (Came feeder.old feeder.new piece.now) }
    ensures refused { IfErr result (PieceRefused feeder.old piece.now) }
    ensures side { feeder.new.side ≡ Replies }
{
    match feeder.feed(piece) {
        Ok(Fed::Message { message, .. }) => Ok(Step::Whole(message)),
        Ok(Fed::More) => Ok(Step::Part),
        Ok(Fed::Bad(_)) => Err(Unheard::BadReply),
        Err(NoMemory) => Err(Unheard::NoMemory),
    }
}
