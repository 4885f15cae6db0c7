//! Reading requests from a stream.

ghost use Rattle.std.specs.Prelude.{
  ◌≡◌,
  ◌+◌,
  ◌<◌,
  ◌≤◌,
  ◌^◌,
  ◌++◌,
  [],
  IfOk,
  IfErr,
  OnOk,
  OnErr,
  length,
};
ghost use Rattle.std.specs.Io.KnownBytes.{Consumes};
ghost use Rattle.wire_msg.specs.Feeding.{place_after};
ghost use Rattle.wire_msg.specs.Frame.{IsFramePrefix};
ghost use Rattle.wire_msg.specs.FrameHead.{head_size};
ghost use Rattle.wire_msg.specs.Spelling.{frame_of};
ghost use Rattle.wire_msg.specs.declared.kind.Side.TheVariants.{Requests};
ghost use Rattle.session_core.specs.Partial.{
  Comes,
  Grows,
  HeadRefused,
  IsNearer,
  KeepsHead,
  KeepsOf,
  ReadsOn,
  Stops,
  Wants,
  behind,
  count_of,
};
ghost use Rattle.session_core.specs.Reading.{CountsReadFault, KeepsEnds, ReadsNone};
ghost use Rattle.session_core.specs.Requests.{IsRequest};
ghost use Rattle.session_core.specs.Things.{input_of};
ghost use Rattle.session_core.specs.declared.request.Progress.TheVariants.{Whole};

use crate::Rooms;
use byte_io::{FullRead, Source, read_full};
use munge_types::NoMemory;
use std::alloc::Global;
use wire_msg::{Fed, Feeder, HEAD_SIZE, Message, Side};

/// The most bytes of a request's body that one read asks for.
pub(crate) const PIECE_SIZE: usize = 65_536;

/// How far a request came.
#[derive(Drop)]
enum Progress {
    /// All of it.
    Whole(Message),
    /// Its head at least, and so many more bytes make all of it.
    Partial(usize),
}

/// A request that was read, and how many bytes it has.
#[derive(Drop)]
pub(crate) struct Heard {
    pub(crate) request: Message,
    pub(crate) size: u64,
}

/// Why no request was read, and how many bytes were.
#[derive(Clone, Copy, Debug, PartialEq, Eq)]
pub(crate) enum Unread {
    /// The input ended before the request's first byte.
    Ended,
    /// What came is no request, or the input ended inside it.
    Malformed(u64),
    /// A read failed.
    ReadFault(u64),
    /// No memory was left for the request.
    NoMemory(u64),
}

impl Unread {
    /// The same, where so many bytes were read before these.
    fn behind(self, earlier: u64) -> Unread
        requires { earlier + count_of self < 2 ^ 64 }
        ensures { result ≡ behind earlier self }
    {
        match self {
            Unread::Ended => Unread::Ended,
            Unread::Malformed(count) => Unread::Malformed(earlier + count),
            Unread::ReadFault(count) => Unread::ReadFault(earlier + count),
            Unread::NoMemory(count) => Unread::NoMemory(earlier + count),
        }
    }
}

/// Reads one request and nothing beyond it: its head, and then what the head says, by pieces of
/// 64 KiB at most.
pub(crate) fn read_request<I: Source>(
    input: &mut I,
    feeder: &mut Feeder,
    rooms: &mut Rooms,
) -> Result<Message, Unread>
    requires side { feeder.old.side ≡ Requests }
    requires between { feeder.old.unfinished ≡ [] }

    ensures fits { IfOk result IsRequest }
    ensures read { IfOk result (λ request.
        Consumes (I.left input.old) (I.left input.new) (frame_of request)) }
    ensures place { IfOk result (λ request.
        feeder.new.begins ≡ place_after feeder.old.begins (length (frame_of request))) }
    ensures between { OnOk result (feeder.new.unfinished ≡ []) }

    ensures none { IfErr result (λ cause. ReadsNone cause
        (input_of (I.left input.old) (I.ends input.old))
        (input_of (I.left input.new) (I.ends input.new))) }
    ensures faults { CountsReadFault result (I.read_faults input.old) (I.read_faults input.new) }
    ensures same_place { OnErr result (feeder.new.begins ≡ feeder.old.begins) }

    ensures side { feeder.new.side ≡ feeder.old.side }
    ensures ends_stay { I.ends input.old ≤ I.ends input.new }
    ensures ends_kept { KeepsEnds result (I.ends input.old) (I.ends input.new) }
    ensures beside { I.beside_reads input.new ≡ I.beside_reads input.old }
{
    match read_head(input, feeder, rooms) {
        Ok(Progress::Whole(request)) => Ok(request),
        Ok(Progress::Partial(wanted)) => {
            let Ok(buffer) = rooms.piece(wanted) else {
                return Err(Unread::NoMemory(HEAD_SIZE as u64));
            };
            match read_body(input, feeder, buffer, wanted) {
                Ok(request) => Ok(request),
                Err(cause) => Err(cause.behind(HEAD_SIZE as u64)),
            }
        }
        Err(cause) => Err(cause),
    }
}

/// Reads the one request of a stream that brings no more, and nothing beyond it.
pub(crate) fn read_alone<I: Source>(
    alloc: Global,
    rooms: &mut Rooms,
    input: &mut I,
) -> Result<Heard, Unread>
    ensures fits { IfOk result (λ heard. IsRequest heard.request) }
    ensures read { IfOk result (λ heard.
        Consumes (I.left input.old) (I.left input.new) (frame_of heard.request)) }
    ensures size { IfOk result (λ heard. heard.size ≡ length (frame_of heard.request)) }

    ensures none { IfErr result (λ cause. ReadsNone cause
        (input_of (I.left input.old) (I.ends input.old))
        (input_of (I.left input.new) (I.ends input.new))) }
    ensures faults { CountsReadFault result (I.read_faults input.old) (I.read_faults input.new) }

    ensures ends_stay { I.ends input.old ≤ I.ends input.new }
    ensures ends_kept { KeepsEnds result (I.ends input.old) (I.ends input.new) }
    ensures beside { I.beside_reads input.new ≡ I.beside_reads input.old }
{
    let mut feeder = Feeder::new(alloc, Side::Requests);
    match read_request(input, &mut feeder, rooms) {
        Ok(request) => Ok(Heard {
            request,
            size: feeder.place(),
        }),
        Err(cause) => Err(cause),
    }
}

/// Reads the head of a request, which is all of it where its body is empty. Only once it is read is
/// the buffer for the body lent.
fn read_head<I: Source>(
    input: &mut I,
    feeder: &mut Feeder,
    rooms: &mut Rooms,
) -> Result<Progress, Unread>
    requires side { feeder.old.side ≡ Requests }
    requires between { feeder.old.unfinished ≡ [] }

    ensures read { IfOk result (λ progress. ReadsOn feeder.old
        (input_of (I.left input.old) (I.ends input.old))
        (input_of (I.left input.new) (I.ends input.new))
        progress feeder.new) }
    ensures head { IfOk result (λ progress. KeepsHead progress feeder.new.unfinished) }

    ensures none { IfErr result (λ cause. ReadsNone cause
        (input_of (I.left input.old) (I.ends input.old))
        (input_of (I.left input.new) (I.ends input.new))) }
    ensures faults { CountsReadFault result (I.read_faults input.old) (I.read_faults input.new) }
    ensures same_place { OnErr result (feeder.new.begins ≡ feeder.old.begins) }

    ensures side { feeder.new.side ≡ Requests }
    ensures ends_stay { I.ends input.old ≤ I.ends input.new }
    ensures ends_kept { KeepsEnds result (I.ends input.old) (I.ends input.new) }
    ensures beside { I.beside_reads input.new ≡ I.beside_reads input.old }
{
    let mut head = [0; HEAD_SIZE];
    match read_full(input, &mut head) {
        FullRead::Full => {
            feeder.lend(rooms.body());
            take_head(feeder, &head)
        }
        FullRead::Short(0) => Err(Unread::Ended),
        FullRead::Short(count) => Err(Unread::Malformed(count as u64)),
        FullRead::Failed(count) => Err(Unread::ReadFault(count as u64)),
    }
}

/// How far a request comes by its head.
fn take_head(feeder: &mut Feeder, head: &[u8; HEAD_SIZE]) -> Result<Progress, Unread>
    requires side { feeder.old.side ≡ Requests }
    requires between { feeder.old.unfinished ≡ [] }

    ensures comes { IfOk result (Comes head.now) }
    ensures keeps { IfOk result (λ progress.
        KeepsOf feeder.old.begins head.now progress feeder.new) }
    ensures head { IfOk result (λ progress. KeepsHead progress feeder.new.unfinished) }
    ensures refused { IfErr result (λ cause. HeadRefused cause head.now) }
    ensures same_place { OnErr result (feeder.new.begins ≡ feeder.old.begins) }
    ensures side { feeder.new.side ≡ Requests }
{
    match feeder.feed(head) {
        Ok(Fed::Message { message, .. }) => Ok(Progress::Whole(message)),
        Ok(Fed::More) => Ok(Progress::Partial(feeder.wanted())),
        Ok(Fed::Bad(_)) => Err(Unread::Malformed(HEAD_SIZE as u64)),
        Err(NoMemory) => Err(Unread::NoMemory(HEAD_SIZE as u64)),
    }
}

/// Reads the rest of a request, of which so many bytes are wanted.
fn read_body<I: Source>(
    input: &mut I,
    feeder: &mut Feeder,
    buffer: &mut [u8],
    mut wanted: usize,
) -> Result<Message, Unread>
    requires side { feeder.old.side ≡ Requests }
    requires room { 1 ≤ length buffer.old }
    requires wants { Wants feeder.old.unfinished wanted }

    ensures read { IfOk result (λ request. ReadsOn feeder.old
        (input_of (I.left input.old) (I.ends input.old))
        (input_of (I.left input.new) (I.ends input.new))
        (Whole request) feeder.new) }

    ensures none { IfErr result (λ cause. Stops cause feeder.old.unfinished
        (input_of (I.left input.old) (I.ends input.old))
        (input_of (I.left input.new) (I.ends input.new))) }
    ensures within { IfErr result (λ cause. count_of cause ≤ wanted) }
    ensures faults { CountsReadFault result (I.read_faults input.old) (I.read_faults input.new) }
    ensures same_place { OnErr result (feeder.new.begins ≡ feeder.old.begins) }

    ensures side { feeder.new.side ≡ Requests }
    ensures ends_stay { I.ends input.old ≤ I.ends input.new }
    ensures ends_kept { KeepsEnds result (I.ends input.old) (I.ends input.new) }
    ensures beside { I.beside_reads input.new ≡ I.beside_reads input.old }
{
    let size = wanted;
    'pieces: loop {
        match read_piece(input, feeder, buffer, wanted) {
            Ok(Progress::Whole(request)) => return Ok(request),
            Ok(Progress::Partial(less)) => wanted = less,
            Err(cause) => return Err(cause.behind((size - wanted) as u64)),
        }
    }
}

/// Reads a piece of a request, of which so many bytes are wanted: all of them if the buffer has
/// room.
fn read_piece<I: Source>(
    input: &mut I,
    feeder: &mut Feeder,
    buffer: &mut [u8],
    wanted: usize,
) -> Result<Progress, Unread>
    requires side { feeder.old.side ≡ Requests }
    requires room { 1 ≤ length buffer.old }
    requires wants { Wants feeder.old.unfinished wanted }

    ensures read { IfOk result (λ progress. ReadsOn feeder.old
        (input_of (I.left input.old) (I.ends input.old))
        (input_of (I.left input.new) (I.ends input.new))
        progress feeder.new) }
    ensures nearer { IfOk result (IsNearer wanted) }
    ensures grows { IfOk result (λ progress.
        Grows wanted feeder.old.unfinished progress feeder.new.unfinished) }

    ensures none { IfErr result (λ cause. Stops cause feeder.old.unfinished
        (input_of (I.left input.old) (I.ends input.old))
        (input_of (I.left input.new) (I.ends input.new))) }
    ensures within { IfErr result (λ cause. count_of cause ≤ wanted) }
    ensures faults { CountsReadFault result (I.read_faults input.old) (I.read_faults input.new) }
    ensures same_place { OnErr result (feeder.new.begins ≡ feeder.old.begins) }

    ensures side { feeder.new.side ≡ Requests }
    ensures ends_stay { I.ends input.old ≤ I.ends input.new }
    ensures ends_kept { KeepsEnds result (I.ends input.old) (I.ends input.new) }
    ensures beside { I.beside_reads input.new ≡ I.beside_reads input.old }
{
    let size = wanted.min(buffer.len());
    let piece = &mut buffer[..size];
    match read_full(input, piece) {
        FullRead::Full => match take_piece(feeder, piece, wanted) {
            Ok(progress) => Ok(progress),
            Err(NoMemory) => Err(Unread::NoMemory(size as u64)),
        },
        FullRead::Short(count) => Err(Unread::Malformed(count as u64)),
        FullRead::Failed(count) => Err(Unread::ReadFault(count as u64)),
    }
}

/// How far a request comes by a piece, where so many bytes were wanted.
fn take_piece(feeder: &mut Feeder, piece: &[u8], wanted: usize) -> Result<Progress, NoMemory>
    requires side { feeder.old.side ≡ Requests }
    requires wants { Wants feeder.old.unfinished wanted }
    requires some { 1 ≤ length piece.now }
    requires within { length piece.now ≤ wanted }

    ensures comes { IfOk result (Comes (feeder.old.unfinished ++ piece.now)) }
    ensures keeps { IfOk result (λ progress.
        KeepsOf feeder.old.begins (feeder.old.unfinished ++ piece.now) progress feeder.new) }
    ensures nearer { IfOk result (IsNearer wanted) }
    ensures grows { IfOk result (λ progress.
        Grows wanted feeder.old.unfinished progress feeder.new.unfinished) }
    ensures wants_memory { OnErr result
        (IsFramePrefix Requests (feeder.old.unfinished ++ piece.now)) }
    ensures same_place { OnErr result (feeder.new.begins ≡ feeder.old.begins) }
    ensures side { feeder.new.side ≡ Requests }
{
    match feeder.feed(piece) {
        Ok(Fed::Message { message, .. }) => Ok(Progress::Whole(message)),
        Ok(Fed::More) => Ok(Progress::Partial(wanted - piece.len())),
        Ok(Fed::Bad(_)) => unreachable!(),
        Err(NoMemory) => Err(NoMemory),
    }
}
