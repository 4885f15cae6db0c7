//! From the body of a frame to its message.

ghost use Rattle.std.specs.Prelude.{◌≡◌, ◌+◌, ◌≤◌, ◌++◌, length, take, drop};
ghost use Rattle.std.specs.Int.{w32, from_be_bytes};
ghost use Rattle.wire_msg.specs.Begun.{IsReplySize, fixed_size};
ghost use Rattle.munge_types.specs.Bytes.{IsBytes};
ghost use Rattle.wire_msg.specs.Fits.{FitsAsk, FitsContent, FitsDecodeSaid, IsMessage};
ghost use Rattle.wire_msg.specs.FrameHead.{AllowsSize, asked_size, content_size, reply_size, side_of_kind};
ghost use Rattle.wire_msg.specs.Spelling.{ask_head, body_of, content_bytes, content_head, fields_of, kind_of, reply_head};

use crate::heads::REPLY_SIZE;
use crate::{Bytes, Content, DecodeSaid, EncodeAsk, EncodeSaid, Kind, Message};

/// The message of this kind whose body is these fixed fields, and then this text or payload.
pub(crate) fn message_of(kind: Kind, fields: &[u8], payload: Bytes) -> Message
    requires allowed { AllowsSize kind (length fields.now + length payload) }
    requires bytes { IsBytes payload }
    requires fixed { length fields.now ≡ fixed_size kind (length fields.now + length payload) }
    ensures is_message { IsMessage (side_of_kind kind) result }
    ensures kind { kind_of result ≡ kind }
    ensures body { body_of result ≡ fields.now ++ payload }
{
    match kind {
        Kind::EncodeRequest => Message::EncodeRequest(ask_in(fields, payload)),
        Kind::EncodeReply => Message::EncodeReply(EncodeSaid {
            status: fields[0],
            text: payload,
        }),
        Kind::DecodeRequest => Message::DecodeRequest(payload),
        Kind::DecodeReply => Message::DecodeReply(said_in(fields, payload)),
        Kind::Stop => Message::Stop,
        Kind::Bye => Message::Bye(fields[0]),
    }
}

/// What these fields of an encode request and this payload ask.
fn ask_in(fields: &[u8], payload: Bytes) -> EncodeAsk
    requires size { length fields.now ≡ asked_size }
    requires bytes { IsBytes payload }
    ensures fits { FitsAsk result }
    ensures fields { ask_head result ≡ fields.now }
    ensures payload { result.payload ≡ payload }
{
    EncodeAsk {
        cipher: fields[0],
        kind: fields[1],
        ttl: number_at(fields, 2),
        for_uid: number_at(fields, 6),
        for_gid: number_at(fields, 10),
        payload,
    }
}

/// What these fields of a decode reply and this payload say.
fn said_in(fields: &[u8], payload: Bytes) -> DecodeSaid
    requires size { IsReplySize (length fields.now) (length payload) }
    requires bytes { IsBytes payload }
    ensures fits { FitsDecodeSaid result }
    ensures body { reply_head result.status result.rule result.place ++ content_bytes result.content
        ≡ fields.now ++ payload }
{
    let status = fields[0];
    let rule = fields[1];
    let place = u64::from_be_bytes(bytes_at(fields, 2));
    let content = if fields.len() == REPLY_SIZE {
        None
    } else {
        Some(content_in(&fields[REPLY_SIZE..], payload))
    };
    DecodeSaid {
        status,
        rule,
        place,
        content,
    }
}

/// The content of these fields and this payload.
fn content_in(fields: &[u8], payload: Bytes) -> Content
    requires size { length fields.now ≡ content_size }
    requires bytes { IsBytes payload }
    ensures fits { FitsContent result }
    ensures fields { content_head (fields_of result) ≡ fields.now }
    ensures payload { result.payload ≡ payload }
{
    Content {
        cipher: fields[0],
        kind: fields[1],
        addr: bytes_at(fields, 2),
        time: number_at(fields, 6),
        ttl: number_at(fields, 10),
        uid: number_at(fields, 14),
        gid: number_at(fields, 18),
        for_uid: number_at(fields, 22),
        for_gid: number_at(fields, 26),
        payload,
    }
}

/// The big-endian number that stands at this place.
fn number_at(fields: &[u8], at: usize) -> u32
    requires { at + 4 ≤ length fields.now }
    ensures { result ≡ from_be_bytes w32 (take 4 (drop at fields.now)) }
{
    u32::from_be_bytes(bytes_at(fields, at))
}

/// The bytes that stand at this place.
fn bytes_at<const N: usize>(fields: &[u8], at: usize) -> [u8; N]
    requires { at + N ≤ length fields.now }
    ensures { result ≡ take N (drop at fields.now) }
{
    let mut bytes = [0; N];
    bytes.copy_from_slice(&fields[at..at + N]);
    bytes
}
