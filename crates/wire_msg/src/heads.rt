//! The parts of frames that have a fixed size, also for code that writes a frame into a buffer of
//! its own.

ghost use Rattle.std.specs.Prelude.{◌≡◌, ◌+◌, ◌^◌, ◌<◌, ◌≤◌, ◌++◌, length, take};
ghost use Rattle.munge_types.specs.BigEndian.{be32};
ghost use Rattle.munge_types.specs.Bytes.{IsBytes};
ghost use Rattle.wire_msg.specs.Fits.{FitsAsk, FitsContentFields};
ghost use Rattle.wire_msg.specs.FrameHead.{message_head};
ghost use Rattle.wire_msg.specs.Spelling.{ask_head, content_head, reply_head};

use crate::{ContentFields, EncodeAsk, Kind};
use byteorder::{BigEndian, ByteOrder};

/// The bytes of a head.
pub const HEAD_SIZE: usize = 7;

/// The bytes of a decode reply's body before the content.
pub const REPLY_SIZE: usize = 10;

/// The bytes of a content before the payload.
pub const CONTENT_SIZE: usize = 30;

/// The bytes of an encode request's body before the payload.
pub(crate) const ASKED_SIZE: usize = 14;

/// The bytes of a decode reply's body before the payload.
pub(crate) const SHOWING_SIZE: usize = REPLY_SIZE + CONTENT_SIZE;

/// The first byte of every frame.
pub(crate) const MAGIC: u8 = 0x4d;

/// The second byte of every frame.
pub(crate) const VERSION: u8 = 1;

/// The head of a frame of this kind, whose body has so many bytes. It takes no memory.
pub fn message_head(kind: Kind, size: u32) -> [u8; HEAD_SIZE]
    ensures { result ≡ message_head kind size }
{
    let mut head = [MAGIC, VERSION, kind.number(), 0, 0, 0, 0];
    BigEndian::write_u32(&mut head[3..], size);
    head
}

/// The bytes of an encode request's body before the payload.
pub(crate) fn ask_head(ask: &EncodeAsk) -> [u8; ASKED_SIZE]
    ensures head { result ≡ ask_head ask.now }
    ensures fits { IsBytes ask.now.payload → FitsAsk ask.now }
{
    let mut head = [0; ASKED_SIZE];
    put(&mut head, 0, &[ask.cipher, ask.kind]);
    put(&mut head, 2, &four_bytes(ask.ttl));
    put(&mut head, 6, &four_bytes(ask.for_uid));
    put(&mut head, 10, &four_bytes(ask.for_gid));
    head
}

/// The bytes of a decode reply's body before the content: status, rule and place. It takes no
/// memory.
pub fn reply_head(status: u8, rule: u8, place: u64) -> [u8; REPLY_SIZE]
    ensures { result ≡ reply_head status rule place }
{
    let mut head = [status, rule, 0, 0, 0, 0, 0, 0, 0, 0];
    BigEndian::write_u64(&mut head[2..], place);
    head
}

/// The bytes of a content before the payload. It takes no memory.
pub fn content_head(fields: &ContentFields) -> [u8; CONTENT_SIZE]
    ensures head { result ≡ content_head fields.now }
    ensures fits { FitsContentFields fields.now }
{
    let mut head = [0; CONTENT_SIZE];
    put(&mut head, 0, &[fields.cipher, fields.kind]);
    put(&mut head, 2, &fields.addr);
    put(&mut head, 6, &four_bytes(fields.time));
    put(&mut head, 10, &four_bytes(fields.ttl));
    put(&mut head, 14, &four_bytes(fields.uid));
    put(&mut head, 18, &four_bytes(fields.gid));
    put(&mut head, 22, &four_bytes(fields.for_uid));
    put(&mut head, 26, &four_bytes(fields.for_gid));
    head
}

/// Writes the bytes at this place.
fn put(head: &mut [u8], at: usize, bytes: &[u8])
    requires { at + length bytes.now ≤ length head.old }
    ensures front { take (at + length bytes.now) head.new ≡ take at head.old ++ bytes.now }
    // Its callers cannot see this of a field.
    ensures bytes { IsBytes bytes.now }
{
    head[at..at + bytes.len()].copy_from_slice(bytes);
}

/// A number in four bytes, the highest first.
fn four_bytes(number: u32) -> [u8; 4]
    ensures bytes { result ≡ be32 number }
    // Its callers cannot see this of a field.
    ensures fits { number < 2 ^ 32 }
{
    let mut bytes = [0; 4];
    BigEndian::write_u32(&mut bytes, number);
    bytes
}
