//! From the first bytes of a frame to what its head says.

ghost use Rattle.std.specs.Prelude.{◌≡◌, ◌≤◌, ℕ, IfNone, IfSome, length};
ghost use Rattle.std.specs.Int.{w32, from_be_bytes};
ghost use Rattle.wire_msg.specs.FrameHead.{AllowsSize, head_size};
ghost use Rattle.wire_msg.specs.Head.{IsLeast, Sees, SeesSize, filled};

use crate::heads::{ASKED_SIZE, MAGIC, REPLY_SIZE, SHOWING_SIZE, VERSION};
use crate::kind::BODY_LIMIT;
use crate::{Kind, Side};

/// What the head of a frame says.
#[derive(Clone, Copy, Debug, PartialEq, Eq)]
pub(crate) struct Head {
    pub(crate) kind: Kind,
    /// How many bytes the body has.
    pub(crate) size: u32,
}

/// What the first bytes of a frame show of its head.
#[derive(Clone, Copy, Debug, PartialEq, Eq)]
pub(crate) enum Seen {
    /// All of it.
    Whole(Head),
    /// Some bytes of it, or none.
    Part,
    /// That no frame begins so.
    Broken,
}

/// What these bytes show, of which there are at most seven.
pub(crate) fn head_in(side: Side, bytes: &[u8]) -> Seen
    requires { length bytes.now ≤ head_size }
    ensures { Sees side bytes.now result }
{
    let Some((magic, bytes)) = bytes.split_first() else {
        return Seen::Part;
    };
    if *magic != MAGIC {
        return Seen::Broken;
    }
    let Some((version, bytes)) = bytes.split_first() else {
        return Seen::Part;
    };
    if *version != VERSION {
        return Seen::Broken;
    }
    let Some((number, size)) = bytes.split_first() else {
        return Seen::Part;
    };
    match Kind::of(*number, side) {
        Some(kind) => size_in(kind, size),
        None => Seen::Broken,
    }
}

/// What these bytes show of the length in a head of this kind. There are at most four.
fn size_in(kind: Kind, bytes: &[u8]) -> Seen
    requires { length bytes.now ≤ 4 }
    ensures { SeesSize kind bytes.now result }
{
    let least = size_with(bytes, 0x00);
    let most = size_with(bytes, 0xff);
    match allowed_from(kind, least) {
        Some(size) if size > most => Seen::Broken,
        Some(size) if bytes.len() == 4 => Seen::Whole(Head { kind, size }),
        Some(_) => Seen::Part,
        None => Seen::Broken,
    }
}

/// The length whose first bytes are these, of which there are at most four, and all others this
/// one.
fn size_with(bytes: &[u8], other: u8) -> u32
    requires { length bytes.now ≤ 4 }
    ensures { result ≡ from_be_bytes w32 (filled other bytes.now) }
{
    let mut size = [other; 4];
    size[..bytes.len()].copy_from_slice(bytes);
    u32::from_be_bytes(size)
}

/// The least length that a body of this kind may have and that is not below this one, if any.
fn allowed_from(kind: Kind, from: u32) -> Option<u32>
    ensures allowed { IfSome result (AllowsSize kind) }
    ensures not_below { IfSome result (λ size. from ≤ size) }
    ensures least { IfSome result (IsLeast kind from) }
    ensures none { IfNone result ((other : ℕ) → from ≤ other → AllowsSize kind other → ⊥) }
{
    let size = match kind {
        Kind::EncodeRequest => from.max(ASKED_SIZE as u32),
        Kind::EncodeReply => from.max(1),
        Kind::DecodeRequest => from,
        Kind::DecodeReply if from <= REPLY_SIZE as u32 => REPLY_SIZE as u32,
        Kind::DecodeReply => from.max(SHOWING_SIZE as u32),
        Kind::Stop => 0,
        Kind::Bye => 1,
    };
    if from <= size && size <= BODY_LIMIT {
        Some(size)
    } else {
        None
    }
}
