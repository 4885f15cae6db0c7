//! A frame whose head is whole.

ghost use Rattle.std.specs.Prelude.{◌≡◌, ◌+◌, ◌≤◌, [], ◌++◌, length, IfOk};
ghost use Rattle.wire_msg.specs.Begun.{fixed_size};
ghost use Rattle.munge_types.specs.Bytes.{IsBytes};
ghost use Rattle.wire_msg.specs.Fits.{IsMessage};
ghost use Rattle.wire_msg.specs.FrameHead.{AllowsSize, head_size, message_head, side_of_kind};
ghost use Rattle.wire_msg.specs.Spelling.{frame_of};

use crate::head::Head;
use crate::heads::{ASKED_SIZE, HEAD_SIZE, REPLY_SIZE, SHOWING_SIZE};
use crate::reading::message_of;
use crate::short_bytes::ShortBytes;
use crate::{Bytes, Kind, Message};
use munge_types::{NoMemory, Room};
use std::marker::Model;

/// A frame whose head is whole, as far as its body came. Contracts see what the head says, and the
/// body so far.
#[derive(Debug, Drop)]
pub(crate) struct Begun {
    head: Head,
    /// The body's fixed fields.
    fields: ShortBytes,
    /// The text or payload behind them.
    tail: Room,
    /// How many bytes of the body are still to come.
    missing: usize,
}

impl Model for Begun {
    ghost use Rattle.std.specs.Prelude.{◌++◌};
    ghost use Rattle.wire_msg.specs.Begun.{IsKept, Partial, fixed_size};

    ghost Value = { Partial };

    ghost view = { λ begun. record {
      kind = begun.head.kind;
      size = begun.head.size;
      body = begun.fields ++ begun.tail.bytes;
    } };

    ghost invariant = { λ begun. IsKept begun.head.size (fixed_size begun.head.kind begun.head.size)
        begun.fields begun.tail.bytes begun.tail.spare begun.missing };
}

impl Begun {
    /// A frame with this head. The memory for its body is that of the spare vector, as far as that
    /// goes.
    pub(crate) fn new(spare: Vec<u8>, head: Head) -> Result<Begun, NoMemory>
        requires { AllowsSize head.kind head.size }
        ensures kind { IfOk result (λ begun. begun.kind ≡ head.kind) }
        ensures size { IfOk result (λ begun. begun.size ≡ head.size) }
        ensures body { IfOk result (λ begun. begun.body ≡ []) }
    {
        let size = head.size as usize;
        let tail = Room::over(spare, size - fixed_size(head))?;
        Ok(Begun {
            head,
            fields: ShortBytes::new(),
            tail,
            missing: size,
        })
    }

    /// How many bytes of the body are still to come.
    pub(crate) fn missing(&self) -> usize
        ensures missing { length self.now.body + result ≡ self.now.size }
        ensures bytes { IsBytes self.now.body }
    {
        self.missing
    }

    /// How many bytes the whole frame has.
    pub(crate) fn frame_size(&self) -> u64
        ensures { result ≡ head_size + self.now.size }
    {
        HEAD_SIZE as u64 + u64::from(self.head.size)
    }

    /// Takes the next bytes of the body, and no more than are still to come. It takes no memory.
    pub(crate) fn take(&mut self, piece: &[u8])
        requires { length self.old.body + length piece.now ≤ self.old.size }
        ensures kind { self.new.kind ≡ self.old.kind }
        ensures size { self.new.size ≡ self.old.size }
        ensures body { self.new.body ≡ self.old.body ++ piece.now }
    {
        let lacking = fixed_size(self.head) - self.fields.len();
        let (fields, tail) = piece.split_at(lacking.min(piece.len()));
        self.fields.put(fields);
        self.tail.put(tail);
        self.missing -= piece.len();
    }

    /// The message of the whole frame. Its text or payload is not copied.
    pub(crate) fn finish(self) -> Message
        requires allowed { AllowsSize self.kind self.size }
        requires whole { length self.body ≡ self.size }
        ensures is_message { IsMessage (side_of_kind self.kind) result }
        ensures frame { frame_of result ≡ message_head self.kind self.size ++ self.body }
    {
        let Begun {
            head,
            fields,
            tail,
            missing: _,
        } = self;
        message_of(head.kind, fields.bytes(), Bytes::of(tail.finish()))
    }
}

/// The bytes of a body with this head before its text or payload.
fn fixed_size(head: Head) -> usize
    ensures { result ≡ fixed_size head.kind head.size }
{
    match head.kind {
        Kind::EncodeRequest => ASKED_SIZE,
        Kind::DecodeReply if head.size as usize == REPLY_SIZE => REPLY_SIZE,
        Kind::DecodeReply => SHOWING_SIZE,
        Kind::EncodeReply | Kind::Bye => 1,
        Kind::DecodeRequest | Kind::Stop => 0,
    }
}
