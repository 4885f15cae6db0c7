//! From messages to their frames.

ghost use Rattle.std.specs.Prelude.{◌≡◌, ◌+◌, ◌≤◌, [], ◌∷◌, ◌++◌, Some, IfOk, IfErr, OnOk, length};
ghost use Rattle.wire_msg.specs.Fits.{FitsFields, IsMessage};
ghost use Rattle.wire_msg.specs.FrameHead.{reply_size};
ghost use Rattle.wire_msg.specs.Refusal.{Refuses, refused_text};
ghost use Rattle.wire_msg.specs.Spelling.{body_of, content_bytes, frame_of, side_of};

use crate::heads::{
    ASKED_SIZE, HEAD_SIZE, REPLY_SIZE, SHOWING_SIZE, ask_head, content_head, message_head,
    reply_head,
};
use crate::kind::BODY_LIMIT;
use crate::{Content, Message};
use munge_types::Room;
use std::alloc::Global;
use std::error::Error;
use std::fmt;

/// Why a message has no frame.
#[derive(Clone, Copy, Debug, PartialEq, Eq)]
pub enum FrameRefused {
    /// Its body would have more than 2,097,152 bytes; it would have so many.
    TooLong(u64),
    /// There was no memory for the frame.
    NoMemory,
}

impl fmt::Display for FrameRefused {
    ghost output = { λ refused. Some (refused_text refused) };

    fn fmt<W: fmt::Write>(&self, f: &mut fmt::Formatter<W>) -> fmt::Result {
        match self {
            FrameRefused::TooLong(size) => write!(f, "a body of {size} bytes is too long"),
            FrameRefused::NoMemory => write!(f, "no memory"),
        }
    }
}

impl Error for FrameRefused {}

/// The frame of a message, with its text or payload copied once.
pub fn frame(alloc: Global, message: &Message) -> Result<Vec<u8>, FrameRefused>
    ensures frame { IfOk result (λ bytes. bytes.items ≡ frame_of message.now) }
    ensures fits { OnOk result (IsMessage (side_of message.now) message.now) }
    ensures refused { IfErr result (Refuses message.now) }
{
    frame_in(Vec::new(alloc), message)
}

/// The same in the memory of this buffer, as far as that goes. What the buffer held is dropped.
pub fn frame_in(buffer: Vec<u8>, message: &Message) -> Result<Vec<u8>, FrameRefused>
    ensures frame { IfOk result (λ bytes. bytes.items ≡ frame_of message.now) }
    ensures fits { OnOk result (IsMessage (side_of message.now) message.now) }
    ensures refused { IfErr result (Refuses message.now) }
{
    let size = body_size(message);
    if size > u64::from(BODY_LIMIT) {
        return Err(FrameRefused::TooLong(size));
    }
    let Ok(mut frame) = Room::over(buffer, HEAD_SIZE + size as usize) else {
        return Err(FrameRefused::NoMemory);
    };
    frame.put(&message_head(message.kind(), size as u32));
    put_body(&mut frame, message);
    Ok(frame.finish())
}

/// How many bytes the body of a message has.
fn body_size(message: &Message) -> u64
    ensures { result ≡ length (body_of message.now) }
{
    let size = match message {
        Message::EncodeRequest(ask) => ASKED_SIZE + ask.payload.bytes().len(),
        Message::EncodeReply(said) => 1 + said.text.bytes().len(),
        Message::DecodeRequest(text) => text.bytes().len(),
        Message::DecodeReply(said) => match &said.content {
            Some(content) => showing_size(content),
            None => REPLY_SIZE,
        },
        Message::Stop => 0,
        Message::Bye(_) => 1,
    };
    size as u64
}

/// How many bytes the body of a decode reply with this content has.
fn showing_size(content: &Content) -> usize
    ensures { result ≡ reply_size + length (content_bytes (Some content.now)) }
{
    SHOWING_SIZE + content.payload.bytes().len()
}

/// Appends the body of a message, which has to fit. It takes no memory.
fn put_body(out: &mut Room, message: &Message)
    requires { length (body_of message.now) ≤ out.old.spare }
    ensures appended { out.new.bytes ≡ out.old.bytes ++ body_of message.now }
    ensures fits { FitsFields message.now }
{
    match message {
        Message::EncodeRequest(ask) => {
            out.put(&ask_head(ask));
            out.put(ask.payload.bytes());
        }
        Message::EncodeReply(said) => {
            put_byte(out, said.status);
            out.put(said.text.bytes());
        }
        Message::DecodeRequest(text) => out.put(text.bytes()),
        Message::DecodeReply(said) => {
            out.put(&reply_head(said.status, said.rule, said.place));
            if let Some(content) = &said.content {
                out.put(&content_head(&content.fields()));
                out.put(content.payload.bytes());
            }
        }
        Message::Stop => {}
        Message::Bye(status) => put_byte(out, *status),
    }
}

/// Appends one byte.
fn put_byte(out: &mut Room, byte: u8)
    requires { 1 ≤ out.old.spare }
    ensures appended { out.new.bytes ≡ out.old.bytes ++ byte ∷ [] }
    ensures lowered { out.new.spare + 1 ≡ out.old.spare }
{
    out.put(&[byte]);
}
