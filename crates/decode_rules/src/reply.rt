//! Replies to decode requests.

ghost use Rattle.std.specs.Prelude.{◌≡◌, ◌+◌, ◌≤◌, ◌++◌, IfOk, Some, None, length};
ghost use Rattle.munge_types.specs.Status.{status_number};
ghost use Rattle.cred_inner.specs.InnerPart.{payload_limit};
ghost use Rattle.decode_rules.specs.DecodeReply.{message_of, refused_answer, unsaid_frame};
ghost use Rattle.wire_msg.specs.FrameHead.{content_size, message_head, reply_size};
ghost use Rattle.wire_msg.specs.Spelling.{frame_of, reply_head};
ghost use Rattle.wire_msg.specs.declared.kind.Kind.TheVariants.{DecodeReply};

use cred_open::{OpenedIn, OuterRefused};
use munge_types::{NoMemory, Room, Status};
use std::marker::Model;
use wire_msg::{
    CONTENT_SIZE, ContentFields, HEAD_SIZE, Kind, REPLY_SIZE, content_head, message_head,
    reply_head,
};

/// The place of a reply whose request was not looked up in the history.
const NOWHERE: u64 = u64::MAX;

/// The bytes of a reply's frame before its content.
pub(crate) const FRONT_SIZE: usize = HEAD_SIZE + REPLY_SIZE;

/// The reply to a decode request.
#[derive(Debug, Drop)]
pub struct Reply {
    pub(crate) frame: Vec<u8>,
    pub(crate) status: Status,
    pub(crate) rule: u8,
}

impl Model for Reply {
    ghost use Rattle.decode_rules.specs.Reply.{Answer};

    ghost Value = { Answer };

    ghost view = { λ reply. record {
      bytes = reply.frame.items;
      status = reply.status;
      rule = reply.rule;
    } };
}

impl Reply {
    /// Its whole frame, as it goes out.
    pub fn bytes(&self) -> &[u8]
        ensures { result.now ≡ self.now.bytes }
    {
        &self.frame
    }

    /// What it says of the request.
    pub fn status(&self) -> Status
        ensures { result ≡ self.now.status }
    {
        self.status
    }

    /// The first of the fourteen decode rules that is broken, and 0 where none is.
    pub fn rule(&self) -> u8
        ensures { result ≡ self.now.rule }
    {
        self.rule
    }

    /// Its frame, given away. It takes no memory.
    pub fn into_bytes(self) -> Vec<u8>
        ensures { result.items ≡ self.bytes }
    {
        self.frame
    }
}

/// The reply by a rule that is broken, which shows nothing of the text.
pub(crate) fn refusal(memory: Vec<u8>, broken: OuterRefused) -> Result<Reply, NoMemory>
    ensures { IfOk result (λ reply. reply ≡ refused_answer broken.rule broken.status None) }
{
    let rule = broken.rule.number();
    let front = front_with_room(memory, broken.status, rule, NOWHERE, 0)?;
    Ok(Reply {
        frame: front.finish(),
        status: broken.status,
        rule,
    })
}

/// The reply by a rule that is broken, which shows the credential.
pub(crate) fn showing(
    memory: Vec<u8>,
    broken: OuterRefused,
    opened: &OpenedIn<'_>,
) -> Result<Reply, NoMemory>
    ensures { IfOk result (λ reply.
        reply ≡ refused_answer broken.rule broken.status (Some opened.now)) }
{
    let rule = broken.rule.number();
    let frame = frame_showing(memory, broken.status, rule, NOWHERE, opened)?;
    Ok(Reply {
        frame,
        status: broken.status,
        rule,
    })
}

/// The frame of a reply that shows the credential, of which nothing is said yet.
pub(crate) fn unsaid(memory: Vec<u8>, opened: &OpenedIn<'_>) -> Result<Vec<u8>, NoMemory>
    ensures { IfOk result (λ frame. frame.items ≡ unsaid_frame opened.now) }
{
    let frame = frame_showing(memory, Status::Success, 0, 0, opened)?;
    Ok(frame)
}

/// The frame of the reply that says this and shows the credential, in the memory of this vector as
/// far as that goes. One reservation takes what is missing, and the payload is copied once.
fn frame_showing(
    memory: Vec<u8>,
    status: Status,
    rule: u8,
    place: u64,
    opened: &OpenedIn<'_>,
) -> Result<Vec<u8>, NoMemory>
    ensures { IfOk result (λ frame.
        frame.items ≡ frame_of (message_of status rule place (Some opened.now))) }
{
    let inner = opened.inner();
    let size = CONTENT_SIZE + inner.payload.len();
    let mut frame = front_with_room(memory, status, rule, place, size)?;
    frame.put(&content_head(&ContentFields {
        cipher: opened.cipher().number(),
        kind: opened.kind().number(),
        addr: inner.addr,
        time: inner.time,
        ttl: inner.ttl,
        uid: inner.uid,
        gid: inner.gid,
        for_uid: inner.for_uid,
        for_gid: inner.for_gid,
    }));
    frame.put(inner.payload);
    Ok(frame.finish())
}

/// The front of a reply's frame, with room for a content of this size.
fn front_with_room(
    memory: Vec<u8>,
    status: Status,
    rule: u8,
    place: u64,
    content: usize,
) -> Result<Room, NoMemory>
    requires { content ≤ content_size + payload_limit }
    ensures front { let head = message_head DecodeReply (reply_size + content) in
        IfOk result (λ room. room.bytes ≡ head ++ reply_head (status_number status) rule place) }
    ensures spare { IfOk result (λ room. room.spare ≡ content) }
{
    let mut room = Room::over(memory, FRONT_SIZE + content)?;
    room.put(&message_head(Kind::DecodeReply, (REPLY_SIZE + content) as u32));
    room.put(&reply_head(status.number(), rule, place));
    Ok(room)
}
