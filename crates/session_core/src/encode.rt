//! Answering an encode request.

ghost use Rattle.std.specs.Prelude.{◌≡◌, ◌≤◌, ◌++◌, ℕ, [], List, IfOk, length};
ghost use Rattle.munge_types.specs.declared.status.Status.TheVariants.{Success};
ghost use Rattle.cred_seal.specs.Asked.{asked_of};
ghost use Rattle.cred_seal.specs.SealedText.{text_limit};
ghost use Rattle.decode_rules.specs.Terms.{IsMadeOf, WorldFiles, terms_of};
ghost use Rattle.session_core.specs.AskedBy.{asked_by};
ghost use Rattle.session_core.specs.EncodeReply.{Encodes, IsSealReply, encode_reply};
ghost use Rattle.session_core.specs.Seed.{place_of, seed_of};

use crate::Rooms;
use cred_seal::{Dice, Drawn, SealRequest, SealedInto, seal_into, text_size};
use decode_rules::World;
use munge_types::{Identity, NoMemory, Room, Status};
use std::alloc::Global;
use wire_msg::{
    Bytes, EncodeAsk, EncodeSaid, FrameRefused, HEAD_SIZE, Kind, Message, frame_in, message_head,
};

/// Answers an encode request at this moment, in seconds since 1970. Without dice nothing is sealed.
/// With them, the words of one credential are drawn whatever the reply.
pub(crate) fn encode(
    alloc: Global,
    rooms: &mut Rooms,
    dice: &mut Option<Dice>,
    who: Identity,
    world: &World,
    moment: u32,
    ask: &EncodeAsk,
) -> Result<Vec<u8>, NoMemory>
    ensures encoded { (files : WorldFiles) → IsMadeOf world.now files
        → IfOk result (λ reply. Encodes (terms_of world.now who files)
        (seed_of dice.old) (place_of dice.old) moment
        (asked_by ask.now) reply.items (place_of dice.new)) }
    ensures same_seed { seed_of dice.new ≡ seed_of dice.old }
{
    match dice {
        None => refusal(alloc, rooms.frame(), Status::BadArgument),
        Some(dice) => {
            let drawn = dice.draw();
            let reply = seal_reply(alloc, rooms.frame(), world, who, moment, ask, &drawn)?;
            Ok(reply)
        }
    }
}

/// The reply to what is asked, sealed with the salt and the initial vector that were drawn. It is
/// made in the memory of this vector, as far as that goes: the whole frame is reserved once, and the
/// text is sealed right into it.
pub(crate) fn seal_reply(
    alloc: Global,
    memory: Vec<u8>,
    world: &World,
    who: Identity,
    moment: u32,
    ask: &EncodeAsk,
    drawn: &Drawn,
) -> Result<Vec<u8>, NoMemory>
    ensures { (files : WorldFiles) → IsMadeOf world.now files
        → IfOk result (λ reply. IsSealReply (terms_of world.now who files) moment
        (asked_by ask.now) drawn.now.salt drawn.now.iv reply.items) }
{
    let request = request_of(ask);
    let front = reply_front(memory, text_size(&request))?;
    match seal_into(
        front,
        &world.subkeys,
        &world.settings,
        &request,
        who,
        moment,
        drawn.salt,
        drawn.iv,
    ) {
        SealedInto::Done(reply) => Ok(reply.finish()),
        SealedInto::BadCipher(front) => refusal(alloc, front.finish(), Status::BadCipher),
        SealedInto::BadMac(front) => refusal(alloc, front.finish(), Status::BadMac),
        SealedInto::BadLength(front, _) => refusal(alloc, front.finish(), Status::BadLength),
    }
}

/// Room for the reply with a text of so many bytes, in the memory of this vector as far as that
/// goes, with what stands before the text.
fn reply_front(memory: Vec<u8>, size: usize) -> Result<Room, NoMemory>
    requires { size ≤ text_limit }
    ensures front { IfOk result (λ room. (text : List ℕ) → length text ≡ size
        → room.bytes ++ text ≡ encode_reply Success text) }
    ensures spare { IfOk result (λ room. room.spare ≡ size) }
{
    let mut room = Room::over(memory, HEAD_SIZE + 1 + size)?;
    room.put(&message_head(Kind::EncodeReply, 1 + size as u32));
    room.put(&[Status::Success.number()]);
    Ok(room)
}

/// The encode reply with this status and no text, in the memory of this vector as far as that goes.
fn refusal(alloc: Global, memory: Vec<u8>, status: Status) -> Result<Vec<u8>, NoMemory>
    ensures { IfOk result (λ reply. reply.items ≡ encode_reply status []) }
{
    let said = Message::EncodeReply(EncodeSaid {
        status: status.number(),
        text: Bytes::of(Vec::new(alloc)),
    });
    match frame_in(memory, &said) {
        Ok(reply) => Ok(reply),
        Err(FrameRefused::NoMemory) => Err(NoMemory),
        Err(FrameRefused::TooLong(_)) => unreachable!(),
    }
}

/// What an encode request asks to be sealed.
fn request_of(ask: &EncodeAsk) -> SealRequest<'_>
    ensures { asked_of result ≡ asked_by ask.now }
{
    SealRequest {
        cipher: ask.cipher,
        kind: ask.kind,
        ttl: ask.ttl,
        for_uid: ask.for_uid,
        for_gid: ask.for_gid,
        payload: ask.payload.bytes(),
    }
}
