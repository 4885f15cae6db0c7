//! Frames by worked values. All of them were written out by hand from the layout of the messages,
//! with the numbers of ASCII for texts.

use crate::{
    Bytes, Content, DecodeSaid, EncodeAsk, EncodeSaid, Fed, Feeder, FrameRefused, Kind, Message,
    Side, content_head, frame, frame_in, message_head, reply_head,
};
use std::alloc::Global;
use std::process::Abort;
use std::test::Fail;

/// Three decode requests: of no text, of `MUNGE::` and of `MUNGE:AA==:`.
const REQUESTS: &[u8] = b"\x4d\x01\x03\x00\x00\x00\x00\
    \x4d\x01\x03\x00\x00\x00\x07MUNGE::\
    \x4d\x01\x03\x00\x00\x00\x0bMUNGE:AA==:";

/// The texts of the three.
const TEXTS: [&[u8]; 3] = [b"", b"MUNGE::", b"MUNGE:AA==:"];

/// An encode request in which each field is another.
const ENCODE_REQUEST: &[u8] =
    b"\x4d\x01\x01\x00\x00\x00\x13\x04\x05\x11\x12\x13\x14\x21\x22\x23\x24\x31\x32\x33\x34hello";

/// A decode reply in which each field is another.
const DECODE_REPLY: &[u8] = b"\x4d\x01\x04\x00\x00\x00\x2d\x10\x0c\x01\x02\x03\x04\x05\x06\x07\x08\
    \x04\x05\x0a\x0b\x0c\x0d\x11\x12\x13\x14\x21\x22\x23\x24\x31\x32\x33\x34\
    \x41\x42\x43\x44\x51\x52\x53\x54\x61\x62\x63\x64hello";

fn of_text(alloc: Global, text: &[u8]) -> Result<Bytes, Fail> {
    Ok(Bytes::of(Vec::from_slice(alloc, text)?))
}

/// What the encode request asks.
fn encode_request(alloc: Global) -> Result<Message, Fail> {
    Ok(Message::EncodeRequest(EncodeAsk {
        cipher: 4,
        kind: 5,
        ttl: 0x1112_1314,
        for_uid: 0x2122_2324,
        for_gid: 0x3132_3334,
        payload: of_text(alloc, b"hello")?,
    }))
}

/// What the decode reply says.
fn content(alloc: Global) -> Result<Content, Fail> {
    Ok(Content {
        cipher: 4,
        kind: 5,
        addr: [0x0a, 0x0b, 0x0c, 0x0d],
        time: 0x1112_1314,
        ttl: 0x2122_2324,
        uid: 0x3132_3334,
        gid: 0x4142_4344,
        for_uid: 0x5152_5354,
        for_gid: 0x6162_6364,
        payload: of_text(alloc, b"hello")?,
    })
}

fn decode_reply(alloc: Global) -> Result<Message, Fail> {
    Ok(Message::DecodeReply(DecodeSaid {
        status: 16,
        rule: 12,
        place: 0x0102_0304_0506_0708,
        content: Some(content(alloc)?),
    }))
}

/// Feeds a piece after which no frame is whole.
fn feed_more(rt: &impl Abort, feeder: &mut Feeder, piece: &[u8]) -> Result<(), Fail> {
    let fed = feeder.feed(piece)?;
    assert!(rt; fed == Fed::More, "more after {piece:?}");
    Ok(())
}

/// Feeds a piece with which there is no frame, and another.
fn feed_bad(rt: &impl Abort, feeder: &mut Feeder, piece: &[u8], place: u64) -> Result<(), Fail> {
    let fed = feeder.feed(piece)?;
    assert!(rt; fed == Fed::Bad(place), "bad after {piece:?}");
    let fed = feeder.feed(REQUESTS)?;
    assert!(rt; fed == Fed::Bad(place), "still bad after {piece:?}");
    Ok(())
}

/// Feeds a piece of which the first bytes end the frame of this message, and gives what is left.
fn feed_message<'a>(
    rt: &impl Abort,
    feeder: &mut Feeder,
    piece: &'a [u8],
    size: usize,
    message: &Message,
) -> Result<&'a [u8], Fail> {
    let Fed::Message {
        message: found,
        used,
    } = feeder.feed(piece)?
    else {
        panic!(rt; "no message in {piece:?}");
    };
    assert_eq!(rt; used, size);
    assert!(rt; found == *message, "another message in {piece:?}");
    assert!(rt; used <= piece.len());
    Ok(&piece[used..])
}

/// The message and its frame are each other's, with the frame as one piece and byte by byte.
fn there_and_back(
    rt: &impl Abort,
    alloc: Global,
    side: Side,
    message: &Message,
    bytes: &[u8],
) -> Result<(), Fail> {
    let made = frame(alloc, message)?;
    assert_eq!(rt; made.as_slice(), bytes);
    let mut feeder = Feeder::new(alloc, side);
    let rest = feed_message(rt, &mut feeder, bytes, bytes.len(), message)?;
    assert_eq!(rt; rest.len(), 0);
    let Some((last, before)) = bytes.split_last() else {
        panic!(rt; "no bytes");
    };
    for byte in before {
        feed_more(rt, &mut feeder, &[*byte])?;
    }
    feed_message(rt, &mut feeder, &[*last], 1, message)?;
    Ok(())
}

/// A decode request with this text.
fn decode_request(alloc: Global, text: &[u8]) -> Result<Message, Fail> {
    Ok(Message::DecodeRequest(of_text(alloc, text)?))
}

#[test]
fn as_one_piece(rt: HostRuntime) -> Result<(), Fail> {
    let mut feeder = Feeder::new(rt.alloc(), Side::Requests);
    let mut rest = REQUESTS;
    for (text, size) in TEXTS.iter().zip([7, 14, 18]) {
        let message = decode_request(rt.alloc(), text)?;
        rest = feed_message(&rt, &mut feeder, rest, size, &message)?;
    }
    assert_eq!(rt; rest.len(), 0);
    feed_more(&rt, &mut feeder, rest)
}

#[test]
fn byte_by_byte(rt: HostRuntime) -> Result<(), Fail> {
    let mut feeder = Feeder::new(rt.alloc(), Side::Requests);
    let mut found = 0;
    for byte in REQUESTS {
        match feeder.feed(&[*byte])? {
            Fed::More => {}
            Fed::Bad(place) => panic!(&rt; "bad at {place}"),
            Fed::Message { message, used } => {
                assert_eq!(rt; used, 1);
                assert!(rt; found < TEXTS.len());
                assert!(rt; message == decode_request(rt.alloc(), TEXTS[found])?);
                found += 1;
            }
        }
    }
    assert_eq!(rt; found, TEXTS.len());
    Ok(())
}

#[test]
fn refused_at_its_byte(rt: HostRuntime) -> Result<(), Fail> {
    let cases: [(Side, &[u8], u8); 16] = [
        (Side::Requests, b"", 0x4e),
        (Side::Requests, b"\x4d", 2),
        (Side::Requests, b"\x4d\x01", 0),
        (Side::Requests, b"\x4d\x01", 2),
        (Side::Requests, b"\x4d\x01", 4),
        (Side::Requests, b"\x4d\x01", 6),
        (Side::Replies, b"\x4d\x01", 1),
        (Side::Replies, b"\x4d\x01", 3),
        (Side::Replies, b"\x4d\x01", 5),
        (Side::Replies, b"\x4d\x01", 7),
        (Side::Requests, b"\x4d\x01\x03", 1),
        (Side::Requests, b"\x4d\x01\x03\x00\x20\x00", 1),
        (Side::Requests, b"\x4d\x01\x01\x00\x00\x00", 13),
        (Side::Replies, b"\x4d\x01\x02\x00\x00\x00", 0),
        (Side::Requests, b"\x4d\x01\x05\x00\x00\x00", 1),
        (Side::Replies, b"\x4d\x01\x06\x00\x00\x00", 0),
    ];
    for (side, before, last) in cases {
        let mut feeder = Feeder::new(rt.alloc(), side);
        feed_more(&rt, &mut feeder, before)?;
        feed_bad(&rt, &mut feeder, &[last], 0)?;
    }
    Ok(())
}

#[test]
fn refused_in_one_piece(rt: HostRuntime) -> Result<(), Fail> {
    let mut feeder = Feeder::new(rt.alloc(), Side::Requests);
    feed_bad(&rt, &mut feeder, b"\x4d\x01\x03\x01", 0)
}

#[test]
fn lengths_of_a_decode_reply(rt: HostRuntime) -> Result<(), Fail> {
    for size in 0..48 {
        let mut feeder = Feeder::new(rt.alloc(), Side::Replies);
        feed_more(&rt, &mut feeder, b"\x4d\x01\x04\x00\x00\x00")?;
        if size == 10 || size >= 40 {
            feed_more(&rt, &mut feeder, &[size])?;
        } else {
            feed_bad(&rt, &mut feeder, &[size], 0)?;
        }
    }
    Ok(())
}

#[test]
fn bad_where_its_frame_began(rt: HostRuntime) -> Result<(), Fail> {
    let mut feeder = Feeder::new(rt.alloc(), Side::Requests);
    let mut rest = REQUESTS;
    for (text, size) in TEXTS.iter().zip([7, 14]) {
        let message = decode_request(rt.alloc(), text)?;
        rest = feed_message(&rt, &mut feeder, rest, size, &message)?;
    }
    feed_more(&rt, &mut feeder, b"\x4d\x01\x03\x00")?;
    feed_bad(&rt, &mut feeder, b"\x21", 21)
}

#[test]
fn what_is_wanted(rt: HostRuntime) -> Result<(), Fail> {
    let mut feeder = Feeder::new(rt.alloc(), Side::Requests);
    for (piece, wanted) in [
        (b"".as_slice(), 7),
        (b"\x4d", 6),
        (b"\x01\x03\x00\x1f", 2),
        (b"\xff\xff", 2_097_151),
        (b"MUNGE", 2_097_146),
    ] {
        feed_more(&rt, &mut feeder, piece)?;
        assert_eq!(rt; feeder.wanted(), wanted);
    }
    Ok(())
}

#[test]
fn encode_request_there_and_back(rt: HostRuntime) -> Result<(), Fail> {
    let message = encode_request(rt.alloc())?;
    there_and_back(&rt, rt.alloc(), Side::Requests, &message, ENCODE_REQUEST)
}

#[test]
fn encode_reply_there_and_back(rt: HostRuntime) -> Result<(), Fail> {
    let text = of_text(rt.alloc(), b"MUNGE:Aw==:")?;
    let message = Message::EncodeReply(EncodeSaid { status: 0, text });
    let bytes = b"\x4d\x01\x02\x00\x00\x00\x0c\x00MUNGE:Aw==:";
    there_and_back(&rt, rt.alloc(), Side::Replies, &message, bytes)
}

#[test]
fn decode_request_there_and_back(rt: HostRuntime) -> Result<(), Fail> {
    let message = decode_request(rt.alloc(), b"MUNGE::")?;
    let bytes = b"\x4d\x01\x03\x00\x00\x00\x07MUNGE::";
    there_and_back(&rt, rt.alloc(), Side::Requests, &message, bytes)
}

#[test]
fn decode_reply_there_and_back(rt: HostRuntime) -> Result<(), Fail> {
    let message = decode_reply(rt.alloc())?;
    there_and_back(&rt, rt.alloc(), Side::Replies, &message, DECODE_REPLY)
}

#[test]
fn decode_reply_without_content_there_and_back(rt: HostRuntime) -> Result<(), Fail> {
    let message = Message::DecodeReply(DecodeSaid {
        status: 8,
        rule: 1,
        place: u64::MAX,
        content: None,
    });
    let bytes = b"\x4d\x01\x04\x00\x00\x00\x0a\x08\x01\xff\xff\xff\xff\xff\xff\xff\xff";
    there_and_back(&rt, rt.alloc(), Side::Replies, &message, bytes)
}

#[test]
fn stop_and_bye_there_and_back(rt: HostRuntime) -> Result<(), Fail> {
    let stop = b"\x4d\x01\x05\x00\x00\x00\x00";
    there_and_back(&rt, rt.alloc(), Side::Requests, &Message::Stop, stop)?;
    let bye = b"\x4d\x01\x06\x00\x00\x00\x01\x12";
    there_and_back(&rt, rt.alloc(), Side::Replies, &Message::Bye(18), bye)
}

#[test]
fn heads_and_payload_are_the_frame(rt: HostRuntime) -> Result<(), Fail> {
    let content = content(rt.alloc())?;
    let head = message_head(Kind::DecodeReply, 45);
    assert_eq!(rt; head.as_slice(), &DECODE_REPLY[..7]);
    let reply = reply_head(16, 12, 0x0102_0304_0506_0708);
    assert_eq!(rt; reply.as_slice(), &DECODE_REPLY[7..17]);
    let fields = content_head(&content.fields());
    assert_eq!(rt; fields.as_slice(), &DECODE_REPLY[17..47]);
    assert_eq!(rt; content.payload.bytes(), &DECODE_REPLY[47..]);
    Ok(())
}

#[test]
fn frames_in_memory_that_is_given(rt: HostRuntime) -> Result<(), Fail> {
    let message = decode_reply(rt.alloc())?;
    // No memory, less than the frame needs, as much, and more.
    for size in [0, 51, 52, 300] {
        let made = frame_in(vec![in rt.alloc(); 0x5a; size]?, &message)?;
        assert_eq!(rt; made.as_slice(), DECODE_REPLY, "in {size} bytes");
    }
    Ok(())
}

#[test]
fn bodies_in_memory_that_is_lent(rt: HostRuntime) -> Result<(), Fail> {
    let message = encode_request(rt.alloc())?;
    // No memory, less than the payload needs, as much, and more; lent before the frame, and anew
    // before its body, and inside it.
    for size in [0, 4, 5, 300] {
        let mut feeder = Feeder::new(rt.alloc(), Side::Requests);
        for count in [0, 7, 22] {
            feeder.lend(vec![in rt.alloc(); 0x5a; size]?);
            feed_more(&rt, &mut feeder, &ENCODE_REQUEST[..count])?;
            feeder.lend(vec![in rt.alloc(); 0x5a; size]?);
            let rest = &ENCODE_REQUEST[count..];
            feed_message(&rt, &mut feeder, rest, rest.len(), &message)?;
        }
    }
    Ok(())
}

#[test]
fn largest_body_in_three_pieces(rt: HostRuntime) -> Result<(), Fail> {
    let text = vec![in rt.alloc(); 0x5a; 2_097_152]?;
    let largest = Message::DecodeRequest(Bytes::of(text));
    let bytes = frame(rt.alloc(), &largest)?;
    assert_eq!(rt; bytes.len(), 2_097_159);
    let mut feeder = Feeder::new(rt.alloc(), Side::Requests);
    let mut fed = Fed::More;
    for piece in bytes.chunks(1_000_000) {
        assert!(rt; fed == Fed::More);
        fed = feeder.feed(piece)?;
    }
    assert!(rt;
        fed == Fed::Message {
            message: largest,
            used: 97_159
        }
    );
    Ok(())
}

#[test]
fn one_byte_too_long(rt: HostRuntime) -> Result<(), Fail> {
    let text = vec![in rt.alloc(); 0x5a; 2_097_153]?;
    let above = Message::DecodeRequest(Bytes::of(text));
    assert!(rt; frame(rt.alloc(), &above) == Err(FrameRefused::TooLong(2_097_153)));
    let buffer = Vec::new(rt.alloc());
    assert!(rt; frame_in(buffer, &above) == Err(FrameRefused::TooLong(2_097_153)));
    Ok(())
}
