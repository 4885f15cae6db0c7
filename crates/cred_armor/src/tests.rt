//! The armour of worked bodies. The base64 is that of RFC 4648, section 10, and the alphabet of its
//! section 4.

use crate::{ArmorOut, ArmorRefused, armor, armor_size, unarmor, unarmor_in};
use munge_types::{Put, Room};
use std::alloc::Global;
use std::process::Abort;
use std::test::Fail;

/// The text is the armour of the body, and gives it back.
fn assert_armored(rt: &impl Abort, alloc: Global, body: &[u8], text: &[u8]) -> Result<(), Fail> {
    assert_eq!(rt;
        armor(alloc, body)?.as_slice(),
        text,
        "the armour of {body:?}"
    );
    assert_eq!(rt;
        unarmor(alloc, text)?.as_slice(),
        body,
        "the body of {text:?}"
    );
    Ok(())
}

#[test]
fn every_symbol_in_turn(rt: HostRuntime) -> Result<(), Fail> {
    assert_armored(
        &rt,
        rt.alloc(),
        b"\x00\x10\x83\x10\x51\x87\x20\x92\x8b\x30\xd3\x8f\x41\x14\x93\x51\x55\x97\x61\x96\x9b\x71\xd7\x9f\x82\x18\xa3\x92\x59\xa7\xa2\x9a\xab\xb2\xdb\xaf\xc3\x1c\xb3\xd3\x5d\xb7\xe3\x9e\xbb\xf3\xdf\xbf",
        b"MUNGE:ABCDEFGHIJKLMNOPQRSTUVWXYZabcdefghijklmnopqrstuvwxyz0123456789+/:",
    )
}

#[test]
fn bodies_of_0_to_5_bytes(rt: HostRuntime) -> Result<(), Fail> {
    let table: [(&[u8], &[u8]); 6] = [
        (b"", b"MUNGE::"),
        (b"f", b"MUNGE:Zg==:"),
        (b"fo", b"MUNGE:Zm8=:"),
        (b"foo", b"MUNGE:Zm9v:"),
        (b"foob", b"MUNGE:Zm9vYg==:"),
        (b"fooba", b"MUNGE:Zm9vYmE=:"),
    ];
    for (body, text) in table {
        assert_armored(&rt, rt.alloc(), body, text)?;
    }
    Ok(())
}

/// The armour of a body that comes in these parts is this text, behind what the room held.
fn assert_spelled(
    rt: &impl Abort,
    alloc: Global,
    parts: [&[u8]; 3],
    text: &[u8],
) -> Result<(), Fail> {
    let [first, second, third] = parts;
    assert!(rt; first.len() <= 100 && second.len() <= 100 && third.len() <= 100);
    let mut room = Room::new(alloc, armor_size(300) + 2)?;
    room.put(b"to");
    let mut out = ArmorOut::new(room, 300);
    out.put(first);
    out.put(second);
    out.put(third);
    let spelled = out.finish().finish();
    assert_eq!(rt; spelled.as_slice(), text);
    Ok(())
}

/// RFC 4648, section 10, in parts.
#[test]
fn bodies_in_parts(rt: HostRuntime) -> Result<(), Fail> {
    let table: [([&[u8]; 3], &[u8]); 8] = [
        ([b"", b"", b""], b"toMUNGE::"),
        ([b"f", b"", b""], b"toMUNGE:Zg==:"),
        ([b"", b"fo", b""], b"toMUNGE:Zm8=:"),
        ([b"f", b"o", b"o"], b"toMUNGE:Zm9v:"),
        ([b"fo", b"ob", b""], b"toMUNGE:Zm9vYg==:"),
        ([b"f", b"ooba", b""], b"toMUNGE:Zm9vYmE=:"),
        ([b"foob", b"a", b"r"], b"toMUNGE:Zm9vYmFy:"),
        (
            [b"foobar", b"", b"foobarf"],
            b"toMUNGE:Zm9vYmFyZm9vYmFyZg==:",
        ),
    ];
    for (parts, text) in table {
        assert_spelled(&rt, rt.alloc(), parts, text)?;
    }
    Ok(())
}

/// A body of many pieces, in parts of 1 and of 2047 bytes, as at once.
#[test]
fn a_long_body_in_parts(rt: HostRuntime) -> Result<(), Fail> {
    let mut body = [0; 2048];
    for (i, byte) in body.iter_mut().enumerate() {
        *byte = (i % 251) as u8;
    }
    assert_eq!(rt; armor_size(2048), 2739);
    let mut out = ArmorOut::new(Room::new(rt.alloc(), 2739)?, 2048);
    out.put(&body[..1]);
    out.put(&body[1..]);
    let text = out.finish().finish();
    assert_eq!(rt; text.as_slice(), armor(rt.alloc(), &body)?.as_slice());
    Ok(())
}

#[test]
fn spaces_and_spellings(rt: HostRuntime) -> Result<(), Fail> {
    let table: [(&[u8], bool); 13] = [
        (b"\t\n\x0b\x0c\r MUNGE:Zg==: \r\x0c\x0b\n\t", true),
        (b"\x08MUNGE:Zg==:", false),
        (b"MUNGE:Zg==:\x0e", false),
        (b"MUNGE: Zg==:", false),
        (b"MUNGE:Zg==", false),
        (b"Zg==:", false),
        (b"munge:Zg==:", false),
        (b"MUNGE:Zg==::", false),
        (b"MUNGE:Zh==:", false),
        (b"MUNGE:Zg=:", false),
        (b"MUNGE:Zg:", false),
        (b"MUNGE:", false),
        (b"", false),
    ];
    for (text, is_armor) in table {
        match unarmor(rt.alloc(), text) {
            Ok(body) => assert!(rt;
                is_armor && body.as_slice() == b"f".as_slice(),
                "the body of {text:?}"
            ),
            Err(refused) => {
                assert!(rt; !is_armor, "a refusal of {text:?}");
                assert_eq!(rt; refused, ArmorRefused::NotArmor);
            }
        }
    }
    Ok(())
}

/// The text spells this body, or none, inside a buffer of 32 bytes.
fn assert_spells_in(rt: &impl Abort, text: &[u8], body: Option<&[u8]>) {
    assert!(rt; text.len() <= 32);
    let mut work = [0xff; 32];
    let size = unarmor_in(&mut work, text);
    assert_eq!(rt;
        size.map(|size| &work[..size]),
        body,
        "the body of {text:?}"
    );
}

/// RFC 4648, section 10, inside a buffer.
#[test]
fn bodies_inside_a_buffer(rt: HostRuntime) {
    let table: [(&[u8], Option<&[u8]>); 8] = [
        (b"MUNGE::", Some(b"")),
        (b"MUNGE:Zg==:", Some(b"f")),
        (b"MUNGE:Zm8=:", Some(b"fo")),
        (b" \tMUNGE:Zm9vYmFy:\r\n", Some(b"foobar")),
        (b"MUNGE:Zh==:", None),
        (b"MUNGE:Zg=:", None),
        (b"Zg==:", None),
        (b"", None),
    ];
    for (text, body) in table {
        assert_spells_in(&rt, text, body);
    }
}

/// The caller that the crate's documentation shows.
/// RFC 4648, section 10: the last of its bodies.
#[test]
fn caller(rt: HostRuntime) -> Result<(), Fail> {
    let text = armor(rt.alloc(), b"foobar")?;
    assert_eq!(rt; text.as_slice(), b"MUNGE:Zm9vYmFy:".as_slice());
    let body = unarmor(rt.alloc(), b" \tMUNGE:Zm9vYmFy:\r\n")?;
    assert_eq!(rt; body.as_slice(), b"foobar".as_slice());
    match unarmor(rt.alloc(), b"Zm9vYmFy") {
        Ok(_) => assert!(rt; false, "a body without marks"),
        Err(refused) => assert_eq!(rt; refused, ArmorRefused::NotArmor),
    }
    Ok(())
}
