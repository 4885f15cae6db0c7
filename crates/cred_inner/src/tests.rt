//! Inner parts by worked values, written out by hand.

use crate::{HEAD_SIZE, Inner, PAYLOAD_LIMIT, inner_head, read_inner, write_inner};
use munge_types::Room;
use std::test::Fail;

/// A content in which each byte is another.
const INNER: Inner<'static> = Inner {
    salt: [0x01, 0x02, 0x03, 0x04, 0x05, 0x06, 0x07, 0x08],
    addr: [0x0a, 0x0b, 0x0c, 0x0d],
    time: 0x1112_1314,
    ttl: 0x2122_2324,
    uid: 0x3132_3334,
    gid: 0x4142_4344,
    for_uid: 0x5152_5354,
    for_gid: 0x6162_6364,
    payload: b"hello",
};

/// Its inner part.
const PLAIN: &[u8] =
    b"\x01\x02\x03\x04\x05\x06\x07\x08\x04\x0a\x0b\x0c\x0d\x11\x12\x13\x14\x21\x22\x23\x24\x31\x32\x33\x34\x41\x42\x43\x44\x51\x52\x53\x54\x61\x62\x63\x64\x00\x00\x00\x05hello";

#[test]
fn each_field_at_its_place(rt: HostRuntime) -> Result<(), Fail> {
    assert_eq!(rt; inner_head(&INNER).as_slice(), &PLAIN[..41]);
    let mut out = Room::new(rt.alloc(), PLAIN.len() + 1)?;
    out.put(b"\xff");
    write_inner(&mut out, &INNER);
    let bytes = out.finish();
    assert_eq!(rt; bytes.first(), Some(&0xff));
    assert_eq!(rt; &bytes[1..], PLAIN);
    assert_eq!(rt; read_inner(PLAIN), Some(INNER));
    Ok(())
}

#[test]
fn lists_of_no_content(rt: HostRuntime) -> Result<(), Fail> {
    for (place, byte) in [(8, 0), (8, 3), (8, 16), (37, 1), (40, 4), (40, 6)] {
        let mut bytes = Vec::from_slice(rt.alloc(), PLAIN)?;
        bytes[place] = byte;
        assert_eq!(rt; read_inner(&bytes), None, "with {byte} at {place}");
    }
    for size in [0, 40, 41, 45] {
        assert_eq!(rt; read_inner(&PLAIN[..size]), None, "of {size} bytes");
    }
    Ok(())
}

#[test]
fn largest_payload(rt: HostRuntime) -> Result<(), Fail> {
    let mut payload = vec![in rt.alloc(); 0x5a; PAYLOAD_LIMIT]?;
    payload[PAYLOAD_LIMIT - 1] = 0xa5;
    let inner = Inner {
        payload: &payload,
        ..INNER
    };
    let mut out = Room::new(rt.alloc(), HEAD_SIZE + PAYLOAD_LIMIT)?;
    write_inner(&mut out, &inner);
    let mut bytes = out.finish();
    assert_eq!(rt; bytes.len(), 1_048_617);
    assert_eq!(rt; read_inner(&bytes), Some(inner));
    bytes.push(0)?;
    bytes[37..41].copy_from_slice(b"\x00\x10\x00\x01");
    assert_eq!(rt; read_inner(&bytes), None, "one byte above");
    Ok(())
}
