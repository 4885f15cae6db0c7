//! The standard's examples, cases of OpenSSL, and padding as Python's `cryptography` reads it; and
//! messages in parts beside the same in place.

ghost use Rattle.std.specs.Prelude.{◌≤◌, length};

use crate::{CbcOut, open_in_place, pad_size, seal_in_place, unpad};
use aes_block::{DataKey, Key128, Key256};
use munge_types::{NoMemory, Room};
use std::alloc::{AllocError, Global};
use std::process::Abort;
use std::test::Fail;

/// The vector of the standard's examples.
const VECTOR: [u8; 16] = [0, 1, 2, 3, 4, 5, 6, 7, 8, 9, 10, 11, 12, 13, 14, 15];

/// The plain text of the standard's examples.
const PLAIN: [u8; 64] = *b"\x6b\xc1\xbe\xe2\x2e\x40\x9f\x96\xe9\x3d\x7e\x11\x73\x93\x17\x2a\
        \xae\x2d\x8a\x57\x1e\x03\xac\x9c\x9e\xb7\x6f\xac\x45\xaf\x8e\x51\
        \x30\xc8\x1c\x46\xa3\x5c\xe4\x11\xe5\xfb\xc1\x19\x1a\x0a\x52\xef\
        \xf6\x9f\x24\x45\xdf\x4f\x9b\x17\xad\x2b\x41\x7b\xe6\x6c\x37\x10";

fn assert_both_ways(
    rt: &impl Abort,
    key: &DataKey,
    iv: &[u8; 16],
    plain: &[u8; 64],
    sealed: &[u8; 64],
) {
    let mut buf = *plain;
    seal_in_place(key, iv, &mut buf);
    assert_eq!(rt; &buf, sealed);
    open_in_place(key, iv, &mut buf);
    assert_eq!(rt; &buf, plain);
}

/// NIST SP 800-38A, appendix F.2.1 and F.2.2 (AES-128), F.2.5 and F.2.6 (AES-256), four blocks
/// each.
#[test]
fn examples_of_the_standard(rt: HostRuntime) {
    let short = DataKey::Aes128(Key128::new(
        b"\x2b\x7e\x15\x16\x28\xae\xd2\xa6\xab\xf7\x15\x88\x09\xcf\x4f\x3c",
    ));
    let sealed = b"\x76\x49\xab\xac\x81\x19\xb2\x46\xce\xe9\x8e\x9b\x12\xe9\x19\x7d\
        \x50\x86\xcb\x9b\x50\x72\x19\xee\x95\xdb\x11\x3a\x91\x76\x78\xb2\
        \x73\xbe\xd6\xb8\xe3\xc1\x74\x3b\x71\x16\xe6\x9e\x22\x22\x95\x16\
        \x3f\xf1\xca\xa1\x68\x1f\xac\x09\x12\x0e\xca\x30\x75\x86\xe1\xa7";
    assert_both_ways(&rt, &short, &VECTOR, &PLAIN, sealed);

    let long = DataKey::Aes256(Key256::new(
        b"\x60\x3d\xeb\x10\x15\xca\x71\xbe\x2b\x73\xae\xf0\x85\x7d\x77\x81\
        \x1f\x35\x2c\x07\x3b\x61\x08\xd7\x2d\x98\x10\xa3\x09\x14\xdf\xf4",
    ));
    let sealed = b"\xf5\x8c\x4c\x04\xd6\xe5\xf1\xba\x77\x9e\xab\xfb\x5f\x7b\xfb\xd6\
        \x9c\xfc\x4e\x96\x7e\xdb\x80\x8d\x67\x9f\x77\x7b\xc6\x70\x2c\x7d\
        \x39\xf2\x33\x69\xa9\xd9\xba\xcf\xa5\x30\xe2\x63\x04\x23\x14\x61\
        \xb2\xeb\x05\xe2\xc3\x9b\xe9\xfc\xda\x6c\x19\x07\x8c\x6a\x9d\x1b";
    assert_both_ways(&rt, &long, &VECTOR, &PLAIN, sealed);
}

/// `openssl enc -aes-128-cbc -nopad` and `-aes-256-cbc`, with keys and vectors of one byte
/// repeated.
#[test]
fn cases_of_openssl(rt: HostRuntime) {
    let short = DataKey::Aes128(Key128::new(&[0; 16]));
    let sealed = b"\x3f\x5b\x8c\xc9\xea\x85\x5a\x0a\xfa\x73\x47\xd2\x3e\x8d\x66\x4e\
        \xdc\x0f\xe3\x00\x9a\x76\xf3\x43\xfd\xf2\x2e\xfd\x98\x47\x25\x4f\
        \x5c\xb0\xfe\xef\xef\x24\x76\xbb\xc4\xd1\x95\xd4\xda\x12\x2b\xa1\
        \xa3\x26\xb8\x4c\x39\x4b\x3b\x35\xfb\xc2\x67\x30\xd0\x26\x36\x62";
    assert_both_ways(&rt, &short, &[0xff; 16], &[0; 64], sealed);

    let long = DataKey::Aes256(Key256::new(&[0x5a; 32]));
    let sealed = b"\x42\xd9\x16\x53\x3b\xfa\x35\x23\x18\x01\x88\xc7\xc6\xe3\x26\x0c\
        \x0a\x77\xb6\x7e\x45\x64\x19\xee\x19\x37\x3c\xcb\xb2\xdd\xab\x5d\
        \x56\xf5\xbd\x01\x9c\x2a\xfc\x35\xdb\x01\x33\x7d\xf5\xc2\xf3\x27\
        \x06\x9c\x10\xc5\x09\x3d\x83\x1e\x5e\xe9\x1c\xdb\xba\x82\x1d\xf5";
    assert_both_ways(&rt, &long, &[0; 16], &PLAIN, sealed);
}

/// Nothing to encrypt is nothing.
#[test]
fn no_block(rt: HostRuntime) {
    let key = DataKey::Aes128(Key128::new(&[7; 16]));
    let mut none: [u8; 0] = [];
    seal_in_place(&key, &VECTOR, &mut none);
    open_in_place(&key, &VECTOR, &mut none);
    assert_eq!(rt; none.len(), 0);
}

/// A whole of 49 bytes, in parts of 1, 15, 16 and 17 bytes and with its padding: the same 64 bytes as
/// in place.
#[test]
fn parts_are_the_whole_in_place(rt: HostRuntime) -> Result<(), Fail> {
    let mut whole = PLAIN;
    for byte in whole[49..].iter_mut() {
        *byte = 15;
    }
    for key in [
        DataKey::Aes128(Key128::new(&[7; 16])),
        DataKey::Aes256(Key256::new(&[9; 32])),
    ] {
        let mut room = Room::new(rt.alloc(), 128)?;
        let mut out = CbcOut::new(&key, &VECTOR);
        out.write(&PLAIN[..1], &mut room);
        out.write(&PLAIN[1..16], &mut room);
        out.write(&PLAIN[16..32], &mut room);
        out.write(&PLAIN[32..49], &mut room);
        out.finish(&mut room);
        let mut sealed = whole;
        seal_in_place(&key, &VECTOR, &mut sealed);
        assert_eq!(rt; room.finish().as_slice(), sealed.as_slice());
    }
    Ok(())
}

/// So many bytes, which count and begin anew at 251.
fn counted(alloc: Global, n: usize) -> Result<Vec<u8>, AllocError> {
    let mut bytes = vec![in alloc; 0u8; n]?;
    for (i, byte) in bytes.iter_mut().enumerate() {
        *byte = (i % 251) as u8;
    }
    Ok(bytes)
}

/// The message in two parts, the first of 5 bytes, encrypted, with its padding.
fn sealed_in_two(alloc: Global, key: &DataKey, plain: &[u8]) -> Result<Vec<u8>, NoMemory>
    requires long { 5 ≤ length plain.now }
    requires short { length plain.now ≤ 2000 }
{
    let mut room = Room::new(alloc, 2100)?;
    let (first, second) = plain.split_at(5);
    let mut out = CbcOut::new(key, &VECTOR);
    out.write(first, &mut room);
    out.write(second, &mut room);
    out.finish(&mut room);
    Ok(room.finish())
}

/// A message of several pieces and a part that begins inside a block, as in place.
#[test]
fn a_long_message(rt: HostRuntime) -> Result<(), Fail> {
    let key = DataKey::Aes128(Key128::new(&[7; 16]));
    let plain = counted(rt.alloc(), 1990)?;
    let mut whole = plain.clone()?;
    whole.extend_from_slice(&[10; 10])?;
    assert!(rt; plain.len() == 1990 && whole.len() == 2000);
    seal_in_place(&key, &VECTOR, &mut whole);
    assert_eq!(rt;
        sealed_in_two(rt.alloc(), &key, &plain)?.as_slice(),
        whole.as_slice()
    );
    Ok(())
}

/// The padding of the empty message is a block.
#[test]
fn an_empty_message(rt: HostRuntime) -> Result<(), Fail> {
    let key = DataKey::Aes128(Key128::new(&[7; 16]));
    let mut padding = [16; 16];
    seal_in_place(&key, &VECTOR, &mut padding);
    let mut room = Room::new(rt.alloc(), 16)?;
    CbcOut::new(&key, &VECTOR).finish(&mut room);
    assert_eq!(rt; room.finish().as_slice(), padding.as_slice());
    Ok(())
}

/// RFC 5652, section 6.3: 16 less the remainder, by hand.
#[test]
fn sizes_of_padding(rt: HostRuntime) {
    for (n, size) in [
        (0, 16),
        (1, 15),
        (15, 1),
        (16, 16),
        (17, 15),
        (1_048_617, 7),
    ] {
        assert_eq!(rt; pad_size(n), size, "{n}");
    }
}

/// The length that `padding.PKCS7(128).unpadder()` of Python's `cryptography` leaves, and None
/// where it refuses.
#[test]
fn padding_taken_off(rt: HostRuntime) {
    let table: [(&[u8], Option<usize>); 15] = [
        (b"", None),
        (&[0x10; 16], Some(0)),
        (
            b"\x41\x41\x41\x41\x41\x41\x41\x41\x41\x41\x41\x41\x41\x41\x41\x01",
            Some(15),
        ),
        (
            b"\x41\x41\x41\x41\x41\x41\x41\x41\x41\x41\x41\x41\x04\x04\x04\x04",
            Some(12),
        ),
        (
            b"\x41\x41\x41\x41\x41\x41\x41\x41\x41\x41\x41\x41\x41\x41\x41\x41\
        \x10\x10\x10\x10\x10\x10\x10\x10\x10\x10\x10\x10\x10\x10\x10\x10",
            Some(16),
        ),
        (
            b"\x41\x41\x41\x41\x41\x41\x41\x41\x41\x41\x41\x41\x41\x41\x41\x41\
        \x41\x41\x41\x41\x41\x41\x41\x41\x41\x41\x41\x41\x41\x41\x41\x01",
            Some(31),
        ),
        (
            b"\x41\x41\x41\x41\x41\x41\x41\x41\x41\x41\x41\x41\x04\x04\x03\x04",
            None,
        ),
        (
            b"\x41\x41\x41\x41\x41\x41\x41\x41\x41\x41\x41\x41\x05\x04\x04\x04",
            None,
        ),
        (
            b"\x41\x41\x41\x41\x41\x41\x41\x41\x41\x41\x41\x41\x41\x41\x41\x00",
            None,
        ),
        (&[0x11; 32], None),
        (&[0x10; 15], None),
        (b"\x01", None),
        (&[0xff; 256], None),
        (
            b"\x10\x10\x10\x10\x10\x10\x10\x10\x10\x10\x10\x10\x10\x10\x10\x10\
        \x10\x10\x10\x10\x10\x10\x10\x10\x10\x10\x10\x10\x10\x10\x10\x0f",
            None,
        ),
        (
            b"\x41\x0f\x0f\x0f\x0f\x0f\x0f\x0f\x0f\x0f\x0f\x0f\x0f\x0f\x0f\x0f",
            Some(1),
        ),
    ];
    for (padded, length) in table {
        assert_eq!(rt; unpad(padded), length, "{padded:?}");
    }
}

/// The caller that the crate's documentation shows.
/// RFC 3602, section 4, case 1, and behind it a block of padding.
#[test]
fn caller(rt: HostRuntime) {
    let key = DataKey::Aes128(Key128::new(
        b"\x06\xa9\x21\x40\x36\xb8\xa1\x5b\x51\x2e\x03\xd5\x34\x12\x00\x06",
    ));
    let iv = b"\x3d\xaf\xba\x42\x9d\x9e\xb4\x30\xb4\x22\xda\x80\x2c\x9f\xac\x41";
    let mut buf = [pad_size(16); 32];
    buf[..16].copy_from_slice(b"Single block msg");
    seal_in_place(&key, iv, &mut buf);
    let sealed = b"\xe3\x53\x77\x9c\x10\x79\xae\xb8\x27\x08\x94\x2d\xbe\x77\x18\x1a";
    assert_eq!(rt; &buf[..16], sealed.as_slice());
    open_in_place(&key, iv, &mut buf);
    assert_eq!(rt; unpad(&buf), Some(16));
    assert_eq!(rt; &buf[..16], b"Single block msg".as_slice());
}
