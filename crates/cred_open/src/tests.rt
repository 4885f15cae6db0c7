//! Opening by worked texts. The credentials come from Python: their MACs and keys from its `hmac` and
//! `hashlib`, and their sealed parts under AES from `cryptography`.

mod usual_credential;

use crate::{OpenRefused, Opened, open_in, open_text};
use base64::engine::general_purpose::STANDARD;
use munge_types::{Cipher, MacKind};
use sha1::Sha1;
use sha2::{Digest, Sha256};
use std::alloc::{AllocError, Global};
use std::process::Abort;
use std::test::Fail;
use subkeys::Subkeys;

/// A key file.
const KEY: [u8; 32] = [0; 32];

/// A credential under that key file, with the payload `hello`.
const CREDENTIAL: &[u8] =
    b"MUNGE:AwAFAAA3BL8AX0070SzrF7HM4fUSnirt4Xui8t+XZSaXuKaA8QECAwQFBgcIBH8AAAEAAAPoAAABLAAAAAcAAAAI/////wAAADIAAAAFaGVsbG8=:";

/// A credential under that key file by the default algorithms, AES-128 and SHA-256, with the payload
/// `hello`.
const USUAL: &[u8] =
    b"MUNGE:AwQFAADlal1AKL2GU7gZ0r0a7Y2gZdOW0dtIZnPPrjS6h3x2aomh8ZNQVH6NmOcaPRwS8mjed530PxWTNeODkFayJ+4ddvj+VTK0PF2qdcCP1XSD2VKm4Mz/XqmVx2UOiIvzOCA=:";

/// The inner part of `CREDENTIAL`, before its payload.
const HEAD: &[u8] =
    b"\x01\x02\x03\x04\x05\x06\x07\x08\x04\x7f\x00\x00\x01\x00\x00\x03\xe8\x00\x00\x01\x2c\x00\x00\x00\x07\x00\x00\x00\x08\xff\xff\xff\xff\x00\x00\x00\x32\x00\x00\x00\x05";

/// The text, opened under the key file.
fn opened(alloc: Global, text: &[u8]) -> Result<Opened, Fail> {
    Ok(open_text(alloc, &Subkeys::of(&KEY)?, text)?)
}

/// The text is refused by this rule with this status.
fn assert_refused(
    rt: &impl Abort,
    alloc: Global,
    text: &[u8],
    rule: u8,
    status: u8,
) -> Result<(), Fail> {
    let subkeys = Subkeys::of(&KEY)?;
    let Err(OpenRefused::Failed(broken)) = open_text(alloc, &subkeys, text) else {
        assert!(rt; false, "opened, or no memory: {text:?}");
        return Ok(());
    };
    let mut work = vec![in alloc; 0u8; text.len()]?;
    let inside = open_in(&subkeys, &mut work, text);
    assert!(rt;
        matches!(inside, Err(same) if same == broken),
        "inside a buffer: {text:?}"
    );
    assert_eq!(rt; broken.rule.number(), rule, "the rule of {text:?}");
    assert_eq!(rt; broken.status.number(), status, "the status of {text:?}");
    Ok(())
}

/// A block that begins with these bytes, each combined with the pad.
fn padded(bytes: &[u8; 20], pad: u8) -> [u8; 64] {
    let mut block = [pad; 64];
    for (i, byte) in bytes.iter().enumerate() {
        block[i] ^= *byte;
    }
    block
}

/// The armour of the body that has this inner part under the key file.
fn sealed(alloc: Global, inner: &[u8]) -> Result<Vec<u8>, AllocError> {
    let mut key = [0; 33];
    key[32] = 0x32;
    let mac_key = Sha1::digest(&key);
    let outer = [3, 0, 5, 0, 0];
    let inside: [u8; 32] = Sha256::new_with_prefix(&padded(&mac_key, 0x36)[..])
        .chain_update(&outer[..])
        .chain_update(inner)
        .finalize();
    let mac: [u8; 32] = Sha256::new_with_prefix(&padded(&mac_key, 0x5c)[..])
        .chain_update(&inside[..])
        .finalize();
    let mut body = Vec::from_slice(alloc, &outer)?;
    body.extend_from_slice(&mac)?;
    body.extend_from_slice(inner)?;
    armored(alloc, &body)
}

/// The armour of a body.
fn armored(alloc: Global, body: &[u8]) -> Result<Vec<u8>, AllocError> {
    let mut text = Vec::from_slice(alloc, b"MUNGE:")?;
    text.extend_from_slice(STANDARD.encode(alloc, body)?.as_bytes())?;
    text.push(b':')?;
    Ok(text)
}

#[test]
fn texts_that_break_a_rule(rt: HostRuntime) -> Result<(), Fail> {
    let table: [(&[u8], u8, u8); 23] = [
        (b"", 1, 8),
        (b"MUNGE:", 1, 8),
        (b"munge::", 1, 8),
        (b"MUNGE:AB==:", 1, 8),
        (b"MUNGE:AA:", 1, 8),
        (b"MUNGE::", 2, 8),
        (b" \t\nMUNGE::\x0b\x0c\r", 2, 8),
        (b"MUNGE:AA==:", 2, 9),
        (b"MUNGE:Aw==:", 3, 8),
        (b"MUNGE:AwIFAAA=:", 3, 10),
        (b"MUNGE:AwMFAAA=:", 3, 10),
        (b"MUNGE:AwUDAAA=:", 4, 11),
        (b"MUNGE:AwABAAA=:", 4, 11),
        (b"MUNGE:AwAEAAA=:", 4, 11),
        (b"MUNGE:AwAHAAA=:", 4, 11),
        (b"MUNGE:AwAFAgA=:", 5, 12),
        (b"MUNGE:AwAFAAE=:", 6, 13),
        (b"MUNGE:AwQFAgA=:", 5, 12),
        (b"MUNGE:AwQFAAE=:", 6, 13),
        (b"MUNGE:AwQFAAA=:", 7, 8),
        (b"MUNGE:AwADAAA=:", 7, 8),
        (b"MUNGE:AwAFAAA=:", 7, 8),
        (b"MUNGE:AwAGAAA=:", 7, 8),
    ];
    for (text, rule, status) in table {
        assert_refused(&rt, rt.alloc(), text, rule, status)?;
    }
    Ok(())
}

/// The credential opens to the content that all of them have, by this MAC.
fn assert_opens(
    rt: &impl Abort,
    alloc: Global,
    text: &[u8],
    cipher: Cipher,
    kind: MacKind,
    mac: &[u8],
) -> Result<(), Fail> {
    let opened = opened(alloc, text)?;
    assert_eq!(rt; opened.cipher(), cipher);
    assert_eq!(rt; opened.kind(), kind);
    let inner = opened.inner();
    assert_eq!(rt; inner.salt, [1, 2, 3, 4, 5, 6, 7, 8]);
    assert_eq!(rt; inner.addr, [127, 0, 0, 1]);
    assert_eq!(rt; (inner.time, inner.ttl), (1000, 300));
    assert_eq!(rt; (inner.uid, inner.gid), (7, 8));
    assert_eq!(rt; (inner.for_uid, inner.for_gid), (u32::MAX, 50));
    assert_eq!(rt; inner.payload, b"hello".as_slice());
    assert_eq!(rt; opened.pair(200).expiry, 1200);
    assert_eq!(rt; opened.pair(3600).expiry, 1300);
    assert_eq!(rt; opened.pair(3600).mac.bytes(), mac);
    Ok(())
}

#[test]
fn credentials_of_each_algorithm_open(rt: HostRuntime) -> Result<(), Fail> {
    let table: [(&[u8], Cipher, MacKind, &[u8]); 8] = [
        (
            b"MUNGE:AwADAADjtu8DVav7Qf6mWEnoR96pKtv5jAECAwQFBgcIBH8AAAEAAAPoAAABLAAAAAcAAAAI/////wAAADIAAAAFaGVsbG8=:",
            Cipher::None,
            MacKind::Sha1,
            b"\xe3\xb6\xef\x03\x55\xab\xfb\x41\xfe\xa6\x58\x49\xe8\x47\xde\xa9\x2a\xdb\xf9\x8c",
        ),
        (
            CREDENTIAL,
            Cipher::None,
            MacKind::Sha256,
            b"\x37\x04\xbf\x00\x5f\x4d\x3b\xd1\x2c\xeb\x17\xb1\xcc\xe1\xf5\x12\x9e\x2a\xed\xe1\x7b\xa2\xf2\xdf\x97\x65\x26\x97\xb8\xa6\x80\xf1",
        ),
        (
            b"MUNGE:AwAGAABjinllWdddUKb1Bx4Yn1siHUkT3rvSuZfJece8cikESf6F8g5yYf9rl8WMtPSDhwK2xYOO0VlT+SxRkaB831E0AQIDBAUGBwgEfwAAAQAAA+gAAAEsAAAABwAAAAj/////AAAAMgAAAAVoZWxsbw==:",
            Cipher::None,
            MacKind::Sha512,
            b"\x63\x8a\x79\x65\x59\xd7\x5d\x50\xa6\xf5\x07\x1e\x18\x9f\x5b\x22\x1d\x49\x13\xde\xbb\xd2\xb9\x97\xc9\x79\xc7\xbc\x72\x29\x04\x49\xfe\x85\xf2\x0e\x72\x61\xff\x6b\x97\xc5\x8c\xb4\xf4\x83\x87\x02\xb6\xc5\x83\x8e\xd1\x59\x53\xf9\x2c\x51\x91\xa0\x7c\xdf\x51\x34",
        ),
        (
            b"MUNGE:AwQDAAAQERITFBUWFxgZGhscHR4fCE4t/ZTqc1QKKO1mR2d3gquBUZgGcHyRezBLmvykxtV+j48Bm+QmQShZ909+mBmIuGO0jU2ciyWCcGmnuCpJQgRnkWc=:",
            Cipher::Aes128,
            MacKind::Sha1,
            b"\x08\x4e\x2d\xfd\x94\xea\x73\x54\x0a\x28\xed\x66\x47\x67\x77\x82\xab\x81\x51\x98",
        ),
        (
            b"MUNGE:AwQFAAAQERITFBUWFxgZGhscHR4feNWQgAuF5SYT667PK3l1H7FlYlzs2fWrTSdqOKzYo9DUptl3Bb1yNZ8cnamHm3lhAk1HyYe0F7oPc4Djy/fZbIImAFBUKbCUNY9zKPgH97E=:",
            Cipher::Aes128,
            MacKind::Sha256,
            b"\x78\xd5\x90\x80\x0b\x85\xe5\x26\x13\xeb\xae\xcf\x2b\x79\x75\x1f\xb1\x65\x62\x5c\xec\xd9\xf5\xab\x4d\x27\x6a\x38\xac\xd8\xa3\xd0",
        ),
        (
            b"MUNGE:AwQGAAAQERITFBUWFxgZGhscHR4fG5rd/rEWD2Po6NFTzkmmtiVHEDmTNgYsmWUQO1qSB4f/3t2chMgnH2imE2zruNG2qoagB+lZS6h+iryiPtvZgC8xNWDi85jrDWyhcLSTF3J15Or0GelbQ0UrHwJnrkVHVUMykHpFN4ZvCgzMx3pIfg==:",
            Cipher::Aes128,
            MacKind::Sha512,
            b"\x1b\x9a\xdd\xfe\xb1\x16\x0f\x63\xe8\xe8\xd1\x53\xce\x49\xa6\xb6\x25\x47\x10\x39\x93\x36\x06\x2c\x99\x65\x10\x3b\x5a\x92\x07\x87\xff\xde\xdd\x9c\x84\xc8\x27\x1f\x68\xa6\x13\x6c\xeb\xb8\xd1\xb6\xaa\x86\xa0\x07\xe9\x59\x4b\xa8\x7e\x8a\xbc\xa2\x3e\xdb\xd9\x80",
        ),
        (
            b"MUNGE:AwUFAAAQERITFBUWFxgZGhscHR4fgAZyhm0FJHVncjKiqql6enmtWVvuSveiTTIVSzUWkPxBjBhKgcTbFrm0XR7HhfUz2GSmzkV4YE7iwABAJz2IAe/1C4+gXvkxwe8NOIw3ByM=:",
            Cipher::Aes256,
            MacKind::Sha256,
            b"\x80\x06\x72\x86\x6d\x05\x24\x75\x67\x72\x32\xa2\xaa\xa9\x7a\x7a\x79\xad\x59\x5b\xee\x4a\xf7\xa2\x4d\x32\x15\x4b\x35\x16\x90\xfc",
        ),
        (
            b"MUNGE:AwUGAAAQERITFBUWFxgZGhscHR4fl8rSh1yqzE+Phjfm8QX6bhHxB3c0bssR5vAs97Z3bVIntt89JXo5e8uUAn7tE87lCBcI8/wg/HavB9FZ82dmnuWJJEVULn5PD5iDmm2+J/E22XEuHA11df18nXyzssWXZKbt9uu31yh5l+dWCiniOg==:",
            Cipher::Aes256,
            MacKind::Sha512,
            b"\x97\xca\xd2\x87\x5c\xaa\xcc\x4f\x8f\x86\x37\xe6\xf1\x05\xfa\x6e\x11\xf1\x07\x77\x34\x6e\xcb\x11\xe6\xf0\x2c\xf7\xb6\x77\x6d\x52\x27\xb6\xdf\x3d\x25\x7a\x39\x7b\xcb\x94\x02\x7e\xed\x13\xce\xe5\x08\x17\x08\xf3\xfc\x20\xfc\x76\xaf\x07\xd1\x59\xf3\x67\x66\x9e",
        ),
    ];
    for (text, cipher, kind, mac) in table {
        assert_opens(&rt, rt.alloc(), text, cipher, kind, mac)?;
    }
    Ok(())
}

#[test]
fn paddings(rt: HostRuntime) -> Result<(), Fail> {
    // a last byte of 2 behind 0 and behind 3, one of 0, of 17 and of 18, each under the right MAC
    let table: [&[u8]; 5] = [
        b"MUNGE:AwQFAAAQERITFBUWFxgZGhscHR4feNWQgAuF5SYT667PK3l1H7FlYlzs2fWrTSdqOKzYo9DUptl3Bb1yNZ8cnamHm3lhAk1HyYe0F7oPc4Djy/fZbHdKWKIllcNwxEaO029rT4g=:",
        b"MUNGE:AwQFAAAQERITFBUWFxgZGhscHR4feNWQgAuF5SYT667PK3l1H7FlYlzs2fWrTSdqOKzYo9DUptl3Bb1yNZ8cnamHm3lhAk1HyYe0F7oPc4Djy/fZbLcOlPfWJ9AyBsTZvji9GNI=:",
        b"MUNGE:AwQFAAAQERITFBUWFxgZGhscHR4feNWQgAuF5SYT667PK3l1H7FlYlzs2fWrTSdqOKzYo9DUptl3Bb1yNZ8cnamHm3lhAk1HyYe0F7oPc4Djy/fZbMCBliqvv4wkfykwuYOT8Ck=:",
        b"MUNGE:AwQFAAAQERITFBUWFxgZGhscHR4feNWQgAuF5SYT667PK3l1H7FlYlzs2fWrTSdqOKzYo9DUptl3Bb1yNZ8cnamHm3lhAk1HyYe0F7oPc4Djy/fZbK23eyPjAV0a2/Awv88e27I=:",
        b"MUNGE:AwQFAAAQERITFBUWFxgZGhscHR4feNWQgAuF5SYT667PK3l1H7FlYlzs2fWrTSdqOKzYo9DUptl3Bb1yNZ8cnamHm3lhAk1HyYe0F7oPc4Djy/fZbG6G64/Xdmu3mqoG4DxFoqAeQJT4O1d9WObJpys+480/:",
    ];
    for text in table {
        assert_refused(&rt, rt.alloc(), text, 8, 14)?;
    }
    // an inner part of 48 bytes, behind which a whole block is padding
    let opened = opened(
        rt.alloc(),
        b"MUNGE:AwQFAAAQERITFBUWFxgZGhscHR4fXieRUp/Dp77kuCUGhXMhnesSK/xtoesSCuE2j7iF292UmcHNEAp0HG+7l1ndWEEgM76FsIuTUhK1WnxZyylt4uVfW3BR+vS7eHQU5hpmCkoAIofXvoO7jbSedMCcuJ+3:",
    )?;
    assert_eq!(rt; opened.inner().payload, b"7 bytes".as_slice());
    Ok(())
}

#[test]
fn bodies_with_and_without_room_for_the_mac(rt: HostRuntime) -> Result<(), Fail> {
    let table = [
        (3, 24, 7, 8),
        (3, 25, 8, 14),
        (5, 36, 7, 8),
        (5, 37, 8, 14),
        (6, 68, 7, 8),
        (6, 69, 8, 14),
    ];
    for (number, size, rule, status) in table {
        let mut body = vec![in rt.alloc(); 0; size]?;
        assert!(rt; 5 <= body.len());
        body[0] = 3;
        body[2] = number;
        assert_refused(&rt, rt.alloc(), &armored(rt.alloc(), &body)?, rule, status)?;
    }
    Ok(())
}

#[test]
fn altered_credentials(rt: HostRuntime) -> Result<(), Fail> {
    let alloc = rt.alloc();
    let mut inner = Vec::from_slice(alloc, HEAD)?;
    inner.extend_from_slice(b"hello")?;
    assert_eq!(rt; sealed(alloc, &inner)?.as_slice(), CREDENTIAL);
    let mut body = STANDARD.decode(alloc, &CREDENTIAL[6..CREDENTIAL.len() - 1])?;
    for place in [5, 36, 37, 82] {
        let mut changed = body.clone()?;
        assert!(rt; place < changed.len());
        changed[place] ^= 1;
        assert_refused(&rt, alloc, &armored(alloc, &changed)?, 8, 14)?;
    }
    body.truncate(82);
    assert_refused(&rt, alloc, &armored(alloc, &body)?, 8, 14)?;
    inner.push(0)?;
    assert_refused(&rt, alloc, &sealed(alloc, &inner)?, 9, 8)?;
    assert_refused(&rt, alloc, &sealed(alloc, HEAD)?, 9, 8)?;
    Ok(())
}

/// Two in a row inside one buffer that is longer than either.
#[test]
fn opened_inside_a_longer_buffer(rt: HostRuntime) -> Result<(), Fail> {
    let subkeys = Subkeys::of(&KEY)?;
    let mut work = vec![in rt.alloc(); 255u8; 500]?;
    let usual = open_in(&subkeys, &mut work, USUAL)?;
    assert_eq!(rt;
        (usual.cipher(), usual.kind()),
        (Cipher::Aes128, MacKind::Sha256)
    );
    assert_eq!(rt; usual.inner().payload, b"hello".as_slice());
    let plain = open_in(&subkeys, &mut work, CREDENTIAL)?;
    assert_eq!(rt;
        (plain.cipher(), plain.kind()),
        (Cipher::None, MacKind::Sha256)
    );
    assert_eq!(rt; plain.inner().payload, b"hello".as_slice());
    Ok(())
}

#[test]
fn opened_inside_a_buffer(rt: HostRuntime) -> Result<(), Fail> {
    let subkeys = Subkeys::of(&KEY)?;
    for text in [CREDENTIAL, USUAL] {
        let opened = opened(rt.alloc(), text)?;
        let mut work = vec![in rt.alloc(); 255u8; text.len()]?;
        let Ok(inside) = open_in(&subkeys, &mut work, text) else {
            assert!(rt; false, "refused: {text:?}");
            return Ok(());
        };
        assert_eq!(rt; inside.cipher(), opened.cipher());
        assert_eq!(rt; inside.kind(), opened.kind());
        assert_eq!(rt; inside.inner(), opened.inner());
        assert_eq!(rt; inside.pair(3600), opened.pair(3600));
    }
    Ok(())
}
