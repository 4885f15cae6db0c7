//! Bodies by worked values. Those of one head alone are the base64 of the texts beside them.

use crate::{OuterRefused, outer_head, read_outer, write_outer};
use munge_types::{Cipher, MacKind, Room};
use std::alloc::Global;
use std::process::Abort;
use std::test::Fail;

/// The body is refused by this rule with this status.
fn assert_refused(rt: &impl Abort, body: &[u8], rule: u8, status: u8) {
    let Err(broken) = read_outer(body) else {
        assert!(rt; false, "taken apart: {body:?}");
        return;
    };
    assert_eq!(rt; broken.rule.number(), rule, "the rule of {body:?}");
    assert_eq!(rt; broken.status.number(), status, "the status of {body:?}");
}

/// A body of this size that begins with this head.
fn body_of(alloc: Global, head: [u8; 5], size: usize) -> Result<Vec<u8>, Fail> {
    let mut body = Vec::from_slice(alloc, &head)?;
    body.resize(size, 7)?;
    Ok(body)
}

#[test]
fn bodies_that_break_a_rule(rt: HostRuntime) {
    let table: [(&[u8], u8, u8); 18] = [
        (b"", 2, 8),
        (b"\x00", 2, 9),
        (b"\x04\x00\x05\x00\x00", 2, 9),
        (b"\x03", 3, 8),
        (b"\x03\x04\x05\x00", 3, 8),
        // AwMFAAA= and AwIFAAA=
        (b"\x03\x03\x05\x00\x00", 3, 10),
        (b"\x03\x02\x05\x00\x00", 3, 10),
        (b"\x03\x01\x05\x00\x00", 3, 10),
        (b"\x03\x06\x05\x00\x00", 3, 10),
        // AwUDAAA=
        (b"\x03\x05\x03\x00\x00", 4, 11),
        (b"\x03\x04\x02\x00\x00", 4, 11),
        (b"\x03\x04\x04\x00\x00", 4, 11),
        (b"\x03\x04\x07\x00\x00", 4, 11),
        // AwQFAgA=, AwQFAAE= and AwQFAAA=
        (b"\x03\x04\x05\x02\x00", 5, 12),
        (b"\x03\x04\x05\x00\x01", 6, 13),
        (b"\x03\x04\x05\x00\x00", 7, 8),
        // AwADAAA= and AwAFAAA=
        (b"\x03\x00\x03\x00\x00", 7, 8),
        (b"\x03\x00\x05\x00\x00", 7, 8),
    ];
    for (body, rule, status) in table {
        assert_refused(&rt, body, rule, status);
    }
}

#[test]
fn sizes_of_bodies(rt: HostRuntime) -> Result<(), Fail> {
    // for each cipher and MAC the bytes before the sealed part
    let table = [
        (0, 3, 25),
        (0, 5, 37),
        (0, 6, 69),
        (4, 3, 41),
        (4, 5, 53),
        (4, 6, 85),
        (5, 5, 53),
        (5, 6, 85),
    ];
    for (cipher, kind, before) in table {
        for (more, taken) in [(0, false), (15, false), (16, true), (17, false), (32, true)] {
            let body = body_of(rt.alloc(), [3, cipher, kind, 0, 0], before + more)?;
            let Ok(outer) = read_outer(&body) else {
                assert!(rt; !taken && cipher != 0);
                assert_refused(&rt, &body, 7, 8);
                continue;
            };
            assert!(rt; taken || cipher == 0);
            assert_eq!(rt; outer.rest.len(), more);
            assert_eq!(rt; outer.front.len() + outer.mac.len(), before);
        }
        let short = body_of(rt.alloc(), [3, cipher, kind, 0, 0], before - 1)?;
        assert_refused(&rt, &short, 7, 8);
    }
    Ok(())
}

#[test]
fn parts_of_a_body(rt: HostRuntime) {
    let body = b"\x03\x04\x03\x00\x00vector 16 bytes.MAC of twenty bytes.16 sealed bytes.";
    let Ok(outer) = read_outer(body) else {
        assert!(rt; false, "refused");
        return;
    };
    assert_eq!(rt; (outer.cipher, outer.kind), (Cipher::Aes128, MacKind::Sha1));
    assert_eq!(rt;
        outer.front,
        b"\x03\x04\x03\x00\x00vector 16 bytes.".as_slice()
    );
    assert_eq!(rt; outer.realm, b"".as_slice());
    assert_eq!(rt; outer.iv, b"vector 16 bytes.".as_slice());
    assert_eq!(rt; outer.mac, b"MAC of twenty bytes.".as_slice());
    assert_eq!(rt; outer.rest, b"16 sealed bytes.".as_slice());
}

#[test]
fn outer_parts_are_written(rt: HostRuntime) -> Result<(), Fail> {
    let table: [(Cipher, MacKind, &[u8]); 3] = [
        (Cipher::None, MacKind::Sha1, b"\x03\x00\x03\x00\x00"),
        (
            Cipher::Aes128,
            MacKind::Sha256,
            b"\x03\x04\x05\x00\x00vector 16 bytes.",
        ),
        (
            Cipher::Aes256,
            MacKind::Sha512,
            b"\x03\x05\x06\x00\x00vector 16 bytes.",
        ),
    ];
    for (cipher, kind, written) in table {
        assert_eq!(rt; outer_head(cipher, kind).as_slice(), &written[..5]);
        let mut out = Room::new(rt.alloc(), 21)?;
        write_outer(&mut out, cipher, kind, b"vector 16 bytes.");
        assert_eq!(rt; out.finish().as_slice(), written);
    }
    Ok(())
}

#[test]
fn a_broken_rule_is_printed(rt: HostRuntime) -> Result<(), Fail> {
    let Err(broken) = read_outer(b"\x03\x04\x05\x00\x01") else {
        assert!(rt; false, "taken apart");
        return Ok(());
    };
    let text = format!(in rt.alloc(); "{broken}")?;
    assert_eq!(rt; text.as_str(), "decode rule 6 does not hold: status 13");
    Ok(())
}
