//! Loads of two numbers. Keys and texts are those of the repository's script of vectors,
//! `tools/vectors load`, which takes MACs from Python's `hmac` and ciphers from `cryptography`.

use crate::{Load, make};
use decode_rules::{Prepared, prepare};
use std::alloc::Global;
use std::process::Abort;
use std::test::Fail;
use subkeys::Subkeys;

/// A number each of whose bytes is another.
const COUNTING: u64 = 0x0102_0304_0506_0708;

/// The key of the load of 1.
const KEY_OF_ONE: [u8; 32] = [
    0x50, 0xb0, 0xa5, 0x4e, 0x6c, 0xc2, 0x14, 0x59, 0xc6, 0x06, 0xd6, 0x09, 0x46, 0xce, 0x6e, 0x2b,
    0x6c, 0xa3, 0xd6, 0x0d, 0xab, 0x6e, 0xfb, 0xa4, 0x90, 0x3e, 0xa1, 0x43, 0x28, 0x82, 0x3c, 0x4e,
];

/// Its first three credentials: without a cipher, with AES-128 and with AES-256.
const TEXTS_OF_ONE: [&[u8]; 3] = [
    b"MUNGE:AwAFAACrvduW/K9KoidKr7Yh96xM4UUXYV4sZCgx+pEuFlU2uEqSpH3xiPj/BAAAAAAAD0JAAAABLAAAA+gAAABk//////////8AAAAQEYsLB5YOLZVgtAoZwTcO3w==:",
    b"MUNGE:AwQFAABbeuPruMUQ1kKoXYNqNCCEPy3yTaZIiLf9YDsp5/135aLrHvyxCdvMUhfConFrKndP9A1H0VaNTyiOWeM28dLke0aX6z5G1FJCTi4F97Py5WkKVRjb+AAvPa7Kj/qxUtCPKBFVl3g/YlBIuSi6hKu7:",
    b"MUNGE:AwUFAAAH0wmbUkDqeTg+ML2GXwiieuREbQFwQ/YyJqWQlmkfNukjGHdVgQs6ahPnRBB/dF0RNUgy91jco+PQmkLMJC3Pf/XUUJA/qxiYTLrJouvXixX0fhotu9Gzu91a7y8e0JmUIkWmiXwh07JPX3Upoiqm:",
];

/// The key of the other load.
const KEY_OF_COUNTING: [u8; 32] = [
    0x6c, 0x95, 0x12, 0x96, 0xd5, 0x53, 0x75, 0x45, 0x5d, 0xe0, 0xbc, 0x47, 0xd0, 0xc8, 0x3b, 0xd8,
    0xf6, 0x32, 0x08, 0x27, 0x35, 0x60, 0x74, 0x68, 0x99, 0x60, 0xf1, 0x8d, 0x15, 0xda, 0xa1, 0x34,
];

/// Its credential 0, and its credential 11, which is that of the second caller again.
const FIRST_OF_COUNTING: &[u8] =
    b"MUNGE:AwAFAAC1xnZbRcUrSF62nv7iuR0cbawVMv0bXCzfqSS5/h+2ZyB+Rm5XeZ1QBAAAAAAAD0JAAAABLAAAA+gAAABk//////////8AAAAQ01M3MLlWbavPLO4UNoqPVw==:";

const LAST_OF_COUNTING: &[u8] =
    b"MUNGE:AwUFAACOwNL43QJFDitc530VYWhIi2lqU6AehUhHeVBzjEtHJXWkR8br9Gia6Vvwop2GQMMaOS2v/S4Wl6zCiYm0iYkvCb4BJ5O5reliIp0diLXzAIdZ+Kwap5nm4cMQYfdJnB3Fj9RVrPC5T+MFaKSD4VAH:";

/// The load's key is this one.
fn assert_keyed(rt: &impl Abort, load: &Load, key: &[u8; 32]) -> Result<(), Fail> {
    let subkeys = Subkeys::of(key)?;
    assert_eq!(rt; load.world.subkeys.mac_key(), subkeys.mac_key());
    Ok(())
}

/// The load has this text at this place.
fn assert_text(rt: &impl Abort, load: &Load, i: usize, text: &[u8]) -> Result<(), Fail> {
    let made = load.texts.get(i).ok_or("there is no such text")?;
    assert_eq!(rt; made.bytes(), text, "the text {i}");
    Ok(())
}

/// The load's text at this place opens where it is presented, and expires then.
fn assert_ready(
    rt: &impl Abort,
    alloc: Global,
    load: &Load,
    i: usize,
    expiry: u64,
) -> Result<(), Fail> {
    let text = load.texts.get(i).ok_or("there is no such text")?;
    let prepared = prepare(alloc, &load.world, load.who, load.moment, text.bytes())?;
    let Prepared::Ready(ready) = prepared else {
        panic!(rt; "the text {i} is refused");
    };
    assert_eq!(rt; ready.pair().expiry, expiry, "the expiry of the text {i}");
    Ok(())
}

#[test]
fn load_of_three(rt: HostRuntime) -> Result<(), Fail> {
    let load = make(rt.alloc(), 3, 1)?;
    assert_eq!(rt; load.texts.len(), 3);
    assert_keyed(&rt, &load, &KEY_OF_ONE)?;
    for (i, text) in TEXTS_OF_ONE.iter().enumerate() {
        assert_text(&rt, &load, i, text)?;
    }
    for (i, expiry) in [1_000_300, 1_000_100, 1_000_300].iter().enumerate() {
        assert_ready(&rt, rt.alloc(), &load, i, *expiry)?;
    }
    Ok(())
}

#[test]
fn load_of_a_number_of_eight_bytes(rt: HostRuntime) -> Result<(), Fail> {
    let load = make(rt.alloc(), 12, COUNTING)?;
    assert_eq!(rt; load.texts.len(), 12);
    assert_keyed(&rt, &load, &KEY_OF_COUNTING)?;
    assert_text(&rt, &load, 0, FIRST_OF_COUNTING)?;
    assert_text(&rt, &load, 11, LAST_OF_COUNTING)?;
    Ok(())
}

#[test]
fn loads_of_one_and_of_a_thousand(rt: HostRuntime) -> Result<(), Fail> {
    for n in [1, 1000] {
        let load = make(rt.alloc(), n, u64::MAX)?;
        assert_eq!(rt; load.texts.len(), n as usize);
    }
    Ok(())
}
