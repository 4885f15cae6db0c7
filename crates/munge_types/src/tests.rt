//! Worked values.

ghost use Rattle.std.specs.Prelude.{◌≡◌, ◌+◌, ◌≤◌, ◌++◌, length};

use super::*;
use std::cmp::Ordering;
use std::collections::HashSet;
use std::hash::{DefaultHasher, Hash, Hasher};
use std::test::Fail;

#[test]
fn numbers_are_those_of_munge(rt: HostRuntime) {
    for (number, cipher) in [
        (0, Some(Cipher::None)),
        (1, None),
        (4, Some(Cipher::Aes128)),
        (5, Some(Cipher::Aes256)),
        (255, None),
    ] {
        assert_eq!(rt; Cipher::of(number), cipher, "cipher {number}");
    }
    for (number, kind, size) in [
        (3, MacKind::Sha1, 20),
        (5, MacKind::Sha256, 32),
        (6, MacKind::Sha512, 64),
    ] {
        assert_eq!(rt; MacKind::of(number), Some(kind), "MAC {number}");
        assert_eq!(rt; (kind.number(), kind.size()), (number, size));
    }
    assert_eq!(rt; MacKind::of(4), None);
    for (number, status) in [
        (0, Some(Status::Success)),
        (2, Some(Status::BadArgument)),
        (8, Some(Status::BadCredential)),
        (14, Some(Status::Invalid)),
        (15, Some(Status::Expired)),
        (16, Some(Status::Rewound)),
        (17, Some(Status::Replayed)),
        (18, Some(Status::Unauthorized)),
        (19, None),
    ] {
        assert_eq!(rt; Status::of(number), status, "status {number}");
    }
}

#[test]
fn rules_and_settings_keep_their_ranges(rt: HostRuntime) {
    for (number, found) in [(0, None), (1, Some(1)), (14, Some(14)), (15, None)] {
        assert_eq!(rt;
            Rule::of(number).map(|rule| rule.number()),
            found,
            "rule {number}"
        );
    }
    assert_eq!(rt;
        Settings::of(300, 3600, 300, [0; 4]),
        Some(Settings::usual())
    );
    for (default_ttl, max_ttl, skew, kept) in [
        (1, 1, 0, true),
        (0, 1, 0, false),
        (2, 1, 0, false),
        (1, 3600, 300, true),
        (1, 3601, 0, false),
        (1, 1, 301, false),
    ] {
        let settings = Settings::of(default_ttl, max_ttl, skew, [10, 0, 0, 1]);
        assert_eq!(rt; settings.is_some(), kept, "{default_ttl} {max_ttl} {skew}");
    }
}

fn hash_of<T: Hash>(value: &T) -> u64 {
    let mut state = DefaultHasher::new();
    value.hash(&mut state);
    state.finish()
}

#[test]
fn macs_compare_as_their_bytes(rt: HostRuntime) {
    let lists: [&[u8]; 6] = [&[], &[0], &[0, 0], &[0, 1], &[1], &[1; 64]];
    for (i, left) in lists.iter().enumerate() {
        let mac = MacBytes::of(left);
        assert_eq!(rt; mac.bytes(), *left);
        assert_eq!(rt; hash_of(&mac), hash_of(left));
        for (j, right) in lists.iter().enumerate() {
            let other = MacBytes::of(right);
            assert_eq!(rt; mac.cmp(&other), i.cmp(&j), "{i} and {j}");
            assert_eq!(rt; mac == other, i == j, "{i} and {j}");
        }
    }
}

#[test]
fn pairs_are_ordered_by_expiry_first(rt: HostRuntime) -> Result<(), Fail> {
    let pair = |expiry: u64, byte: u8| Pair {
        expiry,
        mac: MacBytes::of(&[byte]),
    };
    let mut pairs = vec![in rt.alloc(); pair(300, 9), pair(5, 7), pair(300, 1)]?;
    pairs.sort()?;
    assert_eq!(rt;
        pairs.as_slice(),
        [pair(5, 7), pair(300, 1), pair(300, 9)].as_slice()
    );
    let mut set = HashSet::new(rt.alloc());
    set.insert(pair(5, 7))?;
    assert!(rt; set.contains(&pair(5, 7)));
    assert!(rt; !set.contains(&pair(7, 5)));
    assert_eq!(rt; pair(5, 7).cmp(&pair(5, 8)), Ordering::Less);
    Ok(())
}

#[test]
fn a_room_takes_what_it_was_made_for(rt: HostRuntime) -> Result<(), Fail> {
    let mut room = Room::new(rt.alloc(), 5)?;
    room.put(b"MUN");
    room.put(b"");
    room.put(b"GE");
    let bytes = room.finish();
    assert_eq!(rt; bytes.as_slice(), b"MUNGE".as_slice());
    let empty = Room::new(rt.alloc(), 0)?.finish();
    assert_eq!(rt; empty.len(), 0);
    Ok(())
}

#[test]
fn a_room_over_a_buffer_begins_empty(rt: HostRuntime) -> Result<(), Fail> {
    let used = Vec::from_slice(rt.alloc(), b"of the one before")?;
    let mut room = Room::over(used, 5)?;
    assert_eq!(rt; room.filled(), 0);
    room.put(b"MUN");
    assert_eq!(rt; room.filled(), 3);
    room.put(b"GE");
    assert_eq!(rt; room.filled(), 5);
    let mut longer = Room::over(room.finish(), 11)?;
    longer.put(b"MUNGE:Zg==:");
    let bytes = longer.finish();
    assert_eq!(rt; bytes.as_slice(), b"MUNGE:Zg==:".as_slice());
    Ok(())
}

/// Puts both parts into whatever takes them.
fn put_both<P: Put>(to: &mut P, first: &[u8], second: &[u8])
    requires { length first.now + length second.now ≤ P.spare to.old }
    ensures taken { P.taken to.new ≡ P.taken to.old ++ first.now ++ second.now }
    ensures base { P.base to.new ≡ P.base to.old }
{
    to.put(first);
    to.put(second);
}

#[test]
fn a_room_takes_parts_as_any_taker_does(rt: HostRuntime) -> Result<(), Fail> {
    let mut room = Room::new(rt.alloc(), 11)?;
    room.put(b"MUNGE:");
    put_both(&mut room, b"Zg", b"==:");
    let bytes = room.finish();
    assert_eq!(rt; bytes.as_slice(), b"MUNGE:Zg==:".as_slice());
    Ok(())
}

fn crosses_threads<T: Send + Sync>(_: &T) {}

#[test]
fn settings_cross_threads(_rt: HostRuntime) {
    crosses_threads(&Settings::usual());
    crosses_threads(&MacBytes::of(&[7]));
}
