//! Worked files. Who is a member, and which line is the first bad one, was worked out by hand from
//! the files' formats, and again by a program in Python that goes through all pairs of lines.

use crate::{GroupMap, MapRefused};
use std::process::Abort;
use std::test::Fail;

const PASSWD: &[u8] = b"# users\n\
    root:x:0:0:root:/root:/bin/sh\n\
    \n\
    ann:x:7:7:::\n\
    aunt:*:7:8:the same: UID:\n\
    an::0000000008:0::/:\n\
    #bob:x:9:9:::\n\
    bob:x:10:10:::\n\
    :::::::\n";

/// The same without its last line, which is bad.
fn passwd() -> &'static [u8] {
    &PASSWD[..PASSWD.len() - 8]
}

const GROUP: &[u8] = b"ops:x:50:bob,ann\n\
    more_ops:x:50:,an,,\n\
    nobody:x:51:\n\
    old::52:aunt\n\
    #ops:x:53:ann\n\
    twins:x:054:carl,ann,aunt\n\
    last:x:4294967295:an";

#[test]
fn members_of_groups(rt: HostRuntime) -> Result<(), Fail> {
    let map = GroupMap::read(rt.alloc(), passwd(), GROUP)?;
    let table: [(u32, u32, bool); 16] = [
        (7, 50, true),
        (8, 50, true),
        (10, 50, true),
        (9, 50, false),
        (0, 50, false),
        (7, 7, false),
        (7, 51, false),
        (7, 52, true),
        (8, 52, false),
        (7, 53, false),
        (7, 54, true),
        (10, 54, false),
        (8, 4_294_967_295, true),
        (7, 4_294_967_295, false),
        (4_294_967_295, 50, false),
        (0, 0, false),
    ];
    for (uid, gid, is_member) in table {
        assert_eq!(rt; map.member(uid, gid), is_member, "{uid} in {gid}");
    }
    Ok(())
}

/// The two files give a map, or this refusal.
fn assert_read(
    rt: &(impl Abort + AllocGlobal),
    passwd: &[u8],
    group: &[u8],
    refused: Option<MapRefused>,
) {
    let read = GroupMap::read(rt.alloc(), passwd, group).err();
    assert_eq!(rt; read, refused, "{passwd:?} and {group:?}");
}

#[test]
fn first_bad_passwd_lines(rt: HostRuntime) {
    let table: [(&[u8], Option<u64>); 20] = [
        (PASSWD, Some(9)),
        (b"", None),
        (b"\n\n", None),
        (b"#\n# \n#:::", None),
        (b"a:::0:::", Some(1)),
        (b"a::0::::", Some(1)),
        (b"a::0:0::", Some(1)),
        (b"a::0:0::::", Some(1)),
        (b"::0:0:::", Some(1)),
        (b"a::4294967295:4294967295:::", None),
        (b"a::4294967296:0:::", Some(1)),
        (b"a::0:4294967296:::", Some(1)),
        (b"a::00000000000:0:::", Some(1)),
        (b"a::+1:0:::", Some(1)),
        (b"a::-1:0:::", Some(1)),
        (b"a:: 1:0:::", Some(1)),
        (b"a::1a:0:::", Some(1)),
        (b"#\n\na::1:1:::\nb\nc\n", Some(4)),
        (b"\xff\x00 a::1:1:\r:\r:\r\n", None),
        (b" \n", Some(1)),
    ];
    for (passwd, line) in table {
        assert_read(&rt, passwd, b"ops:x:50:", line.map(MapRefused::Passwd));
    }
}

#[test]
fn first_bad_group_lines(rt: HostRuntime) {
    let table: [(&[u8], &[u8], Option<MapRefused>); 12] = [
        (b"", b"", None),
        (b"", b"ops:x:50", Some(MapRefused::Group(1))),
        (b"", b"ops:x:50:a:b", Some(MapRefused::Group(1))),
        (b"", b"ops:x::a", Some(MapRefused::Group(1))),
        (b"", b":x:50:a", Some(MapRefused::Group(1))),
        (b"", b"ops::50:", None),
        (b"", b"ops::50:,a b,\xff,,", None),
        (b"", b"ops:x:4294967296:a", Some(MapRefused::Group(1))),
        (b"", b"ops:x:00000000050:a", Some(MapRefused::Group(1))),
        (
            b"",
            b"\n#\nops:x:50:a\nops\nops",
            Some(MapRefused::Group(4)),
        ),
        (b"a::0:0:::\nb", b"ops", Some(MapRefused::Passwd(2))),
        (b"a::0:0:::\n", b"ops", Some(MapRefused::Group(1))),
    ];
    for (passwd, group, refused) in table {
        assert_read(&rt, passwd, group, refused);
    }
}

#[test]
fn refusals_are_shown(rt: HostRuntime) -> Result<(), Fail> {
    let table = [
        (MapRefused::Passwd(3), "bad passwd line 3"),
        (MapRefused::Group(12), "bad group line 12"),
        (MapRefused::NoMemory, "no memory"),
    ];
    for (refused, shown) in table {
        assert_eq!(rt; format!(in rt.alloc(); "{refused}")?.as_str(), shown);
    }
    Ok(())
}

fn crosses_threads<T: Send + Sync + Drop>(_: &T) {}

/// A restriction to the GID 50, looked up with the group file and with an empty one.
#[test]
fn maps_cross_threads(rt: HostRuntime) -> Result<(), Fail> {
    let map = GroupMap::read(rt.alloc(), b"ann:x:7:7:::", b"ops:x:50:bob,ann")?;
    assert!(rt; map.member(7, 50));
    crosses_threads(&map);
    let without = GroupMap::read(rt.alloc(), b"ann:x:7:7:::", b"")?;
    assert!(rt; !without.member(7, 50));
    let none = GroupMap::none();
    assert!(rt; !none.member(7, 50));
    crosses_threads(&none);
    Ok(())
}
