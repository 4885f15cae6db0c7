//! How the program ends, and the files that it reads, by worked values over memory.

use crate::{Ending, check_maps, end, read_key, read_maps, read_seed, read_seeds};
use byte_io::{MemFiles, MemSink, NamedFile};
use option_file::{Key, OptionRefused};
use std::alloc::{AllocError, Global};
use std::test::Fail;

const PASSWD: &[u8] = b"ann:x:7:7:::\n";

const GROUP: &[u8] = b"ops:x:50:bob,ann\n";

/// Files in memory with these names and bytes.
fn files_of(alloc: Global, named: &[(&str, &[u8])]) -> Result<MemFiles, AllocError> {
    let mut files = Vec::new(alloc);
    for (name, bytes) in named {
        files.push(NamedFile {
            name: String::from_str(alloc, name)?,
            bytes: Vec::from_slice(alloc, bytes)?,
        })?;
    }
    Ok(MemFiles::new(files, Vec::new(alloc)))
}

/// The bytes from 0 on.
fn counted() -> [u8; 65] {
    std::array::from_fn(|at| at as u8)
}

#[test]
fn each_end_has_its_status_and_its_line(rt: HostRuntime) -> Result<(), Fail> {
    let table: [(Ending, u8, &str); 17] = [
        (Ending::Done, 0, ""),
        (Ending::NoCommand, 1, "munged: bad words\n"),
        (Ending::Unread("a"), 2, "munged: cannot read a\n"),
        (Ending::WrongSize("k", 31), 3, "munged: k has 31 bytes\n"),
        (Ending::BadLine("p", 2), 4, "munged: p: bad line 2\n"),
        (Ending::TooLong("g", 17), 4, "munged: g: too long 17\n"),
        (Ending::NoControl, 4, "munged: no control socket\n"),
        (Ending::InputFailed, 5, "munged: input failed\n"),
        (Ending::OutputFailed, 6, "munged: output failed\n"),
        (Ending::ClockFailed, 7, "munged: clock failed\n"),
        (Ending::Malformed(18), 9, "munged: malformed frame at 18\n"),
        (Ending::Unanswered, 9, "munged: no answer to stop\n"),
        (Ending::NoMemory, 10, "munged: no memory\n"),
        (Ending::Budget, 11, "munged: 1048576 requests answered\n"),
        (Ending::SocketFailed, 12, "munged: socket failed\n"),
        (Ending::TickerFailed, 13, "munged: ticker failed\n"),
        (
            Ending::Worn(1 << 40),
            14,
            "munged: gate worn at 1099511627776\n",
        ),
    ];
    for (ending, status, line) in table {
        let mut err = MemSink::new(rt.alloc(), Vec::new(rt.alloc()));
        assert_eq!(rt; end(&mut err, ending), status, "the status of {line}");
        assert_eq!(rt; err.taken(), line.as_bytes(), "the line {line}");
    }
    // A write of the line fails: its second part is the number.
    let mut err = MemSink::new(rt.alloc(), vec![in rt.alloc(); 2]?);
    assert_eq!(rt; end(&mut err, Ending::Malformed(18)), 9);
    assert_eq!(rt; err.taken(), b"munged: malformed frame at ".as_slice());
    Ok(())
}

#[test]
fn refused_option_file_has_its_status_and_its_line(rt: HostRuntime) -> Result<(), Fail> {
    let table: [(OptionRefused, u8, &str); 7] = [
        (OptionRefused::TooLong(65_537), 4, "options: too long 65537"),
        (OptionRefused::NotToml, 4, "options: not toml"),
        (
            OptionRefused::Missing(Key::SocketUid),
            4,
            "options: missing socket.uid",
        ),
        (OptionRefused::Wrong(Key::KeyFile), 4, "options: wrong key"),
        (
            OptionRefused::Range(Key::Skew, -1),
            4,
            "options: skew out of range -1",
        ),
        (
            OptionRefused::Twice(1),
            4,
            "options: socket 1 has an earlier path",
        ),
        (OptionRefused::NoMemory, 10, "no memory"),
    ];
    for (refused, status, said) in &table {
        let mut line = String::from_str(rt.alloc(), "munged: ")?;
        line.push_str(said)?;
        line.push_str("\n")?;
        let mut err = MemSink::new(rt.alloc(), Vec::new(rt.alloc()));
        assert_eq!(rt;
            end(&mut err, Ending::by(refused)),
            *status,
            "the status of {said}"
        );
        assert_eq!(rt; err.taken(), line.as_bytes(), "the line of {said}");
    }
    Ok(())
}

#[test]
fn key_file_has_32_to_1024_bytes(rt: HostRuntime) -> Result<(), Fail> {
    // The bytes of the key file, and how the program ends if they are no key.
    let table = [
        (31, Some(Ending::WrongSize("key", 31))),
        (32, None),
        (1024, None),
        (1025, Some(Ending::WrongSize("key", 1025))),
        (1026, Some(Ending::WrongSize("key", 1025))),
    ];
    for (size, want) in table {
        let key = vec![in rt.alloc(); 7; size]?;
        let mut files = files_of(rt.alloc(), &[("key", &key)])?;
        let got = read_key(rt.alloc(), &mut files, "key");
        assert_eq!(rt; got.err(), want, "{size} bytes");
        let got = read_key(rt.alloc(), &mut files, "ke");
        assert_eq!(rt; got.err(), Some(Ending::Unread("ke")), "{size} bytes");
    }
    Ok(())
}

#[test]
fn seed_is_the_first_32_bytes(rt: HostRuntime) -> Result<(), Fail> {
    // The bytes of the seed file, and how the program ends if they are too few.
    let table = [
        (0, Some(Ending::WrongSize("seed", 0))),
        (31, Some(Ending::WrongSize("seed", 31))),
        (32, None),
        (33, None),
    ];
    let bytes = counted();
    for (size, want) in table {
        let mut files = files_of(rt.alloc(), &[("seed", &bytes[..size])])?;
        match (read_seed(rt.alloc(), &mut files, Some("seed")), want) {
            (Ok(got), None) => assert_eq!(rt; got, bytes.first_chunk().copied(), "{size} bytes"),
            (got, want) => assert_eq!(rt; got.err(), want, "{size} bytes"),
        }
        assert_eq!(rt;
            read_seed(rt.alloc(), &mut files, None),
            Ok(None),
            "{size} bytes"
        );
    }
    Ok(())
}

#[test]
fn seeds_of_workers_stand_one_behind_the_other(rt: HostRuntime) -> Result<(), Fail> {
    // The bytes of the seed file, the workers, and how the program ends if there are too few.
    let table = [
        (64, 2, None),
        (65, 2, None),
        (63, 2, Some(Ending::WrongSize("seed", 63))),
        (31, 1, Some(Ending::WrongSize("seed", 31))),
        (65, 0, None),
    ];
    let bytes = counted();
    for (size, workers, want) in table {
        let mut files = files_of(rt.alloc(), &[("seed", &bytes[..size])])?;
        match (read_seeds(rt.alloc(), &mut files, "seed", workers), want) {
            (Ok(got), None) => {
                let got = got.as_slice().as_flattened();
                assert_eq!(rt; got, &bytes[..32 * workers as usize], "{size} bytes");
            }
            (got, want) => assert_eq!(rt; got.err(), want, "{size} bytes"),
        }
    }
    Ok(())
}

#[test]
fn map_is_that_of_the_files_that_are_named(rt: HostRuntime) -> Result<(), Fail> {
    let mut files = files_of(rt.alloc(), &[("passwd", PASSWD), ("group", GROUP)])?;
    // The passwd file, the group file, and whether UID 7 is a member of GID 50.
    for (passwd, group, want) in [
        (Some("passwd"), Some("group"), true),
        (Some("passwd"), None, false),
        (None, Some("group"), false),
        (None, None, false),
    ] {
        match read_maps(rt.alloc(), &mut files, passwd, group) {
            Ok(map) => assert_eq!(rt; map.member(7, 50), want),
            Err(ending) => panic!(rt; "{ending:?}"),
        }
        assert_eq!(rt; check_maps(rt.alloc(), &mut files, passwd, group), Ok(()));
    }
    Ok(())
}

#[test]
fn first_file_that_is_refused_is_told(rt: HostRuntime) -> Result<(), Fail> {
    let named = [
        ("passwd", PASSWD),
        ("bob", b"ann:x:7:7:::\nbob\n"),
        ("ops", b"#\n\nops:x:50\n"),
    ];
    let mut files = files_of(rt.alloc(), &named)?;
    // The passwd file, the group file, and how the program ends.
    for (passwd, group, want) in [
        ("bob", "none", Ending::BadLine("bob", 2)),
        ("passwd", "ops", Ending::BadLine("ops", 3)),
        ("none", "ops", Ending::Unread("none")),
        ("passwd", "none", Ending::Unread("none")),
    ] {
        let got = read_maps(rt.alloc(), &mut files, Some(passwd), Some(group));
        assert_eq!(rt; got.err(), Some(want));
        let got = check_maps(rt.alloc(), &mut files, Some(passwd), Some(group));
        assert_eq!(rt; got, Err(want));
    }
    Ok(())
}
