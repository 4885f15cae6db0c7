//! The forms in memory.

use crate::{
    Clock, Clocks, FileFail, Files, MemClock, MemClocks, MemFiles, MemSink, MemSource, NamedFile,
    Sink, Source,
};
use munge_types::Failed;
use std::test::Fail;

#[test]
fn source_gives_pieces_then_its_end(rt: HostRuntime) -> Result<(), Fail> {
    let bytes = b"abcde".to_vec(rt.alloc())?;
    let mut source = MemSource::new(bytes, 2, vec![in rt.alloc(); 2, 7]?);
    let mut given = Vec::new(rt.alloc());
    let mut into = [0u8; 4];
    let rows = [
        (0, Ok(0)),
        (4, Err(Failed)),
        (4, Ok(2)),
        (1, Ok(1)),
        (4, Ok(2)),
        (4, Ok(0)),
        (4, Err(Failed)),
        (4, Ok(0)),
    ];
    for (row, (room, want)) in rows.into_iter().enumerate() {
        let room = into.len().min(room);
        let got = source.read(&mut into[..room]);
        assert_eq!(rt; got, want, "in row {row}");
        if let Ok(n) = got {
            given.extend_from_slice(&into[..n])?;
        }
    }
    assert_eq!(rt; given.as_slice(), b"abcde".as_slice());
    Ok(())
}

#[test]
fn source_without_a_bound_fills_the_room(rt: HostRuntime) -> Result<(), Fail> {
    let bytes = b"abc".to_vec(rt.alloc())?;
    let mut source = MemSource::new(bytes, 0, Vec::new(rt.alloc()));
    let mut into = [0u8; 2];
    for want in [2, 1, 0] {
        assert_eq!(rt; source.read(&mut into), Ok(want));
    }
    Ok(())
}

#[test]
fn sink_keeps_what_it_took(rt: HostRuntime) -> Result<(), Fail> {
    let mut sink = MemSink::new(rt.alloc(), vec![in rt.alloc(); 2]?);
    let rows = [
        ("ab", Ok(2), "ab"),
        ("c", Err(Failed), "ab"),
        ("", Ok(0), "ab"),
        ("c", Ok(1), "abc"),
    ];
    for (bytes, want, taken) in rows {
        assert_eq!(rt; sink.write(bytes.as_bytes()), want, "writing {bytes}");
        assert_eq!(rt; sink.taken(), taken.as_bytes());
    }
    Ok(())
}

#[test]
fn clock_gives_its_readings_in_order(rt: HostRuntime) -> Result<(), Fail> {
    let mut clock = MemClock::new(vec![in rt.alloc(); 1000, 999]?, vec![in rt.alloc(); 2]?);
    for want in [Ok(1000), Err(Failed), Ok(999), Err(Failed), Err(Failed)] {
        assert_eq!(rt; clock.now(), want);
    }
    Ok(())
}

#[test]
fn clocks_are_given_in_order_and_then_without_readings(rt: HostRuntime) -> Result<(), Fail> {
    let mut lists = Vec::new(rt.alloc());
    lists.push(vec![in rt.alloc(); 10, 20]?)?;
    lists.push(vec![in rt.alloc(); 30]?)?;
    let mut clocks = MemClocks::new(rt.alloc(), lists);
    for (row, want) in [Ok(10), Ok(30), Err(Failed), Err(Failed)]
        .into_iter()
        .enumerate()
    {
        assert_eq!(rt; clocks.one().now(), want, "in row {row}");
    }
    Ok(())
}

fn named(rt: &HostRuntime, name: &str, bytes: &[u8]) -> Result<NamedFile, Fail> {
    Ok(NamedFile {
        name: String::from_str(rt.alloc(), name)?,
        bytes: bytes.to_vec(rt.alloc())?,
    })
}

#[test]
fn files_are_read_by_their_names(rt: HostRuntime) -> Result<(), Fail> {
    let mut all = Vec::new(rt.alloc());
    all.push(named(&rt, "key", b"abcd")?)?;
    all.push(named(&rt, "empty", b"")?)?;
    all.push(named(&rt, "key", b"zz")?)?;
    let mut files = MemFiles::new(all, vec![in rt.alloc(); 3]?);
    let rows = [
        ("key", 9, Ok("abcd")),
        ("key", 3, Ok("abc")),
        ("key", 9, Err(FileFail::Failed)),
        ("empty", 9, Ok("")),
        ("ke", 9, Err(FileFail::Failed)),
        ("key", 0, Ok("")),
    ];
    for (row, (name, most, want)) in rows.into_iter().enumerate() {
        match (files.read(rt.alloc(), name, most), want) {
            (Ok(got), Ok(text)) => {
                assert_eq!(rt; got.as_slice(), text.as_bytes(), "in row {row}")
            }
            (Err(got), Err(fail)) => assert_eq!(rt; got, fail, "in row {row}"),
            _ => panic!(rt; "another answer in row {row}"),
        }
    }
    Ok(())
}
