//! Links, and peers that say nothing, that take nothing, or that are gone.

use super::{accept, end, open, start};
use byte_io::{AllWritten, FullRead, Sink, Source, read_full, write_all};
use munge_types::Failed;
use std::io::Write;
use std::os::unix::net::UnixStream;
use std::process::Abort;
use std::test::Fail;
use std::thread;
use std::time::{Clock, Duration, Instant};

/// So many milliseconds went by, and no more than a few seconds.
fn assert_waited<R: Clock + Abort>(rt: &R, since: Instant, least: u64) {
    let past = since.elapsed(rt);
    assert!(rt;
        past.is_ok_and(|past| {
            Duration::from_millis(least) <= past && past < Duration::from_secs(4)
        })
    );
}

#[test]
fn a_silent_peer_has_its_time(rt: HostRuntime) -> Result<(), Fail> {
    let mut hall = start(rt, rt.alloc(), "silent")?;
    hall.set_time(Duration::from_millis(200));
    let mut door = open(&mut hall, rt.alloc(), "silent/one")?;
    let mut client = UnixStream::connect(&rt, "silent/one")?;
    let since = Instant::now(&rt)?;
    let mut link = accept(&mut door)?;
    assert_eq!(rt; read_full(&mut link, &mut [0; 4]), FullRead::Failed(0));
    assert_waited(&rt, since, 190);
    client.write(b"ab")?;
    assert_eq!(rt; link.read(&mut [0; 4]), Ok(2));
    assert_eq!(rt; link.read(&mut [0; 4]), Err(Failed));
    assert_eq!(rt; write_all(&mut link, b"reply"), AllWritten::All);
    drop(door);
    Ok(end(&rt, "silent")?)
}

#[test]
fn a_time_for_the_request_is_one_for_all_reads(rt: HostRuntime) -> Result<(), Fail> {
    let mut hall = start(rt, rt.alloc(), "drips")?;
    hall.set_time(Duration::from_millis(300));
    let mut door = open(&mut hall, rt.alloc(), "drips/one")?;
    let mut client = UnixStream::connect(&rt, "drips/one")?;
    let since = Instant::now(&rt)?;
    let mut link = accept(&mut door)?;
    for _ in 0..3u8 {
        client.write(b"a")?;
        assert_eq!(rt; link.read(&mut [0; 4]), Ok(1));
        thread::sleep(&rt, Duration::from_millis(150));
    }
    assert_eq!(rt; link.read(&mut [0; 4]), Err(Failed));
    assert_waited(&rt, since, 450);
    drop(door);
    Ok(end(&rt, "drips")?)
}

#[test]
fn a_peer_that_takes_nothing_has_its_time(rt: HostRuntime) -> Result<(), Fail> {
    let mut hall = start(rt, rt.alloc(), "stuck")?;
    hall.set_time(Duration::from_millis(200));
    let mut door = open(&mut hall, rt.alloc(), "stuck/one")?;
    let client = UnixStream::connect(&rt, "stuck/one")?;
    let mut link = accept(&mut door)?;
    let mut long = Vec::new(rt.alloc());
    long.resize(4_000_000, 0u8)?;
    let since = Instant::now(&rt)?;
    assert!(rt; matches!(write_all(&mut link, &long), AllWritten::Failed(_)));
    assert_waited(&rt, since, 190);
    drop(client);
    drop(door);
    Ok(end(&rt, "stuck")?)
}

#[test]
fn a_peer_that_is_gone_ends_its_own_link(rt: HostRuntime) -> Result<(), Fail> {
    let mut hall = start(rt, rt.alloc(), "gone")?;
    let mut door = open(&mut hall, rt.alloc(), "gone/one")?;
    drop(UnixStream::connect(&rt, "gone/one")?);
    let mut gone = accept(&mut door)?;
    assert_eq!(rt; gone.write(b"reply"), Err(Failed));
    let client = UnixStream::connect(&rt, "gone/one")?;
    let mut link = accept(&mut door)?;
    assert_eq!(rt; write_all(&mut link, b"reply"), AllWritten::All);
    drop(client);
    drop(door);
    Ok(end(&rt, "gone")?)
}
