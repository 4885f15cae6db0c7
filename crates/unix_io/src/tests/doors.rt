//! Doors: what they give, and how they end.

use super::{accept, assert_over, end, open, ring_later, start};
use crate::{UnixDoor, UnixHall};
use byte_io::{AllWritten, FullRead, Link, Source, Wire, read_full, write_all};
use std::net::Net;
use std::os::unix::net::UnixStream;
use std::process::Abort;
use std::sync::Wait;
use std::test::Fail;
use std::{rt, thread};

/// A client dials the door's path, asks, and has its answer.
fn exchange<R: rt::Files + Net + rt::Clock + Wait + Abort + Copy + Send>(
    rt: &R,
    client: &mut UnixHall<R>,
    door: &mut UnixDoor<R>,
    path: &str,
) -> Result<(), Fail> {
    assert_eq!(rt; client.dial(path), Ok(()));
    assert_eq!(rt; write_all(client, b"question"), AllWritten::All);
    let mut link = accept(door)?;
    let mut into = [0; 8];
    assert_eq!(rt; read_full(&mut link, &mut into), FullRead::Full);
    assert_eq!(rt; into, *b"question");
    assert_eq!(rt; write_all(&mut link, b"answer"), AllWritten::All);
    drop(link);
    let mut into = [0; 7];
    assert_eq!(rt; read_full(client, &mut into), FullRead::Short(6));
    assert_eq!(rt; into, *b"answer\0");
    Ok(())
}

#[test]
fn frames_go_both_ways(rt: HostRuntime) -> Result<(), Fail> {
    let mut hall = start(rt, rt.alloc(), "both_ways")?;
    let mut one = open(&mut hall, rt.alloc(), "both_ways/one")?;
    let mut other = open(&mut hall, rt.alloc(), "both_ways/other")?;
    let mut client = UnixHall::new(rt, rt.alloc())?;
    exchange(&rt, &mut client, &mut one, "both_ways/one")?;
    exchange(&rt, &mut client, &mut other, "both_ways/other")?;
    assert!(rt; client.dial("both_ways/none").is_err());
    drop(one);
    drop(other);
    Ok(end(&rt, "both_ways")?)
}

#[test]
fn who_waits_is_accepted_before_the_end(rt: HostRuntime) -> Result<(), Fail> {
    let mut hall = start(rt, rt.alloc(), "waits")?;
    let mut one = open(&mut hall, rt.alloc(), "waits/one")?;
    let mut other = open(&mut hall, rt.alloc(), "waits/other")?;
    let first = UnixStream::connect(&rt, "waits/one")?;
    let second = UnixStream::connect(&rt, "waits/other")?;
    let mut link = accept(&mut one)?;
    link.ring();
    assert!(rt; UnixStream::connect(&rt, "waits/other").is_err());
    let waited = accept(&mut other)?;
    assert_over(&rt, &mut other);
    assert_over(&rt, &mut one);
    assert_over(&rt, &mut one);
    let mut late = open(&mut hall, rt.alloc(), "waits/late")?;
    assert_over(&rt, &mut late);
    drop(first);
    drop(second);
    drop(waited);
    Ok(end(&rt, "waits")?)
}

#[test]
fn a_ring_ends_accepts_that_wait(rt: HostRuntime) -> Result<(), Fail> {
    let mut hall = start(rt, rt.alloc(), "ring")?;
    let mut door = open(&mut hall, rt.alloc(), "ring/one")?;
    let client = UnixStream::connect(&rt, "ring/one")?;
    let link = accept(&mut door)?;
    thread::join(
        &rt,
        || assert_over(&rt, &mut door),
        || ring_later(&rt, link),
    );
    drop(client);
    Ok(end(&rt, "ring")?)
}

#[test]
fn nothing_is_read_before_the_first_dial(rt: HostRuntime) -> Result<(), Fail> {
    let mut hall = UnixHall::new(rt, rt.alloc())?;
    assert_eq!(rt; hall.read(&mut [0; 4]), Ok(0));
    assert_eq!(rt; write_all(&mut hall, b"abc"), AllWritten::Failed(0));
    Ok(())
}
