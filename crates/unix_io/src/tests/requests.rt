//! Requests that come at once, in pieces, or not in time, and what is told behind them.

use super::{accept, end, open, start};
use byte_io::{FullRead, Source, read_full};
use munge_types::Failed;
use std::alloc::{AllocError, Global};
use std::io::{self, Write};
use std::os::unix::net::UnixStream;
use std::test::Fail;
use std::thread;
use std::time::{Clock, Duration};

/// So many bytes, no two of which are alike beside each other.
fn bytes(alloc: Global, size: usize) -> Result<Vec<u8>, AllocError> {
    let mut all = Vec::new(alloc);
    for at in 0..size {
        all.push((at % 251) as u8)?;
    }
    Ok(all)
}

/// Sends them in pieces of that size, with a pause after each.
fn send(rt: &impl Clock, client: &mut UnixStream, all: &[u8], size: usize) -> io::Result<()> {
    for piece in all.chunks(size.max(1)) {
        client.write_all(piece)?;
        thread::sleep(rt, Duration::from_millis(2));
    }
    Ok(())
}

/// Fills the part, or says that it could not.
fn fill(link: &mut impl Source, part: &mut [u8]) -> Result<(), Fail> {
    if read_full(link, part) != FullRead::Full {
        return Err(Fail::new("a part is not whole"));
    }
    Ok(())
}

/// Reads so many bytes, seven of them first.
fn receive(alloc: Global, link: &mut impl Source, size: usize) -> Result<Vec<u8>, Fail> {
    let mut all = Vec::new(alloc);
    all.resize(size, 0)?;
    let Some((head, body)) = all.split_at_mut_checked(7) else {
        return Err(Fail::new("there is no head"));
    };
    fill(link, head)?;
    fill(link, body)?;
    Ok(all)
}

#[test]
fn a_request_is_the_same_however_it_is_cut(rt: HostRuntime) -> Result<(), Fail> {
    let mut hall = start(rt, rt.alloc(), "cut")?;
    let mut door = open(&mut hall, rt.alloc(), "cut/one")?;
    for (size, piece) in [(200, 200), (200, 100), (200, 1), (2000, 2000), (2000, 300)] {
        let request = bytes(rt.alloc(), size)?;
        let mut client = UnixStream::connect(&rt, "cut/one")?;
        let mut link = accept(&mut door)?;
        let (sent, got) = thread::join(
            &rt,
            || send(&rt, &mut client, &request, piece),
            || receive(rt.alloc(), &mut link, size),
        );
        let got = got?;
        sent?;
        assert_eq!(rt; got, request, "{size} in pieces of {piece}");
    }
    drop(door);
    Ok(end(&rt, "cut")?)
}

#[test]
fn an_end_is_told_behind_the_bytes_before_it(rt: HostRuntime) -> Result<(), Fail> {
    let mut hall = start(rt, rt.alloc(), "behind")?;
    let mut door = open(&mut hall, rt.alloc(), "behind/one")?;
    let mut client = UnixStream::connect(&rt, "behind/one")?;
    let mut link = accept(&mut door)?;
    client.write_all(b"abcdef")?;
    drop(client);
    let mut into = [0; 4];
    assert_eq!(rt; link.read(&mut into), Ok(4));
    assert_eq!(rt; into, *b"abcd");
    assert_eq!(rt; link.read(&mut []), Ok(0));
    assert_eq!(rt; link.read(&mut into), Ok(2));
    assert_eq!(rt; into, *b"efcd");
    assert_eq!(rt; link.read(&mut into), Ok(0));
    drop(door);
    Ok(end(&rt, "behind")?)
}

#[test]
fn what_came_in_time_is_read_past_it(rt: HostRuntime) -> Result<(), Fail> {
    let mut hall = start(rt, rt.alloc(), "past")?;
    hall.set_time(Duration::from_millis(100));
    let mut door = open(&mut hall, rt.alloc(), "past/one")?;
    let mut client = UnixStream::connect(&rt, "past/one")?;
    let mut link = accept(&mut door)?;
    client.write_all(b"abcdef")?;
    assert_eq!(rt; link.read(&mut [0; 4]), Ok(4));
    thread::sleep(&rt, Duration::from_millis(150));
    assert_eq!(rt; link.read(&mut [0; 4]), Ok(2));
    assert_eq!(rt; link.read(&mut [0; 4]), Err(Failed));
    drop(door);
    Ok(end(&rt, "past")?)
}

#[test]
fn a_request_that_trickles_in_past_its_time_fails(rt: HostRuntime) -> Result<(), Fail> {
    let mut hall = start(rt, rt.alloc(), "trickles")?;
    hall.set_time(Duration::from_millis(200));
    let mut door = open(&mut hall, rt.alloc(), "trickles/one")?;
    let mut client = UnixStream::connect(&rt, "trickles/one")?;
    let mut link = accept(&mut door)?;
    let (got, sent) = thread::join(
        &rt,
        || read_full(&mut link, &mut [0; 250]),
        || send(&rt, &mut client, &[0; 250], 1),
    );
    sent?;
    assert!(rt; matches!(got, FullRead::Failed(_)));
    drop(door);
    Ok(end(&rt, "trickles")?)
}
