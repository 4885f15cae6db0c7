//! Halls, doors, links and tickers over real sockets, each test in a folder of its own.

mod doors;
mod files;
mod links;
mod requests;
mod tickers;

use crate::{UnixDoor, UnixHall, UnixLink};
use byte_io::{Door, Hall, Link, Next};
use std::alloc::Global;
use std::net::Net;
use std::process::Abort;
use std::sync::Wait;
use std::test::Fail;
use std::time::Duration;
use std::{fs, io, rt, thread};

/// An empty folder of that name, and a hall.
fn start<R: rt::Files + Net + rt::Clock + Wait + Copy + Send>(
    rt: R,
    alloc: Global,
    folder: &str,
) -> Result<UnixHall<R>, Fail> {
    let _ = rt.remove_dir_all(alloc, folder);
    fs::create_dir(&rt, folder)?;
    Ok(UnixHall::new(rt, alloc)?)
}

/// The folder is empty by now, and goes.
fn end(rt: &impl rt::Files, folder: &str) -> io::Result<()> {
    fs::remove_dir(rt, folder)
}

/// The door at that path.
fn open<R: rt::Files + Net + rt::Clock + Wait + Copy + Send>(
    hall: &mut UnixHall<R>,
    alloc: Global,
    path: &str,
) -> Result<UnixDoor<R>, Fail> {
    match hall.open_door(alloc, path) {
        Ok(door) => Ok(door),
        Err(_) => Err(Fail::new("a door could not be opened")),
    }
}

/// The next connection of a door that is not over.
fn accept<R: rt::Files + rt::Clock + Wait + Copy + Send>(
    door: &mut UnixDoor<R>,
) -> Result<UnixLink<R>, Fail> {
    match door.accept() {
        Next::Conn(link) => Ok(link),
        _ => Err(Fail::new("a door gave no connection")),
    }
}

/// The door is over.
fn assert_over<R: rt::Files + rt::Clock + Wait + Abort + Copy + Send>(
    rt: &R,
    door: &mut UnixDoor<R>,
) {
    assert!(rt; matches!(door.accept(), Next::Over));
}

/// Rings after a while.
fn ring_later<R: rt::Clock + Wait + Copy + Send>(rt: &R, link: UnixLink<R>) {
    let mut link = link;
    thread::sleep(rt, Duration::from_millis(100));
    link.ring();
}
