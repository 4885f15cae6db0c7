//! The files of sockets.

use super::{accept, end, open, start};
use crate::UnixHall;
use byte_io::{FileFail, FullRead, Hall, read_full};
use std::alloc::Global;
use std::net::Net;
use std::os::unix::fs::MetadataExt;
use std::os::unix::net::{UnixListener, UnixStream};
use std::process::Abort;
use std::sync::Wait;
use std::test::Fail;
use std::{fs, rt};

/// No door can be opened there.
fn assert_refused<R: rt::Files + Net + rt::Clock + Wait + Abort + Copy + Send>(
    rt: &R,
    alloc: Global,
    hall: &mut UnixHall<R>,
    path: &str,
) {
    let opened = hall.open_door(alloc, path);
    assert!(rt; matches!(opened, Err(FileFail::Failed)));
}

#[test]
fn the_owner_alone_may_connect(rt: HostRuntime) -> Result<(), Fail> {
    let mut hall = start(rt, rt.alloc(), "owner")?;
    let me = fs::metadata(&rt, "owner")?.uid();
    hall.set_owner(rt.alloc(), "owner/other", 1001, 1002)?;
    let mine = open(&mut hall, rt.alloc(), "owner/mine")?;
    let other = open(&mut hall, rt.alloc(), "owner/other")?;
    let uid = if me == 0 { 1001 } else { me };
    for (path, uid) in [("owner/mine", me), ("owner/other", uid)] {
        let found = fs::metadata(&rt, path)?;
        assert_eq!(rt; found.mode() & 0o7777, 0o600, "{path}");
        assert_eq!(rt; found.uid(), uid, "{path}");
    }
    drop(mine);
    drop(other);
    Ok(end(&rt, "owner")?)
}

#[test]
fn another_file_is_left_alone(rt: HostRuntime) -> Result<(), Fail> {
    let mut hall = start(rt, rt.alloc(), "in_the_way")?;
    fs::write(&rt, "in_the_way/file", "abc")?;
    assert_refused(&rt, rt.alloc(), &mut hall, "in_the_way/file");
    assert_eq!(rt; fs::metadata(&rt, "in_the_way/file")?.len(), 3);
    assert_refused(&rt, rt.alloc(), &mut hall, "in_the_way");
    assert_refused(&rt, rt.alloc(), &mut hall, "in_the_way/no_folder/file");
    let door = open(&mut hall, rt.alloc(), "in_the_way/door")?;
    fs::rename(&rt, "in_the_way/file", "in_the_way/door")?;
    drop(door);
    assert_eq!(rt; fs::metadata(&rt, "in_the_way/door")?.len(), 3);
    fs::remove_file(&rt, "in_the_way/door")?;
    Ok(end(&rt, "in_the_way")?)
}

#[test]
fn a_socket_that_nobody_serves_is_replaced(rt: HostRuntime) -> Result<(), Fail> {
    let mut hall = start(rt, rt.alloc(), "stale")?;
    drop(UnixListener::bind(&rt, "stale/one")?);
    drop(UnixListener::bind(&rt, "stale/one~")?);
    let mut door = open(&mut hall, rt.alloc(), "stale/one")?;
    let client = UnixStream::connect(&rt, "stale/one")?;
    let link = accept(&mut door)?;
    drop(client);
    drop(link);
    drop(door);
    Ok(end(&rt, "stale")?)
}

#[test]
fn who_serves_is_not_pushed_aside(rt: HostRuntime) -> Result<(), Fail> {
    let mut hall = start(rt, rt.alloc(), "serves")?;
    let mut door = open(&mut hall, rt.alloc(), "serves/one")?;
    let mut second = UnixHall::new(rt, rt.alloc())?;
    let other = open(&mut second, rt.alloc(), "serves/other")?;
    assert_refused(&rt, rt.alloc(), &mut second, "serves/one");
    drop(other);
    drop(second);
    let client = UnixStream::connect(&rt, "serves/one")?;
    let mut asked = accept(&mut door)?;
    assert_eq!(rt; read_full(&mut asked, &mut [0; 4]), FullRead::Short(0));
    let link = accept(&mut door)?;
    drop(client);
    drop(link);
    drop(door);
    Ok(end(&rt, "serves")?)
}
