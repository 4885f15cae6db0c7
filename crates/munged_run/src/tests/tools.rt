//! The client programs, over the sockets of a daemon that serves.

use super::serving::{SERVED, words_of};
use super::sockets::{INTERVAL, assert_served, assert_stops, gets_through};
use byte_io::{Door, Hall, MemSink, MemSource, Wire};
use munge_tools::{munge_run, unmunge_run};
use std::alloc::{AllocError, Global};
use std::process::Abort;
use std::sync::Wait;
use std::test::Fail;
use std::thread::{self, Threads};
use unix_io::{SleepTicker, UnixHall};

/// What unmunge prints of the credential when it is opened for the first time.
const PRINTED: &str = "\
STATUS: 0
RULE: 0
PLACE: 0
CIPHER: 4
MAC: 5
ADDRESS: 0.0.0.0
TIME: 1000
TTL: 300
UID: 7
GID: 7
UID_RESTRICTION: any
GID_RESTRICTION: any
LENGTH: 5

hello";

/// Seals `hello`, and gives what munge prints.
fn assert_sealed(
    rt: &impl Abort,
    alloc: Global,
    wire: &mut impl Wire,
) -> Result<Vec<u8>, AllocError> {
    let words = words_of(alloc, "-s\nhello\n-S\nann.socket")?;
    let mut input = MemSource::new(Vec::new(alloc), 0, Vec::new(alloc));
    let mut out = MemSink::new(alloc, Vec::new(alloc));
    let mut err = MemSink::new(alloc, Vec::new(alloc));
    let status = munge_run(alloc, &words, &mut input, &mut out, &mut err, wire);
    assert_eq!(rt; status, 0, "the status of munge");
    out.taken().to_vec(alloc)
}

/// Opens what munge printed, asserts the status, and gives what unmunge prints.
fn assert_opened(
    rt: &impl Abort,
    alloc: Global,
    wire: &mut impl Wire,
    sealed: &[u8],
    wanted: u8,
) -> Result<Vec<u8>, AllocError> {
    let words = words_of(alloc, "-S\nann.socket")?;
    let mut input = MemSource::new(sealed.to_vec(alloc)?, 0, Vec::new(alloc));
    let mut out = MemSink::new(alloc, Vec::new(alloc));
    let mut err = MemSink::new(alloc, Vec::new(alloc));
    let status = unmunge_run(alloc, &words, &mut input, &mut out, &mut err, wire);
    assert_eq!(rt; status, wanted, "the status of unmunge");
    out.taken().to_vec(alloc)
}

/// Seals once and opens twice, each over a connection of its own, once a dial of another client has
/// succeeded; and then asks the daemon to stop.
fn seal_open_and_stop<H, R>(rt: &R, alloc: Global, first: H, wire: &mut H) -> Result<(), AllocError>
where
    H: Hall + Drop,
    H::Door: Drop,
    <H::Door as Door>::Conn: Drop,
    R: Threads + Wait + Sync + Abort,
{
    let mut first = first;
    assert!(rt; gets_through(&mut first), "no dial succeeded");
    drop(first);
    let sealed = assert_sealed(rt, alloc, wire)?;
    let opened = assert_opened(rt, alloc, wire, &sealed, 0)?;
    assert_eq!(rt; opened.as_slice(), PRINTED.as_bytes());
    assert_opened(rt, alloc, wire, &sealed, 17)?;
    assert_stops(rt, alloc, wire)
}

#[test]
fn tools_round(rt: HostRuntime) -> Result<(), Fail> {
    let alloc = rt.alloc();
    let mut hall = UnixHall::new(rt, alloc)?;
    let mut ticker = SleepTicker::new(&hall, INTERVAL)?;
    let first = UnixHall::new(rt, alloc)?;
    let mut wire = UnixHall::new(rt, alloc)?;
    let (_, asked) = thread::join(
        &rt,
        || assert_served(&rt, alloc, &mut hall, &mut ticker, &SERVED),
        || seal_open_and_stop(&rt, alloc, first, &mut wire),
    );
    Ok(asked?)
}
