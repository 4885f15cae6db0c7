//! A daemon that serves over real sockets, and a client that asks it over one.

use super::serving::{SERVED_NONE, USUAL, Wanted, files_of, serve, words_of};
use crate::daemon::munged_daemon;
use byte_io::{
    AllWritten, Door, FullRead, Hall, MemClocks, MemSink, MemTicker, Ticker, Wire, read_full,
    write_all,
};
use std::alloc::{AllocError, Global};
use std::process::Abort;
use std::sync::Wait;
use std::test::Fail;
use std::thread::{self, Threads};
use unix_io::{SleepTicker, UnixHall};
use worker_pool::DropBooks;

/// How often a client dials at most.
const DIALS: u32 = 1_000_000;

/// The seconds between two purges.
pub(super) const INTERVAL: u32 = 60;

/// A decode request of no text.
const REQUEST: &[u8] = b"\x4d\x01\x03\x00\x00\x00\x00";

/// Its reply: no credential, by the first rule, and no place.
const REPLY: &[u8] = b"\x4d\x01\x04\x00\x00\x00\x0a\x08\x01\xff\xff\xff\xff\xff\xff\xff\xff";

/// Whether a dial of the first socket succeeded, which is tried a million times at most, with a
/// yield after each try that did not.
pub(super) fn gets_through(wire: &mut impl Wire) -> bool {
    for _ in 0..DIALS {
        if wire.dial("ann.socket").is_ok() {
            return true;
        }
        thread::yield_now();
    }
    false
}

/// Serves over the hall until it is asked to stop, and asserts how that ends.
pub(super) fn assert_served<H, T, R>(
    rt: &R,
    alloc: Global,
    hall: &mut H,
    ticker: &mut T,
    wanted: &Wanted<'_>,
)
where
    H: Hall,
    H::Door: Drop,
    <H::Door as Door>::Conn: Drop,
    T: Ticker,
    R: Threads + Wait + Sync + Abort,
{
    let mut books = DropBooks::new();
    let end = serve(rt, alloc, &USUAL, hall, ticker, &mut books, wanted);
    assert!(rt; end.is_ok(), "memory to serve");
}

/// Asks the daemon over the wire to stop, and asserts that it does.
pub(super) fn assert_stops<H, R>(rt: &R, alloc: Global, wire: &mut H) -> Result<(), AllocError>
where
    H: Hall,
    H::Door: Drop,
    <H::Door as Door>::Conn: Drop,
    R: Threads + Wait + Sync + Abort,
{
    let words = words_of(alloc, "stop\nmunged.toml")?;
    let mut files = files_of(alloc, &USUAL)?;
    let mut out = MemSink::new(alloc, Vec::new(alloc));
    let mut err = MemSink::new(alloc, Vec::new(alloc));
    let mut clocks = MemClocks::new(alloc, Vec::new(alloc));
    let mut ticker = MemTicker::new(0, Vec::new(alloc));
    let ended = munged_daemon(
        rt,
        alloc,
        &words,
        &mut files,
        wire,
        &mut out,
        &mut err,
        &mut clocks,
        &mut ticker,
        &mut DropBooks::new(),
    );
    assert_eq!(rt; ended.status, 0, "the status of stop");
    assert!(rt; err.taken().is_empty(), "the line of stop");
    Ok(())
}

/// Sends the request, and asserts that the reply comes, and then the end.
fn assert_answered(rt: &impl Abort, wire: &mut impl Wire) {
    assert_eq!(rt; write_all(wire, REQUEST), AllWritten::All);
    let mut into = [0; 18];
    assert_eq!(rt; read_full(wire, &mut into), FullRead::Short(17));
    assert_eq!(rt; &into[..17], REPLY);
}

/// A client that has one request answered, and then asks the daemon to stop.
fn ask_and_stop<H, R>(rt: &R, alloc: Global, wire: &mut H) -> Result<(), AllocError>
where
    H: Hall,
    H::Door: Drop,
    <H::Door as Door>::Conn: Drop,
    R: Threads + Wait + Sync + Abort,
{
    assert!(rt; gets_through(wire), "no dial succeeded");
    assert_answered(rt, wire);
    assert_stops(rt, alloc, wire)
}

#[test]
fn socket_serves(rt: HostRuntime) -> Result<(), Fail> {
    let alloc = rt.alloc();
    let mut hall = UnixHall::new(rt, alloc)?;
    let mut ticker = SleepTicker::new(&hall, INTERVAL)?;
    let mut wire = UnixHall::new(rt, alloc)?;
    let (_, asked) = thread::join(
        &rt,
        || assert_served(&rt, alloc, &mut hall, &mut ticker, &SERVED_NONE),
        || ask_and_stop(&rt, alloc, &mut wire),
    );
    Ok(asked?)
}
