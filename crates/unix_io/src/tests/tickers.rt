//! Tickers and clocks.

use super::{accept, end, open, ring_later, start};
use crate::{SleepTicker, SystemClocks, UnixDoor};
use byte_io::{Clock, Clocks, Tick, Ticker};
use std::os::unix::net::UnixStream;
use std::process::Abort;
use std::sync::Wait;
use std::test::Fail;
use std::time::{Duration, Instant};
use std::{rt, thread};

/// What the ticker answers next.
fn assert_next<R: rt::Clock + Wait + Abort + Copy + Send>(
    rt: &R,
    ticker: &mut SleepTicker<R>,
    want: Tick,
) {
    assert_eq!(rt; ticker.next(), want);
}

#[test]
fn a_ticker_is_due_again_and_again(rt: HostRuntime) -> Result<(), Fail> {
    let mut hall = start(rt, rt.alloc(), "due")?;
    let door = open(&mut hall, rt.alloc(), "due/one")?;
    let since = Instant::now(&rt)?;
    let mut ticker = SleepTicker::new(&hall, 1)?;
    assert_next(&rt, &mut ticker, Tick::Due);
    assert_next(&rt, &mut ticker, Tick::Due);
    let past = since.elapsed(&rt)?;
    assert!(rt; Duration::from_secs(2) <= past && past < Duration::from_secs(9));
    drop(door);
    assert_next(&rt, &mut ticker, Tick::Stop);
    Ok(end(&rt, "due")?)
}

#[test]
fn a_ring_stops_a_ticker_that_waits(rt: HostRuntime) -> Result<(), Fail> {
    let mut hall = start(rt, rt.alloc(), "stops")?;
    let mut door = open(&mut hall, rt.alloc(), "stops/one")?;
    let mut ticker = SleepTicker::new(&hall, 1_000_000)?;
    let client = UnixStream::connect(&rt, "stops/one")?;
    let link = accept(&mut door)?;
    thread::join(
        &rt,
        || assert_next(&rt, &mut ticker, Tick::Stop),
        || ring_later(&rt, link),
    );
    drop(client);
    drop(door);
    Ok(end(&rt, "stops")?)
}

/// Closes the door after a while.
fn close_later<R: rt::Files + rt::Clock + Wait + Copy>(rt: &R, door: UnixDoor<R>) {
    thread::sleep(rt, Duration::from_millis(100));
    drop(door);
}

#[test]
fn a_ticker_stops_with_the_last_door(rt: HostRuntime) -> Result<(), Fail> {
    let mut hall = start(rt, rt.alloc(), "last")?;
    let one = open(&mut hall, rt.alloc(), "last/one")?;
    let other = open(&mut hall, rt.alloc(), "last/other")?;
    let mut ticker = SleepTicker::new(&hall, 1_000_000)?;
    drop(one);
    thread::join(
        &rt,
        || assert_next(&rt, &mut ticker, Tick::Stop),
        || close_later(&rt, other),
    );
    Ok(end(&rt, "last")?)
}

#[test]
fn clocks_read_the_system_s_time(rt: HostRuntime) -> Result<(), Fail> {
    let mut clocks = SystemClocks::new(rt);
    for _ in 0..2u8 {
        let now = clocks.one().now();
        assert!(rt; now.is_ok_and(|moment| moment > 1_700_000_000));
    }
    Ok(())
}
