//! Runs of generated loads.

use crate::daemon::munged_daemon;
use byte_io::{MemClocks, MemFiles, MemHall, MemSink, MemTicker, MemWire};
use std::alloc::Global;
use std::process::Abort;
use std::sync::Wait;
use std::test::Fail;
use std::thread::Threads;
use worker_pool::DropBooks;

/// The totals of a load of 500 credentials.
const TOTALS_OF_500: &str = "presented 1000 accepted 500 replayed 500 expired 0 kept 250\n";

/// The words of a command line, one a line.
fn words_of(alloc: Global, lines: &str) -> Result<Vec<String>, Fail> {
    let mut words = Vec::new(alloc);
    for word in lines.lines() {
        words.push(String::from_str(alloc, word)?)?;
    }
    Ok(words)
}

/// Runs the daemon for these words, where the write of that number fails if it is not 0, and asserts
/// its status, what it wrote, and the line on its error stream.
fn assert_ends<R: Threads + Wait + Sync + Abort>(
    rt: &R,
    alloc: Global,
    lines: &str,
    failing_write: u32,
    status: u8,
    printed: &str,
    said: &str,
) -> Result<(), Fail> {
    let words = words_of(alloc, lines)?;
    let mut files = MemFiles::new(Vec::new(alloc), Vec::new(alloc));
    let wire = MemWire::new(alloc, Vec::new(alloc), Vec::new(alloc));
    let mut hall = MemHall::new(Vec::new(alloc), wire, Vec::new(alloc));
    let mut out = MemSink::new(alloc, vec![in alloc; failing_write]?);
    let mut err = MemSink::new(alloc, Vec::new(alloc));
    let mut clocks = MemClocks::new(alloc, Vec::new(alloc));
    let mut ticker = MemTicker::new(0, Vec::new(alloc));
    let ended = munged_daemon(
        rt,
        alloc,
        &words,
        &mut files,
        &mut hall,
        &mut out,
        &mut err,
        &mut clocks,
        &mut ticker,
        &mut DropBooks::new(),
    );
    assert_eq!(rt; ended.status, status, "the status of {lines}");
    assert_eq!(rt; out.taken(), printed.as_bytes(), "what {lines} printed");
    assert_eq!(rt; err.taken(), said.as_bytes(), "the line of {lines}");
    Ok(())
}

#[test]
fn words_that_ask_for_no_load(rt: HostRuntime) -> Result<(), Fail> {
    let table = [
        "",
        "exercise",
        "exercise\n1\n1",
        "exercise\n1\n1\n1\n1",
        "exercise\n0\n1\n1",
        "exercise\n50001\n1\n1",
        "exercise\n1\n1\n0",
        "exercise\n1\n1\n65",
        "exercise\n1\n18446744073709551616\n1",
        "exercise\n1\n000000000000000000001\n1",
        "exercise\n1\n-1\n1",
        "exercise\n1\n\n1",
        "Exercise\n1\n1\n1",
        "serve",
        "serve\nconfig\nmore",
        "Serve\nconfig",
        "stop",
        "stop\nconfig\nmore",
        "Stop\nconfig",
    ];
    for words in table {
        assert_ends(&rt, rt.alloc(), words, 0, 1, "", "munged: bad words\n")?;
    }
    Ok(())
}

#[test]
fn loads_of_500_by_many_workers(rt: HostRuntime) -> Result<(), Fail> {
    let table = [
        "exercise\n500\n1\n1",
        "exercise\n500\n1\n2",
        "exercise\n500\n1\n3",
        "exercise\n0500\n01\n4",
        "exercise\n500\n1\n64",
    ];
    for words in table {
        assert_ends(&rt, rt.alloc(), words, 0, 0, TOTALS_OF_500, "")?;
    }
    Ok(())
}

#[test]
fn loads_of_one_and_of_two(rt: HostRuntime) -> Result<(), Fail> {
    let table = [
        (
            "exercise\n1\n18446744073709551615\n64",
            "presented 2 accepted 1 replayed 1 expired 0 kept 1\n",
        ),
        (
            "exercise\n2\n0\n1",
            "presented 4 accepted 2 replayed 2 expired 0 kept 1\n",
        ),
    ];
    for (words, printed) in table {
        assert_ends(&rt, rt.alloc(), words, 0, 0, printed, "")?;
    }
    Ok(())
}

#[test]
fn output_that_fails(rt: HostRuntime) -> Result<(), Fail> {
    for (fails, printed) in [
        (1, ""),
        (3, "presented 2"),
        (15, "presented 2 accepted 1 replayed 1 expired 0 kept 1"),
    ] {
        assert_ends(
            &rt,
            rt.alloc(),
            "exercise\n1\n1\n2",
            fails,
            6,
            printed,
            "munged: output failed\n",
        )?;
    }
    Ok(())
}
