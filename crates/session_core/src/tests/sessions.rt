//! Whole sessions over streams and a clock in memory: the first run, cut short and with each call
//! failing in its turn. Its frames were written out by hand from the layout of the messages.

use super::{caller, world};
use crate::{HowEnded, SessionEnd, session};
use byte_io::{MemClock, MemSink, MemSource};
use munge_types::Replay;
use replay_table::PlainReplay;
use std::alloc::Global;
use std::process::Abort;
use std::test::Fail;

/// The first run's three decode requests: no text, the armour of nothing, and that of a zero byte.
/// They begin at the bytes 0, 7 and 21.
const INPUT: &[u8] =
    b"\x4d\x01\x03\x00\x00\x00\x00\x4d\x01\x03\x00\x00\x00\x07MUNGE::\x4d\x01\x03\x00\x00\x00\x0bMUNGE:AA==:";

/// The replies to them.
const OUTPUT: &[u8] =
    b"\x4d\x01\x04\x00\x00\x00\x0a\x08\x01\xff\xff\xff\xff\xff\xff\xff\xff\x4d\x01\x04\x00\x00\x00\x0a\x08\x02\xff\xff\xff\xff\xff\xff\xff\xff\x4d\x01\x04\x00\x00\x00\x0a\x09\x02\xff\xff\xff\xff\xff\xff\xff\xff";

/// The bytes of each of the replies.
const REPLY_SIZE: usize = 17;

/// The most bytes that one read gives.
const PIECE: u32 = 5;

/// More than the first run makes of any of these calls.
const MANY: u32 = 15;

/// The numbers of the read, the write and the reading of the clock that fail, counted from 1; 0 for
/// none.
#[derive(Clone, Copy)]
pub(super) struct Failing {
    read: u32,
    write: u32,
    clock: u32,
}

/// Nothing fails.
pub(super) const NONE: Failing = Failing {
    read: 0,
    write: 0,
    clock: 0,
};

/// How a session ended, and what it wrote.
#[derive(Drop)]
pub(super) struct Ran {
    pub(super) end: SessionEnd,
    pub(super) output: Vec<u8>,
}

/// A session of the caller 7, 7 over this input at these moments.
pub(super) fn run<R: Replay>(
    alloc: Global,
    replay: &mut R,
    input: Vec<u8>,
    moments: Vec<u32>,
    failing: Failing,
) -> Result<Ran, Fail> {
    let mut input = MemSource::new(input, PIECE, vec![in alloc; failing.read]?);
    let mut out = MemSink::new(alloc, vec![in alloc; failing.write]?);
    let mut clock = MemClock::new(moments, vec![in alloc; failing.clock]?);
    let end = session(
        alloc,
        &mut input,
        &mut out,
        &mut clock,
        replay,
        caller(7, false),
        &world()?,
        None,
    );
    Ok(Ran {
        end,
        output: out.taken().to_vec(alloc)?,
    })
}

/// A session over this front of the first run's input ends so, and writes the replies to the
/// requests that it answered and nothing else.
fn assert_ends(
    rt: &impl Abort,
    alloc: Global,
    input: &[u8],
    failing: Failing,
    end: SessionEnd,
) -> Result<(), Fail> {
    let moments = vec![in alloc; 1000; 3]?;
    let mut replay = PlainReplay::new(alloc);
    let ran = run(alloc, &mut replay, input.to_vec(alloc)?, moments, failing)?;
    let Failing { read, write, clock } = failing;
    let given = input.len();
    assert_eq!(rt;
        ran.end,
        end,
        "{given} bytes, failing {read} {write} {clock}"
    );
    let size = REPLY_SIZE * end.answered as usize;
    assert!(rt; size <= OUTPUT.len());
    assert_eq!(rt;
        ran.output.as_slice(),
        &OUTPUT[..size],
        "{given} bytes, failing {read} {write} {clock}"
    );
    Ok(())
}

/// How the first run ends where this read of it fails, if it makes so many. Its requests take two,
/// four and five reads of at most five bytes, and one more finds the end of the input.
fn end_by_read(read: u32) -> SessionEnd {
    let (answered, how) = match read {
        1..=2 => (0, HowEnded::ReadFault),
        3..=6 => (1, HowEnded::ReadFault),
        7..=11 => (2, HowEnded::ReadFault),
        12 => (3, HowEnded::ReadFault),
        _ => (3, HowEnded::Done),
    };
    SessionEnd { answered, how }
}

/// How the first run ends where this one of the calls fails that it makes once for each request, if
/// it makes so many.
fn end_by_request(number: u32, how: HowEnded) -> SessionEnd {
    if 1 <= number && number <= 3 {
        SessionEnd {
            answered: number - 1,
            how,
        }
    } else {
        SessionEnd {
            answered: 3,
            how: HowEnded::Done,
        }
    }
}

#[test]
fn each_call_fails(rt: HostRuntime) -> Result<(), Fail> {
    'calls: for number in 1..MANY {
        let read = Failing {
            read: number,
            ..NONE
        };
        assert_ends(&rt, rt.alloc(), INPUT, read, end_by_read(number))?;
        let write = Failing {
            write: number,
            ..NONE
        };
        let end = end_by_request(number, HowEnded::WriteFault);
        assert_ends(&rt, rt.alloc(), INPUT, write, end)?;
        let clock = Failing {
            clock: number,
            ..NONE
        };
        let end = end_by_request(number, HowEnded::ClockFault);
        assert_ends(&rt, rt.alloc(), INPUT, clock, end)?;
    }
    Ok(())
}

/// How a session over so many of the first bytes of the first run's input ends.
fn end_by_size(size: usize) -> SessionEnd {
    let (answered, how) = match size {
        0 => (0, HowEnded::Done),
        1..=6 => (0, HowEnded::Malformed(0)),
        7 => (1, HowEnded::Done),
        8..=20 => (1, HowEnded::Malformed(7)),
        21 => (2, HowEnded::Done),
        22..=38 => (2, HowEnded::Malformed(21)),
        _ => (3, HowEnded::Done),
    };
    SessionEnd { answered, how }
}

#[test]
fn each_prefix_of_the_input(rt: HostRuntime) -> Result<(), Fail> {
    assert_eq!(rt; INPUT.len(), 39);
    'prefixes: for size in 0..=INPUT.len() {
        assert_ends(&rt, rt.alloc(), &INPUT[..size], NONE, end_by_size(size))?;
    }
    Ok(())
}
