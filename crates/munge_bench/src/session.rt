//! Sessions over memory, whose requests have a small payload or a large one.
//!
//! A session seals the payload as often as there are requests, for anyone, with AES-128 and SHA-256,
//! and a second session opens each text that came of it. Both are timed whole, from a new session to
//! its end, with the sink's growing and the freeing of what it took left out. Rounds are made until
//! a second of elapsed time was measured. Each line has the payload's bytes, what was done, and how
//! many requests were answered a second, if all of them were answered as they should be.

ghost use Rattle.std.specs.Prelude.{◌≤◌, length};

use crate::pace::Pace;
use byte_io::{MemClock, MemSink, MemSource};
use decode_rules::World;
use group_map::GroupMap;
use munge_types::{Identity, Settings};
use replay_table::ReplayTable;
use session_core::{HowEnded, session};
use std::alloc::{AllocError, Global};
use std::hash::{BuildHasherDefault, FoldHasher};
use std::io;
use std::time::{Clock, Duration, Instant};
use subkeys::Subkeys;

/// How long a measurement goes on, in seconds.
const SECONDS: u64 = 1;

/// The moment of every request.
const MOMENT: u32 = 1_000_000;

/// The bytes of a frame's head, and of an encode reply before its text.
const HEAD_SIZE: usize = 7;

const TEXT_AT: usize = 8;

/// What is asked of a session again and again.
#[derive(Clone, Copy)]
struct Load {
    payload: usize,
    requests: u32,
}

/// Adds a frame's head to a stream.
fn push_head(stream: &mut Vec<u8>, kind: u8, size: usize) -> Result<(), AllocError> {
    let size = u32::try_from(size).unwrap_or(u32::MAX);
    stream.extend_from_slice(&[0x4d, 1, kind])?;
    stream.extend_from_slice(&size.to_be_bytes())
}

/// The requests that ask for the payload to be sealed.
fn to_seal(alloc: Global, load: Load) -> Result<Vec<u8>, AllocError> {
    let payload = vec![in alloc; 0x5a; load.payload]?;
    let mut stream = Vec::new(alloc);
    for _ in 0..load.requests {
        push_head(&mut stream, 1, payload.len().saturating_add(14))?;
        stream.extend_from_slice(&[4, 5, 0, 0, 0, 0])?;
        stream.extend_from_slice(&[0xff; 8])?;
        stream.extend_from_slice(&payload)?;
    }
    Ok(stream)
}

/// The size of the frame that a stream begins with.
fn frame_size(stream: &[u8]) -> usize
    ensures { result ≤ length stream.now }
{
    match stream {
        [_, _, _, a, b, c, d, ..] => {
            let size = u32::from_be_bytes([*a, *b, *c, *d]);
            HEAD_SIZE.saturating_add(size as usize).min(stream.len())
        }
        _ => stream.len(),
    }
}

/// The requests that ask for each text of so many encode replies to be opened.
fn to_open(alloc: Global, replies: &[u8], count: u32) -> Result<Vec<u8>, AllocError> {
    let mut stream = Vec::new(alloc);
    let mut rest = replies;
    for _ in 0..count {
        let (reply, behind) = rest.split_at(frame_size(rest));
        let text = match reply.get(TEXT_AT..) {
            Some(text) => text,
            None => &[],
        };
        push_head(&mut stream, 3, text.len())?;
        stream.extend_from_slice(text)?;
        rest = behind;
    }
    Ok(stream)
}

/// How many of so many replies have the status 0.
fn successes(replies: &[u8], count: u32) -> u32 {
    let mut found = 0u32;
    let mut rest = replies;
    for _ in 0..count {
        let (reply, behind) = rest.split_at(frame_size(rest));
        if reply.get(HEAD_SIZE) == Some(&0) {
            found = found.saturating_add(1);
        }
        rest = behind;
    }
    found
}

/// What a session over these requests writes, and the elapsed time that it took.
fn answer<R: Clock>(
    rt: &R,
    alloc: Global,
    requests: Vec<u8>,
    count: u32,
) -> io::Result<(MemSink, Duration)> {
    let Ok(subkeys) = Subkeys::of(&[7; 32]) else {
        return Err(io::ErrorKind::InvalidInput.into());
    };
    let world = World {
        subkeys,
        settings: Settings::usual(),
        groups: GroupMap::none(),
    };
    let who = Identity {
        uid: 7,
        gid: 7,
        control: false,
    };
    let readings = vec![in alloc; MOMENT; count as usize]?;
    let mut clock = MemClock::new(readings, Vec::new(alloc));
    let mut input = MemSource::new(requests, 0, Vec::new(alloc));
    let mut out = MemSink::new(alloc, Vec::new(alloc));
    let hash_state: BuildHasherDefault<FoldHasher> = BuildHasherDefault::new();
    let mut replay = ReplayTable::new(alloc, hash_state);
    let seed = Some([9; 32]);
    let start = Instant::now(rt)?;
    let end = session(
        alloc,
        &mut input,
        &mut out,
        &mut clock,
        &mut replay,
        who,
        &world,
        seed,
    );
    let time = start.elapsed(rt)?;
    if end.how != HowEnded::Done || successes(out.taken(), count) != count {
        return Err(io::ErrorKind::InvalidData.into());
    }
    Ok((out, time))
}

fn print_pace<R: Print>(
    rt: &R,
    load: Load,
    what: &str,
    done: u64,
    time: Duration,
) -> io::Result<()> {
    let rate = Pace::new(done, time).a_second();
    println!(rt; "{} {what} {rate}", load.payload)
}

/// Times sessions of such requests.
fn time<R: Clock + Print>(rt: &R, alloc: Global, load: Load) -> io::Result<()> {
    let mut done = 0u64;
    let mut sealing = Duration::ZERO;
    let mut opening = Duration::ZERO;
    for _ in 0..u64::MAX {
        let (sealed, time) = answer(rt, alloc, to_seal(alloc, load)?, load.requests)?;
        sealing = sealing.saturating_add(time);
        let requests = to_open(alloc, sealed.taken(), load.requests)?;
        let (_opened, time) = answer(rt, alloc, requests, load.requests)?;
        opening = opening.saturating_add(time);
        done = done.saturating_add(u64::from(load.requests));
        if sealing.as_secs() >= SECONDS && opening.as_secs() >= SECONDS {
            break;
        }
    }
    print_pace(rt, load, "encode", done, sealing)?;
    print_pace(rt, load, "decode", done, opening)
}

/// Times sessions of requests with 5 bytes of payload and with 64 KiB.
pub fn run<R: Clock + Print>(rt: &R, alloc: Global) -> io::Result<()> {
    for load in [
        Load {
            payload: 5,
            requests: 5000,
        },
        Load {
            payload: 65_536,
            requests: 50,
        },
    ] {
        time(rt, alloc, load)?;
    }
    Ok(())
}
