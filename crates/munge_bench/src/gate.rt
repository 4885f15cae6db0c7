//! Look-ups that threads make on one replay state: through its gate, and under a mutex beside it.
//!
//! The state is the plain list of pairs. Each measurement takes a second of elapsed time, from
//! before the threads start until all have ended, and counts the look-ups of all of them. Its line
//! has the pairs, the number of threads, the way to the state, and the pace.

ghost use Rattle.std.specs.Prelude.{◌<◌};

use crate::caller::{AtGate, AtMutex, Caller, State};
use crate::lane::{Kind, Lane, Race};
use crate::pace::Pace;
use replay_gate::{Entry, Gate};
use std::alloc::Global;
use std::io;
use std::sync::{Mutex, Wait};
use std::thread::{self, Threads};
use std::time::{Clock, Instant};

/// Lets the lanes run, each in a thread, and answers how many look-ups they made in what time.
fn time<R: Threads + Wait + Clock + Sync, C: Caller + Drop + Send>(
    rt: &R,
    kind: Kind,
    lanes: &mut [Lane<C>],
) -> io::Result<Pace> {
    let start = Instant::now(rt)?;
    let race = Race::new(kind, start);
    let threads = lanes.len().max(1);
    thread::for_each_mut(rt, lanes, threads, &|_, lane| lane.run(rt, &race));
    let time = start.elapsed(rt)?;
    let admits = lanes
        .iter()
        .fold(0, |sum: u64, lane| sum.saturating_add(lane.done()));
    Ok(Pace::new(admits, time))
}

fn at_gate<R: Threads + Wait + Clock + Sync>(
    rt: &R,
    alloc: Global,
    kind: Kind,
    threads: u8,
) -> io::Result<Pace>
    requires { 0 < threads }
{
    let Ok(entry) = Gate::new(alloc, State::new(alloc), u32::from(threads)) else {
        return Err(io::ErrorKind::OutOfMemory.into());
    };
    let Entry { gate, mut pass } = entry;
    let shared = &gate;
    let mut lanes = Vec::new(alloc);
    for number in 1..threads {
        if pass.spare() == 0 {
            break;
        }
        let Ok(given) = shared.split(&mut pass, 1) else {
            return Err(io::ErrorKind::OutOfMemory.into());
        };
        lanes.push(Lane::new(alloc, number, AtGate::new(shared, given))?)?;
    }
    lanes.push(Lane::new(alloc, 0, AtGate::new(shared, pass))?)?;
    time(rt, kind, &mut lanes)
}

fn at_mutex<R: Threads + Wait + Clock + Sync>(
    rt: &R,
    alloc: Global,
    kind: Kind,
    threads: u8,
) -> io::Result<Pace> {
    let state = Mutex::new(State::new(alloc));
    let mut lanes = Vec::new(alloc);
    for number in 0..threads {
        lanes.push(Lane::new(alloc, number, AtMutex::new(&state))?)?;
    }
    time(rt, kind, &mut lanes)
}

/// Times look-ups by one, two and four threads, of pairs that have expired and of pairs that are
/// new.
pub fn run<R: Threads + Wait + Clock + Print + Sync>(rt: &R, alloc: Global) -> io::Result<()> {
    for kind in [Kind::Expired, Kind::New] {
        for threads in [1, 2, 4] {
            let pace = at_gate(rt, alloc, kind, threads)?;
            println!(rt; "{kind} {threads} gate {pace}")?;
            let pace = at_mutex(rt, alloc, kind, threads)?;
            println!(rt; "{kind} {threads} mutex {pace}")?;
        }
    }
    Ok(())
}
