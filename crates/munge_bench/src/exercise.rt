//! The generated load, served by one, two and four workers on one gate.
//!
//! Each credential of the load is presented twice, over connections in memory. A measurement takes
//! from the jobs being handed to the pool until all have come back; making them is left out. Its
//! line has the number of workers, and how many jobs were served a second, if half of them were
//! accepted and the others found replayed.

use crate::pace::Pace;
use byte_io::{MemClock, MemLink};
use load_maker::{Load, make};
use replay_table::ReplayTable;
use std::alloc::{AllocError, Global};
use std::hash::{BuildHasherDefault, FoldHasher};
use std::io;
use std::sync::Wait;
use std::thread::Threads;
use std::time::{Clock, Instant};
use wire_msg::{Kind, message_head};
use worker_pool::{Job, pool_run};

/// How many credentials the load has.
const CREDENTIALS: u32 = 20_000;

/// The load's number.
const NUMBER: u64 = 1;

/// The most jobs that a pool takes.
const MOST_JOBS: usize = u32::MAX as usize;

/// The jobs that present each credential of a load twice.
fn jobs_of(alloc: Global, load: &Load) -> Result<Vec<Job<MemLink, MemClock>>, AllocError> {
    let mut jobs = Vec::new(alloc);
    for text in &load.texts {
        for _ in 0..2 {
            let mut request = Vec::new(alloc);
            let size = u32::try_from(text.bytes().len()).unwrap_or(u32::MAX);
            request.extend_from_slice(&message_head(Kind::DecodeRequest, size))?;
            request.extend_from_slice(text.bytes())?;
            let mut readings = Vec::new(alloc);
            readings.push(load.moment)?;
            jobs.push(Job {
                who: load.who,
                conn: MemLink::new(alloc, request, Vec::new(alloc), Vec::new(alloc)),
                clock: MemClock::new(readings, Vec::new(alloc)),
            })?;
        }
    }
    Ok(jobs)
}

/// Serves the load by so many workers, 1 to 64.
fn time<R: Threads + Wait + Clock + Sync>(rt: &R, alloc: Global, workers: u8) -> io::Result<Pace> {
    let Ok(load) = make(alloc, CREDENTIALS, NUMBER) else {
        return Err(io::ErrorKind::OutOfMemory.into());
    };
    let jobs = jobs_of(alloc, &load)?;
    let count = jobs.len() as u64;
    let mut seeds = Vec::new(alloc);
    for worker in 0..workers {
        seeds.push([worker; 32])?;
    }
    if seeds.is_empty() || seeds.len() > 64 || jobs.len() > MOST_JOBS {
        return Err(io::ErrorKind::InvalidInput.into());
    }
    let hash_state: BuildHasherDefault<FoldHasher> = BuildHasherDefault::new();
    let replay = ReplayTable::new(alloc, hash_state);
    let start = Instant::now(rt)?;
    let Ok(end) = pool_run(rt, alloc, jobs, seeds, replay, &load.world) else {
        return Err(io::ErrorKind::OutOfMemory.into());
    };
    let time = start.elapsed(rt)?;
    let half = u64::from(CREDENTIALS);
    if (end.tally.accepted, end.tally.replayed) != (half, half) {
        return Err(io::ErrorKind::InvalidData.into());
    }
    Ok(Pace::new(count, time))
}

/// Times one, two and four workers.
pub fn run<R: Threads + Wait + Clock + Print + Sync>(rt: &R, alloc: Global) -> io::Result<()> {
    for workers in [1, 2, 4] {
        let rate = time(rt, alloc, workers)?.a_second();
        println!(rt; "{workers} {rate}")?;
    }
    Ok(())
}
