//! The jobs themselves.

ghost use Rattle.std.specs.Prelude.{◌≡◌, ◌≤◌, IfOk, vec_len};
ghost use Rattle.munged_run.specs.LoadJobs.{AreJobsOf, IsJobOf, IsRequestOf};

use super::{LoadClock, LoadLink};
use load_maker::Load;
use munge_types::{Identity, NoMemory};
use std::alloc::Global;
use wire_msg::{Bytes, Message, frame};
use worker_pool::Job;

/// Two jobs for each credential of a load, one behind the other: job j presents credential j / 2.
pub fn jobs_of(alloc: Global, load: &Load) -> Result<Vec<Job<LoadLink, LoadClock>>, NoMemory>
    requires few { vec_len load.now.texts ≤ 50000 }
    ensures jobs { IfOk result (λ jobs. AreJobsOf load.now jobs.items) }
{
    let count = 2 * load.texts.len();
    let mut jobs = Vec::with_capacity(alloc, count)?;
    'jobs: for j in 0..count {
        let job = job_of(alloc, load.who, &load.texts[j / 2])?;
        jobs.push_reserved(job);
    }
    Ok(jobs)
}

/// A job that presents this text.
fn job_of(alloc: Global, who: Identity, text: &Bytes) -> Result<Job<LoadLink, LoadClock>, NoMemory>
    ensures { IfOk result (IsJobOf who text.now) }
{
    Ok(Job {
        who,
        conn: LoadLink::new(decode_request(alloc, text)?),
        clock: LoadClock::new(),
    })
}

/// The frame of a decode request with this text, which is far shorter than a body may be.
fn decode_request(alloc: Global, text: &Bytes) -> Result<Vec<u8>, NoMemory>
    ensures { IfOk result (λ bytes. IsRequestOf text.now bytes.items) }
{
    let text = Vec::from_slice(alloc, text.bytes())?;
    let request = Message::DecodeRequest(Bytes::of(text));
    match frame(alloc, &request) {
        Ok(bytes) => Ok(bytes),
        Err(_) => Err(NoMemory),
    }
}
