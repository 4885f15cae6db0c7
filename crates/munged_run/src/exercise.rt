//! Serving a generated load.

ghost use Rattle.std.specs.Prelude.{◌≡◌, ◌≤◌, [], ◌∷◌, ◌++◌, List, IfOk, length};
ghost use Rattle.std.specs.List.{list_any};
ghost use Rattle.munge_types.specs.Live.{live};
ghost use Rattle.munge_types.specs.StandsFor.{Stands};
ghost use Rattle.munge_types.specs.declared.history.Event.{Event};
ghost use Rattle.munge_types.specs.declared.history.Event.TheVariants.{Purge};
ghost use Rattle.munged_run.specs.LoadServed.{seeds_of as seeds_are, wants_memory};
ghost use Rattle.munged_run.specs.ServedBy.{IsServedBy};

use crate::exercise_words::AskedExercise;
use crate::load::{LoadClock, LoadLink, jobs_of};
use decode_rules::laws::finding_is_one;
use load_maker::laws::credential_is_ready;
use load_maker::make;
use munge_types::laws::one_more_event;
use munge_types::{NoMemory, Replay};
use replay_table::ReplayTable;
use session_core::ServeEnd;
use std::alloc::Global;
use std::hash::{BuildHasherDefault, FoldHasher};
use std::sync::Wait;
use std::thread::Threads;
use wire_msg::laws::{frame_has_one_message, no_frame_goes_on_to_another};
use worker_pool::{Done, PoolEnd, Tally, pool_run};

/// What came of a load.
#[derive(Clone, Copy, Debug, PartialEq, Eq)]
pub struct LoadEnd {
    /// The look-ups of the closing history.
    pub tally: Tally,
    /// How many pairs are kept after the closing purge.
    pub kept: u64,
    /// A job ended by want of memory.
    pub wanted: bool,
}

/// Makes the load that was asked for, serves it on one gate by so many workers, each in a thread,
/// and purges the closing state. After `NoMemory` nothing was served.
pub fn serve_load<W: Threads + Wait + Sync>(
    rt: &W,
    alloc: Global,
    asked: &AskedExercise,
) -> Result<LoadEnd, NoMemory>
    requires some { 1 ≤ asked.now.credentials }
    requires most { asked.now.credentials ≤ 50000 }
    requires workers { (1 ≤ asked.now.workers) × (asked.now.workers ≤ 64) }

    ensures { IfOk result (IsServedBy asked.now) }
{
    credential_is_ready();
    finding_is_one();
    frame_has_one_message();
    no_frame_goes_on_to_another();
    one_more_event();
    let load = make(alloc, asked.credentials, asked.number)?;
    let jobs = jobs_of(alloc, &load)?;
    let seeds = seeds_of(alloc, asked.workers)?;
    let hash_state: BuildHasherDefault<FoldHasher> = BuildHasherDefault::new();
    let replay = ReplayTable::new(alloc, hash_state);
    let end = pool_run(rt, alloc, jobs, seeds, replay, &load.world)?;
    Ok(close_load(end, load.last))
}

/// The seed of each of so many workers.
fn seeds_of(alloc: Global, workers: u32) -> Result<Vec<[u8; 32]>, NoMemory>
    requires { workers ≤ 64 }
    ensures seeds { IfOk result (λ seeds. seeds.items ≡ seeds_are workers) }
    ensures count { IfOk result (λ seeds. length seeds.items ≡ workers) }
{
    let mut seeds = Vec::with_capacity(alloc, workers as usize)?;
    'seeds: for worker in 0..workers {
        seeds.push_reserved([worker as u8; 32]);
    }
    Ok(seeds)
}

/// Purges what a pool left, and counts.
fn close_load<R: Replay + Drop>(end: PoolEnd<LoadLink, LoadClock, R>, last: u32) -> LoadEnd
    ensures tally { result.tally ≡ end.tally }
    ensures kept { (history : List Event) → Stands (R.remembered end.closed.state) history
        → result.kept ≡ live (history ++ Purge 0 last ∷ []) }
    ensures wanted { result.wanted
        ≡ list_any (λ done. wants_memory done.served.how) end.done.items }
{
    let PoolEnd {
        done,
        tally,
        closed,
    } = end;
    let mut state = closed.state;
    state.purge(last, u32::MAX);
    LoadEnd {
        tally,
        kept: state.kept(),
        wanted: wants(&done),
    }
}

/// One of these jobs ended by want of memory.
fn wants(done: &[Done<LoadLink, LoadClock>]) -> bool
    ensures { result ≡ list_any (λ done. wants_memory done.served.how) done.now }
{
    done.iter().any(|done| is_wanting(done.served.how))
}

/// A job that ended so ended by want of memory.
fn is_wanting(how: ServeEnd) -> bool
    ensures { result ≡ wants_memory how }
{
    matches!(how, ServeEnd::NoMemory)
}
