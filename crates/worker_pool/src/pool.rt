//! The pool.

ghost use Rattle.std.specs.Prelude.{◌≡◌, ◌+◌, ◌^◌, ◌≤◌, ◌<◌, [], length, vec_len, vec_capacity, IfOk};
ghost use Rattle.std.specs.List.{All};
ghost use Rattle.munge_types.specs.StandsFor.{Stands};
ghost use Rattle.worker_pool.specs.Joining.{EachFinished, HasPass, InOrder, Joined};
ghost use Rattle.worker_pool.specs.Lanes.{IsFresh};
ghost use Rattle.worker_pool.specs.Pool.{Gathered, PoolRan, left_of};
ghost use Rattle.worker_pool.specs.Work.{IsMade, Work, sight_of, work_of};

use crate::deal::load;
use crate::job::{Done, Job};
use crate::lane::{Lane, serve_all};
use crate::tally::{Tally, count_all};
use byte_io::{Clock, Link};
use decode_rules::World;
use munge_types::{NoMemory, Replay};
use replay_gate::{Closed, Entry, Gate, Pass};
use std::alloc::Global;
use std::sync::Wait;
use std::thread::Threads;

/// What came of the jobs of one worker.
#[derive(Drop)]
pub(crate) struct Batch<L: Drop, C: Drop> {
    pub(crate) done: Vec<Done<L, C>>,
}

/// What a pool leaves.
#[derive(Drop)]
pub struct PoolEnd<L: Drop, C: Drop, R: Replay + Drop> {
    /// Every job once, in the order in which the jobs were given.
    pub done: Vec<Done<L, C>>,
    /// The look-ups of the gate's history.
    pub tally: Tally,
    /// The replay state, and how many entries the gate's history has.
    pub closed: Closed<R>,
}

/// Takes every worker's pass into the first one, and keeps what came of their jobs, the last
/// worker's first.
fn meet_all<L: Drop, C: Drop, R: Replay + Drop>(
    gate: &Gate<R>,
    home: Pass,
    mut lanes: Vec<Lane<L, C>>,
    batches: &mut Vec<Batch<L, C>>,
) -> Pass
    requires home { IsFresh gate.now home }
    requires lanes { All (HasPass gate.now) lanes.items }
    requires none { batches.old.items ≡ [] }
    requires room { vec_len batches.old + vec_len lanes ≤ vec_capacity batches.old }
    ensures gate { result.gate ≡ gate.now }
    ensures share { result.share ≡ length lanes.items + 1 }
    ensures count { length batches.new.items ≡ length lanes.items }
    ensures joined { (work : Work L C) → EachFinished work (length lanes.items) lanes.items
        → Joined work (length lanes.items) 0 result batches.new.items }
{
    let mut all = home;
    while let Some(lane) = lanes.pop() {
        let Lane {
            pass,
            dice: _,
            tasks: _,
            done,
        } = lane;
        all = gate.meet(all, pass);
        batches.push_reserved(Batch { done });
    }
    all
}

/// Gathers what came of so many jobs, in the order of the jobs.
fn gather<L: Drop, C: Drop>(batches: &mut [Batch<L, C>], count: usize, done: &mut Vec<Done<L, C>>)
    requires some { 0 < length batches.old }
    requires in_order { InOrder count (length batches.old) 0 batches.old }
    requires none { done.old.items ≡ [] }
    requires room { vec_len done.old + count ≤ vec_capacity done.old }
    ensures { Gathered count batches.old done.new.items }
{
    let workers = batches.len();
    let mut left = count;
    while left > 0 {
        left -= 1;
        let at = workers - 1 - left % workers;
        let Some(one) = batches[at].done.pop() else {
            unreachable!()
        };
        done.push_reserved(one);
    }
    done.reverse();
}

/// Serves the jobs on one new gate, by a worker for each seed, 1 to 64, each in a thread of its own
/// where one can be made. There are fewer than 2^32 jobs, and the state stands for the empty history.
/// The worker w, counted from 0, has the seed w, and serves in order the jobs whose number is w
/// modulo the number of workers. All memory of its own is taken before the first job; `NoMemory` is
/// answered before it, and the jobs and the state are dropped then. It may wait for its threads.
pub fn pool_run<L, C, R, W>(
    rt: &W,
    alloc: Global,
    jobs: Vec<Job<L, C>>,
    seeds: Vec<[u8; 32]>,
    replay: R,
    world: &World,
) -> Result<PoolEnd<L, C, R>, NoMemory>
where
    L: Link + Drop,
    C: Clock + Drop,
    R: Replay + Drop,
    W: Threads + Wait + Sync,
    requires workers { (1 ≤ length seeds.items) × (length seeds.items ≤ 64) }
    requires jobs { length jobs.items < 2 ^ 32 }
    requires empty { Stands (R.remembered replay) [] }

    // For a world that is made of some three files, as every one is.
    ensures ran { IsMade world.now → IfOk result (λ end.
        let sight = sight_of L.left L.ends L.taken L.rings L.read_faults L.write_faults
        C.readings C.last_reading C.given C.clock_faults in
        PoolRan (work_of sight world.now seeds.items jobs.items)
        (left_of end.done.items end.tally end.closed.length
        (R.remembered end.closed.state))) }
{
    let count = jobs.len();
    let workers = seeds.len();
    let mut done = Vec::with_capacity(alloc, count)?;
    let mut batches = Vec::with_capacity(alloc, workers)?;
    let Entry { gate, pass } = Gate::new(alloc, replay, workers as u32 + 1)?;
    let mut home = pass;
    let lanes = load(alloc, &gate, &mut home, jobs, &seeds)?;
    let lanes = serve_all(rt, alloc, &gate, world, lanes);
    let all = meet_all(&gate, home, lanes, &mut batches);
    let closed = gate.close(all);
    gather(&mut batches, count, &mut done);
    let tally = count_all(&done);
    Ok(PoolEnd {
        done,
        tally,
        closed,
    })
}
