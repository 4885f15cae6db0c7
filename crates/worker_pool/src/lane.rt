//! A worker: its pass, its dice, its jobs, and what came of them.

ghost use Rattle.std.specs.Prelude.{◌≡◌, length};
ghost use Rattle.std.specs.List.{All};
ghost use Rattle.session_core.specs.OnGate.{Draws, PassGoesOn};
ghost use Rattle.worker_pool.specs.Lanes.{EachRan, HasRun, IsReady};
ghost use Rattle.worker_pool.specs.Serving.{IsServedJob};
ghost use Rattle.worker_pool.specs.Work.{sight_of};

use crate::job::{Done, Job};
use byte_io::{Clock, Link};
use cred_seal::Dice;
use decode_rules::World;
use munge_types::Replay;
use replay_gate::{Gate, Pass};
use session_core::{Rooms, serve_in};
use std::alloc::Global;
use std::sync::Wait;
use std::thread::{self, Threads};

/// A job, and its number among all jobs.
#[derive(Drop)]
pub(crate) struct Task<L: Drop, C: Drop> {
    pub(crate) number: u32,
    pub(crate) job: Job<L, C>,
}

/// A worker. Its next job is the last of its tasks.
#[derive(Drop)]
pub(crate) struct Lane<L: Drop, C: Drop> {
    pub(crate) pass: Pass,
    pub(crate) dice: Dice,
    pub(crate) tasks: Vec<Task<L, C>>,
    pub(crate) done: Vec<Done<L, C>>,
}

/// Serves one task in these buffers, with this pass and these dice.
fn serve<L, C, R, W>(
    rt: &W,
    alloc: Global,
    rooms: &mut Rooms,
    gate: &Gate<R>,
    world: &World,
    pass: &mut Pass,
    dice: &mut Dice,
    task: Task<L, C>,
) -> Done<L, C>
where
    L: Link + Drop,
    C: Clock + Drop,
    R: Replay + Drop,
    W: Wait,
    requires of_gate { pass.old.gate ≡ gate.now }
    ensures number { result.job ≡ task.number }
    ensures served { let sight = sight_of L.left L.ends L.taken L.rings L.read_faults
        L.write_faults C.readings C.last_reading C.given C.clock_faults in
        IsServedJob sight world.now dice.old.seed pass.old pass.new task.job result }
    ensures draws { Draws dice.old dice.new result.served.drawn }
    ensures pass { PassGoesOn pass.old pass.new }
{
    let Task { number, job } = task;
    let Job {
        who,
        mut conn,
        mut clock,
    } = job;
    let served = serve_in(
        rt, alloc, rooms, &mut conn, &mut clock, gate, pass, dice, who, world,
    );
    Done {
        job: number,
        pass: pass.number(),
        conn,
        clock,
        served,
    }
}

impl<L: Link + Drop, C: Clock + Drop> Lane<L, C> {
    /// Serves all tasks, in buffers that it keeps between them. There is room for what comes of them.
    pub(crate) fn run<R: Replay + Drop, W: Wait>(
        &mut self,
        rt: &W,
        alloc: Global,
        gate: &Gate<R>,
        world: &World,
    )
        requires ready { IsReady gate.now self.old }
        ensures { let sight = sight_of L.left L.ends L.taken L.rings L.read_faults
            L.write_faults C.readings C.last_reading C.given C.clock_faults in
            HasRun sight world.now self.old self.new }
    {
        let mut rooms = Rooms::new(alloc);
        while let Some(task) = self.tasks.pop() {
            let Lane { pass, dice, .. } = self;
            let done = serve(rt, alloc, &mut rooms, gate, world, pass, dice, task);
            self.done.push_reserved(done);
        }
    }
}

/// Lets every worker run, each in a thread.
pub(crate) fn run_all<L, C, R, W>(
    rt: &W,
    alloc: Global,
    gate: &Gate<R>,
    world: &World,
    lanes: &mut [Lane<L, C>],
)
where
    L: Link + Drop,
    C: Clock + Drop,
    R: Replay + Drop,
    W: Threads + Wait + Sync,
    requires ready { All (IsReady gate.now) lanes.old }
    ensures { let sight = sight_of L.left L.ends L.taken L.rings L.read_faults
        L.write_faults C.readings C.last_reading C.given C.clock_faults in
        EachRan sight world.now lanes.old lanes.new }
{
    let workers = lanes.len().max(1);
    thread::for_each_mut(
        rt,
        lanes,
        workers,
        &|_, lane: &mut Lane<L, C>|
            requires { IsReady gate.now lane.old }
            ensures { let sight = sight_of L.left L.ends L.taken L.rings L.read_faults
                L.write_faults C.readings C.last_reading C.given C.clock_faults in
                HasRun sight world.entry.now lane.old lane.new }
        { lane.run(rt, alloc, gate, world) },
    );
}

/// The same, of a list that it hands on.
pub(crate) fn serve_all<L, C, R, W>(
    rt: &W,
    alloc: Global,
    gate: &Gate<R>,
    world: &World,
    mut lanes: Vec<Lane<L, C>>,
) -> Vec<Lane<L, C>>
where
    L: Link + Drop,
    C: Clock + Drop,
    R: Replay + Drop,
    W: Threads + Wait + Sync,
    requires ready { All (IsReady gate.now) lanes.items }
    ensures count { length result.items ≡ length lanes.items }
    ensures ran { let sight = sight_of L.left L.ends L.taken L.rings L.read_faults
        L.write_faults C.readings C.last_reading C.given C.clock_faults in
        EachRan sight world.now lanes.items result.items }
{
    run_all(rt, alloc, gate, world, &mut lanes);
    lanes
}
