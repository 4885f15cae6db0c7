//! Dealing jobs out to workers.

ghost use Rattle.std.specs.Prelude.{◌≡◌, ℕ, ◌^◌, ◌≤◌, ◌<◌, List, [], length, IfOk, OnOk};
ghost use Rattle.std.specs.List.{All};
ghost use Rattle.worker_pool.specs.Dealing.{EachDealt, EachLoaded, EachNew, EachReserved, IsHome};
ghost use Rattle.replay_gate.specs.PassState.{GateId};
ghost use Rattle.worker_pool.specs.Lanes.{IsFresh};

use crate::job::Job;
use crate::lane::{Lane, Task};
use cred_seal::Dice;
use munge_types::{NoMemory, Replay};
use replay_gate::{Gate, Pass};
use std::alloc::Global;

/// Workers without jobs, one for each seed, each with a pass of its own.
pub(crate) fn new_lanes<L: Drop, C: Drop, R: Replay + Drop>(
    alloc: Global,
    gate: &Gate<R>,
    home: &mut Pass,
    seeds: &[[u8; 32]],
) -> Result<Vec<Lane<L, C>>, NoMemory>
    requires home { IsHome gate.now (length seeds.now) home.old }
    ensures home { OnOk result (IsFresh gate.now home.new) }
    ensures count { IfOk result (λ lanes. length lanes.items ≡ length seeds.now) }
    ensures lanes { IfOk result (λ lanes. EachNew gate.now seeds.now lanes.items) }
{
    let mut lanes = Vec::new(alloc);
    for seed in seeds.iter() {
        let pass = gate.split(home, 1)?;
        lanes.push(Lane {
            pass,
            dice: Dice::new(*seed),
            tasks: Vec::new(alloc),
            done: Vec::new(alloc),
        })?;
    }
    Ok(lanes)
}

/// Deals the jobs out, so that each worker has those whose number leaves its own as the rest.
pub(crate) fn deal<L: Drop, C: Drop>(
    mut jobs: Vec<Job<L, C>>,
    lanes: &mut [Lane<L, C>],
) -> Result<(), NoMemory>
    requires some { 0 < length lanes.old }
    requires few { length jobs.items < 2 ^ 32 }
    requires empty { All (λ lane. lane.tasks.items ≡ []) lanes.old }
    ensures { OnOk result (EachDealt jobs.items 0 lanes.old lanes.new) }
{
    while let Some(job) = jobs.pop() {
        let number = jobs.len();
        let worker = number % lanes.len();
        let task = Task {
            number: number as u32,
            job,
        };
        lanes[worker].tasks.push(task)?;
    }
    Ok(())
}

/// Takes the room for what comes of the jobs.
pub(crate) fn reserve<L: Drop, C: Drop>(
    alloc: Global,
    lanes: &mut [Lane<L, C>],
) -> Result<(), NoMemory>
    ensures { OnOk result (EachReserved lanes.old lanes.new) }
{
    for lane in lanes.iter_mut() {
        lane.done = Vec::with_capacity(alloc, lane.tasks.len())?;
    }
    Ok(())
}

/// Deals the jobs out, and takes the room for what comes of them.
fn deal_all<L: Drop, C: Drop>(
    alloc: Global,
    jobs: Vec<Job<L, C>>,
    lanes: &mut [Lane<L, C>],
) -> Result<(), NoMemory>
    requires some { 0 < length lanes.old }
    requires few { length jobs.items < 2 ^ 32 }
    requires empty { All (λ lane. lane.tasks.items ≡ []) lanes.old }
    ensures { OnOk result ((gate : GateId) (seeds : List (List ℕ)) → EachNew gate seeds lanes.old
        → EachLoaded jobs.items gate seeds lanes.new) }
{
    deal(jobs, lanes)?;
    reserve(alloc, lanes)
}

/// Workers that are ready to serve the jobs.
pub(crate) fn load<L: Drop, C: Drop, R: Replay + Drop>(
    alloc: Global,
    gate: &Gate<R>,
    home: &mut Pass,
    jobs: Vec<Job<L, C>>,
    seeds: &[[u8; 32]],
) -> Result<Vec<Lane<L, C>>, NoMemory>
    requires home { IsHome gate.now (length seeds.now) home.old }
    requires some { 1 ≤ length seeds.now }
    requires few { length jobs.items < 2 ^ 32 }
    ensures home { OnOk result (IsFresh gate.now home.new) }
    ensures count { IfOk result (λ lanes. length lanes.items ≡ length seeds.now) }
    ensures lanes { IfOk result (λ lanes. EachLoaded jobs.items gate.now seeds.now lanes.items) }
{
    let mut lanes = new_lanes(alloc, gate, home, seeds)?;
    deal_all(alloc, jobs, &mut lanes)?;
    Ok(lanes)
}
