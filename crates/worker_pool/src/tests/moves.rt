//! Items that go through a queue of one place, between threads that sleep on its signal.

ghost use Rattle.std.specs.List.{All};
ghost use Rattle.worker_pool.specs.Holders.{HasParts, IsNewLedger};

use crate::holders::{Holder, spread};
use crate::moves::{put, take};
use crate::queue::{Queue, QueuePass};
use crate::signal::Signal;
use std::alloc::Global;
use std::sync::Wait;
use std::test::Fail;
use std::thread::{self, Threads};

/// How many items go through.
const ITEMS: u8 = 200;

/// How often a thread took each item.
#[derive(Drop)]
struct Taken {
    times: [u8; 200],
}

impl Taken {
    fn none() -> Taken {
        Taken { times: [0; 200] }
    }

    fn count(&mut self, item: u8) {
        if let Some(times) = self.times.get_mut(item as usize) {
            *times = times.saturating_add(1);
        }
    }

    /// Whether each item was taken once.
    fn is_each_once(&self) -> bool {
        self.times.iter().all(|times| *times == 1)
    }
}

fn put_all<W: Wait>(rt: &W, queue: &Queue<u8>, signal: &Signal, pass: &mut QueuePass<u8>)
    requires { HasParts queue.now pass.old }
{
    for item in 0..ITEMS {
        put(rt, queue, signal, pass, item);
    }
    signal.close(rt);
}

fn take_all<W: Wait>(
    rt: &W,
    queue: &Queue<u8>,
    signal: &Signal,
    pass: &mut QueuePass<u8>,
    taken: &mut Taken,
)
    requires { HasParts queue.now pass.old }
{
    for _ in rt.forever() {
        let Some(item) = take(rt, queue, signal, pass) else {
            break;
        };
        taken.count(item);
    }
}

/// The first one puts, and all others take.
fn work<W: Wait>(rt: &W, queue: &Queue<u8>, signal: &Signal, holder: &mut Holder<u8, Taken>)
    requires { IsNewLedger queue.now holder.old }
{
    if holder.number == 0 {
        put_all(rt, queue, signal, &mut holder.pass);
    } else {
        take_all(rt, queue, signal, &mut holder.pass, &mut holder.state);
    }
}

/// Lets all of them work, each in a thread.
fn work_all<W: Threads + Wait + Sync>(
    rt: &W,
    queue: &Queue<u8>,
    signal: &Signal,
    holders: &mut [Holder<u8, Taken>],
)
    requires { All (IsNewLedger queue.now) holders.old }
{
    let threads = holders.len().max(1);
    thread::for_each_mut(
        rt,
        holders,
        threads,
        &|_, holder: &mut Holder<u8, Taken>|
            requires { IsNewLedger queue.now holder.old }
        { work(rt, queue, signal, holder) },
    );
}

/// Two threads: whether the second took each item once.
fn pass_through<W: Threads + Wait + Sync>(rt: &W, alloc: Global) -> Result<bool, Fail> {
    let (queue, mut home) = Queue::ruled(alloc, 1)?;
    let signal = Signal::new(1);
    let mut states = Vec::with_capacity(alloc, 2)?;
    states.push(Taken::none())?;
    states.push(Taken::none())?;
    let mut holders = spread(alloc, &queue, &mut home, states)?;
    work_all(rt, &queue, &signal, &mut holders);
    Ok(
        holders
            .iter()
            .all(|h| h.number == 0 || h.state.is_each_once()),
    )
}

#[test]
fn each_item_comes_once(rt: HostRuntime) -> Result<(), Fail> {
    assert!(rt; pass_through(&rt, rt.alloc())?);
    Ok(())
}
