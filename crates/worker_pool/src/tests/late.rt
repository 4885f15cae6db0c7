//! A pool whose door lets it wait.

ghost use Rattle.std.specs.Prelude.{◌≡◌, [], Some};

use super::daemon::{link, post, serve_by_two};
use byte_io::{Door, MemDoor, MemLink, Next};
use std::test::Fail;
use std::thread;
use std::time::{Clock, CpuClock, Duration, Instant};

/// How many milliseconds the door waits before it is over.
const WAIT: u64 = 300;

/// A door in memory that waits before it says that it is over.
#[derive(Drop)]
struct LateDoor<'a, K: Clock + Sync> {
    clock: &'a K,
    door: MemDoor,
}

impl<'a, K: Clock + Sync> Door for LateDoor<'a, K> {
    ghost use Rattle.std.proofs.Common.{rules};

    type Conn = MemLink;

    ghost coming = { λ s. Some s.door.coming };

    ghost door_faults = { λ s. s.door.faults };

    ghost is_over = { λ s. s.door.coming ≡ [] };

    fn accept(&mut self) -> Next<MemLink> {
        let next = self.door.accept();
        if let Next::Over = next {
            thread::sleep(self.clock, Duration::from_millis(WAIT));
        }
        next
    }

    ghost over_at_none = { Prim.search rules };
}

#[test]
fn a_pool_sleeps_while_its_door_waits(rt: HostRuntime) -> Result<(), Fail> {
    let alloc = rt.alloc();
    let door = MemDoor::new(vec![in alloc; link(alloc)?]?, Vec::new(alloc));
    let door = LateDoor { clock: &rt, door };
    let start = Instant::now(&rt)?;
    let before = rt.process_cpu_time()?;
    let posts = vec![in alloc; post(door)]?;
    let end = serve_by_two(&rt, alloc, posts, 0, &[])?;
    let used = rt.process_cpu_time()?.saturating_sub(before);
    assert_eq!(rt; end.tally.presented, 1);
    assert!(rt; start.elapsed(&rt)? >= Duration::from_millis(WAIT));
    assert!(rt; used < Duration::from_millis(WAIT / 10));
    Ok(())
}
