//! Pools of which a door, the ticker or a connection fails.

ghost use Rattle.std.specs.Prelude.{◌≡◌, IfOk, length};

use super::daemon::{REQUEST, Turn, counts, ends_of, link, post, serve_by_two, turns_of};
use crate::Post;
use byte_io::{MemDoor, MemLink};
use session_core::ServeEnd;
use std::alloc::{AllocError, Global};
use std::test::Fail;

/// One connection that was served to its end.
const DONE: &[ServeEnd] = &[ServeEnd::Done];

/// What fails, by the numbers of the calls that do: accepts of the first door, ticks, and reads and
/// writes of its first connection. Then how its two connections ended, and how many look-ups were
/// made and how many of them replayed.
type Case<'a> = ([&'a [u32]; 4], [&'a [ServeEnd]; 2], u64, u64);

/// A door with two connections, of which the first fails so, and a second door with one.
fn posts_of(alloc: Global, fails: [&[u32]; 4]) -> Result<Vec<Post<MemDoor>>, AllocError>
    ensures { IfOk result (λ posts. length posts.items ≡ 2) }
{
    let [accepts, _, reads, writes] = fails;
    let first = MemLink::new(
        alloc,
        REQUEST.to_vec(alloc)?,
        reads.to_vec(alloc)?,
        writes.to_vec(alloc)?,
    );
    let door = MemDoor::new(vec![in alloc; first, link(alloc)?]?, accepts.to_vec(alloc)?);
    let other = MemDoor::new(vec![in alloc; link(alloc)?]?, Vec::new(alloc));
    Ok(vec![in alloc; post(door), post(other)]?)
}

/// Whether each post's door failed.
fn failed_of<D: Drop>(alloc: Global, posts: &[Post<D>]) -> Result<Vec<bool>, AllocError> {
    let mut list = Vec::new(alloc);
    for post in posts {
        list.push(post.failed)?;
    }
    Ok(list)
}

#[test]
fn faults_end_what_they_touch(rt: HostRuntime) -> Result<(), Fail> {
    let alloc = rt.alloc();
    let table: [Case<'_>; 5] = [
        ([&[1], &[], &[], &[]], [&[], &[]], 1, 0),
        ([&[2], &[], &[], &[]], [DONE, &[]], 2, 1),
        ([&[], &[1], &[], &[]], [DONE, DONE], 3, 2),
        ([&[], &[], &[1], &[]], [&[ServeEnd::ReadFault], DONE], 2, 1),
        ([&[], &[], &[], &[1]], [&[ServeEnd::WriteFault], DONE], 3, 2),
    ];
    for (fails, [first, second], looked_up, replayed) in table {
        let end = serve_by_two(&rt, alloc, posts_of(alloc, fails)?, 0, fails[1])?;
        let failed = failed_of(alloc, &end.posts)?;
        assert_eq!(rt; failed.as_slice(), [fails[0].len() == 1, false].as_slice());
        assert_eq!(rt; end.ticker_failed, fails[1].len() == 1);
        assert_eq!(rt; counts(&end.tally), (looked_up, 1, replayed, 0));
        for (post, turn, want) in [(0, 0, first), (0, 1, second), (1, 0, DONE)] {
            assert_eq!(rt; ends_of(alloc, &end.books, post, turn)?.as_slice(), want);
        }
    }
    Ok(())
}

/// The number of the call that fails, of a door that gives three connections or of a ticker that
/// gives Due three times, and says at the fourth call that it is over; how often it gives, and
/// whether it fails.
const CALLS: [(u32, u64, bool); 5] = [
    (1, 0, true),
    (2, 1, true),
    (3, 2, true),
    (4, 3, true),
    (5, 3, false),
];

/// A door with three connections of which these accepts fail, and a second door with one.
fn three_and_one(alloc: Global, accepts: &[u32]) -> Result<Vec<Post<MemDoor>>, AllocError>
    ensures { IfOk result (λ posts. length posts.items ≡ 2) }
{
    let conns = vec![in alloc; link(alloc)?, link(alloc)?, link(alloc)?]?;
    let door = MemDoor::new(conns, accepts.to_vec(alloc)?);
    let other = MemDoor::new(vec![in alloc; link(alloc)?]?, Vec::new(alloc));
    Ok(vec![in alloc; post(door), post(other)]?)
}

/// The connections of the turns below `first` of the first post and one of the second, all of them
/// answered.
fn answered(alloc: Global, first: u64) -> Result<Vec<Turn>, AllocError> {
    let mut turns = Vec::new(alloc);
    for turn in 0..first {
        turns.push((0, turn, true, false))?;
    }
    turns.push((1, 0, true, false))?;
    Ok(turns)
}

#[test]
fn a_door_that_fails_gives_no_more(rt: HostRuntime) -> Result<(), Fail> {
    let alloc = rt.alloc();
    for (call, given, failed) in CALLS {
        let end = serve_by_two(&rt, alloc, three_and_one(alloc, &[call])?, 0, &[])?;
        let told = failed_of(alloc, &end.posts)?;
        assert_eq!(rt;
            told.as_slice(),
            [failed, false].as_slice(),
            "at accept {call}"
        );
        assert_eq!(rt;
            counts(&end.tally),
            (given + 1, 1, given, 0),
            "at accept {call}"
        );
        let (turns, want) = (turns_of(alloc, &end.books)?, answered(alloc, given)?);
        assert_eq!(rt; turns.as_slice(), want.as_slice(), "at accept {call}");
    }
    Ok(())
}

#[test]
fn a_ticker_that_fails_ends_the_purges(rt: HostRuntime) -> Result<(), Fail> {
    let alloc = rt.alloc();
    for (call, given, failed) in CALLS {
        let end = serve_by_two(&rt, alloc, three_and_one(alloc, &[])?, 3, &[call])?;
        let told = (end.purges, end.missed, end.ticker_failed);
        assert_eq!(rt; told, (given, 0, failed), "at tick {call}");
        assert_eq!(rt; counts(&end.tally), (4, 1, 3, 0), "at tick {call}");
        assert_eq!(rt; end.closed.length, 4 + given, "at tick {call}");
        let (turns, want) = (turns_of(alloc, &end.books)?, answered(alloc, 3)?);
        assert_eq!(rt; turns.as_slice(), want.as_slice(), "at tick {call}");
    }
    Ok(())
}
