//! A daemon of which each call that opens a door, accepts or waits for a tick fails in its turn, and
//! connections that fail while others are served. It serves three connections that bring one text,
//! and its ticker is due three times.

ghost use Rattle.std.specs.Prelude.{◌≡◌, IfOk};
ghost use Rattle.std.specs.List.{All};
ghost use Rattle.byte_io.specs.MemDoor.{HasNoFault};
ghost use Rattle.byte_io.specs.MemHall.{HasNoDoorFault};

use super::serve::{ONE, ends};
use super::serving::{BOTH, FIRST, REQUEST, USUAL, serve};
use byte_io::{MemDoor, MemHall, MemLink, MemTicker, MemWire, NamedDoor};
use session_core::ServeEnd;
use std::alloc::{AllocError, Global};
use std::process::Abort;
use std::sync::Wait;
use std::test::Fail;
use std::thread::Threads;
use worker_pool::{MemBook, MemBooks};

/// The numbers of the calls that fail, counted from 1; 0 for none.
#[derive(Clone, Copy)]
struct Failing {
    /// Of those that open a door, which the daemon makes once for each of its two sockets.
    opening: u32,
    /// Of the accepts of the first door, which gives two connections and is then over.
    accept: u32,
    /// Of the accepts of the other door, which gives one and is then over.
    other_accept: u32,
    /// Of the ticks: three times it is time, and then the ticker is over.
    tick: u32,
    /// Of the reads of the first connection: one of the request's head, and one of its body.
    read: u32,
    /// Of the writes to the first connection: one of the reply.
    write: u32,
}

/// Nothing fails.
const NO_FAILING: Failing = Failing {
    opening: 0,
    accept: 0,
    other_accept: 0,
    tick: 0,
    read: 0,
    write: 0,
};

/// What is printed where the text came three times.
const THREE: &str = "ready\npresented 3 accepted 1 replayed 2 expired 0 kept 1\n";

/// The post and the turn of each connection.
const ALL: &[(u32, u64)] = &[(0, 0), (0, 1), (1, 0)];

/// The bytes of the reply to a text that is accepted, and to one that is replayed: it shows the
/// content.
const REPLY_SIZE: usize = 52;

/// A connection that brings the text, of which this read and this write fail.
fn link(alloc: Global, read: u32, write: u32) -> Result<MemLink, AllocError>
    ensures { IfOk result HasNoFault }
{
    Ok(MemLink::new(
        alloc,
        REQUEST.to_vec(alloc)?,
        vec![in alloc; read]?,
        vec![in alloc; write]?,
    ))
}

/// The first door.
fn first_door(alloc: Global, failing: Failing) -> Result<NamedDoor, AllocError>
    ensures { IfOk result HasNoDoorFault }
{
    let first = link(alloc, failing.read, failing.write)?;
    let conns = vec![in alloc; first, link(alloc, 0, 0)?]?;
    Ok(NamedDoor {
        path: String::from_str(alloc, "ann.socket")?,
        door: MemDoor::new(conns, vec![in alloc; failing.accept]?),
    })
}

/// The other door.
fn other_door(alloc: Global, failing: Failing) -> Result<NamedDoor, AllocError>
    ensures { IfOk result HasNoDoorFault }
{
    let conns = vec![in alloc; link(alloc, 0, 0)?]?;
    Ok(NamedDoor {
        path: String::from_str(alloc, "root.socket")?,
        door: MemDoor::new(conns, vec![in alloc; failing.other_accept]?),
    })
}

/// Both doors.
fn doors_of(alloc: Global, failing: Failing) -> Result<Vec<NamedDoor>, AllocError>
    ensures { IfOk result (λ doors. All HasNoDoorFault doors.items) }
{
    let first = first_door(alloc, failing)?;
    let other = other_door(alloc, failing)?;
    Ok(vec![in alloc; first, other]?)
}

/// The hall with both doors.
fn hall_of(alloc: Global, failing: Failing) -> Result<MemHall, AllocError> {
    let doors = doors_of(alloc, failing)?;
    let wire = MemWire::new(alloc, Vec::new(alloc), Vec::new(alloc));
    Ok(MemHall::new(doors, wire, vec![in alloc; failing.opening]?))
}

/// The posts and turns of the connections that the books keep and that ended so, in order.
fn turns_of(
    alloc: Global,
    books: &[MemBook<MemLink>],
    how: ServeEnd,
) -> Result<Vec<(u32, u64)>, AllocError> {
    let mut turns = Vec::new(alloc);
    for book in books {
        for one in book.handled() {
            if one.served.how == how {
                turns.push((one.post, one.turn))?;
            }
        }
    }
    turns.sort_unstable();
    Ok(turns)
}

/// Asserts that each connection that was served to its end was sent a whole reply, and that no other
/// was sent anything.
fn assert_sent(rt: &impl Abort, books: &[MemBook<MemLink>]) {
    for book in books {
        for one in book.handled() {
            let size = if one.served.how == ServeEnd::Done {
                REPLY_SIZE
            } else {
                0
            };
            assert_eq!(rt; one.conn.taken().len(), size, "what was sent");
        }
    }
}

/// What a daemon did that served: the connections that were served to their end, those whose reads
/// failed and those whose writes did, and how many purges were made.
#[derive(Clone, Copy)]
struct Did<'a> {
    done: &'a [(u32, u64)],
    read_faults: &'a [(u32, u64)],
    write_faults: &'a [(u32, u64)],
    purges: u64,
}

/// It served these to their end, none failed, and it made three purges.
fn answered(done: &[(u32, u64)]) -> Did<'_> {
    Did {
        done,
        read_faults: &[],
        write_faults: &[],
        purges: 3,
    }
}

/// Asserts what the books keep.
fn assert_kept(
    rt: &impl Abort,
    alloc: Global,
    books: &[MemBook<MemLink>],
    did: &Did<'_>,
) -> Result<(), AllocError> {
    for (how, wanted) in [
        (ServeEnd::Done, did.done),
        (ServeEnd::ReadFault, did.read_faults),
        (ServeEnd::WriteFault, did.write_faults),
    ] {
        let turns = turns_of(alloc, books, how)?;
        assert_eq!(rt; turns.as_slice(), wanted, "which ended by {how:?}");
    }
    assert_sent(rt, books);
    Ok(())
}

/// Serves where these calls fail, and asserts the status, what is printed, and what the daemon did,
/// or that it served nothing.
fn assert_fails<R: Threads + Wait + Sync + Abort>(
    rt: &R,
    alloc: Global,
    failing: Failing,
    status: u8,
    printed: &str,
    did: Option<Did<'_>>,
) -> Result<(), Fail> {
    let mut hall = hall_of(alloc, failing)?;
    let mut ticker = MemTicker::new(3, vec![in alloc; failing.tick]?);
    let mut books = MemBooks::new(alloc);
    let wanted = ends(status, printed);
    let end = serve(
        rt,
        alloc,
        &USUAL,
        &mut hall,
        &mut ticker,
        &mut books,
        &wanted,
    )?;
    match (&end.served, did) {
        (Some(pool), Some(did)) => {
            assert_eq!(rt; (pool.purges, pool.missed), (did.purges, 0), "the purges");
            assert_kept(rt, alloc, &pool.books, &did)?;
        }
        (None, None) => {}
        _ => assert!(rt; false, "what was served"),
    }
    Ok(())
}

#[test]
fn each_opening_of_a_door_fails(rt: HostRuntime) -> Result<(), Fail> {
    for opening in 1..=3 {
        let failing = Failing {
            opening,
            ..NO_FAILING
        };
        if opening <= 2 {
            assert_fails(&rt, rt.alloc(), failing, 12, "", None)?;
        } else {
            assert_fails(&rt, rt.alloc(), failing, 0, THREE, Some(answered(ALL)))?;
        }
    }
    Ok(())
}

#[test]
fn each_accept_fails(rt: HostRuntime) -> Result<(), Fail> {
    // The accept of the first door and that of the other one that fails, the status, what is printed,
    // and which connections were served.
    let table: [(u32, u32, u8, &str, &[(u32, u64)]); 7] = [
        (1, 0, 12, ONE, &[(1, 0)]),
        (2, 0, 12, BOTH, &[(0, 0), (1, 0)]),
        (3, 0, 12, THREE, ALL),
        (4, 0, 0, THREE, ALL),
        (0, 1, 12, BOTH, FIRST),
        (0, 2, 12, THREE, ALL),
        (0, 3, 0, THREE, ALL),
    ];
    for (accept, other_accept, status, printed, done) in table {
        let failing = Failing {
            accept,
            other_accept,
            ..NO_FAILING
        };
        let did = Some(answered(done));
        assert_fails(&rt, rt.alloc(), failing, status, printed, did)?;
    }
    Ok(())
}

#[test]
fn each_tick_fails(rt: HostRuntime) -> Result<(), Fail> {
    // The tick that fails, the status, and how many purges were made.
    for (tick, status, purges) in [(1, 13, 0), (2, 13, 1), (3, 13, 2), (4, 13, 3), (5, 0, 3)] {
        let failing = Failing { tick, ..NO_FAILING };
        let did = Did {
            purges,
            ..answered(ALL)
        };
        assert_fails(&rt, rt.alloc(), failing, status, THREE, Some(did))?;
    }
    Ok(())
}

/// The first connection.
const FAILED: &[(u32, u64)] = &[(0, 0)];

/// The others.
const OTHERS: &[(u32, u64)] = &[(0, 1), (1, 0)];

#[test]
fn each_read_and_write_of_a_connection_fails(rt: HostRuntime) -> Result<(), Fail> {
    // The read and the write that fail, what is printed, the connections that were served to their
    // end, and those whose reads and writes failed. A text whose reply fails was looked up.
    let table: [(u32, u32, &str, [&[(u32, u64)]; 3]); 5] = [
        (1, 0, BOTH, [OTHERS, FAILED, &[]]),
        (2, 0, BOTH, [OTHERS, FAILED, &[]]),
        (3, 0, THREE, [ALL, &[], &[]]),
        (0, 1, THREE, [OTHERS, &[], FAILED]),
        (0, 2, THREE, [ALL, &[], &[]]),
    ];
    for (read, write, printed, [done, read_faults, write_faults]) in table {
        let failing = Failing {
            read,
            write,
            ..NO_FAILING
        };
        let did = Did {
            done,
            read_faults,
            write_faults,
            purges: 3,
        };
        assert_fails(&rt, rt.alloc(), failing, 0, printed, Some(did))?;
    }
    Ok(())
}
