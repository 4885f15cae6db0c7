//! A daemon that serves over memory.

ghost use Rattle.std.specs.Prelude.{◌≡◌, IfOk};
ghost use Rattle.std.specs.List.{All};
ghost use Rattle.byte_io.specs.MemDoor.{HasNoFault};
ghost use Rattle.byte_io.specs.MemHall.{HasNoDoorFault};

use super::serving::{
    BOTH, FIRST, Given, Kept, NONE, REQUEST, SERVED, USUAL, Wanted, assert_serves,
};
use byte_io::{MemDoor, MemHall, MemLink, MemTicker, MemWire, NamedDoor};
use std::alloc::{AllocError, Global};
use std::process::Abort;
use std::sync::Wait;
use std::test::Fail;
use std::thread::Threads;

/// What there is in memory besides files and clocks, and what of it fails.
#[derive(Clone, Copy)]
struct Outside {
    /// The first door gives two connections, and not the other one.
    at_first: bool,
    /// The other door is in the hall.
    has_other: bool,
    /// The number of the door that cannot be opened, or 0.
    failing_open: u32,
    /// The number of the accept of the first door that fails, or 0.
    failing_accept: u32,
    /// The number of the tick that fails, or 0.
    failing_tick: u32,
}

/// Two connections at the first door, and nothing that fails.
const SOUND: Outside = Outside {
    at_first: true,
    has_other: true,
    failing_open: 0,
    failing_accept: 0,
    failing_tick: 0,
};

/// An option file with a key file that is not there.
const NO_KEY: &[u8] = b"key = \"none\"\n[[socket]]\npath = \"a\"\nuid = 7\ngid = 7\n";

/// What is printed where the text came once.
pub(super) const ONE: &str = "ready\npresented 1 accepted 1 replayed 0 expired 0 kept 1\n";

/// Both connections of the other door.
const OTHER: &[(u32, u64)] = &[(1, 0), (1, 1)];

/// A connection with the request.
fn link(alloc: Global) -> Result<MemLink, AllocError>
    ensures { IfOk result HasNoFault }
{
    Ok(MemLink::new(
        alloc,
        REQUEST.to_vec(alloc)?,
        Vec::new(alloc),
        Vec::new(alloc),
    ))
}

/// A door at this path, which gives two connections or none, and where the accept of this number
/// fails.
fn door(
    alloc: Global,
    path: &str,
    gives: bool,
    failing_accept: u32,
) -> Result<NamedDoor, AllocError>
    ensures { IfOk result HasNoDoorFault }
{
    let path = String::from_str(alloc, path)?;
    let fails = vec![in alloc; failing_accept]?;
    let door = if gives {
        MemDoor::new(vec![in alloc; link(alloc)?, link(alloc)?]?, fails)
    } else {
        MemDoor::new(Vec::new(alloc), fails)
    };
    Ok(NamedDoor { path, door })
}

/// The doors.
fn doors_of(alloc: Global, outside: &Outside) -> Result<Vec<NamedDoor>, AllocError>
    ensures { IfOk result (λ doors. All HasNoDoorFault doors.items) }
{
    let first = door(
        alloc,
        "ann.socket",
        outside.at_first,
        outside.failing_accept,
    )?;
    if !outside.has_other {
        return Ok(vec![in alloc; first]?);
    }
    let other = door(alloc, "root.socket", !outside.at_first, 0)?;
    Ok(vec![in alloc; first, other]?)
}

/// The hall.
fn hall_of(alloc: Global, outside: &Outside) -> Result<MemHall, AllocError> {
    let doors = doors_of(alloc, outside)?;
    let wire = MemWire::new(alloc, Vec::new(alloc), Vec::new(alloc));
    let fails = vec![in alloc; outside.failing_open]?;
    Ok(MemHall::new(doors, wire, fails))
}

/// A hall with two doors, of which the first gives two connections.
pub(super) fn hall_of_two(alloc: Global) -> Result<MemHall, AllocError> {
    hall_of(alloc, &SOUND)
}

/// Serves in memory, and asserts how that ends and what the books keep.
fn assert_ends<R: Threads + Wait + Sync + Abort>(
    rt: &R,
    alloc: Global,
    given: &Given<'_>,
    outside: &Outside,
    wanted: &Wanted<'_>,
    kept: Kept<'_>,
) -> Result<(), Fail> {
    let mut hall = hall_of(alloc, outside)?;
    let mut ticker = MemTicker::new(0, vec![in alloc; outside.failing_tick]?);
    assert_serves(rt, alloc, given, &mut hall, &mut ticker, wanted, kept)
}

#[test]
fn workers_keep_both(rt: HostRuntime) -> Result<(), Fail> {
    for workers in [2, 1] {
        let given = Given { workers, ..USUAL };
        assert_ends(&rt, rt.alloc(), &given, &SOUND, &SERVED, Some(FIRST))?;
    }
    Ok(())
}

/// A run that ends with this status once it has printed this.
pub(super) fn ends(status: u8, printed: &str) -> Wanted<'_> {
    let said = match status {
        6 => "output failed",
        12 => "socket failed",
        13 => "ticker failed",
        _ => "",
    };
    Wanted {
        status,
        printed,
        said,
    }
}

/// Serves where the opens, accepts and ticks of these numbers fail.
fn assert_fails<R: Threads + Wait + Sync + Abort>(
    rt: &R,
    alloc: Global,
    doors: [bool; 2],
    fails: [u32; 3],
    wanted: &Wanted<'_>,
    kept: Kept<'_>,
) -> Result<(), Fail> {
    let [at_first, has_other] = doors;
    let [failing_open, failing_accept, failing_tick] = fails;
    let outside = Outside {
        at_first,
        has_other,
        failing_open,
        failing_accept,
        failing_tick,
    };
    assert_ends(rt, alloc, &USUAL, &outside, wanted, kept)
}

#[test]
fn sockets_and_tickers_that_fail(rt: HostRuntime) -> Result<(), Fail> {
    // Whether the first door gives the connections, and whether the other one is there; the numbers
    // of the open, the accept and the tick that fail; the status, what was printed, and which posts
    // and turns the books keep.
    let table: [([bool; 2], [u32; 3], u8, &str, Kept<'_>); 9] = [
        ([true, false], [0, 0, 0], 12, "", None),
        ([true, true], [1, 0, 0], 12, "", None),
        ([true, true], [2, 0, 0], 12, "", None),
        ([true, true], [0, 1, 0], 12, NONE, Some(&[])),
        ([true, true], [0, 2, 0], 12, ONE, Some(&[(0, 0)])),
        ([true, true], [0, 3, 0], 12, BOTH, Some(FIRST)),
        ([false, true], [0, 1, 0], 12, BOTH, Some(OTHER)),
        ([true, true], [0, 0, 1], 13, BOTH, Some(FIRST)),
        ([true, true], [0, 3, 1], 12, BOTH, Some(FIRST)),
    ];
    for (doors, fails, status, printed, kept) in table {
        let wanted = ends(status, printed);
        assert_fails(&rt, rt.alloc(), doors, fails, &wanted, kept)?;
    }
    Ok(())
}

#[test]
fn output_that_fails(rt: HostRuntime) -> Result<(), Fail> {
    // The numbers of the write and the tick that fail, the status, what was printed, and which
    // posts and turns the books keep.
    let table: [(u32, u32, u8, &str, Kept<'_>); 4] = [
        (1, 0, 6, "", None),
        (2, 0, 6, "ready\n", Some(FIRST)),
        (16, 0, 6, BOTH.trim_end(), Some(FIRST)),
        (2, 1, 13, "ready\n", Some(FIRST)),
    ];
    for (failing_write, failing_tick, status, printed, kept) in table {
        let given = Given {
            failing_write,
            ..USUAL
        };
        let outside = Outside {
            failing_tick,
            ..SOUND
        };
        let wanted = ends(status, printed);
        assert_ends(&rt, rt.alloc(), &given, &outside, &wanted, kept)?;
    }
    Ok(())
}

#[test]
fn files_that_are_refused(rt: HostRuntime) -> Result<(), Fail> {
    // The number of the read that fails, a file in front of the usual ones, the status, and what is
    // said.
    let table: [(u32, &str, &[u8], u8, &str); 9] = [
        (1, "", b"", 2, "cannot read munged.toml"),
        (0, "munged.toml", b"[", 4, "options: not toml"),
        (0, "munged.toml", NO_KEY, 2, "cannot read none"),
        (0, "munge.key", &[0; 31], 3, "munge.key has 31 bytes"),
        (3, "", b"", 2, "cannot read munge.seed"),
        (0, "munge.seed", &[0; 63], 3, "munge.seed has 63 bytes"),
        (0, "passwd", b"#\nann\n", 4, "passwd: bad line 2"),
        (5, "", b"", 2, "cannot read group"),
        (0, "group", b"ops\n", 4, "group: bad line 1"),
    ];
    for (failing_file, name, bytes, status, said) in table {
        let given = Given {
            front: (name, bytes),
            failing_file,
            ..USUAL
        };
        let wanted = Wanted {
            status,
            printed: "",
            said,
        };
        assert_ends(&rt, rt.alloc(), &given, &SOUND, &wanted, None)?;
    }
    Ok(())
}
