//! A daemon's pool over memory. The credential comes from the option `--credential` of the
//! repository's script of vectors, for a key file and a seed of 32 zeros and the caller 7, 7.

ghost use Rattle.std.specs.Prelude.{◌≡◌, ◌≤◌, [], IfOk, length};
ghost use Rattle.std.specs.List.{All};
ghost use Rattle.byte_io.specs.MemDoor.{HasNoFault};
ghost use Rattle.worker_pool.specs.Books.{Holds};

use super::flags::FlagDoor;
use super::{ENCODE, WHO, world_of};
use crate::{Book, DaemonPool, MemBook, Post, Tally, daemon_pool};
use byte_io::{Door, MemClock, MemDoor, MemLink, MemTicker, Ticker};
use replay_table::PlainReplay;
use session_core::ServeEnd;
use std::alloc::{AllocError, Global};
use std::sync::Wait;
use std::sync::atomic::AtomicBool;
use std::test::Fail;
use std::thread::Threads;

/// A decode request of `hello` sealed at 1000 with AES-128 and SHA-256, for anyone: the fields are
/// `cipher=4 mac=5 payload=hello`.
pub(super) const REQUEST: &[u8] =
    b"\x4d\x01\x03\x00\x00\x00\x8fMUNGE:AwQFAADlal1AKL2GU7gZ0r0a7Y2gZdOW0dtIZnPPrjS6h3x2aomh8ZNQVH6NmOcaPRwS8mjed530PxWTNeODkFayJ+4ddvj+VTK0PF2qdcCP1XSD2VKm4Mz/XqmVx2UOiIvzOCA=:";

pub(super) type Served<D> = DaemonPool<D, MemClock, PlainReplay, MemBook<<D as Door>::Conn>>;

/// A connection with that request.
pub(super) fn link(alloc: Global) -> Result<MemLink, AllocError>
    ensures { IfOk result HasNoFault }
{
    Ok(MemLink::new(
        alloc,
        REQUEST.to_vec(alloc)?,
        Vec::new(alloc),
        Vec::new(alloc),
    ))
}

/// A post with this door. It is given as one whose door has failed, which is not looked at.
pub(super) fn post<D: Drop>(door: D) -> Post<D> {
    Post {
        who: WHO,
        door,
        failed: true,
    }
}

/// A clock that gives this moment four times.
fn clock(alloc: Global, moment: u32) -> Result<MemClock, AllocError> {
    Ok(MemClock::new(vec![in alloc; moment; 4]?, Vec::new(alloc)))
}

/// Look-ups, those accepted, replayed and expired.
pub(super) fn counts(tally: &Tally) -> (u64, u64, u64, u64) {
    (
        tally.presented,
        tally.accepted,
        tally.replayed,
        tally.expired,
    )
}

/// What a worker kept, as post, turn, rule and place, in order.
fn kept(
    alloc: Global,
    book: &MemBook<MemLink>,
) -> Result<Vec<(u32, u64, Option<u8>, Option<u64>)>, AllocError> {
    let mut list = Vec::new(alloc);
    for one in book.handled() {
        list.push((one.post, one.turn, one.served.rule, one.served.place))?;
    }
    Ok(list)
}

#[test]
fn one_worker_serves_a_door_in_order(rt: HostRuntime) -> Result<(), Fail> {
    let alloc = rt.alloc();
    let world = world_of(&[0; 32])?;
    let door = MemDoor::new(vec![in alloc; link(alloc)?, link(alloc)?]?, Vec::new(alloc));
    let mut ticker = MemTicker::new(0, Vec::new(alloc));
    let end: Served<MemDoor> = daemon_pool(
        &rt,
        alloc,
        vec![in alloc; post(door)]?,
        vec![in alloc; clock(alloc, 1000)?]?,
        clock(alloc, 1000)?,
        &mut ticker,
        vec![in alloc; [0; 32]]?,
        vec![in alloc; MemBook::new(alloc)]?,
        1,
        PlainReplay::new(alloc),
        &world,
    )?;
    assert_eq!(rt; counts(&end.tally), (2, 1, 1, 0));
    assert_eq!(rt; (end.closed.length, end.left.len(), end.purges), (2, 0, 0));
    assert_eq!(rt; end.books.len(), 1);
    for book in end.books.iter() {
        let list = kept(alloc, book)?;
        let want = [(0, 0, Some(0), Some(0)), (0, 1, Some(14), Some(1))];
        assert_eq!(rt; list.as_slice(), want.as_slice());
    }
    Ok(())
}

/// Serves the posts by two workers, at 1000, with a book for each. The purger's clock gives this
/// moment.
pub(super) fn serve_ticked<D, T, B, W>(
    rt: &W,
    alloc: Global,
    posts: Vec<Post<D>>,
    moment: u32,
    ticker: &mut T,
    books: Vec<B>,
) -> Result<DaemonPool<D, MemClock, PlainReplay, B>, Fail>
where
    D: Door + Drop,
    D::Conn: Drop,
    T: Ticker,
    B: Book<D::Conn> + Drop,
    W: Threads + Wait + Sync,
    requires posts { (1 ≤ length posts.items) × (length posts.items ≤ 64) }
    requires books { length books.items ≡ 2 }
    requires empty_books { All (λ book. Holds (B.kept book) []) books.items }
{
    let world = world_of(&[0; 32])?;
    Ok(daemon_pool(
        rt,
        alloc,
        posts,
        vec![in alloc; clock(alloc, 1000)?, clock(alloc, 1000)?]?,
        clock(alloc, moment)?,
        ticker,
        vec![in alloc; [0; 32], [1; 32]]?,
        books,
        4,
        PlainReplay::new(alloc),
        &world,
    )?)
}

/// Serves the posts by two workers. The ticker gives so many Due answers, all at once, and those of
/// its calls fail that have these numbers.
pub(super) fn serve_by_two<D, W>(
    rt: &W,
    alloc: Global,
    posts: Vec<Post<D>>,
    due: u32,
    tick_fails: &[u32],
) -> Result<Served<D>, Fail>
where
    D: Door + Drop,
    D::Conn: Drop,
    W: Threads + Wait + Sync,
    requires posts { (1 ≤ length posts.items) × (length posts.items ≤ 64) }
{
    let mut ticker = MemTicker::new(due, tick_fails.to_vec(alloc)?);
    let books = vec![in alloc; MemBook::new(alloc), MemBook::new(alloc)]?;
    serve_ticked(rt, alloc, posts, 1000, &mut ticker, books)
}

#[test]
fn two_workers_keep_both(rt: HostRuntime) -> Result<(), Fail> {
    let alloc = rt.alloc();
    let door = MemDoor::new(vec![in alloc; link(alloc)?, link(alloc)?]?, Vec::new(alloc));
    let none = MemDoor::new(Vec::new(alloc), Vec::new(alloc));
    let posts = vec![in alloc; post(door), post(none)]?;
    let end = serve_by_two(&rt, alloc, posts, 0, &[])?;
    assert_eq!(rt; counts(&end.tally), (2, 1, 1, 0));
    assert_eq!(rt; (end.closed.length, end.left.len(), end.worn), (2, 0, None));
    let (mut turns, mut places) = (Vec::new(alloc), Vec::new(alloc));
    for book in end.books.iter() {
        for (post, turn, rule, place) in kept(alloc, book)? {
            turns.push((post, turn))?;
            places.push((place, rule))?;
        }
    }
    turns.sort_unstable();
    places.sort_unstable();
    assert_eq!(rt; turns.as_slice(), [(0, 0), (0, 1)].as_slice());
    let want = [(Some(0), Some(0)), (Some(1), Some(14))];
    assert_eq!(rt; places.as_slice(), want.as_slice());
    Ok(())
}

/// How the connections of this post and turn ended.
pub(super) fn ends_of<L: Drop>(
    alloc: Global,
    books: &[MemBook<L>],
    post: u32,
    turn: u64,
) -> Result<Vec<ServeEnd>, AllocError> {
    let mut ends = Vec::new(alloc);
    for book in books {
        for one in book.handled() {
            if (one.post, one.turn) == (post, turn) {
                ends.push(one.served.how)?;
            }
        }
    }
    Ok(ends)
}

/// Post and turn of a connection, whether it was answered, and whether it gave nothing.
pub(super) type Turn = (u32, u64, bool, bool);

/// The connections in these books, in order.
pub(super) fn turns_of(alloc: Global, books: &[MemBook<MemLink>]) -> Result<Vec<Turn>, AllocError> {
    let mut turns = Vec::new(alloc);
    for book in books {
        for one in book.handled() {
            let how = one.served.how;
            let (done, quiet) = (how == ServeEnd::Done, how == ServeEnd::Quiet);
            turns.push((one.post, one.turn, done, quiet))?;
        }
    }
    turns.sort_unstable();
    Ok(turns)
}

#[test]
fn both_must_serve(rt: HostRuntime) -> Result<(), Fail> {
    let alloc = rt.alloc();
    let one = AtomicBool::new(false);
    let other = AtomicBool::new(false);
    let door = FlagDoor::new(alloc, &one, &other, ENCODE);
    let posts = vec![in alloc; post(door)]?;
    let end = serve_by_two(&rt, alloc, posts, 0, &[])?;
    for turn in 0..2 {
        let ends = ends_of(alloc, &end.books, 0, turn)?;
        assert_eq!(rt; ends.as_slice(), [ServeEnd::Done].as_slice());
    }
    Ok(())
}
