//! A run of a daemon that serves, made from what there is before it and what is wanted after.

use crate::daemon::munged_daemon;
use crate::daemon_end::DaemonEnd;
use byte_io::{Door, Hall, MemClock, MemClocks, MemFiles, MemSink, NamedFile, Ticker};
use session_core::ServeEnd;
use std::alloc::{AllocError, Global};
use std::process::Abort;
use std::sync::Wait;
use std::test::Fail;
use std::thread::Threads;
use worker_pool::{Books, MemBook, MemBooks};

/// A decode request of `hello` sealed at 1000 with AES-128 and SHA-256, for anyone. The credential
/// comes from the option `--credential` of the repository's script of vectors, for a key file and a
/// seed of 32 zeros and the caller 7, 7; the fields are `cipher=4 mac=5 payload=hello`.
pub(super) const REQUEST: &[u8] =
    b"\x4d\x01\x03\x00\x00\x00\x8fMUNGE:AwQFAADlal1AKL2GU7gZ0r0a7Y2gZdOW0dtIZnPPrjS6h3x2aomh8ZNQVH6NmOcaPRwS8mjed530PxWTNeODkFayJ+4ddvj+VTK0PF2qdcCP1XSD2VKm4Mz/XqmVx2UOiIvzOCA=:";

/// What is printed where that text came twice, and its pair is kept.
pub(super) const BOTH: &str = "ready\npresented 2 accepted 1 replayed 1 expired 0 kept 1\n";

/// What is printed where nothing came.
pub(super) const NONE: &str = "ready\npresented 0 accepted 0 replayed 0 expired 0 kept 0\n";

/// Posts and turns that the books keep between them, if anything is served.
pub(super) type Kept<'a> = Option<&'a [(u32, u64)]>;

/// Both connections of the first door.
pub(super) const FIRST: &[(u32, u64)] = &[(0, 0), (0, 1)];

/// The places of two presentations of one text, and the rules of their replies.
const PLACES: [(Option<u64>, Option<u8>); 2] = [(Some(0), Some(0)), (Some(1), Some(14))];

/// The option file behind the count of workers.
const OPTIONS: &str = "\
key = \"munge.key\"
seed = \"munge.seed\"
passwd = \"passwd\"
group = \"group\"

[[socket]]
path = \"ann.socket\"
uid = 7
gid = 7

[[socket]]
path = \"root.socket\"
uid = 0
gid = 0
control = true
";

/// The files and the clocks that there are before a daemon serves, and what of them fails.
#[derive(Clone, Copy)]
pub(super) struct Given<'a> {
    pub(super) workers: u32,
    /// The name and the bytes of a file that stands before the usual one of that name.
    pub(super) front: (&'a str, &'a [u8]),
    /// What the purger's clock gives; those of the workers give 1000.
    pub(super) purge_moment: u32,
    /// The number of the read of a file that fails, or 0.
    pub(super) failing_file: u32,
    /// The number of the write to the output that fails, or 0.
    pub(super) failing_write: u32,
}

/// Two workers, the usual files, and nothing that fails.
pub(super) const USUAL: Given<'static> = Given {
    workers: 2,
    front: ("", b""),
    purge_moment: 1000,
    failing_file: 0,
    failing_write: 0,
};

/// How a run ends, what it prints, and what its line on the error stream says, if it has one.
#[derive(Clone, Copy)]
pub(super) struct Wanted<'a> {
    pub(super) status: u8,
    pub(super) printed: &'a str,
    pub(super) said: &'a str,
}

/// Both connections were served.
pub(super) const SERVED: Wanted<'static> = Wanted {
    status: 0,
    printed: BOTH,
    said: "",
};

/// Nothing came.
pub(super) const SERVED_NONE: Wanted<'static> = Wanted {
    status: 0,
    printed: NONE,
    said: "",
};

/// The words of a command line, one a line.
pub(super) fn words_of(alloc: Global, lines: &str) -> Result<Vec<String>, AllocError> {
    let mut words = Vec::new(alloc);
    for word in lines.lines() {
        words.push(String::from_str(alloc, word)?)?;
    }
    Ok(words)
}

/// A file with this name and these bytes.
fn file(alloc: Global, name: &str, bytes: &[u8]) -> Result<NamedFile, AllocError> {
    Ok(NamedFile {
        name: String::from_str(alloc, name)?,
        bytes: Vec::from_slice(alloc, bytes)?,
    })
}

/// The files.
pub(super) fn files_of(alloc: Global, given: &Given<'_>) -> Result<MemFiles, AllocError> {
    let workers = given.workers;
    let options = format!(in alloc; "workers = {workers}\n{OPTIONS}")?;
    let (name, bytes) = given.front;
    let files = vec![in alloc;
        file(alloc, name, bytes)?,
        file(alloc, "munged.toml", options.as_bytes())?,
        file(alloc, "munge.key", &[0; 32])?,
        file(alloc, "munge.seed", &[0; 64])?,
        file(alloc, "passwd", b"ann:x:7:7:::\n")?,
        file(alloc, "group", b"ops:x:50:bob,ann\n")?,
    ]?;
    Ok(MemFiles::new(files, vec![in alloc; given.failing_file]?))
}

/// A list of readings for each worker, in order, and then the purger's.
fn clocks_of(alloc: Global, given: &Given<'_>) -> Result<MemClocks, AllocError> {
    let mut readings = Vec::new(alloc);
    for _ in 0..given.workers {
        readings.push(vec![in alloc; 1000; 4]?)?;
    }
    readings.push(vec![in alloc; given.purge_moment; 4]?)?;
    Ok(MemClocks::new(alloc, readings))
}

/// Asserts the status, what was printed, and the line on the error stream.
fn assert_ended<R: Abort>(
    rt: &R,
    alloc: Global,
    status: u8,
    printed: &[u8],
    line: &[u8],
    wanted: &Wanted<'_>,
) -> Result<(), AllocError> {
    let said = wanted.said;
    assert_eq!(rt; status, wanted.status, "the status with {said}");
    assert_eq!(rt;
        printed,
        wanted.printed.as_bytes(),
        "what was printed with {said}"
    );
    if said.is_empty() {
        assert!(rt; line.is_empty());
        return Ok(());
    }
    let want = format!(in alloc; "munged: {said}\n")?;
    assert_eq!(rt; line, want.as_bytes());
    Ok(())
}

/// What a daemon is handed besides its hall, its ticker and its books.
#[derive(Drop)]
struct Handed {
    words: Vec<String>,
    files: MemFiles,
    clocks: MemClocks,
    out: MemSink,
}

/// What it is handed.
fn handed_of(alloc: Global, given: &Given<'_>) -> Result<Handed, AllocError> {
    Ok(Handed {
        words: words_of(alloc, "serve\nmunged.toml")?,
        files: files_of(alloc, given)?,
        clocks: clocks_of(alloc, given)?,
        out: MemSink::new(alloc, vec![in alloc; given.failing_write]?),
    })
}

/// Serves, asserts how that ends, and gives what is left.
pub(super) fn serve<H, T, B, R>(
    rt: &R,
    alloc: Global,
    given: &Given<'_>,
    hall: &mut H,
    ticker: &mut T,
    books: &mut B,
    wanted: &Wanted<'_>,
) -> Result<DaemonEnd<H::Door, MemClock, B::One>, AllocError>
where
    H: Hall,
    H::Door: Drop,
    <H::Door as Door>::Conn: Drop,
    T: Ticker,
    B: Books<<H::Door as Door>::Conn>,
    B::One: Drop,
    R: Threads + Wait + Sync + Abort,
{
    let mut handed = handed_of(alloc, given)?;
    let mut err = MemSink::new(alloc, Vec::new(alloc));
    let ended = munged_daemon(
        rt,
        alloc,
        &handed.words,
        &mut handed.files,
        hall,
        &mut handed.out,
        &mut err,
        &mut handed.clocks,
        ticker,
        books,
    );
    assert_ended(
        rt,
        alloc,
        ended.status,
        handed.out.taken(),
        err.taken(),
        wanted,
    )?;
    Ok(ended)
}

/// The posts and turns of the connections that the books keep and that were served to their end, one
/// book after the other.
fn turns_of<L: Drop>(alloc: Global, books: &[MemBook<L>]) -> Result<Vec<(u32, u64)>, AllocError> {
    let mut turns = Vec::new(alloc);
    for book in books {
        for one in book.handled() {
            if one.served.how == ServeEnd::Done {
                turns.push((one.post, one.turn))?;
            }
        }
    }
    Ok(turns)
}

/// The places in the gate's history, each with the rule of its reply, of what the books keep, one
/// book after the other.
fn places_of<L: Drop>(
    alloc: Global,
    books: &[MemBook<L>],
) -> Result<Vec<(Option<u64>, Option<u8>)>, AllocError> {
    let mut places = Vec::new(alloc);
    for book in books {
        for one in book.handled() {
            places.push((one.served.place, one.served.rule))?;
        }
    }
    Ok(places)
}

/// Asserts that a book for each worker keeps these turns between them, of which the first in the
/// gate's history was accepted, and the next was a replay. One book alone keeps them in order.
fn assert_books<L: Drop, R: Abort>(
    rt: &R,
    alloc: Global,
    books: &[MemBook<L>],
    workers: usize,
    wanted: &[(u32, u64)],
) -> Result<(), AllocError> {
    let mut turns = turns_of(alloc, books)?;
    let mut places = places_of(alloc, books)?;
    if workers > 1 {
        turns.sort_unstable();
        places.sort_unstable();
    }
    assert_eq!(rt; books.len(), workers);
    assert_eq!(rt; turns.as_slice(), wanted);
    assert_eq!(rt; PLACES.get(..wanted.len()), Some(places.as_slice()));
    Ok(())
}

/// Asserts that so many workers served these turns, or that nothing was served.
fn assert_kept<D, R>(
    rt: &R,
    alloc: Global,
    end: &DaemonEnd<D, MemClock, MemBook<D::Conn>>,
    workers: u32,
    wanted: Kept<'_>,
) -> Result<(), AllocError>
where
    D: Door + Drop,
    D::Conn: Drop,
    R: Abort,
{
    match (&end.served, wanted) {
        (Some(pool), Some(wanted)) => {
            assert_books(rt, alloc, &pool.books, workers as usize, wanted)?;
        }
        (None, None) => {}
        _ => assert!(rt; false, "what was served"),
    }
    Ok(())
}

/// Serves with books in memory, and asserts how that ends and what they keep.
pub(super) fn assert_serves<H, T, R>(
    rt: &R,
    alloc: Global,
    given: &Given<'_>,
    hall: &mut H,
    ticker: &mut T,
    wanted: &Wanted<'_>,
    kept: Kept<'_>,
) -> Result<(), Fail>
where
    H: Hall,
    H::Door: Drop,
    <H::Door as Door>::Conn: Drop,
    T: Ticker,
    R: Threads + Wait + Sync + Abort,
{
    let mut books = MemBooks::new(alloc);
    let end = serve(rt, alloc, given, hall, ticker, &mut books, wanted)?;
    assert_kept(rt, alloc, &end, given.workers, kept)?;
    Ok(())
}
