//! The program of munged: `munged session KEYFILE UID GID [SEEDFILE]` answers the requests of its
//! standard input on its standard output; without a seed file nothing is sealed. `munged check
//! CONFIG` looks over an option file and the files that it names. `munged exercise N NUMBER
//! WORKERS` has workers answer the requests of a generated load. `munged serve CONFIG` serves by an
//! option file; `munged stop CONFIG` asks the daemon that serves by one to stop. `munged --help`
//! and `munged --version` say what it is.
#![tactic(auto)]

mod check;
mod command;
mod daemon;
mod daemon_end;
mod exercise;
mod exercise_words;
mod kept;
mod load;
mod run;
mod serve;
mod serve_clocks;
mod serve_doors;
mod serve_files;
mod serve_words;
mod session;
mod stop;
mod stop_request;
mod stop_words;
#[cfg(test)]
mod tests;
mod totals;

use byte_io::{DiskFiles, Door, Files, Hall, StdSink, StdSource, SystemClock, Ticker};
use check::OPTIONS_ROOM;
use daemon::munged_daemon;
use munge_types::NoMemory;
use munged_files::Ending;
use option_file::Options;
use run::munged_run;
use serve_words::serve_of_words;
use std::alloc::Global;
use std::io::{BufReader, ErrorKind, Write};
use std::process::ExitCode;
use std::sync::Wait;
use std::thread::Threads;
use std::{env, io};
use unix_io::{SleepTicker, SystemClocks, UnixHall};
use worker_pool::DropBooks;

/// What `munged --help` prints.
const HELP: &str = "\
munged: seals credentials and opens them, each at most once

  munged session KEYFILE UID GID [SEEDFILE]
      answers the encode and decode requests of standard input on standard
      output, for the caller with this UID and GID, under the key in KEYFILE;
      salts and vectors are drawn from SEEDFILE (/dev/urandom, say), without
      which nothing is sealed
  munged check CONFIG
      looks over the option file CONFIG and the key, passwd and group files
      that it names, and prints ok where none is refused
  munged exercise N NUMBER WORKERS
      makes N credentials from NUMBER and presents each of them twice, over
      connections that so many workers serve, each in a thread; then purges
      what has expired, and prints how many requests were accepted, how many
      were replays, how many had expired, and how many credentials are kept
  munged serve CONFIG
      opens the sockets of the option file CONFIG, prints ready, and serves
      what connects to each for the user and the group that stand there, until
      it is asked to stop; then prints how many decode requests it looked up,
      how many were accepted, how many were replays, how many had expired, and
      how many credentials are kept
  munged stop CONFIG
      asks the daemon that serves by the option file CONFIG to stop, over the
      first of its sockets that has control
  munged --help
  munged --version

Exit statuses: 0 the command was done, or the input of a session read to its
end; 1 the words are no command; 2 a file could not be read; 3 a key or seed
file of a wrong size; 4 an option, passwd or group file is refused, or no socket
has control; 5 the input, 6 the output or 7 the clock failed; 9 what came is no
request, or not the answer that the daemon stops; 10 no memory; 11 1048576
requests were answered; 12 a socket failed, or could not be opened; 13 the timer
of the purges failed; 14 the daemon has looked up as many requests as one can.
One line on standard error says which.

N is 1 to 50000, NUMBER up to 18446744073709551615, WORKERS 1 to 64.
";

/// What `munged --version` prints.
const VERSION: &str = "munged 0.1\n";

/// The words of the command line without the program's name, or how the program ends without them.
fn words_of(rt: &HostRuntime) -> Result<Vec<String>, Ending<'static>> {
    let words = env::args(rt).map_err(|e| ending_without_words(&e))?;
    words
        .skip(1)
        .collect(rt.alloc())
        .map_err(|_| Ending::NoMemory)
}

/// Words that are no text ask for nothing.
fn ending_without_words(e: &io::Error) -> Ending<'static> {
    match e.kind() {
        ErrorKind::OutOfMemory => Ending::NoMemory,
        _ => Ending::NoCommand,
    }
}

/// What a word alone asks to be told of the program, if it is `--help` or `--version`.
fn told_by(words: &[String]) -> Option<&'static str> {
    match words {
        [word] if word.as_str() == "--help" => Some(HELP),
        [word] if word.as_str() == "--version" => Some(VERSION),
        _ => None,
    }
}

/// Prints a text on standard output.
fn tell(rt: &HostRuntime, text: &str) -> Ending<'static> {
    match rt.stdout().write_all(text.as_bytes()) {
        Ok(()) => Ending::Done,
        Err(_) => Ending::OutputFailed,
    }
}

/// Ends where `munged_run` is not called.
fn end(rt: &HostRuntime, ending: Ending<'static>) -> ExitCode {
    ending.say_on(&mut StdSink::new(rt.stderr()));
    ExitCode::from(ending.status())
}

/// The words ask for what one thread does over the standard streams, or for nothing.
fn are_for_run(words: &[String]) -> bool {
    match words.first() {
        Some(word) => word.as_str() == "session" || word.as_str() == "check",
        None => false,
    }
}

/// Runs a session or a check over the standard streams, the files and the clock.
fn answer(rt: HostRuntime, words: &[String]) -> ExitCode {
    let Ok(stdin) = BufReader::new(rt.alloc(), rt.stdin()) else {
        return end(&rt, Ending::NoMemory);
    };
    let mut files = DiskFiles::new(rt);
    let mut input = StdSource::new(stdin);
    let mut out = StdSink::new(rt.stdout());
    let mut err = StdSink::new(rt.stderr());
    let mut clock = SystemClock::new(rt);
    ExitCode::from(munged_run(
        rt.alloc(),
        words,
        &mut files,
        &mut input,
        &mut out,
        &mut err,
        &mut clock,
    ))
}

/// How many seconds lie between two purges where no option file says it.
const USUAL_INTERVAL: u32 = 60;

/// The options by which the words ask a daemon to serve, if they do and the file gives some. Where
/// it gives none, the daemon itself says why.
fn options_to_serve(rt: HostRuntime, words: &[String]) -> Option<Options> {
    let config = serve_of_words(words)?;
    let mut files = DiskFiles::new(rt);
    let bytes = files.read(rt.alloc(), config, OPTIONS_ROOM).ok()?;
    Options::read(rt.alloc(), &bytes).ok()
}

/// Tells the hall for whom each socket is.
fn set_owners<R: Copy>(
    hall: &mut UnixHall<R>,
    alloc: Global,
    options: &Options,
) -> Result<(), NoMemory> {
    for line in options.sockets() {
        hall.set_owner(alloc, line.path.text(), line.who.uid, line.who.gid)?;
    }
    Ok(())
}

/// Runs the daemon over the hall and the ticker.
fn run_daemon<H, T>(
    threads: &(impl Threads + Wait + Sync),
    rt: HostRuntime,
    words: &[String],
    hall: &mut H,
    ticker: &mut T,
) -> ExitCode
where
    H: Hall,
    H::Door: Drop,
    <H::Door as Door>::Conn: Drop,
    T: Ticker,
{
    let alloc = rt.alloc();
    let mut files = DiskFiles::new(rt);
    let mut out = StdSink::new(rt.stdout());
    let mut err = StdSink::new(rt.stderr());
    let mut clocks = SystemClocks::new(rt);
    let mut books = DropBooks::new();
    let ended = munged_daemon(
        threads,
        alloc,
        words,
        &mut files,
        hall,
        &mut out,
        &mut err,
        &mut clocks,
        ticker,
        &mut books,
    );
    ExitCode::from(ended.status)
}

fn main(rt: HostRuntime) -> ExitCode {
    let words = match words_of(&rt) {
        Ok(words) => words,
        Err(ending) => return end(&rt, ending),
    };
    if let Some(text) = told_by(&words) {
        return end(&rt, tell(&rt, text));
    }
    if are_for_run(&words) {
        return answer(rt, words.as_slice());
    }
    let Ok(mut hall) = UnixHall::new(rt, rt.alloc()) else {
        return end(&rt, Ending::NoMemory);
    };
    let mut interval = USUAL_INTERVAL;
    if let Some(options) = options_to_serve(rt, words.as_slice()) {
        interval = options.interval();
        if set_owners(&mut hall, rt.alloc(), &options).is_err() {
            return end(&rt, Ending::NoMemory);
        }
    }
    match SleepTicker::new(&hall, interval) {
        Ok(mut ticker) => run_daemon(&rt, rt, words.as_slice(), &mut hall, &mut ticker),
        Err(NoMemory) => end(&rt, Ending::NoMemory),
    }
}
