//! The program unmunge: it asks the daemon to open a credential, and prints what that says.
#![tactic(auto)]

use byte_io::{StdSink, StdSource};
use munge_tools::{About, Ending, begin, end, unmunge_run};
use std::process::ExitCode;
use unix_io::UnixHall;

const ABOUT: About<'static> = About {
    name: "unmunge",
    help: "\
unmunge: has the daemon munged open a credential, and prints what it says

  unmunge [OPTION ..]    opens the credential that standard input has
    -n, --no-output      prints nothing: the exit status says it all
    -S, --socket PATH    the socket of the daemon
  unmunge --help
  unmunge --version

Unless given, the socket is munge.socket in the working folder. An option
stands once at most.

It prints a line each for the status, the first rule that the credential broke
and its place among the daemon's look-ups and purges; and, of a credential
that is genuine and meant for the caller, its cipher, MAC, address, time, time
to live, UID, GID, restrictions and length, an empty line and the payload as
it is.

Exit statuses: 0 it was accepted; 8 it is no credential, 9 of another version,
10 cipher, 11 MAC, 12 compression or 13 realm; 14 it was changed, or sealed
under another key; 15 it has expired; 16 its time lies too far ahead; 17 it
was accepted before; 18 it is not meant for the caller.
And with one line on standard error: 3 the input has more than 2097152 bytes;
100 the words are refused; 101 the daemon could not be reached, or the
connection failed; 102 what came is no reply; 103 the input or 104 the output
failed; 105 no memory.
",
    version: "unmunge 0.1\n",
};

fn main(rt: HostRuntime) -> ExitCode {
    let alloc = rt.alloc();
    let mut out = StdSink::new(rt.stdout());
    let mut err = StdSink::new(rt.stderr());
    let words = match begin(&rt, ABOUT, &mut out, &mut err) {
        Ok(words) => words,
        Err(status) => return ExitCode::from(status),
    };
    let Ok(mut wire) = UnixHall::new(rt, alloc) else {
        return ExitCode::from(end(ABOUT.name, &mut err, Ending::NoMemory));
    };
    let mut input = StdSource::new(rt.stdin());
    ExitCode::from(unmunge_run(
        alloc,
        words.as_slice(),
        &mut input,
        &mut out,
        &mut err,
        &mut wire,
    ))
}
