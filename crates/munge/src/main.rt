//! The program munge: it asks the daemon to seal what it is given, and prints the credential.
#![tactic(auto)]

use byte_io::{StdSink, StdSource};
use munge_tools::{About, Ending, begin, end, munge_run};
use std::process::ExitCode;
use unix_io::UnixHall;

const ABOUT: About<'static> = About {
    name: "munge",
    help: "\
munge: has the daemon munged seal a payload, and prints the credential

  munge [OPTION ..]         seals what standard input has, 1048576 bytes at most
    -s, --string TEXT       seals TEXT in its place
    -n, --no-input          seals nothing in its place
    -c, --cipher NAME       none, aes128, aes256, or default: the daemon's
    -m, --mac NAME          sha1, sha256, sha512, or default: the daemon's
    -u, --restrict-uid N    only the user with the UID N may open it
    -g, --restrict-gid N    only a member of the group with the GID N may
    -t, --ttl N             it is good for N seconds, 0 for the daemon's default
    -S, --socket PATH       the socket of the daemon
  munge --help
  munge --version

Unless given, cipher and MAC are default, anyone may open it, the time to live
is 0, and the socket is munge.socket in the working folder. A number is
digits, up to 4294967295, which as a UID or GID is any. An option stands once
at most, and -s not beside -n.

Exit statuses: 0 the credential and a line feed were printed; 2 the daemon has
no seed, and seals nothing; 3 the payload is too long; 10 there is no such
cipher; 11 there is no such MAC, or not with this cipher; 100 the words are
refused; 101 the daemon could not be reached, or the connection failed; 102
what came is no reply; 103 the input or 104 the output failed; 105 no memory.
One line on standard error says which, unless it is 0.
",
    version: "munge 0.1\n",
};

fn main(rt: HostRuntime) -> ExitCode {
    let alloc = rt.alloc();
    let mut out = StdSink::new(rt.stdout());
    let mut err = StdSink::new(rt.stderr());
    let words = match begin(&rt, ABOUT, &mut out, &mut err) {
        Ok(words) => words,
        Err(status) => return ExitCode::from(status),
    };
    let Ok(mut wire) = UnixHall::new(rt, alloc) else {
        return ExitCode::from(end(ABOUT.name, &mut err, Ending::NoMemory));
    };
    let mut input = StdSource::new(rt.stdin());
    ExitCode::from(munge_run(
        alloc,
        words.as_slice(),
        &mut input,
        &mut out,
        &mut err,
        &mut wire,
    ))
}
