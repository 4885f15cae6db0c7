//! The program remunge: it has the daemon make many credentials, and open them, and counts.
#![tactic(auto)]

use byte_io::StdSink;
use munge_tools::{About, Ending, begin, end, remunge_run};
use std::process::ExitCode;
use unix_io::UnixHall;

const ABOUT: About<'static> = About {
    name: "remunge",
    help: "\
remunge: has the daemon munged seal a payload many times, and counts

  remunge [OPTION ..]       has credentials made, one after the other
    -N, --num-creds N       so many, 1 to 100000
    -d, --decode            has each that was made opened before the next
    -s, --string TEXT       what they carry, 1048576 bytes at most
    -S, --socket PATH       the socket of the daemon
  remunge --help
  remunge --version

Unless given, N is 1, they carry nothing, and the socket is munge.socket in
the working folder. Cipher, MAC and time to live are the daemon's defaults,
and anyone may open them. An option stands once at most.

It prints how many were made, how many were opened, and how many requests were
refused, as: encoded 2 decoded 1 failed 1

Exit statuses: 0 none was refused; 1 some were.
And with one line on standard error, and no counts but a front of them at 104:
3 the payload is too long; 100 the words are refused; 101 the daemon could not
be reached, or the connection failed; 102 what came is no reply; 104 the
output failed; 105 no memory.
",
    version: "remunge 0.1\n",
};

fn main(rt: HostRuntime) -> ExitCode {
    let alloc = rt.alloc();
    let mut out = StdSink::new(rt.stdout());
    let mut err = StdSink::new(rt.stderr());
    let words = match begin(&rt, ABOUT, &mut out, &mut err) {
        Ok(words) => words,
        Err(status) => return ExitCode::from(status),
    };
    let Ok(mut wire) = UnixHall::new(rt, alloc) else {
        return ExitCode::from(end(ABOUT.name, &mut err, Ending::NoMemory));
    };
    ExitCode::from(remunge_run(alloc, words.as_slice(), &mut out, &mut err, &mut wire))
}
