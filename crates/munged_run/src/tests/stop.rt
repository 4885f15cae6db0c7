//! Requests to stop.

use crate::daemon::munged_daemon;
use byte_io::{MemClocks, MemFiles, MemHall, MemSink, MemTicker, MemWire, NamedFile};
use std::alloc::Global;
use std::process::Abort;
use std::sync::Wait;
use std::test::Fail;
use std::thread::Threads;
use worker_pool::DropBooks;

/// The first two of three sockets; the second has control.
const OPTIONS: &str = "\
key = \"munge.key\"
[[socket]]
path = \"ann.socket\"
uid = 7
gid = 7
[[socket]]
path = \"root.socket\"
uid = 0
gid = 0
control = true
[[socket]]
path = \"third.socket\"
uid = 1
gid = 1
control = true
";

/// One socket, which has no control.
const WITHOUT_CONTROL: &str = "\
key = \"munge.key\"
[[socket]]
path = \"ann.socket\"
uid = 7
gid = 7
";

/// A request to stop.
const REQUEST: &[u8] = b"\x4d\x01\x05\0\0\0\0";

/// How a run ends, and what it says.
#[derive(Clone, Copy)]
struct Wanted {
    status: u8,
    said: &'static str,
    /// The request was sent to the socket with control.
    sent: bool,
}

/// The daemon stops.
const STOPS: Wanted = Wanted {
    status: 0,
    said: "",
    sent: true,
};

/// The answer is another.
const OTHER: Wanted = Wanted {
    status: 9,
    said: "munged: no answer to stop\n",
    sent: true,
};

/// Asks the daemon of the option file with this text to stop, which replies so, where the dial of
/// that number fails if it is not 0, and asserts how that ends.
fn assert_ends<R: Threads + Wait + Sync + Abort>(
    rt: &R,
    alloc: Global,
    options: &str,
    reply: &[u8],
    failing_dial: u32,
    wanted: Wanted,
) -> Result<(), Fail> {
    let words = vec![in alloc;
        String::from_str(alloc, "stop")?,
        String::from_str(alloc, "config")?,
    ]?;
    let file = NamedFile {
        name: String::from_str(alloc, "config")?,
        bytes: Vec::from_slice(alloc, options.as_bytes())?,
    };
    let mut files = MemFiles::new(vec![in alloc; file]?, Vec::new(alloc));
    let replies = vec![in alloc; Vec::from_slice(alloc, reply)?]?;
    let wire = MemWire::new(alloc, replies, vec![in alloc; failing_dial]?);
    let mut hall = MemHall::new(Vec::new(alloc), wire, Vec::new(alloc));
    let mut out = MemSink::new(alloc, Vec::new(alloc));
    let mut err = MemSink::new(alloc, Vec::new(alloc));
    let mut clocks = MemClocks::new(alloc, Vec::new(alloc));
    let mut ticker = MemTicker::new(0, Vec::new(alloc));
    let ended = munged_daemon(
        rt,
        alloc,
        &words,
        &mut files,
        &mut hall,
        &mut out,
        &mut err,
        &mut clocks,
        &mut ticker,
        &mut DropBooks::new(),
    );
    assert_eq!(rt; ended.status, wanted.status, "after {reply:?}");
    assert_eq!(rt; ended.malformed, wanted.status == 9);
    assert!(rt; out.taken().is_empty());
    assert_eq!(rt; err.taken(), wanted.said.as_bytes());
    let sent: &[u8] = if wanted.sent { REQUEST } else { b"" };
    assert_eq!(rt; hall.taken(), sent);
    assert_eq!(rt; hall.dialled().len(), usize::from(wanted.sent));
    if let Some(path) = hall.dialled().first() {
        assert!(rt; path.as_str() == "root.socket");
    }
    Ok(())
}

#[test]
fn answers_to_a_request_to_stop(rt: HostRuntime) -> Result<(), Fail> {
    let failed = Wanted {
        status: 12,
        said: "munged: socket failed\n",
        sent: false,
    };
    let no_control = Wanted {
        status: 4,
        said: "munged: no control socket\n",
        sent: false,
    };
    let not_toml = Wanted {
        status: 4,
        said: "munged: options: not toml\n",
        sent: false,
    };
    let table: [(&str, &[u8], u32, Wanted); 9] = [
        (OPTIONS, b"\x4d\x01\x06\0\0\0\x01\0", 0, STOPS),
        (OPTIONS, b"\x4d\x01\x06\0\0\0\x01\0more", 0, STOPS),
        (OPTIONS, b"\x4d\x01\x06\0\0\0\x01\x12", 0, OTHER),
        (OPTIONS, b"\x4d\x01\x02\0\0\0\x01\0", 0, OTHER),
        (OPTIONS, b"\x4d\x01\x06\0\0\0\x01", 0, OTHER),
        (OPTIONS, b"", 0, OTHER),
        (OPTIONS, b"\x4d\x01\x06\0\0\0\x01\0", 1, failed),
        (WITHOUT_CONTROL, b"\x4d\x01\x06\0\0\0\x01\0", 0, no_control),
        ("[", b"\x4d\x01\x06\0\0\0\x01\0", 0, not_toml),
    ];
    for (options, reply, failing_dial, wanted) in table {
        assert_ends(&rt, rt.alloc(), options, reply, failing_dial, wanted)?;
    }
    Ok(())
}
