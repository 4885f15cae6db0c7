//! remunge.

use super::fixture::{OPENED, Run, Tool, Wanted};
use std::test::Fail;

/// An encode reply with the text `T`.
const MADE: &[u8] = b"\x4d\x01\x02\x00\x00\x00\x02\x00T";

/// An encode reply with status 2.
const UNMADE: &[u8] = b"\x4d\x01\x02\x00\x00\x00\x01\x02";

/// A decode reply with status 18.
const UNAUTHORIZED: &[u8] = b"\x4d\x01\x04\x00\x00\x00\x0a\x12\x0a\xff\xff\xff\xff\xff\xff\xff\xff";

/// The encode request for nothing.
const MAKE: &[u8] =
    b"\x4d\x01\x01\x00\x00\x00\x0e\x01\x01\x00\x00\x00\x00\xff\xff\xff\xff\xff\xff\xff\xff";

/// The decode request for the text `T`.
const OPEN: &[u8] = b"\x4d\x01\x03\x00\x00\x00\x01T";

#[test]
fn totals_of_replies(rt: HostRuntime) -> Result<(), Fail> {
    let alloc = rt.alloc();
    let rows: [(&str, [&[u8]; 4], u8, &str, &str, [&[u8]; 4]); 9] = [
        (
            "",
            [MADE, b"", b"", b""],
            0,
            "encoded 1 decoded 0 failed 0\n",
            "",
            [MAKE, b"", b"", b""],
        ),
        (
            "-N\n2",
            [MADE, MADE, b"", b""],
            0,
            "encoded 2 decoded 0 failed 0\n",
            "",
            [MAKE, MAKE, b"", b""],
        ),
        (
            "--num-creds=3",
            [MADE, UNMADE, MADE, b""],
            1,
            "encoded 2 decoded 0 failed 1\n",
            "",
            [MAKE, MAKE, MAKE, b""],
        ),
        (
            "-N2\n-d",
            [MADE, OPENED, MADE, OPENED],
            0,
            "encoded 2 decoded 2 failed 0\n",
            "",
            [MAKE, OPEN, MAKE, OPEN],
        ),
        (
            "-N2\n--decode",
            [UNMADE, MADE, UNAUTHORIZED, b""],
            1,
            "encoded 1 decoded 0 failed 2\n",
            "",
            [MAKE, MAKE, OPEN, b""],
        ),
        (
            "-N2",
            [MADE, b"", b"", b""],
            102,
            "",
            "remunge: bad reply\n",
            [MAKE, MAKE, b"", b""],
        ),
        (
            "-N2\n-d",
            [MADE, MADE, b"", b""],
            102,
            "",
            "remunge: bad reply\n",
            [MAKE, OPEN, b"", b""],
        ),
        (
            "-N0",
            [b"", b"", b"", b""],
            100,
            "",
            "remunge: bad words\n",
            [b"", b"", b"", b""],
        ),
        (
            "-N100001",
            [b"", b"", b"", b""],
            100,
            "",
            "remunge: bad words\n",
            [b"", b"", b"", b""],
        ),
    ];
    for (words, replies, status, out, err, requests) in rows {
        let mut run = Run::new(alloc, Tool::Remunge, words)?;
        for reply in replies {
            run.reply(reply)?;
        }
        let mut sent = Vec::new(alloc);
        for request in requests {
            sent.extend_from_slice(request)?;
        }
        let wanted = Wanted {
            status,
            out: out.as_bytes(),
            err,
            sent: &sent,
        };
        run.assert_ends(&rt, wanted)?;
    }
    Ok(())
}

#[test]
fn failing_things(rt: HostRuntime) -> Result<(), Fail> {
    let alloc = rt.alloc();
    // The dial and the write that fail.
    for (dial, write, status, err, count) in [
        (1, 0, 101, "remunge: cannot reach the daemon\n", 0),
        (2, 0, 101, "remunge: cannot reach the daemon\n", 1),
        (0, 1, 104, "remunge: output failed\n", 2),
    ] {
        let mut run = Run::new(alloc, Tool::Remunge, "-N\n2")?;
        run.reply(MADE)?;
        run.reply(MADE)?;
        run.failing_dial = dial;
        run.failing_write = write;
        let mut sent = Vec::new(alloc);
        for _ in 0..count {
            sent.extend_from_slice(MAKE)?;
        }
        let wanted = Wanted {
            status,
            out: b"",
            err,
            sent: &sent,
        };
        run.assert_ends(&rt, wanted)?;
    }
    Ok(())
}
