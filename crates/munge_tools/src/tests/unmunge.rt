//! unmunge.

use super::fixture::{OPENED, Run, TEXT, Tool, Wanted};
use std::alloc::{AllocError, Global};
use std::test::Fail;

/// What is printed of the usual reply.
const PRINTED: &[u8] =
    b"STATUS: 0\nRULE: 0\nPLACE: 1\nCIPHER: 4\nMAC: 5\nADDRESS: 0.0.0.0\nTIME: 1000\nTTL: 300\nUID: 7\nGID: 7\nUID_RESTRICTION: any\nGID_RESTRICTION: any\nLENGTH: 5\n\nhello";

/// What is printed of a refusal by the tenth rule.
const REFUSED: &[u8] = b"STATUS: 18\nRULE: 10\nPLACE: none\n";

/// The reply with status 18 and rule 10.
const UNAUTHORIZED: &[u8] = b"\x4d\x01\x04\x00\x00\x00\x0a\x12\x0a\xff\xff\xff\xff\xff\xff\xff\xff";

/// The request to open this text.
fn request(alloc: Global, text: &[u8]) -> Result<Vec<u8>, AllocError> {
    let mut bytes = Vec::from_slice(alloc, b"\x4d\x01\x03")?;
    let size = u32::try_from(text.len()).unwrap_or(0);
    bytes.extend_from_slice(&size.to_be_bytes())?;
    bytes.extend_from_slice(text)?;
    Ok(bytes)
}

#[test]
fn replies_and_what_is_printed(rt: HostRuntime) -> Result<(), Fail> {
    let alloc = rt.alloc();
    let rows: [(&str, &[u8], u8, &[u8], &str); 13] = [
        ("", OPENED, 0, PRINTED, ""),
        ("-n", OPENED, 0, b"", ""),
        ("--no-output", UNAUTHORIZED, 18, b"", ""),
        ("--socket=there", UNAUTHORIZED, 18, REFUSED, ""),
        // A status that is not the rule's.
        (
            "",
            b"\x4d\x01\x04\x00\x00\x00\x0a\x11\x0a\xff\xff\xff\xff\xff\xff\xff\xff",
            102,
            b"",
            "unmunge: bad reply\n",
        ),
        // A rule that there is not.
        (
            "",
            b"\x4d\x01\x04\x00\x00\x00\x0a\x00\x0f\xff\xff\xff\xff\xff\xff\xff\xff",
            102,
            b"",
            "unmunge: bad reply\n",
        ),
        // No content where the rule shows it.
        (
            "",
            b"\x4d\x01\x04\x00\x00\x00\x0a\x11\x0e\x00\x00\x00\x00\x00\x00\x00\x01",
            102,
            b"",
            "unmunge: bad reply\n",
        ),
        (
            "",
            b"\x4d\x01\x02\x00\x00\x00\x01\x02",
            102,
            b"",
            "unmunge: bad reply\n",
        ),
        ("", b"", 102, b"", "unmunge: bad reply\n"),
        (
            "",
            b"\x4d\x01\x04\x00\x00",
            102,
            b"",
            "unmunge: bad reply\n",
        ),
        ("", b"\x4d\x01\x04\x01", 102, b"", "unmunge: bad reply\n"),
        (
            "",
            b"\x4d\x01\x04\x00\x00\x00\x0a\x09\x02\xff\xff\xff\xff\xff\xff\xff\xff",
            9,
            b"STATUS: 9\nRULE: 2\nPLACE: none\n",
            "",
        ),
        (
            "",
            b"\x4d\x01\x04\x00\x00\x00\x0a\x0a\x03\xff\xff\xff\xff\xff\xff\xff\xff",
            10,
            b"STATUS: 10\nRULE: 3\nPLACE: none\n",
            "",
        ),
    ];
    let sent = request(alloc, TEXT)?;
    for (words, reply, status, out, err) in rows {
        let mut run = Run::new(alloc, Tool::Unmunge, words)?;
        run.input.extend_from_slice(TEXT)?;
        run.reply(reply)?;
        let wanted = Wanted {
            status,
            out,
            err,
            sent: &sent,
        };
        run.assert_ends(&rt, wanted)?;
    }
    Ok(())
}

#[test]
fn refused_words(rt: HostRuntime) -> Result<(), Fail> {
    for words in ["-n\n-n", "text", "-s\na", "--no-output=yes", "-S", "-h"] {
        let run = Run::new(rt.alloc(), Tool::Unmunge, words)?;
        let wanted = Wanted {
            status: 100,
            out: b"",
            err: "unmunge: bad words\n",
            sent: b"",
        };
        run.assert_ends(&rt, wanted)?;
    }
    Ok(())
}

#[test]
fn failing_things(rt: HostRuntime) -> Result<(), Fail> {
    let alloc = rt.alloc();
    let sent = request(alloc, b"text")?;
    // The dial, the read of the input and the write that fail.
    let rows: [(u32, u32, u32, u8, &str, &[u8]); 3] = [
        (1, 0, 0, 101, "unmunge: cannot reach the daemon\n", b""),
        (0, 1, 0, 103, "unmunge: input failed\n", b""),
        (0, 0, 1, 104, "unmunge: output failed\n", &sent),
    ];
    for (dial, read, write, status, err, sent) in rows {
        let mut run = Run::new(alloc, Tool::Unmunge, "")?;
        run.input.extend_from_slice(b"text")?;
        run.reply(OPENED)?;
        run.failing_dial = dial;
        run.failing_read = read;
        run.failing_write = write;
        let wanted = Wanted {
            status,
            out: b"",
            err,
            sent,
        };
        run.assert_ends(&rt, wanted)?;
    }
    Ok(())
}

#[test]
fn text_beyond_the_limit(rt: HostRuntime) -> Result<(), Fail> {
    let alloc = rt.alloc();
    let mut run = Run::new(alloc, Tool::Unmunge, "")?;
    run.input = vec![in alloc; b'a'; 2_097_153]?;
    let wanted = Wanted {
        status: 3,
        out: b"",
        err: "unmunge: too long\n",
        sent: b"",
    };
    run.assert_ends(&rt, wanted)?;
    Ok(())
}
