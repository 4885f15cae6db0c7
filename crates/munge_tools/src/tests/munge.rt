//! munge.

use super::fixture::{Run, TEXT, Tool, Wanted};
use std::alloc::{AllocError, Global};
use std::test::Fail;

/// The reply with this status and text.
fn reply(alloc: Global, status: u8, text: &[u8]) -> Result<Vec<u8>, AllocError> {
    let mut bytes = Vec::from_slice(alloc, b"\x4d\x01\x02")?;
    let size = u32::try_from(text.len()).unwrap_or(0).saturating_add(1);
    bytes.extend_from_slice(&size.to_be_bytes())?;
    bytes.push(status)?;
    bytes.extend_from_slice(text)?;
    Ok(bytes)
}

/// The request for `hello` with these bytes before the payload.
fn request(alloc: Global, fields: &[u8], payload: &[u8]) -> Result<Vec<u8>, AllocError> {
    let mut bytes = Vec::from_slice(alloc, b"\x4d\x01\x01")?;
    let size = u32::try_from(payload.len()).unwrap_or(0).saturating_add(14);
    bytes.extend_from_slice(&size.to_be_bytes())?;
    bytes.extend_from_slice(fields)?;
    bytes.extend_from_slice(payload)?;
    Ok(bytes)
}

#[test]
fn hello_is_sealed(rt: HostRuntime) -> Result<(), Fail> {
    let alloc = rt.alloc();
    let mut run = Run::new(alloc, Tool::Munge, "-s\nhello")?;
    run.reply(&reply(alloc, 0, TEXT)?)?;
    let mut line = Vec::from_slice(alloc, TEXT)?;
    line.push(b'\n')?;
    let wanted = Wanted {
        status: 0,
        out: &line,
        err: "",
        sent: b"\x4d\x01\x01\x00\x00\x00\x13\x01\x01\x00\x00\x00\x00\xff\xff\xff\xff\xff\xff\xff\xffhello",
    };
    run.assert_ends(&rt, wanted)?;
    Ok(())
}

#[test]
fn each_option_is_sent(rt: HostRuntime) -> Result<(), Fail> {
    let alloc = rt.alloc();
    let any = b"\x01\x01\x00\x00\x00\x00\xff\xff\xff\xff\xff\xff\xff\xff";
    let rows: [(&str, &[u8], &[u8]); 15] = [
        ("", any, b"input"),
        ("-n", any, b""),
        ("--no-input", any, b""),
        ("-shi", any, b"hi"),
        ("--string=", any, b""),
        ("--string\nhi", any, b"hi"),
        (
            "-c\nnone",
            b"\x00\x01\x00\x00\x00\x00\xff\xff\xff\xff\xff\xff\xff\xff",
            b"input",
        ),
        (
            "--cipher=aes128",
            b"\x04\x01\x00\x00\x00\x00\xff\xff\xff\xff\xff\xff\xff\xff",
            b"input",
        ),
        (
            "-caes256",
            b"\x05\x01\x00\x00\x00\x00\xff\xff\xff\xff\xff\xff\xff\xff",
            b"input",
        ),
        (
            "-m\nsha1",
            b"\x01\x03\x00\x00\x00\x00\xff\xff\xff\xff\xff\xff\xff\xff",
            b"input",
        ),
        (
            "--mac=sha256",
            b"\x01\x05\x00\x00\x00\x00\xff\xff\xff\xff\xff\xff\xff\xff",
            b"input",
        ),
        (
            "-msha512\n-cdefault",
            b"\x01\x06\x00\x00\x00\x00\xff\xff\xff\xff\xff\xff\xff\xff",
            b"input",
        ),
        (
            "-u\n7\n-mdefault",
            b"\x01\x01\x00\x00\x00\x00\x00\x00\x00\x07\xff\xff\xff\xff",
            b"input",
        ),
        (
            "-g\n0",
            b"\x01\x01\x00\x00\x00\x00\xff\xff\xff\xff\x00\x00\x00\x00",
            b"input",
        ),
        (
            "-t\n04294967295",
            b"\x01\x01\xff\xff\xff\xff\xff\xff\xff\xff\xff\xff\xff\xff",
            b"input",
        ),
    ];
    for (words, fields, payload) in rows {
        let mut run = Run::new(alloc, Tool::Munge, words)?;
        run.input.extend_from_slice(b"input")?;
        run.reply(&reply(alloc, 11, b"")?)?;
        let sent = request(alloc, fields, payload)?;
        let wanted = Wanted {
            status: 11,
            out: b"",
            err: "munge: status 11\n",
            sent: &sent,
        };
        run.assert_ends(&rt, wanted)?;
    }
    Ok(())
}

#[test]
fn refused_words(rt: HostRuntime) -> Result<(), Fail> {
    for words in [
        "-s\na\n-n",
        "-n\n-n",
        "-s\na\n-s\nb",
        "word",
        "--help",
        "--version",
        "--other",
        "-c\nblowfish",
        "-m\nmd5",
        "-u\n4294967296",
        "-g\n-1",
        "-t\n",
        "-t\n+1",
        "-t\n1s",
        "-S",
    ] {
        let run = Run::new(rt.alloc(), Tool::Munge, words)?;
        let wanted = Wanted {
            status: 100,
            out: b"",
            err: "munge: bad words\n",
            sent: b"",
        };
        run.assert_ends(&rt, wanted)?;
    }
    Ok(())
}

#[test]
fn replies_and_their_statuses(rt: HostRuntime) -> Result<(), Fail> {
    let rows: [(&[u8], u8, &[u8], &str); 12] = [
        (b"\x4d\x01\x02\x00\x00\x00\x02\x00M", 0, b"M\n", ""),
        (
            b"\x4d\x01\x02\x00\x00\x00\x01\x02",
            2,
            b"",
            "munge: status 2\n",
        ),
        (
            b"\x4d\x01\x02\x00\x00\x00\x01\x03",
            3,
            b"",
            "munge: status 3\n",
        ),
        (
            b"\x4d\x01\x02\x00\x00\x00\x01\x0a",
            10,
            b"",
            "munge: status 10\n",
        ),
        (
            b"\x4d\x01\x02\x00\x00\x00\x01\x0b",
            11,
            b"",
            "munge: status 11\n",
        ),
        (
            b"\x4d\x01\x02\x00\x00\x00\x01\x01",
            102,
            b"",
            "munge: bad reply\n",
        ),
        (
            b"\x4d\x01\x02\x00\x00\x00\x01\x0c",
            102,
            b"",
            "munge: bad reply\n",
        ),
        (b"", 102, b"", "munge: bad reply\n"),
        (
            b"\x4d\x01\x02\x00\x00\x00\x02\x00",
            102,
            b"",
            "munge: bad reply\n",
        ),
        (b"\x4e", 102, b"", "munge: bad reply\n"),
        (
            b"\x4d\x01\x06\x00\x00\x00\x01\x00",
            102,
            b"",
            "munge: bad reply\n",
        ),
        (
            b"\x4d\x01\x02\x00\x00\x00\x01\x02more",
            2,
            b"",
            "munge: status 2\n",
        ),
    ];
    for (bytes, status, out, err) in rows {
        let mut run = Run::new(rt.alloc(), Tool::Munge, "-n")?;
        run.reply(bytes)?;
        let wanted = Wanted {
            status,
            out,
            err,
            sent: b"\x4d\x01\x01\x00\x00\x00\x0e\x01\x01\x00\x00\x00\x00\xff\xff\xff\xff\xff\xff\xff\xff",
        };
        run.assert_ends(&rt, wanted)?;
    }
    Ok(())
}

#[test]
fn failing_things(rt: HostRuntime) -> Result<(), Fail> {
    let alloc = rt.alloc();
    let any = b"\x01\x01\x00\x00\x00\x00\xff\xff\xff\xff\xff\xff\xff\xff";
    let sent = request(alloc, any, b"input")?;
    // The dial, the read of the input and the write that fail.
    let rows: [(u32, u32, u32, u8, &[u8], &str, &[u8]); 5] = [
        (1, 0, 0, 101, b"", "munge: cannot reach the daemon\n", b""),
        (0, 1, 0, 103, b"", "munge: input failed\n", b""),
        (0, 2, 0, 103, b"", "munge: input failed\n", b""),
        (0, 0, 1, 104, b"", "munge: output failed\n", &sent),
        (0, 0, 2, 104, b"M", "munge: output failed\n", &sent),
    ];
    for (dial, read, write, status, out, err, sent) in rows {
        let mut run = Run::new(alloc, Tool::Munge, "-S\nhere")?;
        run.input.extend_from_slice(b"input")?;
        run.reply(b"\x4d\x01\x02\x00\x00\x00\x02\x00M")?;
        run.failing_dial = dial;
        run.failing_read = read;
        run.failing_write = write;
        let wanted = Wanted {
            status,
            out,
            err,
            sent,
        };
        run.assert_ends(&rt, wanted)?;
    }
    Ok(())
}

#[test]
fn payload_at_the_limit(rt: HostRuntime) -> Result<(), Fail> {
    let alloc = rt.alloc();
    let any = b"\x01\x01\x00\x00\x00\x00\xff\xff\xff\xff\xff\xff\xff\xff";
    for (size, status, err) in [
        (1_048_576, 2, "munge: status 2\n"),
        (1_048_577, 3, "munge: too long\n"),
    ] {
        let payload = vec![in alloc; b'a'; size]?;
        let mut run = Run::new(alloc, Tool::Munge, "")?;
        run.input.extend_from_slice(&payload)?;
        run.reply(b"\x4d\x01\x02\x00\x00\x00\x01\x02")?;
        let mut sent = Vec::new(alloc);
        if status == 2 {
            sent = request(alloc, any, &payload)?;
        }
        let wanted = Wanted {
            status,
            out: b"",
            err,
            sent: &sent,
        };
        run.assert_ends(&rt, wanted)?;
    }
    Ok(())
}
