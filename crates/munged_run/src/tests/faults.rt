//! Streams and clocks that fail, and input that is no request.

use super::fixture::Run;
use std::test::Fail;

/// The reply to the empty text.
const REPLY: &[u8] = b"\x4d\x01\x04\x00\x00\x00\x0a\x08\x01\xff\xff\xff\xff\xff\xff\xff\xff";

#[test]
fn input_that_is_no_request(rt: HostRuntime) -> Result<(), Fail> {
    // The input, how many empty texts in front of it are answered, and where it is no request.
    let table: [(&[u8], usize, Option<&str>); 10] = [
        (b"", 0, None),
        (b"\x4d\x01\x03\x00\x00\x00\x00", 1, None),
        (
            b"\x4d\x01\x03\x00\x00\x00\x00\x4d\x01\x03\x00\x00",
            1,
            Some("7"),
        ),
        (b"\x4d\x01\x03\x00\x00\x00\x02\x41", 0, Some("0")),
        (b"\x4e\x01\x03\x00\x00\x00\x00", 0, Some("0")),
        (b"\x4d\x02\x03\x00\x00\x00\x00", 0, Some("0")),
        (b"\x4d\x01\x03\x00\x20\x00\x01", 0, Some("0")),
        (b"\x4d\x01\x01\x00\x20\x00\x01", 0, Some("0")),
        (
            b"\x4d\x01\x01\x00\x00\x00\x0d\x00\x05\x00\x00\x00\x00\xff\xff\xff\xff\xff\xff\xff",
            0,
            Some("0"),
        ),
        (b"\x4d\x01\x02\x00\x00\x00\x01\x00", 0, Some("0")),
    ];
    for (input, replies, malformed) in table {
        let mut run = Run::new(rt.alloc())?;
        run.readings = vec![in rt.alloc(); 1000, 1000]?;
        run.input.extend_from_slice(input)?;
        for _ in 0..replies {
            run.output.extend_from_slice(REPLY)?;
        }
        match malformed {
            Some(place) => {
                run.said.push_str("malformed frame at ")?;
                run.said.push_str(place)?;
                run.assert_ends(&rt, 9, "an input")?;
            }
            None => run.assert_ends(&rt, 0, "an input")?,
        }
    }
    Ok(())
}

#[test]
fn requests_to_stop(rt: HostRuntime) -> Result<(), Fail> {
    // A caller without control goes on; and so many requests are answered at most.
    for (requests, status) in [(1, 0), (1_048_576, 0), (1_048_577, 11)] {
        let mut run = Run::new(rt.alloc())?;
        for _ in 0..requests {
            run.input
                .extend_from_slice(b"\x4d\x01\x05\x00\x00\x00\x00")?;
        }
        for _ in 0..requests.min(1_048_576) {
            run.output
                .extend_from_slice(b"\x4d\x01\x06\x00\x00\x00\x01\x12")?;
        }
        run.assert_ends(&rt, status, "requests to stop")?;
    }
    Ok(())
}

#[test]
fn faults_of_the_outside(rt: HostRuntime) -> Result<(), Fail> {
    // The failing read and the failing write, the readings, the replies and the status.
    for (read, write, readings, replies, status) in [
        (0, 0, 2, 2, 0),
        (1, 0, 2, 0, 5),
        (4, 0, 2, 1, 5),
        (0, 1, 2, 0, 6),
        (0, 2, 2, 1, 6),
        (0, 0, 0, 0, 7),
        (0, 0, 1, 1, 7),
    ] {
        let mut run = Run::new(rt.alloc())?;
        run.readings = vec![in rt.alloc(); 1000; readings]?;
        run.failing_read = read;
        run.failing_write = write;
        for _ in 0..2 {
            run.input
                .extend_from_slice(b"\x4d\x01\x03\x00\x00\x00\x00")?;
        }
        for _ in 0..replies {
            run.output.extend_from_slice(REPLY)?;
        }
        run.assert_ends(&rt, status, "two requests")?;
    }
    Ok(())
}
