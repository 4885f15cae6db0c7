//! Requests whose texts are no credential of the key.

use super::fixture::{NOWHERE, Run};
use std::test::Fail;

#[test]
fn first_run(rt: HostRuntime) -> Result<(), Fail> {
    let mut run = Run::new(rt.alloc())?;
    run.readings = vec![in rt.alloc(); 0, u32::MAX, 5]?;
    run.input.extend_from_slice(
        b"\x4d\x01\x03\x00\x00\x00\x00\x4d\x01\x03\x00\x00\x00\x07MUNGE::\x4d\x01\x03\x00\x00\x00\x0bMUNGE:AA==:",
    )?;
    for (status, rule) in [(8, 1), (8, 2), (9, 2)] {
        run.output
            .extend_from_slice(b"\x4d\x01\x04\x00\x00\x00\x0a")?;
        run.output.extend_from_slice(&[status, rule])?;
        run.output.extend_from_slice(&[0xff; 8])?;
    }
    run.assert_ends(&rt, 0, "the first run")?;
    Ok(())
}

#[test]
fn texts_that_break_a_rule(rt: HostRuntime) -> Result<(), Fail> {
    let mut run = Run::new(rt.alloc())?;
    for (text, outcome) in [
        ("MUNGE:AwAFAgA=:", (12, 5)),
        ("MUNGE:AwAFAAE=:", (13, 6)),
        ("MUNGE:AwAFAAA=:", (8, 7)),
        ("MUNGE:AwMFAAA=:", (10, 3)),
        ("MUNGE:AwUDAAA=:", (11, 4)),
        ("MUNGE:AwQFAgA=:", (12, 5)),
        ("MUNGE:AwQFAAE=:", (13, 6)),
        ("MUNGE:AwQFAAA=:", (8, 7)),
        ("MUNGE:Aw==:", (8, 3)),
        ("MUNGE:AwIFAAA=:", (10, 3)),
        ("", (8, 1)),
        ("MUNGE:", (8, 1)),
        ("MUNGE::", (8, 2)),
        ("MUNGE:AA==:", (9, 2)),
        ("MUNGE:AB==:", (8, 1)),
    ] {
        run.turn(1000, text.as_bytes(), outcome, NOWHERE, &[])?;
    }
    run.assert_ends(&rt, 0, "texts in turn")?;
    Ok(())
}
