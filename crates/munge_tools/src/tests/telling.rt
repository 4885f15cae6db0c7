//! What a tool tells of itself, and how it begins.

use crate::begin;
use crate::telling::{About, tell};
use byte_io::MemSink;
use std::test::Fail;

const ABOUT: About<'static> = About {
    name: "munge",
    help: "what it does\n",
    version: "munge 0\n",
};

#[test]
fn a_word_alone_is_told(rt: HostRuntime) -> Result<(), Fail> {
    let alloc = rt.alloc();
    // the words, one a line, the number of the write that fails or 0, and what comes of them
    let rows = [
        ("--help", 0, Some(0), "what it does\n", ""),
        ("--version", 0, Some(0), "munge 0\n", ""),
        ("--version", 1, Some(104), "", "munge: output failed\n"),
        ("", 0, None, "", ""),
        ("--hel", 0, None, "", ""),
        ("--help\n--help", 0, None, "", ""),
    ];
    for (line, failing_write, status, printed, said) in rows {
        let mut words = Vec::new(alloc);
        for word in line.lines() {
            words.push(String::from_str(alloc, word)?)?;
        }
        let mut out = MemSink::new(alloc, vec![in alloc; failing_write]?);
        let mut err = MemSink::new(alloc, Vec::new(alloc));
        let told = tell(ABOUT, &words, &mut out, &mut err);
        assert_eq!(rt; told, status, "the status of {line}");
        assert_eq!(rt; out.taken(), printed.as_bytes(), "what {line} printed");
        assert_eq!(rt; err.taken(), said.as_bytes(), "the line of {line}");
    }
    Ok(())
}

#[test]
fn a_tool_begins_silently(rt: HostRuntime) -> Result<(), Fail> {
    let alloc = rt.alloc();
    let mut out = MemSink::new(alloc, Vec::new(alloc));
    let mut err = MemSink::new(alloc, Vec::new(alloc));
    assert!(rt; begin(&rt, ABOUT, &mut out, &mut err).is_ok());
    assert!(rt; out.taken().is_empty());
    assert!(rt; err.taken().is_empty());
    Ok(())
}
