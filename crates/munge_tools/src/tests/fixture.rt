//! A run of a tool, made from what is there before and what is wanted after.

use crate::{munge_run, remunge_run, unmunge_run};
use byte_io::{MemSink, MemSource, MemWire};
use std::alloc::{AllocError, Global};
use std::process::Abort;

/// The text of the usual credential.
pub(super) const TEXT: &[u8] =
    b"MUNGE:AwQFAADlal1AKL2GU7gZ0r0a7Y2gZdOW0dtIZnPPrjS6h3x2aomh8ZNQVH6NmOcaPRwS8mjed530PxWTNeODkFayJ+4ddvj+VTK0PF2qdcCP1XSD2VKm4Mz/XqmVx2UOiIvzOCA=:";

/// The reply to the usual decode request.
pub(super) const OPENED: &[u8] =
    b"\x4d\x01\x04\x00\x00\x00\x2d\x00\x00\x00\x00\x00\x00\x00\x00\x00\x01\x04\x05\x00\x00\x00\x00\x00\x00\x03\xe8\x00\x00\x01\x2c\x00\x00\x00\x07\x00\x00\x00\x07\xff\xff\xff\xff\xff\xff\xff\xffhello";

/// The tools.
#[derive(Clone, Copy, Debug, PartialEq, Eq)]
pub(super) enum Tool {
    Munge,
    Unmunge,
    Remunge,
}

/// What there is before a run.
#[derive(Drop)]
pub(super) struct Run {
    alloc: Global,
    tool: Tool,
    /// The words, one a line.
    words: String,
    pub(super) input: Vec<u8>,
    /// The replies, one for each dial.
    pub(super) replies: Vec<Vec<u8>>,
    /// The number of the dial that fails, or 0.
    pub(super) failing_dial: u32,
    /// The number of the read of the input that fails, or 0.
    pub(super) failing_read: u32,
    /// The number of the write to the output that fails, or 0.
    pub(super) failing_write: u32,
}

/// What a run is to come to.
#[derive(Clone, Copy)]
pub(super) struct Wanted<'a> {
    pub(super) status: u8,
    /// What the output takes.
    pub(super) out: &'a [u8],
    /// What the error stream takes.
    pub(super) err: &'a str,
    /// What the wire takes.
    pub(super) sent: &'a [u8],
}

impl Run {
    /// A run over an empty input, without replies and faults.
    pub(super) fn new(alloc: Global, tool: Tool, words: &str) -> Result<Run, AllocError> {
        Ok(Run {
            alloc,
            tool,
            words: String::from_str(alloc, words)?,
            input: Vec::new(alloc),
            replies: Vec::new(alloc),
            failing_dial: 0,
            failing_read: 0,
            failing_write: 0,
        })
    }

    /// One more reply.
    pub(super) fn reply(&mut self, bytes: &[u8]) -> Result<(), AllocError> {
        let bytes = Vec::from_slice(self.alloc, bytes)?;
        self.replies.push(bytes)?;
        Ok(())
    }

    /// Makes the run, and asserts what it comes to.
    pub(super) fn assert_ends(self, rt: &impl Abort, wanted: Wanted<'_>) -> Result<(), AllocError> {
        let Run {
            alloc,
            tool,
            words: line,
            input,
            replies,
            failing_dial,
            failing_read,
            failing_write,
        } = self;
        let mut words = Vec::new(alloc);
        for word in line.as_str().lines() {
            words.push(String::from_str(alloc, word)?)?;
        }
        let mut input = MemSource::new(input, 5, vec![in alloc; failing_read]?);
        let mut out = MemSink::new(alloc, vec![in alloc; failing_write]?);
        let mut err = MemSink::new(alloc, Vec::new(alloc));
        let mut wire = MemWire::new(alloc, replies, vec![in alloc; failing_dial]?);
        let row = line.as_str();
        let status = match tool {
            Tool::Munge => munge_run(alloc, &words, &mut input, &mut out, &mut err, &mut wire),
            Tool::Unmunge => unmunge_run(alloc, &words, &mut input, &mut out, &mut err, &mut wire),
            Tool::Remunge => remunge_run(alloc, &words, &mut out, &mut err, &mut wire),
        };
        assert_eq!(rt; status, wanted.status, "the status of {row}");
        assert_eq!(rt; out.taken(), wanted.out, "what {row} printed");
        assert_eq!(rt; err.taken(), wanted.err.as_bytes(), "the line of {row}");
        assert_eq!(rt; wire.taken(), wanted.sent, "what {row} sent");
        Ok(())
    }
}
