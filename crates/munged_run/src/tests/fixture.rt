//! A run of the program, made step by step from what is there before and what is wanted after.

use crate::run::munged_run;
use byte_io::{MemClock, MemFiles, MemSink, MemSource, NamedFile};
use std::alloc::{AllocError, Global};
use std::process::Abort;

/// The status and the rule of a reply.
pub(super) type Outcome = (u8, u8);

/// A key file.
pub(super) const KEY: [u8; 32] = [0; 32];

/// The place of a reply whose request made no entry.
pub(super) const NOWHERE: u64 = u64::MAX;

/// What there is before a run, and what it is to write to its output.
#[derive(Drop)]
pub(super) struct Run {
    alloc: Global,
    /// The words, one a line.
    pub(super) words: String,
    /// The bytes of the file `key`.
    pub(super) key: Vec<u8>,
    /// The bytes of the file `seed`, if there is one.
    pub(super) seed: Option<Vec<u8>>,
    /// The other files.
    others: Vec<NamedFile>,
    pub(super) input: Vec<u8>,
    /// The readings of the clock.
    pub(super) readings: Vec<u32>,
    /// The number of the read of the input that fails, or 0.
    pub(super) failing_read: u32,
    /// The number of the write to the output that fails, or 0.
    pub(super) failing_write: u32,
    /// The number of the read of a file that fails, or 0.
    pub(super) failing_file: u32,
    pub(super) output: Vec<u8>,
    /// What the line on the error stream says where the status alone does not tell it.
    pub(super) said: String,
}

impl Run {
    /// A session of the caller with UID and GID 7 under `KEY`, over an empty input and without a fault.
    pub(super) fn new(alloc: Global) -> Result<Run, AllocError> {
        Ok(Run {
            alloc,
            words: String::from_str(alloc, "session\nkey\n7\n7")?,
            key: Vec::from_slice(alloc, &KEY)?,
            seed: None,
            others: Vec::new(alloc),
            input: Vec::new(alloc),
            readings: Vec::new(alloc),
            failing_read: 0,
            failing_write: 0,
            failing_file: 0,
            output: Vec::new(alloc),
            said: String::new(alloc),
        })
    }

    /// Names the seed file `seed` in the words, and puts these bytes into it.
    pub(super) fn seed_with(&mut self, bytes: &[u8]) -> Result<(), AllocError> {
        self.words.push_str("\nseed")?;
        self.seed = Some(Vec::from_slice(self.alloc, bytes)?);
        Ok(())
    }

    /// A file of this name with these bytes.
    pub(super) fn add_file(&mut self, name: &str, bytes: &[u8]) -> Result<(), AllocError> {
        let file = named_file(self.alloc, name, bytes)?;
        self.others.push(file)?;
        Ok(())
    }

    /// An encode request with this body at this moment, and the reply that is wanted.
    pub(super) fn encode_turn(
        &mut self,
        moment: u32,
        body: &[u8],
        status: u8,
        text: &[u8],
    ) -> Result<(), AllocError> {
        self.readings.push(moment)?;
        self.input.extend_from_slice(b"\x4d\x01\x01")?;
        push_size(&mut self.input, body.len())?;
        self.input.extend_from_slice(body)?;
        self.output.extend_from_slice(b"\x4d\x01\x02")?;
        push_size(&mut self.output, text.len().saturating_add(1))?;
        self.output.push(status)?;
        self.output.extend_from_slice(text)
    }

    /// A decode request with this text at this moment, and the reply that is wanted.
    pub(super) fn turn(
        &mut self,
        moment: u32,
        text: &[u8],
        outcome: Outcome,
        place: u64,
        content: &[u8],
    ) -> Result<(), AllocError> {
        self.readings.push(moment)?;
        self.input.extend_from_slice(b"\x4d\x01\x03")?;
        push_size(&mut self.input, text.len())?;
        self.input.extend_from_slice(text)?;
        self.output.extend_from_slice(b"\x4d\x01\x04")?;
        push_size(&mut self.output, content.len().saturating_add(10))?;
        self.output.extend_from_slice(&[outcome.0, outcome.1])?;
        self.output.extend_from_slice(&place.to_be_bytes())?;
        self.output.extend_from_slice(content)
    }

    /// Makes the run, and asserts its status, what it wrote, and the line on its error stream.
    pub(super) fn assert_ends(
        &self,
        rt: &impl Abort,
        status: u8,
        row: &str,
    ) -> Result<(), AllocError> {
        let alloc = self.alloc;
        let mut words = Vec::new(alloc);
        for word in self.words.as_str().lines() {
            words.push(String::from_str(alloc, word)?)?;
        }
        let mut named = vec![in alloc; named_file(alloc, "key", &self.key)?]?;
        if let Some(seed) = &self.seed {
            named.push(named_file(alloc, "seed", seed)?)?;
        }
        for file in &self.others {
            named.push(named_file(alloc, file.name.as_str(), &file.bytes)?)?;
        }
        let fails = vec![in alloc; self.failing_file]?;
        let mut files = MemFiles::new(named, fails);
        let fails = vec![in alloc; self.failing_read]?;
        let mut input = MemSource::new(self.input.clone()?, 5, fails);
        let mut out = MemSink::new(alloc, vec![in alloc; self.failing_write]?);
        let mut err = MemSink::new(alloc, Vec::new(alloc));
        let mut clock = MemClock::new(self.readings.clone()?, Vec::new(alloc));
        let ended = munged_run(
            alloc, &words, &mut files, &mut input, &mut out, &mut err, &mut clock,
        );
        assert_eq!(rt; ended, status, "the status of {row}");
        assert_eq!(rt; out.taken(), self.output.as_slice(), "what {row} wrote");
        let line = self.line(status)?;
        assert_eq!(rt; err.taken(), line.as_bytes(), "the line of {row}");
        Ok(())
    }

    /// The line on the error stream of a run that ends with this status.
    fn line(&self, status: u8) -> Result<String, AllocError> {
        let said = match status {
            0 => return String::from_str(self.alloc, ""),
            1 => "bad words",
            5 => "input failed",
            6 => "output failed",
            7 => "clock failed",
            10 => "no memory",
            11 => "1048576 requests answered",
            _ => self.said.as_str(),
        };
        let mut line = String::from_str(self.alloc, "munged: ")?;
        line.push_str(said)?;
        line.push_str("\n")?;
        Ok(line)
    }
}

/// A file with this name and these bytes.
fn named_file(alloc: Global, name: &str, bytes: &[u8]) -> Result<NamedFile, AllocError> {
    Ok(NamedFile {
        name: String::from_str(alloc, name)?,
        bytes: Vec::from_slice(alloc, bytes)?,
    })
}

/// A size of four bytes.
fn push_size(stream: &mut Vec<u8>, size: usize) -> Result<(), AllocError> {
    let size = u32::try_from(size).unwrap_or(u32::MAX);
    stream.extend_from_slice(&size.to_be_bytes())
}
