//! Real forms, over the runtime and over std's readers and writers.

mod clock;
mod files;
mod sink;
mod source;

pub use clock::SystemClock;
pub use files::DiskFiles;
pub use sink::StdSink;
pub use source::StdSource;

/// How often a read or a write that a signal interrupts is tried.
const TRIES: u32 = 1000;
