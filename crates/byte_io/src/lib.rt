//! The outside of munged: sources and sinks of bytes, connections in and out, clocks, tickers and
//! files, as traits whose contracts count every fault. All have forms in memory, for tests; sources,
//! sinks, clocks and files have real forms over the runtime.
//!
//! An object of the outside may tell what it holds, as the forms in memory do. What a contract says
//! of content holds where it is told. That the real things behave so is not proved.
#![tactic(auto)]

mod all_written;
mod clock;
mod clocks;
mod door;
mod files;
mod full_read;
mod hall;
mod link;
mod memory;
mod real;
mod sink;
mod source;
#[cfg(test)]
mod tests;
mod ticker;
mod wire;

pub use all_written::{AllWritten, write_all};
pub use clock::Clock;
pub use clocks::Clocks;
pub use door::{Door, Next};
pub use files::{FileFail, Files};
pub use full_read::{FullRead, read_full};
pub use hall::Hall;
pub use link::Link;
pub use memory::{
    MemClock, MemClocks, MemDoor, MemFiles, MemHall, MemLink, MemSink, MemSource, MemTicker,
    MemWire, NamedDoor, NamedFile,
};
pub use real::{DiskFiles, StdSink, StdSource, SystemClock};
pub use sink::Sink;
pub use source::Source;
pub use ticker::{Tick, Ticker};
pub use wire::Wire;
