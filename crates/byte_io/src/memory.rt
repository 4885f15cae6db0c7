//! Forms in memory, for tests: their contents are given when they are made, with the numbers of the
//! calls that are to fail.

mod calls;
mod clock;
mod clocks;
mod door;
mod files;
mod hall;
mod link;
mod sink;
mod source;
mod ticker;
mod wire;

pub use clock::MemClock;
pub use clocks::MemClocks;
pub use door::MemDoor;
pub use files::{MemFiles, NamedFile};
pub use hall::{MemHall, NamedDoor};
pub use link::MemLink;
pub use sink::MemSink;
pub use source::MemSource;
pub use ticker::MemTicker;
pub use wire::MemWire;
