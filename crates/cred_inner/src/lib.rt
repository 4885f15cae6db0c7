//! The inner part of a credential: what it says, written as bytes and read from them.
#![tactic(auto)]

mod inner;
pub mod laws;
mod reading;
#[cfg(test)]
mod tests;
mod writing;

pub use inner::{HEAD_SIZE, Inner, PAYLOAD_LIMIT};
pub use reading::read_inner;
pub use writing::{inner_head, write_inner};
