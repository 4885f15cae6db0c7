//! The outside of a credential's body: the outer part, and the decode rules on it.
#![tactic(auto)]

pub mod laws;
mod outer;
mod reading;
mod refused;
mod rules;
#[cfg(test)]
mod tests;
mod writing;

pub use outer::{Outer, outer_size, vector_size};
pub use reading::read_outer;
pub use refused::OuterRefused;
pub use writing::{outer_head, write_outer};
