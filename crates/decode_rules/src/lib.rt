//! The decode rules as a whole: from a text to the reply that a caller gets, with the history asked
//! in between by whoever holds it.
#![tactic(auto)]

pub mod laws;
mod prepared;
mod ready;
mod reply;
#[cfg(test)]
mod tests;
mod world;

pub use prepared::{Prepared, prepare, prepare_in};
pub use ready::{Ready, complete};
pub use reply::Reply;
pub use world::World;
