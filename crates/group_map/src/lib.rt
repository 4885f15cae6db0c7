//! Which users are members of which groups, by a passwd file and a group file that are handed in.
#![tactic(auto)]

mod cut;
mod form;
mod group;
pub mod laws;
mod map;
mod name;
mod names;
mod number;
mod passwd;
mod reading;
mod refused;
mod table;
#[cfg(test)]
mod tests;

pub use map::GroupMap;
pub use refused::MapRefused;
