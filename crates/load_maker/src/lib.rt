//! A large valid input, made from a number: a world, and texts of credentials that were sealed in
//! it, for programs that show what many requests come to.
#![tactic(auto)]

mod credential;
pub mod laws;
mod making;
#[cfg(test)]
mod tests;
mod words;

pub use making::{Load, make};
