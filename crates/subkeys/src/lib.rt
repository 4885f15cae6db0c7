//! The subkeys that a key file stands for, with HMAC prepared under each: for the MACs of
//! credentials, and for the keys of their ciphers. No call takes memory.
#![tactic(auto)]

pub mod laws;
mod prepared;
mod subkeys;
#[cfg(test)]
mod tests;

pub use subkeys::{KeyRefused, Subkeys};
