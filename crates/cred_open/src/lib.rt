//! Opening a credential: from its text to its content, and to the pair that the replay state
//! remembers.
#![tactic(auto)]

pub mod laws;
mod mac;
mod opened;
mod opened_in;
mod opening;
#[cfg(test)]
mod tests;
mod unsealing;

pub use cred_outer::OuterRefused;
pub use opened::Opened;
pub use opened_in::OpenedIn;
pub use opening::{OpenRefused, open_in, open_text};
