//! Sealing a credential: from what a client asks, and who asks, to the credential's text.
#![tactic(auto)]

mod asked;
mod body;
mod dice;
pub mod laws;
mod request;
mod sealing;

pub use dice::{Dice, Drawn};
pub use request::SealRequest;
pub use sealing::{SealRefused, SealedInto, seal, seal_into, text_size};
