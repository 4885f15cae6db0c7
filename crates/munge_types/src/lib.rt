//! What every crate of munged speaks of: the numbers of the format, identities and settings, pairs,
//! histories with their verdicts, the traits of replay structures and of what takes bytes, and the
//! two refusals that carry nothing.
#![tactic(auto)]

mod algorithms;
mod history;
mod identity;
pub mod laws;
mod mac_bytes;
mod pair;
mod put;
mod refusal;
mod replay;
mod room;
mod rule;
mod settings;
mod status;

pub use algorithms::{Cipher, MacKind};
pub use history::{Event, Verdict};
pub use identity::Identity;
pub use mac_bytes::MacBytes;
pub use pair::Pair;
pub use put::Put;
pub use refusal::{Failed, NoMemory};
pub use replay::{Purged, Replay};
pub use room::Room;
pub use rule::Rule;
pub use settings::Settings;
pub use status::Status;

#[cfg(test)]
mod tests;
