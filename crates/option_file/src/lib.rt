//! The option file: TOML text, read into what it says or refused with the first cause.
#![tactic(auto)]

mod address;
mod fields;
mod key;
mod known_keys;
pub mod laws;
mod name;
mod options;
mod parts;
mod refused;
mod sockets;

pub use key::Key;
pub use name::Name;
pub use options::Options;
pub use refused::OptionRefused;
pub use sockets::SocketLine;

#[cfg(test)]
mod tests;
