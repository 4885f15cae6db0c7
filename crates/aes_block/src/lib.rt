//! AES (FIPS 197) for keys of 16 and of 32 bytes, both ways, on one block of 16 bytes in place.
//! Sections are those of the standard's edition of 2023.
//!
//! Rounds go through tables, and decryption is the standard's equivalent inverse cipher (5.3.5).
//! Every call returns, takes no memory and refuses nothing.
//!
//! A caller, which the test `caller` runs:
//!
//! ```
//! let key = Key128::new(b"\x2b\x7e\x15\x16\x28\xae\xd2\xa6\xab\xf7\x15\x88\x09\xcf\x4f\x3c");
//! let plain = *b"\x32\x43\xf6\xa8\x88\x5a\x30\x8d\x31\x31\x98\xa2\xe0\x37\x07\x34";
//! let encrypted = *b"\x39\x25\x84\x1d\x02\xdc\x09\xfb\xdc\x11\x85\x97\x19\x6a\x0b\x32";
//! let mut block = plain;
//! key.encrypt(&mut block);
//! assert_eq!(rt; block, encrypted);
//! key.decrypt(&mut block);
//! assert_eq!(rt; block, plain);
//! ```
#![tactic(auto)]

mod cipher;
mod data_key;
mod inverse_cipher;
mod inverse_tables;
mod key128;
mod key256;
mod key_expansion;
pub mod laws;
mod s_box;
mod state;
mod tables;
mod word;

pub use data_key::DataKey;
pub use key128::Key128;
pub use key256::Key256;

#[cfg(test)]
mod tests;
