//! The armour of a credential: its body in base64 (RFC 4648, the standard alphabet with padding, in
//! its canonical spelling) between `MUNGE:` and `:`, with spaces round them. `armor` and `ArmorOut`
//! write it without spaces, at once and part by part, and `unarmor` and `unarmor_in` read it back.
//!
//! A caller, which the test `caller` runs:
//!
//! ```
//! let text = armor(rt.alloc(), b"foobar")?;
//! assert_eq!(rt; text.as_slice(), b"MUNGE:Zm9vYmFy:".as_slice());
//! let body = unarmor(rt.alloc(), b" \tMUNGE:Zm9vYmFy:\r\n")?;
//! assert_eq!(rt; body.as_slice(), b"foobar".as_slice());
//! match unarmor(rt.alloc(), b"Zm9vYmFy") {
//!     Ok(_) => assert!(rt; false, "a body without marks"),
//!     Err(refused) => assert_eq!(rt; refused, ArmorRefused::NotArmor),
//! }
//! Ok(())
//! ```
#![tactic(auto)]

mod armor_out;
mod armoring;
mod encoding;
pub mod laws;
mod marks;
#[cfg(test)]
mod tests;
mod unarmoring;

pub use armor_out::ArmorOut;
pub use armoring::{armor, armor_size};
pub use unarmoring::{ArmorRefused, unarmor, unarmor_in};
