//! HMAC (RFC 2104) over the hash functions of FIPS 180-4, fed in parts. No call takes memory.
//!
//! A caller, which the test `caller` runs:
//!
//! ```
//! let mut hmac = Hmac::new(MacKind::Sha256, b"Jefe");
//! hmac.update(b"what do ya want ");
//! hmac.update(b"for nothing?");
//! let mac = hmac.finish();
//! let want = b"\x5b\xdc\xc1\x46\xbf\x60\x75\x4e\x6a\x04\x24\x26\x08\x95\x75\xc7\
//!     \x5a\x00\x3f\x08\x9d\x27\x39\x83\x9d\xec\x58\xb9\x64\xec\x38\x43";
//! assert_eq!(rt; mac.bytes(), want.as_slice());
//! assert!(rt; equal(&mac, want));
//! assert!(rt; !equal(&mac, &want[..31]));
//! ```
#![tactic(auto)]

mod comparison;
mod hasher;
mod hmac;
pub mod laws;
#[cfg(test)]
mod tests;

pub use comparison::equal;
pub use hmac::Hmac;
