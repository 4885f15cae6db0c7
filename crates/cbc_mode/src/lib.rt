//! Cipher block chaining (NIST SP 800-38A, section 6.2) with AES, both ways in place and out in
//! parts, and the padding that it needs (RFC 5652, section 6.3). No call takes memory.
//!
//! A caller, which the test `caller` runs:
//!
//! ```
//! let key = DataKey::Aes128(Key128::new(
//!     b"\x06\xa9\x21\x40\x36\xb8\xa1\x5b\x51\x2e\x03\xd5\x34\x12\x00\x06",
//! ));
//! let iv = b"\x3d\xaf\xba\x42\x9d\x9e\xb4\x30\xb4\x22\xda\x80\x2c\x9f\xac\x41";
//! let mut buf = [pad_size(16); 32];
//! buf[..16].copy_from_slice(b"Single block msg");
//! seal_in_place(&key, iv, &mut buf);
//! let sealed = b"\xe3\x53\x77\x9c\x10\x79\xae\xb8\x27\x08\x94\x2d\xbe\x77\x18\x1a";
//! assert_eq!(rt; &buf[..16], sealed.as_slice());
//! open_in_place(&key, iv, &mut buf);
//! assert_eq!(rt; unpad(&buf), Some(16));
//! assert_eq!(rt; &buf[..16], b"Single block msg".as_slice());
//! ```
#![tactic(auto)]

mod block;
mod cbc_out;
pub mod laws;
mod opening;
mod padding;
mod sealing;
#[cfg(test)]
mod tests;

pub use cbc_out::CbcOut;
pub use opening::open_in_place;
pub use padding::{pad_size, unpad};
pub use sealing::seal_in_place;
