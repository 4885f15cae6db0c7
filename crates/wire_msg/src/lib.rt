//! The messages of clients and of the daemon, as they stand in a stream: from pieces of it to
//! messages, and from messages to frames.
#![tactic(auto)]

mod begun;
mod bytes;
mod fed;
mod feeder;
mod head;
mod heads;
mod kind;
pub mod laws;
mod message;
mod reading;
mod short_bytes;
mod writing;

pub use bytes::Bytes;
pub use fed::Fed;
pub use feeder::Feeder;
pub use heads::{CONTENT_SIZE, HEAD_SIZE, REPLY_SIZE, content_head, message_head, reply_head};
pub use kind::{BODY_LIMIT, Kind, Side};
pub use message::{Content, ContentFields, DecodeSaid, EncodeAsk, EncodeSaid, Message};
pub use writing::{FrameRefused, frame, frame_in};

#[cfg(test)]
mod tests;
