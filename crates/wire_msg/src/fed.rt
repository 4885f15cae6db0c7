//! What a feeder answers.

use crate::Message;

/// What a piece made of the bytes before it.
#[derive(Debug, Drop, PartialEq, Eq)]
pub enum Fed {
    /// A whole frame, which ends after the first `used` bytes of the piece. Only these were taken.
    Message { message: Message, used: usize },
    /// A frame that is not whole, or no byte of one. The whole piece was taken.
    More,
    /// Bytes of no frame, which would have begun at this place. Every further answer is the same.
    Bad(u64),
}
