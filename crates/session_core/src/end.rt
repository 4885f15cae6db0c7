//! How a session ends.

/// Why a session ended.
#[derive(Clone, Copy, Debug, PartialEq, Eq)]
pub enum HowEnded {
    /// The input ended between two requests, or a caller who has control asked to stop.
    Done,
    /// A read of the input failed.
    ReadFault,
    /// A write of a reply failed. What went out of that reply is a front of it.
    WriteFault,
    /// The clock gave no reading.
    ClockFault,
    /// At this byte of the input, counted from 0, begins what is no request.
    Malformed(u64),
    /// Every request that one session may make was answered, and more input came.
    Budget,
    /// No memory was left.
    NoMemory,
}

/// The end of a session.
#[derive(Clone, Copy, Debug, PartialEq, Eq)]
pub struct SessionEnd {
    /// How many requests were answered, each with its whole reply.
    pub answered: u32,
    /// Why the session ended.
    pub how: HowEnded,
}
