//! How a connection that was served ends.

/// Why a call ended that served a connection.
#[derive(Clone, Copy, Debug, PartialEq, Eq)]
pub enum ServeEnd {
    /// A request was answered, with its whole reply.
    Done,
    /// A caller who has control asked the daemon to stop: it was told so, and the daemon was asked.
    Stopped,
    /// The connection ended before a request's first byte.
    Quiet,
    /// A read of the connection failed.
    ReadFault,
    /// A write of the reply failed. What went out of it is a front of it.
    WriteFault,
    /// The clock gave no reading.
    ClockFault,
    /// What came is no request, or the connection ended inside one.
    Malformed,
    /// No memory was left.
    NoMemory,
    /// The gate gives no more tickets: this one was read, 2^62 or above.
    Worn(u64),
}

/// What came of a connection that was served.
#[derive(Clone, Copy, Debug, PartialEq, Eq)]
pub struct Served {
    /// Why the call ended.
    pub how: ServeEnd,
    /// The kind of the request, as the third byte of its frame, once it was read whole.
    pub kind: Option<u8>,
    /// How many bytes were read.
    pub read: u64,
    /// What the clock gave for the request, in seconds since 1970.
    pub moment: Option<u32>,
    /// The first of the fourteen decode rules that is broken, 0 for none, of a decode reply.
    pub rule: Option<u8>,
    /// The place of the entry that was made in the gate's history.
    pub place: Option<u64>,
    /// The place of the first word that was drawn for an encode request.
    pub drawn: Option<u128>,
}
