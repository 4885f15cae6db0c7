//! What a credential says.

/// The bytes of an inner part before its payload.
pub const HEAD_SIZE: usize = 41;

/// The bytes of an IPv4 address.
pub(crate) const ADDR_SIZE: u8 = 4;

/// The most bytes of a payload.
pub const PAYLOAD_LIMIT: usize = 1_048_576;

/// What a credential says. Times are in seconds.
#[derive(Clone, Copy, Debug, PartialEq, Eq)]
pub struct Inner<'a> {
    /// Bytes drawn at random.
    pub salt: [u8; 8],
    /// The IPv4 address of the host that sealed.
    pub addr: [u8; 4],
    /// When it was sealed, since 1970.
    pub time: u32,
    /// For how long it is good.
    pub ttl: u32,
    /// The UID of the caller who asked for it.
    pub uid: u32,
    /// The GID of the caller who asked for it.
    pub gid: u32,
    /// The UID that alone may open it, or 4294967295 for any.
    pub for_uid: u32,
    /// The GID whose members alone may open it, or 4294967295 for any.
    pub for_gid: u32,
    /// What it carries, at most 1,048,576 bytes.
    pub payload: &'a [u8],
}
