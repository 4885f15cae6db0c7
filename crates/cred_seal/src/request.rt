//! What a client asks to be sealed.

/// What a client asks to be sealed, by the numbers that it sent.
#[derive(Clone, Copy, Debug, PartialEq, Eq)]
pub struct SealRequest<'a> {
    /// The number of the cipher: 0 for none, 4 for AES-128, 5 for AES-256, and 1 for the default,
    /// which is AES-128.
    pub cipher: u8,
    /// The number of the MAC: 3 for SHA-1, 5 for SHA-256, 6 for SHA-512, and 1 for the default,
    /// which is SHA-256.
    pub kind: u8,
    /// For how many seconds the credential is to be good, at most the maximum: 0 for the default,
    /// 4294967295 for the maximum.
    pub ttl: u32,
    /// The UID that alone may open it, or 4294967295 for any.
    pub for_uid: u32,
    /// The GID whose members alone may open it, or 4294967295 for any.
    pub for_gid: u32,
    /// What it is to carry, at most 1,048,576 bytes.
    pub payload: &'a [u8],
}
