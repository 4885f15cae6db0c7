//! What the replay state remembers of a credential.

use crate::MacBytes;

/// A credential's MAC and its expiry. Credentials with one pair are taken for one. Pairs are
/// ordered by expiry, then by MAC.
#[derive(Clone, Copy, Debug, PartialEq, Eq, PartialOrd, Ord, Hash)]
pub struct Pair {
    /// The last second, since 1970, in which the credential may be accepted.
    pub expiry: u64,
    /// The credential's MAC.
    pub mac: MacBytes,
}
