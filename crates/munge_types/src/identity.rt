//! Who a caller is.

/// A caller, as the configuration says that the caller's socket is.
#[derive(Clone, Copy, Debug, PartialEq, Eq)]
pub struct Identity {
    /// The caller's UID.
    pub uid: u32,
    /// The caller's own GID.
    pub gid: u32,
    /// The caller may stop the daemon.
    pub control: bool,
}
