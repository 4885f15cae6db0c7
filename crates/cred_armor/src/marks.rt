//! The marks of a credential text.

/// What stands before the base64, behind any spaces.
pub(crate) const OPENING: &str = "MUNGE:";

/// What stands behind the base64, before any spaces.
pub(crate) const CLOSING: &str = ":";
