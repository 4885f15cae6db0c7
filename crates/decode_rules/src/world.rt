//! What credentials are sealed and opened with, and who is in which group.

use group_map::GroupMap;
use munge_types::Settings;
use subkeys::Subkeys;

/// What stays the same over all requests of a daemon.
#[derive(Drop)]
pub struct World {
    /// The subkeys of the key file.
    pub subkeys: Subkeys,
    /// The times, in seconds, that sealing and opening go by, and the host's address.
    pub settings: Settings,
    /// Which users are members of which groups.
    pub groups: GroupMap,
}
