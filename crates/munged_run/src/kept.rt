//! Where the program keeps the pairs that it has accepted.

use replay_table::ReplayTable;
use std::hash::{BuildHasherDefault, FoldHasher};

/// The program's replay structure.
pub type Kept = ReplayTable<BuildHasherDefault<FoldHasher>>;
