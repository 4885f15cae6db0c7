//! Replay structures: what remembers which pairs were accepted.
//!
//! A caller, which the test `caller` runs:
//!
//! ```
//! let hash_state = BuildHasherDefault::<FoldHasher>::new();
//! let mut table = ReplayTable::new(rt.alloc(), hash_state);
//! let mac = MacBytes::of(b"\x01\x02\x03");
//! let pair = Pair { expiry: 1300, mac };
//! assert_eq!(rt; table.admit(&pair, 1000)?, Verdict::Accepted);
//! assert_eq!(rt; table.admit(&pair, 1300)?, Verdict::Replayed);
//! let purged = table.purge(1301, u32::MAX);
//! assert_eq!(rt; (purged.dropped, purged.left), (1, 0));
//! assert_eq!(rt; table.admit(&pair, 1300)?, Verdict::Expired);
//! assert_eq!(rt; (table.kept(), table.floor()), (0, 1301));
//! Ok(())
//! ```
#![tactic(auto)]

mod expiries;
mod indexed_pairs;
mod macs;
mod plain_replay;
mod replay_table;

pub use plain_replay::PlainReplay;
pub use replay_table::ReplayTable;

#[cfg(test)]
mod tests;
