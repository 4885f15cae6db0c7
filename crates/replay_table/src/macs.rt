//! The MACs of one expiry.

ghost use Rattle.std.specs.Prelude.{◌≡◌, ◌++◌, ◌∷◌, [], IfNone, OnOk, OnErr, option_to_list};

use munge_types::MacBytes;
use std::alloc::{AllocError, Global};
use std::marker::Model;
use std::mem;

/// How many MACs a block has. Full blocks do not move, so a table that grows leaves no freed memory
/// behind, and an expiry has at most one block with room to spare.
const BLOCK: usize = 32;

/// MACs in the order in which they came, in blocks of memory of one size. Contracts see their list.
#[derive(Debug, Drop)]
pub(crate) struct Macs {
    full: Vec<Vec<MacBytes>>,
    last: Vec<MacBytes>,
}

impl Model for Macs {
    ghost use Rattle.std.specs.Prelude.{ℕ, List, ◌++◌, ◌<◌, length};
    ghost use Rattle.std.specs.List.{All, flat_map};

    ghost Value = { List (List ℕ) };

    ghost view = { λ macs. flat_map (λ block. block.items) macs.full.items ++ macs.last.items };

    ghost invariant = { λ macs. All (λ block. 0 < length block.items) macs.full.items };
}

impl Macs {
    /// No MACs, and no memory.
    pub(crate) fn new(alloc: Global) -> Macs
        ensures { result ≡ [] }
    {
        Macs {
            full: Vec::new(alloc),
            last: Vec::new(alloc),
        }
    }

    /// One more MAC. Without memory for it they are as before.
    pub(crate) fn push(&mut self, mac: &MacBytes) -> Result<(), AllocError>
        ensures pushed { OnOk result (self.new ≡ self.old ++ mac.now ∷ []) }
        ensures err { OnErr result (self.new ≡ self.old) }
    {
        if self.last.len() >= BLOCK {
            let alloc = *self.last.allocator();
            self.full.reserve(1)?;
            let next = Vec::with_capacity(alloc, BLOCK)?;
            let last = mem::replace(&mut self.last, next);
            self.full.push_reserved(last);
        }
        self.last.push(*mac)?;
        Ok(())
    }

    /// Takes the last MAC out, if there is one.
    pub(crate) fn pop(&mut self) -> Option<MacBytes>
        ensures taken { self.old ≡ self.new ++ option_to_list result }
        ensures none { IfNone result (self.old ≡ []) }
    {
        if self.last.is_empty() {
            self.last = self.full.pop()?;
        }
        self.last.pop()
    }
}
