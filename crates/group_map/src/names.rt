//! Sets of names.

ghost use Rattle.std.specs.Prelude.{◌≡◌, ◌||◌, ℕ, List, [], length, OnOk};
ghost use Rattle.std.specs.List.{list_any};
ghost use Rattle.group_map.specs.Membership.{name_eq};

use crate::name::Name;
use std::alloc::{AllocError, Global};
use std::collections::BTreeSet;
use std::marker::Model;

/// Names, none twice, in an ordered set. Contracts see their list.
#[derive(Debug, Drop)]
pub(crate) struct Names {
    set: BTreeSet<Name>,
}

impl Model for Names {
    ghost use Rattle.std.specs.Prelude.{ℕ, List};

    ghost Value = { List (List ℕ) };

    ghost view = { λ names. names.set.keys };
}

impl Names {
    /// No names, and no memory.
    pub(crate) fn new(alloc: Global) -> Names
        ensures { result ≡ [] }
    {
        Names {
            set: BTreeSet::new(alloc),
        }
    }

    /// One more name, unless it is among them.
    pub(crate) fn insert(&mut self, name: Name) -> Result<(), AllocError>
        ensures { OnOk result ((sought : List ℕ) → list_any (name_eq sought) self.new
            ≡ (name_eq sought name || list_any (name_eq sought) self.old)) }
    {
        self.set.insert(name)?;
        Ok(())
    }

    /// Whether the name is among them.
    fn contains(&self, name: &Name) -> bool
        ensures { result ≡ list_any (name_eq name.now) self.now }
    {
        self.set.contains(name)
    }

    /// Whether one of these names is among the others.
    fn some_in(&self, others: &Names) -> bool
        ensures { result ≡ list_any (λ name. list_any (name_eq name) others.now) self.now }
    {
        self.set.iter().any(|name| others.contains(name))
    }

    /// Whether some name is among both. It goes through the fewer ones, and looks each up in the
    /// others.
    pub(crate) fn meet(&self, others: &Names) -> bool
        ensures { result ≡ list_any (λ name. list_any (name_eq name) others.now) self.now }
    {
        if self.set.len() <= others.set.len() {
            self.some_in(others)
        } else {
            others.some_in(self)
        }
    }
}
