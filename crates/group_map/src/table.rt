//! Tables from numbers to names.

ghost use Rattle.std.specs.Prelude.{◌≡◌, [], ◌∷◌, OnOk};
ghost use Rattle.std.specs.BTreeMap.{is_at};
ghost use Rattle.std.specs.Map.{lookup};
ghost use Rattle.std.specs.Option.{option_copied};
ghost use Rattle.std.specs.Ordering.{nat_cmp};
ghost use Rattle.group_map.specs.Tables.{Adds};

use crate::name::Name;
use crate::names::Names;
use std::alloc::{AllocError, Global};
use std::collections::BTreeMap;
use std::marker::Model;

/// The names that stand at each number. Contracts see them in the order of the numbers.
#[derive(Debug, Drop)]
pub(crate) struct NameTable {
    alloc: Global,
    by_number: BTreeMap<u32, Names>,
}

impl Model for NameTable {
    ghost use Rattle.std.specs.Prelude.{ℕ, List};

    ghost Value = { List (ℕ × List (List ℕ)) };

    ghost view = { λ table. table.by_number.entries };
}

impl NameTable {
    /// No names, and no memory.
    pub(crate) fn new(alloc: Global) -> NameTable
        ensures { result ≡ [] }
    {
        NameTable {
            alloc,
            by_number: BTreeMap::new(alloc),
        }
    }

    /// One more name at the number, unless it stands there.
    pub(crate) fn add(&mut self, number: u32, name: &[u8]) -> Result<(), AllocError>
        ensures { OnOk result (Adds self.old self.new ((number, name.now) ∷ [])) }
    {
        let name = Name::of(self.alloc, name)?;
        add_name(&mut self.by_number, self.alloc, number, name)?;
        Ok(())
    }

    /// The names at the number, if there are any.
    pub(crate) fn names(&self, number: u32) -> Option<&Names>
        ensures { option_copied result ≡ lookup (is_at (nat_cmp number)) self.now }
    {
        self.by_number.get(&number)
    }
}

/// Puts the name to those of its number.
fn add_name(
    by_number: &mut BTreeMap<u32, Names>,
    alloc: Global,
    number: u32,
    name: Name,
) -> Result<(), AllocError>
    ensures { OnOk result (Adds by_number.old.entries by_number.new.entries ((number, name) ∷ [])) }
{
    if let Some(names) = by_number.get_mut(&number) {
        names.insert(name)?;
        return Ok(());
    }
    let mut names = Names::new(alloc);
    names.insert(name)?;
    by_number.insert(number, names)?;
    Ok(())
}
