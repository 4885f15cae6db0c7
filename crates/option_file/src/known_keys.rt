//! The keys that a table may have.

ghost use Rattle.std.specs.Prelude.{◌≡◌};
ghost use Rattle.toml.specs.View.{table_view};
ghost use Rattle.option_file.specs.Gives.{Gives};
ghost use Rattle.option_file.specs.KnownKeys.{is_known, unknown_refusal};

use crate::{Name, OptionRefused};
use std::alloc::Global;
use toml::Table;

/// Where a table stands.
#[derive(Clone, Copy, Debug, PartialEq, Eq)]
pub(crate) enum Place {
    /// It is the file's own.
    File,
    /// It is a socket's.
    Socket,
}

impl Place {
    /// A table that stands here may have the key of this name.
    fn knows(self, name: &str) -> bool
        ensures { result ≡ is_known self name.now }
    {
        match self {
            Place::File => matches!(
                name,
                "key"
                    | "seed"
                    | "passwd"
                    | "group"
                    | "max_ttl"
                    | "default_ttl"
                    | "skew"
                    | "purge_interval"
                    | "address"
                    | "workers"
                    | "queue"
                    | "socket"
            ),
            Place::Socket => matches!(name, "path" | "uid" | "gid" | "control"),
        }
    }

    /// Refuses the first key, in byte order, that no table here may have.
    pub(crate) fn refuse_unknown(self, alloc: Global, table: &Table) -> Result<(), OptionRefused>
        ensures { Gives (λ _. table_view table.now) (unknown_refusal self (table_view table.now))
            (table_view table.now) result }
    {
        for (name, _) in table {
            if !self.knows(name.as_str()) {
                return match Name::of(alloc, name.as_str()) {
                    Ok(name) => Err(OptionRefused::Unknown(name)),
                    Err(_) => Err(OptionRefused::NoMemory),
                };
            }
        }
        Ok(())
    }
}
