//! Why two files give no map.

ghost use Rattle.std.specs.Prelude.{Some};
ghost use Rattle.group_map.specs.RefusedText.{refused_text};

use munge_types::NoMemory;
use std::error::Error;
use std::fmt;

/// Why a passwd file and a group file give no map. A line's number counts every line of its file,
/// and the first one is line 1.
#[derive(Clone, Copy, Debug, PartialEq, Eq)]
pub enum MapRefused {
    /// This is the first line of the passwd file that may not stand in one.
    Passwd(u64),
    /// Every passwd line is right, and this is the first line of the group file that may not stand
    /// in one.
    Group(u64),
    /// There was no memory for the map.
    NoMemory,
}

impl fmt::Display for MapRefused {
    ghost output = { λ refused. Some (refused_text refused) };

    fn fmt<W: fmt::Write>(&self, f: &mut fmt::Formatter<W>) -> fmt::Result {
        match self {
            MapRefused::Passwd(line) => write!(f, "bad passwd line {line}"),
            MapRefused::Group(line) => write!(f, "bad group line {line}"),
            MapRefused::NoMemory => write!(f, "no memory"),
        }
    }
}

impl Error for MapRefused {}

impl From<NoMemory> for MapRefused {
    ghost use Rattle.std.specs.Prelude.{◌≡◌};
    ghost use Rattle.group_map.specs.declared.refused.MapRefused.TheVariants as refusals;

    ghost from_gives = { λ refused given. given ≡ refusals.NoMemory };

    fn from(_refused: NoMemory) -> MapRefused {
        MapRefused::NoMemory
    }
}
