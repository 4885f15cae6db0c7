//! Why an option file is refused.

ghost use Rattle.std.specs.Prelude.{Some};

use crate::{Key, Name};
use std::error::Error;
use std::fmt;

/// The first cause for which an option file is refused, in this order: it is too long; it is no
/// TOML; its own table has an unknown key; its keys, in the order of `Key`, each with all that is
/// asked of it; the sockets one after the other, each with an unknown key first and then its keys;
/// and a path that two of them have.
#[derive(Debug, Drop, PartialEq, Eq)]
pub enum OptionRefused {
    /// The file has this many bytes, which are more than 65,536.
    TooLong(u64),
    /// The text is no TOML, or no UTF-8.
    NotToml,
    /// The first key of a table, in byte order, that is none of those which it may have.
    Unknown(Name),
    /// The key has to be there, and is not.
    Missing(Key),
    /// The value at the key is of another type, or spells no address. An element of the list of
    /// sockets that is no table is told as `Socket`.
    Wrong(Key),
    /// The whole number at the key is out of its range, or `Socket` lists so many tables.
    Range(Key, i64),
    /// The first socket whose path an earlier one has, counted from 0.
    Twice(u32),
    /// An allocation was refused, which says nothing of the file.
    NoMemory,
}

impl fmt::Display for OptionRefused {
    ghost use Rattle.option_file.specs.RefusedText.{refused_text};

    ghost output = { λ refused. Some (refused_text refused) };

    fn fmt<W: fmt::Write>(&self, f: &mut fmt::Formatter<W>) -> fmt::Result {
        match self {
            OptionRefused::TooLong(size) => write!(f, "too long {size}"),
            OptionRefused::NotToml => write!(f, "not toml"),
            OptionRefused::Unknown(name) => write!(f, "unknown {}", name.text()),
            OptionRefused::Missing(key) => write!(f, "missing {}", key.name()),
            OptionRefused::Wrong(key) => write!(f, "wrong {}", key.name()),
            OptionRefused::Range(key, number) => {
                write!(f, "{} out of range {number}", key.name())
            }
            OptionRefused::Twice(at) => write!(f, "socket {at} has an earlier path"),
            OptionRefused::NoMemory => write!(f, "no memory"),
        }
    }
}

impl Error for OptionRefused {}
