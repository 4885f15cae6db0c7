//! A decode rule that a credential breaks.

ghost use Rattle.std.specs.Prelude.{◌≡◌, ◌≤◌, Some};
ghost use Rattle.cred_outer.specs.RefusedText.{broken_text};

use munge_types::{Rule, Status};
use std::error::Error;
use std::fmt;

/// The first decode rule that a credential breaks, with its status.
#[derive(Clone, Copy, Debug, PartialEq, Eq)]
pub struct OuterRefused {
    /// The rule.
    pub rule: Rule,
    /// The status that the rule gives.
    pub status: Status,
}

impl fmt::Display for OuterRefused {
    ghost output = { λ broken. Some (broken_text broken) };

    fn fmt<W: fmt::Write>(&self, f: &mut fmt::Formatter<W>) -> fmt::Result {
        let rule = self.rule.number();
        let status = self.status.number();
        write!(f, "decode rule {rule} does not hold: status {status}")
    }
}

impl Error for OuterRefused {}
