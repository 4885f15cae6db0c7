//! The two files, of one kind of line each.

ghost use Rattle.std.specs.Prelude.{◌≡◌};
ghost use Rattle.group_map.specs.Form.{refusal_at};

use crate::refused::MapRefused;

/// Which of the two files it is.
#[derive(Clone, Copy, Debug)]
pub(crate) enum Form {
    Passwd,
    Group,
}

impl Form {
    /// The refusal of such a file whose first bad line has this number.
    pub(crate) fn refusal_at(self, line: u64) -> MapRefused
        ensures { result ≡ refusal_at self line }
    {
        match self {
            Form::Passwd => MapRefused::Passwd(line),
            Form::Group => MapRefused::Group(line),
        }
    }
}
