//! Lines of a group file (group(5)).

ghost use Rattle.std.specs.Prelude.{◌≡◌, Some, MatchOption, None};
ghost use Rattle.group_map.specs.GroupLine.{group_of, listed_names};

use crate::cut::cut;
use crate::number::id_of;
use crate::passwd::COLON;

/// A group, by its line.
#[derive(Clone, Copy)]
pub(crate) struct Group<'a> {
    pub(crate) gid: u32,
    /// Names between commas.
    pub(crate) users: &'a [u8],
}

/// The group of a group line: name, password, GID and user list between colons. None where the line
/// is no group line.
pub(crate) fn group_of(line: &[u8]) -> Option<Group<'_>>
    ensures { MatchOption result (group_of line.now ≡ None)
        (λ group. group_of line.now ≡ Some (group.gid, listed_names group.users.now)) }
{
    let (name, behind) = cut(line, COLON)?;
    let (_password, behind) = cut(behind, COLON)?;
    let (gid, users) = cut(behind, COLON)?;
    if let Some(_) = cut(users, COLON) {
        return None;
    }
    if name.is_empty() {
        return None;
    }
    let gid = id_of(gid)?;
    Some(Group { gid, users })
}
