//! Lines of a passwd file (passwd(5)).

ghost use Rattle.std.specs.Prelude.{◌≡◌, Some, MatchOption, None};
ghost use Rattle.group_map.specs.PasswdLine.{user_of};

use crate::cut::cut;
use crate::number::id_of;

/// The mark between two fields.
pub(crate) const COLON: u8 = b':';

/// A user, by his line.
#[derive(Clone, Copy)]
pub(crate) struct User<'a> {
    pub(crate) uid: u32,
    pub(crate) name: &'a [u8],
}

/// The user of a passwd line: name, password, UID, GID, comment, home and shell between colons. The
/// GID is looked at and not kept. None where the line is no passwd line.
pub(crate) fn user_of(line: &[u8]) -> Option<User<'_>>
    ensures { MatchOption result (user_of line.now ≡ None)
        (λ user. user_of line.now ≡ Some (user.uid, user.name.now)) }
{
    let (name, behind) = cut(line, COLON)?;
    let (_password, behind) = cut(behind, COLON)?;
    let (uid, behind) = cut(behind, COLON)?;
    let (gid, behind) = cut(behind, COLON)?;
    let (_comment, behind) = cut(behind, COLON)?;
    let (_home, shell) = cut(behind, COLON)?;
    if let Some(_) = cut(shell, COLON) {
        return None;
    }
    if name.is_empty() {
        return None;
    }
    let uid = id_of(uid)?;
    let _gid = id_of(gid)?;
    Some(User { uid, name })
}
