//! The map from users to the groups that list them.

ghost use Rattle.std.specs.Prelude.{◌≡◌, ◌≢◌, ℕ, List, [], None, Some, IfOk, IsErrOf, OnOk};
ghost use Rattle.group_map.specs.FirstBadLine.{first_bad};
ghost use Rattle.group_map.specs.GroupLine.{is_group_line};
ghost use Rattle.group_map.specs.GroupMap.{IsOf, IsOfFiles};
ghost use Rattle.group_map.specs.Membership.{is_member};
ghost use Rattle.group_map.specs.PasswdLine.{is_passwd_line};

use crate::form::Form;
use crate::reading::read_lines;
use crate::refused::MapRefused;
use crate::table::NameTable;
use std::alloc::Global;
use std::marker::Model;

/// What a passwd file and a group file tell of the members of groups. Contracts see its tables, and
/// say of which files it is.
#[derive(Debug, Drop)]
pub struct GroupMap {
    tables: Option<Tables>,
}

/// The tables of two files.
#[derive(Debug, Drop)]
struct Tables {
    /// The names of each UID.
    users: NameTable,
    /// The names that each GID lists.
    lists: NameTable,
}

impl Model for GroupMap {
    ghost use Rattle.group_map.specs.GroupMap.{GroupTables, IsOfFiles};
    ghost use Rattle.group_map.specs.Tables.{tables_of};

    ghost Value = { GroupTables };

    ghost view = { λ map. tables_of map.tables };

    ghost invariant = { λ map. IsOfFiles (tables_of map.tables) };
}

impl GroupMap {
    /// The map of two empty files, in which nobody is a member of anything. It takes no memory.
    pub fn none() -> GroupMap
        ensures { IsOf result [] [] }
    {
        GroupMap { tables: None }
    }

    /// The map of a passwd file (passwd(5)) and a group file (group(5)) with these bytes.
    pub fn read(alloc: Global, passwd: &[u8], group: &[u8]) -> Result<GroupMap, MapRefused>
        ensures map { IfOk result (λ map. IsOf map passwd.now group.now) }
        ensures passwd_right { OnOk result (first_bad is_passwd_line passwd.now ≡ None) }
        ensures group_right { OnOk result (first_bad is_group_line group.now ≡ None) }
        ensures bad_passwd { (line : ℕ) → IsErrOf result (MapRefused.Passwd line)
            → first_bad is_passwd_line passwd.now ≡ Some line }
        ensures bad_group { (line : ℕ) → IsErrOf result (MapRefused.Group line)
            → first_bad is_group_line group.now ≡ Some line }

        // The passwd file comes first.
        ensures then_group { (line : ℕ) → IsErrOf result (MapRefused.Group line)
            → first_bad is_passwd_line passwd.now ≡ None }
    {
        let users = read_lines(alloc, Form::Passwd, passwd)?;
        let lists = read_lines(alloc, Form::Group, group)?;
        Ok(GroupMap {
            tables: Some(Tables { users, lists }),
        })
    }

    /// Does nothing: the map is that of some two files.
    pub fn is_of_files(&self)
        ensures { IsOfFiles self.now }
    {
        let _ = &self.tables;
    }

    /// Whether the UID is a member of the GID: some passwd line with this UID has a name that some
    /// group line with this GID lists. It goes through the names of the UID or through those that
    /// the GID lists, whichever are fewer, and looks each up among the others. It takes no memory.
    pub fn member(&self, uid: u32, gid: u32) -> bool
        ensures { (passwd group : List ℕ) → IsOf self.now passwd group
            → result ≡ is_member passwd group uid gid }
    {
        let Some(tables) = &self.tables else {
            return false;
        };
        match (tables.users.names(uid), tables.lists.names(gid)) {
            (Some(names), Some(listed)) => names.meet(listed),
            _ => false,
        }
    }
}
