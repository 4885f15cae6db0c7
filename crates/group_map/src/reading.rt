//! From a file to its table.

ghost use Rattle.std.specs.Prelude.{◌≡◌, ◌≢◌, ℕ, [], ◌∷◌, map, filter, None, Some, is_some, IfOk, IfErr, OnOk};
ghost use Rattle.std.specs.List.{cons_option};
ghost use Rattle.group_map.specs.FirstBadLine.{first_bad};
ghost use Rattle.group_map.specs.Form.{is_right, pairs_in, refusal_at};
ghost use Rattle.group_map.specs.GroupLine.{group_of, is_name, listed_names};
ghost use Rattle.group_map.specs.GroupMap.{Holds, listings};
ghost use Rattle.group_map.specs.Lines.{lines_of};
ghost use Rattle.group_map.specs.PasswdLine.{user_of};
ghost use Rattle.group_map.specs.Tables.{Adds};

use crate::cut::{cut, is_passed_over, next_line};
use crate::form::Form;
use crate::group::group_of;
use crate::passwd::user_of;
use crate::refused::MapRefused;
use crate::table::NameTable;
use munge_types::NoMemory;
use std::alloc::Global;

/// The mark between two names of a user list.
const COMMA: u8 = b',';

/// The names of a file by the numbers of its lines; or the first line that may not stand in it.
pub(crate) fn read_lines(alloc: Global, form: Form, text: &[u8]) -> Result<NameTable, MapRefused>
    ensures holds { IfOk result (λ table. Holds table (pairs_in form (lines_of text.now))) }
    ensures right { OnOk result (first_bad (is_right form) text.now ≡ None) }
    ensures bad { IfErr result (λ refused. refused ≢ MapRefused.NoMemory
        → (line : ℕ) × (refused ≡ refusal_at form line)
        × (first_bad (is_right form) text.now ≡ Some line)) }
{
    let mut table = NameTable::new(alloc);
    let mut rest = text;
    let mut number = 0u64;
    'lines: while let Some((line, behind)) = next_line(rest) {
        number += 1;
        if !enter(form, &mut table, line)? {
            return Err(form.refusal_at(number));
        }
        rest = behind;
    }
    Ok(table)
}

/// Enters what the line tells, and answers whether it may stand in the file.
fn enter(form: Form, table: &mut NameTable, line: &[u8]) -> Result<bool, NoMemory>
    ensures right { IfOk result (λ right. right ≡ is_right form line.now) }
    ensures entered { OnOk result (Adds table.old table.new (pairs_in form (line.now ∷ []))) }
{
    if is_passed_over(line) {
        return Ok(true);
    }
    match form {
        Form::Passwd => enter_user(table, line),
        Form::Group => enter_group(table, line),
    }
}

/// The same for a line of the passwd file that is not passed over.
fn enter_user(table: &mut NameTable, line: &[u8]) -> Result<bool, NoMemory>
    ensures right { IfOk result (λ right. right ≡ is_some (user_of line.now)) }
    ensures entered { OnOk result (Adds table.old table.new (cons_option (user_of line.now) [])) }
{
    let Some(user) = user_of(line) else {
        return Ok(false);
    };
    table.add(user.uid, user.name)?;
    Ok(true)
}

/// The same for a line of the group file that is not passed over.
fn enter_group(table: &mut NameTable, line: &[u8]) -> Result<bool, NoMemory>
    ensures right { IfOk result (λ right. right ≡ is_some (group_of line.now)) }
    ensures entered { OnOk result (Adds table.old table.new
        (listings (cons_option (group_of line.now) []))) }
{
    let Some(group) = group_of(line) else {
        return Ok(false);
    };
    add_listed(table, group.gid, group.users)?;
    Ok(true)
}

/// Adds the names of a user list to those of the GID.
fn add_listed(table: &mut NameTable, gid: u32, users: &[u8]) -> Result<(), NoMemory>
    ensures { OnOk result (Adds table.old table.new
        (map (λ name. (gid, name)) (listed_names users.now))) }
{
    let mut rest = users;
    'users: while let Some((name, behind)) = cut(rest, COMMA) {
        add_unless_empty(table, gid, name)?;
        rest = behind;
    }
    add_unless_empty(table, gid, rest)
}

/// Adds the name to those of the GID, unless it is empty.
fn add_unless_empty(table: &mut NameTable, gid: u32, name: &[u8]) -> Result<(), NoMemory>
    ensures { OnOk result (Adds table.old table.new
        (map (λ name. (gid, name)) (filter is_name (name.now ∷ [])))) }
{
    if !name.is_empty() {
        table.add(gid, name)?;
    }
    Ok(())
}
