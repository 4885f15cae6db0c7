//! The sockets that an option file lists.

ghost use Rattle.std.specs.Prelude.{◌≡◌, ◌≤◌, length, map, option_map, IfOk};
ghost use Rattle.toml.specs.View.{view, table_view, array_view};
ghost use Rattle.option_file.specs.Gives.{Gives};
ghost use Rattle.option_file.specs.Rules.{first_of, is_list_size, list, needed};
ghost use Rattle.option_file.specs.Sockets.{has_path, line_of, socket_refusal, sockets_refusal, twice_refusal};
ghost use Rattle.option_file.specs.Values.{at_key, list_or_none, values_of};

use crate::known_keys::Place;
use crate::{Key, Name, OptionRefused, fields};
use munge_types::Identity;
use std::alloc::Global;
use toml::value::Array;
use toml::{Table, Value};

/// The largest UID and GID of a caller.
const LARGEST_ID: u32 = 4294967294;

/// A socket: its path, and who its callers are.
#[derive(Debug, Drop, PartialEq, Eq)]
pub struct SocketLine {
    /// The path.
    pub path: Name,
    /// Who a caller on it is.
    pub who: Identity,
}

/// So many sockets may be listed.
fn is_list_size(size: usize) -> bool
    ensures { result ≡ is_list_size size }
{
    1 <= size && size <= 64
}

/// The values that are listed at the key `socket`.
fn list(found: Option<&Value>) -> Result<&Array, OptionRefused>
    ensures small { IfOk result (λ array. length array.now.items ≤ 64) }
    ensures some { IfOk result (λ array. 1 ≤ length array.now.items) }
    ensures exact { let seen = option_map (λ value. view value.now) found.entry in
        Gives (λ array. values_of (array_view array.now)) (needed list Key.Socket seen)
        (list_or_none seen) result }
{
    match found {
        None => Err(OptionRefused::Missing(Key::Socket)),
        Some(value) => match value.as_array() {
            None => Err(OptionRefused::Wrong(Key::Socket)),
            Some(array) => {
                let size = array.len();
                if is_list_size(size) {
                    Ok(array)
                } else {
                    Err(OptionRefused::Range(Key::Socket, size as i64))
                }
            }
        },
    }
}

/// The socket that a listed value gives.
fn line(alloc: Global, value: &Value) -> Result<SocketLine, OptionRefused>
    ensures { Gives (λ line. line) (socket_refusal (view value.now)) (line_of (view value.now))
        result }
{
    let table = match value.as_table() {
        None => return Err(OptionRefused::Wrong(Key::Socket)),
        Some(table) => table,
    };
    Place::Socket.refuse_unknown(alloc, table)?;
    let path = fields::needed_text(alloc, table, Key::SocketPath)?;
    let uid = fields::needed_whole(table, Key::SocketUid, 0, LARGEST_ID)?;
    let gid = fields::needed_whole(table, Key::SocketGid, 0, LARGEST_ID)?;
    let control = fields::flag_or(table, Key::SocketControl, false)?;
    let who = Identity { uid, gid, control };
    Ok(SocketLine { path, who })
}

/// The sockets that the listed values give, in order.
fn lines(alloc: Global, array: &Array) -> Result<Vec<SocketLine>, OptionRefused>
    ensures count { IfOk result (λ lines. length lines.items ≡ length array.now.items) }
    ensures exact { let values = values_of (array_view array.now) in
        Gives (λ lines. lines.items) (first_of (map socket_refusal values)) (map line_of values)
        result }
{
    let mut lines = Vec::new(alloc);
    for value in array {
        let read = line(alloc, value)?;
        match lines.push(read) {
            Ok(()) => {}
            Err(_) => return Err(OptionRefused::NoMemory),
        }
    }
    Ok(lines)
}

/// One of the sockets has this path.
fn has_path(lines: &[SocketLine], path: &Name) -> bool
    ensures { result ≡ has_path lines.now path.now }
{
    for line in lines {
        if line.path.text() == path.text() {
            return true;
        }
    }
    false
}

/// Refuses the first socket whose path an earlier one has.
fn refuse_twice(lines: &[SocketLine]) -> Result<(), OptionRefused>
    requires { length lines.now ≤ 64 }
    ensures { Gives (λ _. lines.now) (twice_refusal lines.now) lines.now result }
{
    for at in 0..lines.len() {
        if has_path(&lines[..at], &lines[at].path) {
            return Err(OptionRefused::Twice(at as u32));
        }
    }
    Ok(())
}

/// The sockets of a file's table.
pub(crate) fn read_sockets(alloc: Global, table: &Table) -> Result<Vec<SocketLine>, OptionRefused>
    ensures some { IfOk result (λ lines. 1 ≤ length lines.items) }
    ensures within { IfOk result (λ lines. length lines.items ≤ 64) }
    ensures exact { let found = at_key Key.Socket (table_view table.now) in
        Gives (λ lines. lines.items) (sockets_refusal found) (map line_of (list_or_none found))
        result }
{
    let array = list(fields::value_at(table, Key::Socket))?;
    let read = lines(alloc, array)?;
    refuse_twice(&read)?;
    Ok(read)
}
