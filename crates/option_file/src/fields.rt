//! What is given at a key of a table.

ghost use Rattle.std.specs.Prelude.{◌≡◌, ◌≤◌, None, Some, [], IfOk, option_map, option_and_then};
ghost use Rattle.toml.specs.Data.{as_integer};
ghost use Rattle.toml.specs.View.{view, table_view};
ghost use Rattle.option_file.specs.Gives.{Gives};
ghost use Rattle.option_file.specs.Rules.{needed, allowed, text, flag, address, whole};
ghost use Rattle.option_file.specs.Values.{at_key, text_if, text_or, whole_or, natural_of, address_or_none, flag_or};

use crate::address::address;
use crate::{Key, Name, OptionRefused};
use std::alloc::Global;
use toml::{Table, Value};

/// The value at a key.
pub(crate) fn value_at(table: &Table, key: Key) -> Option<&Value>
    ensures { option_map (λ value. view value.now) result ≡ at_key key (table_view table.now) }
{
    table.get(key.spelling())
}

/// A copy of a text.
fn copied(alloc: Global, text: &str) -> Result<Name, OptionRefused>
    ensures { Gives (λ name. name) None text.now result }
{
    match Name::of(alloc, text) {
        Ok(name) => Ok(name),
        Err(_) => Err(OptionRefused::NoMemory),
    }
}

/// The text at a key that has to be there.
pub(crate) fn needed_text(alloc: Global, table: &Table, key: Key) -> Result<Name, OptionRefused>
    ensures { let found = at_key key (table_view table.now) in
        Gives (λ name. name) (needed text key found) (text_or [] found) result }
{
    match value_at(table, key) {
        None => Err(OptionRefused::Missing(key)),
        Some(value) => match value.as_str() {
            None => Err(OptionRefused::Wrong(key)),
            Some(text) => copied(alloc, text),
        },
    }
}

/// The text at a key, and the usual one where the key is not there.
pub(crate) fn text_or(
    alloc: Global,
    table: &Table,
    key: Key,
    usual: &str,
) -> Result<Name, OptionRefused>
    ensures { let found = at_key key (table_view table.now) in
        Gives (λ name. name) (allowed text key found) (text_or usual.now found) result }
{
    match value_at(table, key) {
        None => copied(alloc, usual),
        Some(value) => match value.as_str() {
            None => Err(OptionRefused::Wrong(key)),
            Some(text) => copied(alloc, text),
        },
    }
}

/// The text at a key, if the key is there.
pub(crate) fn text_if(alloc: Global, table: &Table, key: Key) -> Result<Option<Name>, OptionRefused>
    ensures { let found = at_key key (table_view table.now) in
        Gives (λ name. name) (allowed text key found) (text_if found) result }
{
    match value_at(table, key) {
        None => Ok(None),
        Some(value) => match value.as_str() {
            None => Err(OptionRefused::Wrong(key)),
            Some(text) => match Name::of(alloc, text) {
                Ok(name) => Ok(Some(name)),
                Err(_) => Err(OptionRefused::NoMemory),
            },
        },
    }
}

/// The address at a key, and 0.0.0.0 where the key is not there.
pub(crate) fn address_or_none(table: &Table, key: Key) -> Result<[u8; 4], OptionRefused>
    ensures { let found = at_key key (table_view table.now) in
        Gives (λ addr. addr) (allowed address key found) (address_or_none found) result }
{
    match value_at(table, key) {
        None => Ok([0; 4]),
        Some(value) => match value.as_str() {
            None => Err(OptionRefused::Wrong(key)),
            Some(text) => match address(text) {
                None => Err(OptionRefused::Wrong(key)),
                Some(addr) => Ok(addr),
            },
        },
    }
}

/// Whether a key says true, and the usual answer where the key is not there.
pub(crate) fn flag_or(table: &Table, key: Key, usual: bool) -> Result<bool, OptionRefused>
    ensures { let found = at_key key (table_view table.now) in
        Gives (λ said. said) (allowed flag key found) (flag_or usual found) result }
{
    match value_at(table, key) {
        None => Ok(usual),
        Some(value) => match value.as_bool() {
            None => Err(OptionRefused::Wrong(key)),
            Some(said) => Ok(said),
        },
    }
}

/// The whole number from `low` to `high` that a value is.
fn whole_in(value: &Value, key: Key, low: u32, high: u32) -> Result<u32, OptionRefused>
    ensures low { IfOk result (λ number. low ≤ number) }
    ensures high { IfOk result (λ number. number ≤ high) }
    ensures exact { Gives (λ number. Some number) (whole low high key (view value.now))
        (option_and_then natural_of (as_integer (view value.now))) result }
{
    match value.as_integer() {
        None => Err(OptionRefused::Wrong(key)),
        Some(number) => match u32::try_from(number) {
            Err(_) => Err(OptionRefused::Range(key, number)),
            Ok(small) => {
                if low <= small && small <= high {
                    Ok(small)
                } else {
                    Err(OptionRefused::Range(key, number))
                }
            }
        },
    }
}

/// The whole number from `low` to `high` at a key that has to be there.
pub(crate) fn needed_whole(
    table: &Table,
    key: Key,
    low: u32,
    high: u32,
) -> Result<u32, OptionRefused>
    ensures { let found = at_key key (table_view table.now) in
        Gives (λ number. number) (needed (whole low high) key found) (whole_or 0 found) result }
{
    match value_at(table, key) {
        None => Err(OptionRefused::Missing(key)),
        Some(value) => whole_in(value, key, low, high),
    }
}

/// The whole number from `low` to `high` at a key, and the usual one where the key is not there.
pub(crate) fn whole_or(
    table: &Table,
    key: Key,
    low: u32,
    high: u32,
    usual: u32,
) -> Result<u32, OptionRefused>
    requires low { low ≤ usual }
    requires high { usual ≤ high }
    ensures low { IfOk result (λ number. low ≤ number) }
    ensures high { IfOk result (λ number. number ≤ high) }
    ensures exact { let found = at_key key (table_view table.now) in
        Gives (λ number. number) (allowed (whole low high) key found) (whole_or usual found)
        result }
{
    match value_at(table, key) {
        None => Ok(usual),
        Some(value) => whole_in(value, key, low, high),
    }
}
