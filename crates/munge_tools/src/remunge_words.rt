//! The words of remunge.

ghost use Rattle.std.specs.Prelude.{◌≡◌, [], IfErr, IfOk, None, Some, map, option_map};
ghost use Rattle.std.specs.String.{string_bytes};
ghost use Rattle.clap.specs.Words.{app_of, found_of, rows_of};
ghost use Rattle.munge_tools.specs.RemungeAskedTold.{remunge_told};
ghost use Rattle.munge_tools.specs.RemungeWords.{
  remunge_app,
  remunge_asked,
  remunge_asked_of,
  remunge_faults,
  remunge_rows,
  text_or_none,
};

use crate::words::{
    Unread, bare_command, given_number, given_socket, given_text, is_given, unread_of, with_flag,
    with_text,
};
use clap::{ArgMatches, Command};
use std::alloc::{AllocError, Global};

/// The most credentials that are made.
const MOST_CREDENTIALS: u32 = 100_000;

/// What remunge is to make, and whom it asks.
#[derive(Clone, Copy, Debug, PartialEq, Eq)]
pub struct AskedRemunge<'a> {
    /// How many credentials, 1 to 100,000.
    pub count: u32,
    /// Each that is made is to be opened.
    pub decode: bool,
    /// What they are to carry.
    pub payload: &'a str,
    /// The path of the daemon's socket.
    pub socket: &'a str,
}

/// The command of remunge.
fn remunge_command<'a>(alloc: Global) -> Result<Command<'a>, AllocError>
    ensures { IfOk result (λ c. app_of c ≡ remunge_app) }
{
    let command = bare_command(alloc, "remunge");
    let command = with_text(command, alloc, "num-creds", 'N')?;
    let command = with_flag(command, alloc, "decode", 'd')?;
    let command = with_text(command, alloc, "string", 's')?;
    with_text(command, alloc, "socket", 'S')
}

/// What `clap` finds in the words.
fn remunge_matches<'a>(alloc: Global, words: &'a [String]) -> Result<ArgMatches<'a>, Unread>
    ensures ok { IfOk result (λ m. (remunge_faults (map string_bytes words.now) ≡ [])
        × (rows_of (found_of m) ≡ remunge_rows (map string_bytes words.now))) }
    ensures refused { IfErr result (λ e. e ≡ Unread.Refused
        → remunge_faults (map string_bytes words.now) ≡ [] → ⊥) }
{
    let Ok(command) = remunge_command(alloc) else {
        return Err(Unread::NoMemory);
    };
    match command.try_get_matches_from(words) {
        Ok(matches) => Ok(matches),
        Err(error) => Err(unread_of(&error)),
    }
}

/// The text that is given, or none.
fn text_given<'a>(given: Option<&'a str>) -> &'a str
    ensures { result.now ≡ text_or_none (option_map (λ text. text.now) given.entry) }
{
    match given {
        Some(text) => text,
        None => "",
    }
}

/// What the matches ask for, if the number is within its range.
fn asked<'a>(matches: &ArgMatches<'a>) -> Option<AskedRemunge<'a>>
    ensures { option_map remunge_told result ≡ remunge_asked_of (rows_of (found_of matches.now)) }
{
    let count = given_number(matches, "num-creds", 1, MOST_CREDENTIALS, 1)?;
    Some(AskedRemunge {
        count,
        decode: is_given(matches, "decode"),
        payload: text_given(given_text(matches, "string")),
        socket: given_socket(matches),
    })
}

/// What the words ask for, which do not hold the program's name.
pub fn remunge_words<'a>(alloc: Global, words: &'a [String]) -> Result<AskedRemunge<'a>, Unread>
    ensures ok { IfOk result (λ asked.
        remunge_asked (map string_bytes words.now) ≡ Some (remunge_told asked)) }
    ensures refused { IfErr result (λ e. e ≡ Unread.Refused
        → remunge_asked (map string_bytes words.now) ≡ None) }
{
    let matches = remunge_matches(alloc, words)?;
    match asked(&matches) {
        Some(asked) => Ok(asked),
        None => Err(Unread::Refused),
    }
}
