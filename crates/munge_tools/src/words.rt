//! Words of a command line, as `clap` reads them.

ghost use Rattle.std.specs.Prelude.{◌≡◌, [], IfOk, codes, option_map};
ghost use Rattle.std.specs.List.{list_all};
ghost use Rattle.std.specs.Option.{option_map_or};
ghost use Rattle.clap.specs.Words.{app_of, first_of, found_of, kind_of, rows_of, with_rule};
ghost use Rattle.munge_tools.specs.Words.{
  app_with,
  flag_rule,
  is_digit,
  is_on,
  number_of,
  number_or,
  socket_of,
  text_rule,
};

use clap::error::ErrorKind;
use clap::{Arg, ArgAction, ArgMatches, Command, Error};
use std::alloc::{AllocError, Global};

/// The socket of the daemon, unless another is given.
const USUAL_SOCKET: &str = "munge.socket";

/// Why words are not read.
#[derive(Clone, Copy, Debug, PartialEq, Eq)]
pub enum Unread {
    /// They are refused.
    Refused,
    /// No memory was left.
    NoMemory,
}

/// A command of this name without options, whose words do not hold the program's name.
pub fn bare_command<'a>(alloc: Global, name: &'a str) -> Command<'a>
    ensures { app_of result ≡ app_with name.entry.now [] }
{
    Command::new(alloc, name)
        .no_binary_name(true)
        .disable_help_flag(true)
}

/// The command with one more option, which takes one text.
pub fn with_text<'a>(
    command: Command<'a>,
    alloc: Global,
    name: &'a str,
    short: char,
) -> Result<Command<'a>, AllocError>
    ensures { IfOk result (λ c.
        app_of c ≡ with_rule (app_of command.entry) (text_rule name.entry.now short)) }
{
    command.arg(Arg::new(alloc, name).long(name).short(short))
}

/// The command with one more option, which takes no value.
pub fn with_flag<'a>(
    command: Command<'a>,
    alloc: Global,
    name: &'a str,
    short: char,
) -> Result<Command<'a>, AllocError>
    ensures { IfOk result (λ c.
        app_of c ≡ with_rule (app_of command.entry) (flag_rule name.entry.now short)) }
{
    let flag = Arg::new(alloc, name)
        .long(name)
        .short(short)
        .action(ArgAction::SetTrue);
    command.arg(flag)
}

/// Why `clap` gave no matches.
pub fn unread_of(error: &Error) -> Unread
    ensures { result ≡ Unread.Refused → kind_of error.now ≡ ErrorKind.OutOfMemory → ⊥ }
{
    match error.kind() {
        ErrorKind::OutOfMemory => Unread::NoMemory,
        _ => Unread::Refused,
    }
}

/// The value of an option, where it is given.
pub fn given_text<'a>(matches: &ArgMatches<'a>, id: &str) -> Option<&'a str>
    ensures { option_map (λ text. text.now) result
        ≡ first_of id.now (rows_of (found_of matches.now)) }
{
    matches.get_str(id)
}

/// An option without a value is given.
pub fn is_given(matches: &ArgMatches<'_>, id: &str) -> bool
    ensures { result ≡ is_on (first_of id.now (rows_of (found_of matches.now))) }
{
    is_flag_on(given_text(matches, id))
}

/// What `clap` has of an option without a value says that it is given.
fn is_flag_on(given: Option<&str>) -> bool
    ensures { result ≡ is_on (option_map (λ text. text.now) given.entry) }
{
    match given {
        Some(text) => text == "true",
        None => false,
    }
}

/// The path of the socket that is given, or the usual one.
pub fn given_socket<'a>(matches: &ArgMatches<'a>) -> &'a str
    ensures { result.now ≡ socket_of (rows_of (found_of matches.now)) }
{
    socket_or_usual(given_text(matches, "socket"))
}

/// The path that is given, or the usual one.
fn socket_or_usual<'a>(given: Option<&'a str>) -> &'a str
    ensures { result.now
        ≡ option_map_or (λ path. path) (option_map (λ text. text.now) given.entry)
        (codes "munge.socket") }
{
    match given {
        Some(path) => path,
        None => USUAL_SOCKET,
    }
}

/// The number that is given within these bounds, or the fallback; None where what is given is no
/// such number.
pub fn given_number(
    matches: &ArgMatches<'_>,
    id: &str,
    least: u32,
    most: u32,
    fallback: u32,
) -> Option<u32>
    ensures { result ≡ number_or least most fallback
        (first_of id.now (rows_of (found_of matches.now))) }
{
    number_or_fallback(given_text(matches, id), least, most, fallback)
}

/// The number that a word spells within these bounds, or the fallback where there is no word.
fn number_or_fallback(given: Option<&str>, least: u32, most: u32, fallback: u32) -> Option<u32>
    ensures { result ≡ number_or least most fallback
        (option_map (λ text. text.now) given.entry) }
{
    match given {
        Some(word) => number_of_word(word, least, most),
        None => Some(fallback),
    }
}

/// The bytes are ASCII digits, all of them.
fn are_digits(bytes: &[u8]) -> bool
    ensures { result ≡ list_all is_digit bytes.now }
{
    bytes.iter().all(|byte| b'0' <= *byte && *byte <= b'9')
}

/// The number that a word of one or more ASCII digits spells, where it is within these bounds.
fn number_of_word(word: &str, least: u32, most: u32) -> Option<u32>
    ensures { result ≡ number_of least most word.now }
{
    if word.is_empty() || !are_digits(word.as_bytes()) {
        return None;
    }
    let Ok(number) = word.parse::<u32>() else {
        return None;
    };
    if number < least || number > most {
        return None;
    }
    Some(number)
}
