//! The words of munge.

ghost use Rattle.std.specs.Prelude.{◌≡◌, [], IfErr, IfOk, None, Some, map, option_map};
ghost use Rattle.std.specs.String.{string_bytes};
ghost use Rattle.clap.specs.Words.{app_of, found_of, rows_of};
ghost use Rattle.munge_tools.specs.MungeAskedTold.{munge_told, payload_told};
ghost use Rattle.munge_tools.specs.MungeWords.{
  cipher_of,
  mac_of,
  munge_app,
  munge_asked,
  munge_asked_of,
  munge_faults,
  munge_rows,
  payload_of,
};
ghost use Rattle.munge_tools.specs.Words.{read_or};

use crate::words::{
    Unread, bare_command, given_number, given_socket, given_text, is_given, unread_of, with_flag,
    with_text,
};
use clap::{ArgMatches, Command};
use std::alloc::{AllocError, Global};

/// What is to be sealed.
#[derive(Clone, Copy, Debug, PartialEq, Eq)]
pub enum Payload<'a> {
    /// This text.
    Text(&'a str),
    /// Nothing.
    Nothing,
    /// What the input has.
    Input,
}

/// What munge is asked to seal, and how.
#[derive(Clone, Copy, Debug, PartialEq, Eq)]
pub struct AskedMunge<'a> {
    /// What is to be sealed.
    pub payload: Payload<'a>,
    /// The number of the cipher, or 1 for the daemon's default.
    pub cipher: u8,
    /// The number of the MAC, or 1 for the daemon's default.
    pub mac: u8,
    /// The UID that alone may open it, or 4294967295 for any.
    pub for_uid: u32,
    /// The GID whose members alone may open it, or 4294967295 for any.
    pub for_gid: u32,
    /// For how many seconds it is to be good, or 0 for the daemon's default.
    pub ttl: u32,
    /// The path of the daemon's socket.
    pub socket: &'a str,
}

/// The command of munge.
fn munge_command<'a>(alloc: Global) -> Result<Command<'a>, AllocError>
    ensures { IfOk result (λ c. app_of c ≡ munge_app) }
{
    let command = bare_command(alloc, "munge");
    let command = with_text(command, alloc, "string", 's')?;
    let command = with_flag(command, alloc, "no-input", 'n')?;
    let command = with_text(command, alloc, "cipher", 'c')?;
    let command = with_text(command, alloc, "mac", 'm')?;
    let command = with_text(command, alloc, "restrict-uid", 'u')?;
    let command = with_text(command, alloc, "restrict-gid", 'g')?;
    let command = with_text(command, alloc, "ttl", 't')?;
    with_text(command, alloc, "socket", 'S')
}

/// What `clap` finds in the words.
fn munge_matches<'a>(alloc: Global, words: &'a [String]) -> Result<ArgMatches<'a>, Unread>
    ensures ok { IfOk result (λ m. (munge_faults (map string_bytes words.now) ≡ [])
        × (rows_of (found_of m) ≡ munge_rows (map string_bytes words.now))) }
    ensures refused { IfErr result (λ e. e ≡ Unread.Refused
        → munge_faults (map string_bytes words.now) ≡ [] → ⊥) }
{
    let Ok(command) = munge_command(alloc) else {
        return Err(Unread::NoMemory);
    };
    match command.try_get_matches_from(words) {
        Ok(matches) => Ok(matches),
        Err(error) => Err(unread_of(&error)),
    }
}

/// The number of a cipher's name.
fn cipher_of_name(name: &str) -> Option<u8>
    ensures { result ≡ cipher_of name.now }
{
    match name {
        "none" => Some(0),
        "default" => Some(1),
        "aes128" => Some(4),
        "aes256" => Some(5),
        _ => None,
    }
}

/// The number of a MAC's name.
fn mac_of_name(name: &str) -> Option<u8>
    ensures { result ≡ mac_of name.now }
{
    match name {
        "default" => Some(1),
        "sha1" => Some(3),
        "sha256" => Some(5),
        "sha512" => Some(6),
        _ => None,
    }
}

/// The cipher that is given, or the default.
fn cipher_or_default(given: Option<&str>) -> Option<u8>
    ensures { result ≡ read_or 1 cipher_of (option_map (λ text. text.now) given.entry) }
{
    match given {
        Some(name) => cipher_of_name(name),
        None => Some(1),
    }
}

/// The MAC that is given, or the default.
fn mac_or_default(given: Option<&str>) -> Option<u8>
    ensures { result ≡ read_or 1 mac_of (option_map (λ text. text.now) given.entry) }
{
    match given {
        Some(name) => mac_of_name(name),
        None => Some(1),
    }
}

/// What is to be sealed, by the text that is given and whether no input is to be read. Not both may
/// be given.
fn payload_given<'a>(text: Option<&'a str>, no_input: bool) -> Option<Payload<'a>>
    ensures { option_map payload_told result
        ≡ payload_of (option_map (λ text. text.now) text.entry) no_input }
{
    match (text, no_input) {
        (Some(_), true) => None,
        (Some(text), false) => Some(Payload::Text(text)),
        (None, true) => Some(Payload::Nothing),
        (None, false) => Some(Payload::Input),
    }
}

/// What the matches ask for, if no name or number is outside its table.
fn asked<'a>(matches: &ArgMatches<'a>) -> Option<AskedMunge<'a>>
    ensures { option_map munge_told result ≡ munge_asked_of (rows_of (found_of matches.now)) }
{
    let no_input = is_given(matches, "no-input");
    let payload = payload_given(given_text(matches, "string"), no_input)?;
    let cipher = cipher_or_default(given_text(matches, "cipher"))?;
    let mac = mac_or_default(given_text(matches, "mac"))?;
    let for_uid = given_number(matches, "restrict-uid", 0, u32::MAX, u32::MAX)?;
    let for_gid = given_number(matches, "restrict-gid", 0, u32::MAX, u32::MAX)?;
    let ttl = given_number(matches, "ttl", 0, u32::MAX, 0)?;
    Some(AskedMunge {
        payload,
        cipher,
        mac,
        for_uid,
        for_gid,
        ttl,
        socket: given_socket(matches),
    })
}

/// What the words ask for, which do not hold the program's name.
pub fn munge_words<'a>(alloc: Global, words: &'a [String]) -> Result<AskedMunge<'a>, Unread>
    ensures ok { IfOk result (λ asked.
        munge_asked (map string_bytes words.now) ≡ Some (munge_told asked)) }
    ensures refused { IfErr result (λ e. e ≡ Unread.Refused
        → munge_asked (map string_bytes words.now) ≡ None) }
{
    let matches = munge_matches(alloc, words)?;
    match asked(&matches) {
        Some(asked) => Ok(asked),
        None => Err(Unread::Refused),
    }
}
