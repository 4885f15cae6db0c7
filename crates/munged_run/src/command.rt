//! The words of a command line.

ghost use Rattle.std.specs.Prelude.{◌≡◌, map, option_map};
ghost use Rattle.std.specs.List.{list_all};
ghost use Rattle.std.specs.String.{string_bytes};
ghost use Rattle.munged_run.specs.CommandLine.{
  caller_of,
  check_of,
  command_of,
  id_of,
  is_digit,
  is_numeral,
  session_of,
};
ghost use Rattle.munged_run.specs.SessionCommand.{asked_told, command_told};

use munge_types::Identity;

/// The most digits of a number.
const MOST_DIGITS: usize = 20;

/// The largest UID and GID of a caller.
const LARGEST_ID: u32 = 4294967294;

/// What the program is asked to do.
#[derive(Clone, Copy, Debug, PartialEq, Eq)]
pub enum Command<'a> {
    /// To answer the requests of its input.
    Session(SessionCommand<'a>),
    /// To look over the option file of this path and the files that it names.
    Check(&'a str),
}

/// A session under the key of a file, for a caller, with the seed of a file if one is named.
#[derive(Clone, Copy, Debug, PartialEq, Eq)]
pub struct SessionCommand<'a> {
    /// The path of the key file.
    pub key_file: &'a str,
    /// The UID and the GID of the caller.
    pub uid: u32,
    pub gid: u32,
    /// The path of the seed file. Without one nothing is sealed.
    pub seed_file: Option<&'a str>,
}

impl SessionCommand<'_> {
    /// The caller, who has no control.
    pub fn caller(&self) -> Identity
        ensures { result ≡ caller_of (asked_told self.now) }
    {
        Identity {
            uid: self.uid,
            gid: self.gid,
            control: false,
        }
    }
}

/// What the words ask for, which do not hold the program's name: `session KEYFILE UID GID`,
/// `session KEYFILE UID GID SEEDFILE`, or `check CONFIG`.
pub fn command_of_words(words: &[String]) -> Option<Command<'_>>
    ensures { option_map command_told result ≡ command_of (map string_bytes words.now) }
{
    match words {
        [name, config] => check_of_words(name.as_str(), config.as_str()),
        [name, key_file, uid, gid] => Some(Command::Session(session_of_words(
            name.as_str(),
            key_file.as_str(),
            uid.as_str(),
            gid.as_str(),
            None,
        )?)),
        [name, key_file, uid, gid, seed_file] => Some(Command::Session(session_of_words(
            name.as_str(),
            key_file.as_str(),
            uid.as_str(),
            gid.as_str(),
            Some(seed_file.as_str()),
        )?)),
        _ => None,
    }
}

/// What a command of this name asks for, if it is `check`.
fn check_of_words<'a>(name: &str, config: &'a str) -> Option<Command<'a>>
    ensures { option_map command_told result ≡ check_of name.now config.now }
{
    if name != "check" {
        return None;
    }
    Some(Command::Check(config))
}

/// What a command of this name asks for, if it is `session`.
fn session_of_words<'a>(
    name: &str,
    key_file: &'a str,
    uid: &str,
    gid: &str,
    seed_file: Option<&'a str>,
) -> Option<SessionCommand<'a>>
    ensures { option_map asked_told result
        ≡ session_of name.now key_file.now uid.now gid.now
        (option_map (λ file. file.now) seed_file.entry) }
{
    if name != "session" {
        return None;
    }
    Some(SessionCommand {
        key_file,
        uid: id_of_word(uid)?,
        gid: id_of_word(gid)?,
        seed_file,
    })
}

/// The UID or GID that a word spells: one or more ASCII digits, at most 20, and at most 4294967294.
/// Zeros may lead.
fn id_of_word(word: &str) -> Option<u32>
    ensures { result ≡ id_of word.now }
{
    if !is_number(word) {
        return None;
    }
    let Ok(id) = word.parse::<u32>() else {
        return None;
    };
    if id > LARGEST_ID {
        return None;
    }
    Some(id)
}

/// The word is one or more ASCII digits, at most 20.
pub(crate) fn is_number(word: &str) -> bool
    ensures { result ≡ is_numeral word.now }
{
    !word.is_empty() && word.len() <= MOST_DIGITS && are_digits(word.as_bytes())
}

/// The bytes are ASCII digits, all of them.
fn are_digits(bytes: &[u8]) -> bool
    ensures { result ≡ list_all is_digit bytes.now }
{
    bytes.iter().all(|byte| b'0' <= *byte && *byte <= b'9')
}
