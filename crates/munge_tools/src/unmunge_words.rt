//! The words of unmunge.

ghost use Rattle.std.specs.Prelude.{◌≡◌, [], IfErr, IfOk, None, Some, map};
ghost use Rattle.std.specs.String.{string_bytes};
ghost use Rattle.clap.specs.Words.{app_of, found_of, rows_of};
ghost use Rattle.munge_tools.specs.UnmungeAskedTold.{unmunge_told};
ghost use Rattle.munge_tools.specs.UnmungeWords.{
  unmunge_app,
  unmunge_asked,
  unmunge_faults,
  unmunge_rows,
};

use crate::words::{Unread, bare_command, given_socket, is_given, unread_of, with_flag, with_text};
use clap::{ArgMatches, Command};
use std::alloc::{AllocError, Global};

/// Whether unmunge is to print nothing, and whom it asks.
#[derive(Clone, Copy, Debug, PartialEq, Eq)]
pub struct AskedUnmunge<'a> {
    /// Nothing is to be printed.
    pub no_output: bool,
    /// The path of the daemon's socket.
    pub socket: &'a str,
}

/// The command of unmunge.
fn unmunge_command<'a>(alloc: Global) -> Result<Command<'a>, AllocError>
    ensures { IfOk result (λ c. app_of c ≡ unmunge_app) }
{
    let command = bare_command(alloc, "unmunge");
    let command = with_flag(command, alloc, "no-output", 'n')?;
    with_text(command, alloc, "socket", 'S')
}

/// What `clap` finds in the words.
fn unmunge_matches<'a>(alloc: Global, words: &'a [String]) -> Result<ArgMatches<'a>, Unread>
    ensures ok { IfOk result (λ m. (unmunge_faults (map string_bytes words.now) ≡ [])
        × (rows_of (found_of m) ≡ unmunge_rows (map string_bytes words.now))) }
    ensures refused { IfErr result (λ e. e ≡ Unread.Refused
        → unmunge_faults (map string_bytes words.now) ≡ [] → ⊥) }
{
    let Ok(command) = unmunge_command(alloc) else {
        return Err(Unread::NoMemory);
    };
    match command.try_get_matches_from(words) {
        Ok(matches) => Ok(matches),
        Err(error) => Err(unread_of(&error)),
    }
}

/// What the words ask for, which do not hold the program's name.
pub fn unmunge_words<'a>(alloc: Global, words: &'a [String]) -> Result<AskedUnmunge<'a>, Unread>
    ensures ok { IfOk result (λ asked.
        unmunge_asked (map string_bytes words.now) ≡ Some (unmunge_told asked)) }
    ensures refused { IfErr result (λ e. e ≡ Unread.Refused
        → unmunge_asked (map string_bytes words.now) ≡ None) }
{
    let matches = unmunge_matches(alloc, words)?;
    Ok(AskedUnmunge {
        no_output: is_given(&matches, "no-output"),
        socket: given_socket(&matches),
    })
}
