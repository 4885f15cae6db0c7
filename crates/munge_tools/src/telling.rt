//! What a tool tells of itself.

ghost use Rattle.std.specs.Prelude.{◌≡◌, ◌≢◌, IfSome, None, Some, map, option_map};
ghost use Rattle.std.specs.String.{string_bytes};
ghost use Rattle.byte_io.specs.Counts.{Rose};
ghost use Rattle.munge_tools.specs.Ending.{Says, errors_of};
ghost use Rattle.munge_tools.specs.Status.{failed_output};
ghost use Rattle.munge_tools.specs.Telling.{IsTold, TellingCame, text_asked, text_at};

use crate::ending::{Ending, end};
use crate::output::print;
use byte_io::Sink;
use munge_types::Failed;

/// What a tool tells of itself.
#[derive(Clone, Copy, Debug)]
pub struct About<'a> {
    /// The name of the tool.
    pub name: &'a str,
    /// What `--help` prints.
    pub help: &'a str,
    /// What `--version` prints.
    pub version: &'a str,
}

/// Prints what the tool tells of itself where the words, which do not hold the program's name, are
/// `--help` or `--version` alone, and returns the status of the process: 0, or 104 where a write
/// failed, which one line on `err` says. Other words are for the tool's run: then nothing is
/// written, and there is no status yet.
pub fn tell<O: Sink, E: Sink>(
    about: About<'_>,
    words: &[String],
    out: &mut O,
    err: &mut E,
) -> Option<u8>
    ensures told { IfSome result (IsTold
        (text_asked about.entry.help.now about.entry.version.now (map string_bytes words.now))
        (O.taken out.old) (O.taken out.new)
        (Says (errors_of (E.taken err.old) (E.write_faults err.old))
        (errors_of (E.taken err.new) (E.write_faults err.new)))
        about.entry.name.now) }
    ensures passed { result ≡ None
        → text_asked about.entry.help.now about.entry.version.now (map string_bytes words.now)
        ≡ None }
    ensures silent { result ≡ None → (out.new ≡ out.old) × (err.new ≡ err.old) }

    ensures write_fault { result ≡ Some failed_output
        → Rose (O.write_faults out.old) (O.write_faults out.new) }
    ensures writes_sound { result ≢ Some failed_output
        → O.write_faults out.new ≡ O.write_faults out.old }
{
    match asked(about, words) {
        Some(text) => Some(end(about.name, err, print_text(text, out))),
        None => None,
    }
}

/// The text that the words ask for, if they ask for one.
fn asked<'a>(about: About<'a>, words: &[String]) -> Option<&'a str>
    ensures { option_map (λ text. text.now) result
        ≡ text_asked about.entry.help.now about.entry.version.now (map string_bytes words.now) }
{
    match words {
        [word] => asked_by(about, word.as_str()),
        _ => None,
    }
}

/// The text that a word asks for, if it asks for one.
fn asked_by<'a>(about: About<'a>, word: &str) -> Option<&'a str>
    ensures { option_map (λ text. text.now) result
        ≡ text_at about.entry.help.now about.entry.version.now word.now }
{
    match word {
        "--help" => Some(about.help),
        "--version" => Some(about.version),
        _ => None,
    }
}

/// Prints a text, and says how the tool ends.
fn print_text<O: Sink>(text: &str, out: &mut O) -> Ending
    ensures came { TellingCame text.now (O.taken out.old) (O.taken out.new) result }
    ensures write_fault { result ≡ Ending.OutputFailed
        → Rose (O.write_faults out.old) (O.write_faults out.new) }
    ensures writes_sound { result ≢ Ending.OutputFailed
        → O.write_faults out.new ≡ O.write_faults out.old }
{
    match print(out, text.as_bytes()) {
        Ok(()) => Ending::Done(0),
        Err(Failed) => Ending::OutputFailed,
    }
}
