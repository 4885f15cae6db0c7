//! How a tool begins: by the words of its process.

ghost use Rattle.std.specs.Prelude.{
  ◌≡◌,
  ◌≢◌,
  Err,
  IfErr,
  IfOk,
  None,
  OnOk,
  map,
};
ghost use Rattle.std.specs.String.{string_bytes};
ghost use Rattle.byte_io.specs.Counts.{Rose};
ghost use Rattle.munge_tools.specs.Ending.{Ended, IsWithoutWords, Says, errors_of};
ghost use Rattle.munge_tools.specs.Status.{failed_output};
ghost use Rattle.munge_tools.specs.Telling.{BeginningCame, text_asked};

use crate::ending::{Ending, end};
use crate::telling::{About, tell};
use byte_io::Sink;
use std::rt::Env;
use std::{env, io};

/// The words of the command line, without the program's name, that are for the tool's run; or the
/// status of the process with which the tool has ended without a run: it told what `--help` or
/// `--version` alone asks for (0, or 104 where a write failed), or the system gave no words, for
/// one is no UTF-8 (100) or no memory was left (105). Where the status is not 0, one line on `err`
/// says why.
pub fn begin<R: Env + AllocGlobal, O: Sink, E: Sink>(
    rt: &R,
    about: About<'_>,
    out: &mut O,
    err: &mut E,
) -> Result<Vec<String>, u8>
    ensures for_run { IfOk result (λ words.
        text_asked about.entry.help.now about.entry.version.now (map string_bytes words.items)
        ≡ None) }
    ensures silent { OnOk result ((out.new ≡ out.old) × (err.new ≡ err.old)) }
    ensures ended { IfErr result (Ended
        (BeginningCame about.entry.help.now about.entry.version.now (out.new ≡ out.old)
        (O.taken out.old) (O.taken out.new))
        (Says (errors_of (E.taken err.old) (E.write_faults err.old))
        (errors_of (E.taken err.new) (E.write_faults err.new)))
        about.entry.name.now) }

    ensures write_fault { result ≡ Err failed_output
        → Rose (O.write_faults out.old) (O.write_faults out.new) }
    ensures writes_sound { result ≢ Err failed_output
        → O.write_faults out.new ≡ O.write_faults out.old }
{
    let words = match given_words(rt) {
        Ok(words) => words,
        Err(ending) => return Err(end(about.name, err, ending)),
    };
    match tell(about, words.as_slice(), out, err) {
        None => Ok(words),
        Some(status) => Err(status),
    }
}

/// The words of the command line without the program's name, or how a tool ends without them.
fn given_words<R: Env + AllocGlobal>(rt: &R) -> Result<Vec<String>, Ending>
    ensures { IfErr result IsWithoutWords }
{
    let words = match env::args(rt) {
        Ok(words) => words,
        Err(e) => return Err(without_words(&e)),
    };
    match words.skip(1).collect(rt.alloc()) {
        Ok(words) => Ok(words),
        Err(_) => Err(Ending::NoMemory),
    }
}

/// How a tool ends where the system gave no words: one that is no UTF-8 asks for nothing that it
/// does.
fn without_words(e: &io::Error) -> Ending
    ensures { IsWithoutWords result }
{
    match e.kind() {
        io::ErrorKind::OutOfMemory => Ending::NoMemory,
        _ => Ending::BadWords,
    }
}
