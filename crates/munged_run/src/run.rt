//! The program over the outside that it is handed.

ghost use Rattle.std.specs.Prelude.{◌≡◌, ◌≢◌, ◌↔◌, ◌⊎◌, None, map};
ghost use Rattle.std.specs.String.{string_bytes};
ghost use Rattle.byte_io.specs.Counts.{Rose};
ghost use Rattle.session_core.specs.Things.{input_of, outside_of};
ghost use Rattle.munged_run.specs.CommandLine.{command_of};
ghost use Rattle.munged_files.specs.Ending.{Ended, Says, errors_of};
ghost use Rattle.munged_run.specs.Program.{ComesTo, given_of, same_of};
ghost use Rattle.munged_files.specs.Status.{
  bad_words,
  failed_clock,
  failed_input,
  failed_output,
  success,
  unread_file,
  want_of_memory,
};
ghost use Rattle.munged_run.specs.WholeRequests.{AnswersWhole, WholeRequests};

use crate::check::run_check;
use crate::command::{Command, command_of_words};
use crate::session::run_session;
use byte_io::{Clock, Files, Sink, Source};
use munged_files::{Ending, end};
use std::alloc::Global;
use wire_msg::laws::{frame_has_one_message, no_frame_goes_on_to_another};

/// Does what the words ask for, which do not hold the program's name, and returns the status of the
/// process. Where that is not 0, one line on `err` says why.
pub fn munged_run<F: Files, I: Source, O: Sink, E: Sink, C: Clock>(
    alloc: Global,
    words: &[String],
    files: &mut F,
    input: &mut I,
    out: &mut O,
    err: &mut E,
    clock: &mut C,
) -> u8
    ensures ran { let before = outside_of (input_of (I.left input.old) (I.ends input.old))
        (O.taken out.old) (C.readings clock.old) in
        let after = outside_of (input_of (I.left input.new) (I.ends input.new))
        (O.taken out.new) (C.readings clock.new) in
        let idle = (input.new ≡ input.old) × (clock.new ≡ clock.old) in
        let same = same_of idle (out.new ≡ out.old) in
        let given = given_of (map string_bytes words.now) (F.files files.old) in
        Ended (ComesTo given same before after)
        (Says (errors_of (E.taken err.old) (E.write_faults err.old))
        (errors_of (E.taken err.new) (E.write_faults err.new))) result }
    ensures no_command { (result ≡ bad_words)
        ↔ (command_of (map string_bytes words.now) ≡ None) }

    ensures file_fault { result ≡ unread_file
        → Rose (F.file_faults files.old) (F.file_faults files.new) }
    ensures read_fault { result ≡ failed_input
        → Rose (I.read_faults input.old) (I.read_faults input.new) }
    ensures write_fault { result ≡ failed_output
        → Rose (O.write_faults out.old) (O.write_faults out.new) }
    ensures clock_fault { result ≡ failed_clock
        → Rose (C.clock_faults clock.old) (C.clock_faults clock.new) }
    ensures files_sound { result ≢ unread_file
        → F.file_faults files.new ≡ F.file_faults files.old }
    ensures reads_sound { result ≢ failed_input
        → I.read_faults input.new ≡ I.read_faults input.old }
    ensures writes_sound { result ≢ failed_output
        → O.write_faults out.new ≡ O.write_faults out.old }
    ensures clock_sound { result ≢ failed_clock
        → C.clock_faults clock.new ≡ C.clock_faults clock.old }

    // Nothing else than want of memory keeps it from answering all.
    ensures complete { let given = given_of (map string_bytes words.now) (F.files files.old) in
        let before = outside_of (input_of (I.left input.old) (I.ends input.old))
        (O.taken out.old) (C.readings clock.old) in
        let after = outside_of (input_of (I.left input.new) (I.ends input.new))
        (O.taken out.new) (C.readings clock.new) in
        (whole : WholeRequests given (I.left input.old))
        → ¬ Rose (F.file_faults files.old) (F.file_faults files.new)
        → ¬ Rose (I.read_faults input.old) (I.read_faults input.new)
        → ¬ Rose (O.write_faults out.old) (O.write_faults out.new)
        → ¬ Rose (C.clock_faults clock.old) (C.clock_faults clock.new)
        → (result ≡ want_of_memory)
        ⊎ ((result ≡ success) × AnswersWhole given before after whole) }

    ensures files_stay { F.files files.new ≡ F.files files.old }
{
    frame_has_one_message();
    no_frame_goes_on_to_another();
    match command_of_words(words) {
        Some(Command::Session(asked)) => {
            let ending = run_session(alloc, &asked, files, input, out, clock);
            end(err, ending)
        }
        Some(Command::Check(config)) => run_check(alloc, config, files, out, err),
        None => end(err, Ending::NoCommand),
    }
}
