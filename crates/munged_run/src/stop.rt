//! The command `stop`.

ghost use Rattle.std.specs.Prelude.{◌≡◌, ◌≢◌, ◌↔◌, false, option_map, true};
ghost use Rattle.byte_io.specs.Counts.{Rose};
ghost use Rattle.munged_files.specs.Ending.{Ended, Says, errors_of, line_of, status_of};
ghost use Rattle.munged_files.specs.EndingTold.{ending_told};
ghost use Rattle.munged_files.specs.Status.{
  bad_message,
  bad_words,
  failed_output,
  failed_socket,
  failed_ticker,
  unread_file,
  worn_gate,
};
ghost use Rattle.munged_run.specs.Stop.{StopCame, StoppedBy, after_asking, control_path};
ghost use Rattle.munged_run.specs.Wire.{WireFailed, WireSound, seen_by};
ghost use Rattle.munged_run.specs.declared.stop_request.AskedToStop.TheVariants.{Failed};

use crate::check::OPTIONS_ROOM;
use crate::stop_request::{AskedToStop, ask_to_stop};
use byte_io::{Files, Hall, Sink};
use munged_files::{Ending, end, read_file};
use option_file::{Options, SocketLine};
use std::alloc::Global;

/// How the command ends.
#[derive(Clone, Copy, Debug, PartialEq, Eq)]
pub struct StopEnd {
    /// The status of the process.
    pub status: u8,
    /// The answer was another than that the daemon stops.
    pub malformed: bool,
}

/// Asks the daemon that serves by the option file of that path to stop. It dials the first socket
/// that has control, once, sends one request, and reads no more bytes than the right answer has.
/// Says how the program ends, and returns that.
pub fn run_stop<F: Files, H: Hall, E: Sink>(
    alloc: Global,
    config: &str,
    files: &mut F,
    hall: &mut H,
    err: &mut E,
) -> StopEnd
    ensures came { let seen = seen_by H.dialled H.replies H.left H.taken H.ends
        H.dial_faults H.read_faults H.write_faults in
        Ended (StopCame (F.files files.old) config.now (hall.new ≡ hall.old)
        (seen hall.old) (seen hall.new))
        (Says (errors_of (E.taken err.old) (E.write_faults err.old))
        (errors_of (E.taken err.new) (E.write_faults err.new))) result.status }
    ensures malformed { (result.malformed ≡ true) ↔ (result.status ≡ bad_message) }

    ensures file_fault { result.status ≡ unread_file
        → Rose (F.file_faults files.old) (F.file_faults files.new) }
    ensures files_sound { result.status ≢ unread_file
        → F.file_faults files.new ≡ F.file_faults files.old }
    ensures hall_fault { let seen = seen_by H.dialled H.replies H.left H.taken H.ends
        H.dial_faults H.read_faults H.write_faults in
        result.status ≡ failed_socket → WireFailed (seen hall.old) (seen hall.new) }
    ensures hall_sound { let seen = seen_by H.dialled H.replies H.left H.taken H.ends
        H.dial_faults H.read_faults H.write_faults in
        result.status ≢ failed_socket → WireSound (seen hall.old) (seen hall.new) }
    ensures words_are_good { result.status ≢ bad_words }
    ensures no_output { result.status ≢ failed_output }
    ensures no_ticker { result.status ≢ failed_ticker }
    ensures no_gate { result.status ≢ worn_gate }

    ensures files_stay { F.files files.new ≡ F.files files.old }
    ensures doors_stay { H.doors hall.new ≡ H.doors hall.old }
    ensures hall_faults_stay { H.hall_faults hall.new ≡ H.hall_faults hall.old }
{
    let bytes = match read_file(alloc, files, config, OPTIONS_ROOM) {
        Ok(bytes) => bytes,
        Err(ending) => return unasked(err, ending),
    };
    match Options::read(alloc, &bytes) {
        Ok(options) => {
            let asked = stop_by(alloc, options.sockets(), hall);
            StopEnd {
                status: end(err, after_asking(asked)),
                malformed: asked.is_other(),
            }
        }
        Err(refused) => unasked(err, Ending::by(&refused)),
    }
}

/// Asks at the first of the sockets that has control.
fn stop_by<H: Hall>(alloc: Global, lines: &[SocketLine], hall: &mut H) -> AskedToStop
    ensures came { let seen = seen_by H.dialled H.replies H.left H.taken H.ends
        H.dial_faults H.read_faults H.write_faults in
        StoppedBy lines.now (hall.new ≡ hall.old) (seen hall.old) (seen hall.new) result }
    ensures fault { let seen = seen_by H.dialled H.replies H.left H.taken H.ends
        H.dial_faults H.read_faults H.write_faults in
        result ≡ Failed → WireFailed (seen hall.old) (seen hall.new) }
    ensures sound { let seen = seen_by H.dialled H.replies H.left H.taken H.ends
        H.dial_faults H.read_faults H.write_faults in
        result ≢ Failed → WireSound (seen hall.old) (seen hall.new) }
    ensures doors { H.doors hall.new ≡ H.doors hall.old }
    ensures hall_faults { H.hall_faults hall.new ≡ H.hall_faults hall.old }
{
    match path_with_control(lines) {
        Some(path) => ask_to_stop(alloc, hall, path),
        None => AskedToStop::NoControl,
    }
}

/// The path of the first socket that has control, if one has it.
fn path_with_control(lines: &[SocketLine]) -> Option<&str>
    ensures { option_map (λ path. path.now) result ≡ control_path lines.now }
{
    let line = lines.iter().find(|line| line.who.control)?;
    Some(line.path.text())
}

/// How the program ends after a request to stop.
fn after_asking(asked: AskedToStop) -> Ending<'static>
    ensures { ending_told result ≡ after_asking asked }
{
    match asked {
        AskedToStop::NoControl => Ending::NoControl,
        AskedToStop::NoMemory => Ending::NoMemory,
        AskedToStop::Failed => Ending::SocketFailed,
        AskedToStop::Other => Ending::Unanswered,
        AskedToStop::Stops => Ending::Done,
    }
}

/// Says how the program ends without a request, and returns that.
fn unasked<E: Sink>(err: &mut E, ending: Ending<'_>) -> StopEnd
    ensures status { result.status ≡ status_of (ending_told ending.entry) }
    ensures malformed { result.malformed ≡ false }
    ensures says { Says (errors_of (E.taken err.old) (E.write_faults err.old))
        (errors_of (E.taken err.new) (E.write_faults err.new))
        (line_of (ending_told ending.entry)) }
{
    StopEnd {
        status: end(err, ending),
        malformed: false,
    }
}
