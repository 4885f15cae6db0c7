//! The command `check`.

ghost use Rattle.std.specs.Prelude.{◌≡◌, ◌≢◌, IfErr, OnOk};
ghost use Rattle.byte_io.specs.Counts.{Rose};
ghost use Rattle.munged_run.specs.Check.{AcceptsFiles, CheckCame, FilesChecked, RefusesFiles};
ghost use Rattle.munged_files.specs.Ending.{Ended, Says, errors_of, output_failed};
ghost use Rattle.munged_files.specs.EndingTold.{ending_told};
ghost use Rattle.munged_files.specs.Faults.{CountsFault, FaultOf};
ghost use Rattle.munged_files.specs.Status.{failed_output, unread_file};

use byte_io::{AllWritten, Files, Sink, write_all};
use munged_files::{Ending, check_maps, end, read_file, read_key};
use option_file::Options;
use std::alloc::Global;

/// The most bytes that are read of an option file, one more than it may have.
pub(crate) const OPTIONS_ROOM: u32 = 65_537;

/// What is printed where no refusal stands.
const ACCEPTED: &[u8] = b"ok\n";

/// Looks over the option file of that path and the files that it names, and prints `ok` where no
/// refusal stands. Says how the program ends, and returns the status of the process. The files are
/// read in this order: option file, key file, passwd file, group file.
pub fn run_check<F: Files, O: Sink, E: Sink>(
    alloc: Global,
    config: &str,
    files: &mut F,
    out: &mut O,
    err: &mut E,
) -> u8
    ensures came { Ended (CheckCame (F.files files.old) config.now (out.new ≡ out.old)
        (O.taken out.old) (O.taken out.new))
        (Says (errors_of (E.taken err.old) (E.write_faults err.old))
        (errors_of (E.taken err.new) (E.write_faults err.new))) result }

    ensures file_fault { result ≡ unread_file
        → Rose (F.file_faults files.old) (F.file_faults files.new) }
    ensures files_sound { result ≢ unread_file
        → F.file_faults files.new ≡ F.file_faults files.old }
    ensures write_fault { result ≡ failed_output
        → Rose (O.write_faults out.old) (O.write_faults out.new) }
    ensures writes_sound { result ≢ failed_output
        → O.write_faults out.new ≡ O.write_faults out.old }
    ensures files_stay { F.files files.new ≡ F.files files.old }
{
    let bytes = match read_file(alloc, files, config, OPTIONS_ROOM) {
        Ok(bytes) => bytes,
        Err(ending) => return end(err, ending),
    };
    match Options::read(alloc, &bytes) {
        Ok(options) => {
            let ending = check_files(alloc, &options, files, out);
            end(err, ending)
        }
        Err(refused) => end(err, Ending::by(&refused)),
    }
}

/// Looks over the files that the options name, and prints `ok` where none is refused.
fn check_files<'a, F: Files, O: Sink>(
    alloc: Global,
    options: &'a Options,
    files: &mut F,
    out: &mut O,
) -> Ending<'a>
    ensures checked { FilesChecked (F.files files.old) options.now (out.new ≡ out.old)
        (O.taken out.old) (O.taken out.new) (ending_told result) }
    ensures file_fault { FaultOf (ending_told result)
        (F.file_faults files.old) (F.file_faults files.new) }
    ensures write_fault { ending_told result ≡ output_failed
        → Rose (O.write_faults out.old) (O.write_faults out.new) }
    ensures writes_sound { ending_told result ≢ output_failed
        → O.write_faults out.new ≡ O.write_faults out.old }
    ensures files_stay { F.files files.new ≡ F.files files.old }
{
    match read_files(alloc, options, files) {
        Ok(()) => {}
        Err(ending) => return ending,
    }
    match write_all(out, ACCEPTED) {
        AllWritten::All => Ending::Done,
        AllWritten::Failed(_) => Ending::OutputFailed,
    }
}

/// Reads the files that the options name, and lets them go.
fn read_files<'a, F: Files>(
    alloc: Global,
    options: &'a Options,
    files: &mut F,
) -> Result<(), Ending<'a>>
    ensures accepted { OnOk result (AcceptsFiles (F.files files.old) options.now) }
    ensures refused { IfErr result (λ why.
        RefusesFiles (F.files files.old) options.now (ending_told why)) }
    ensures counted { CountsFault result (F.file_faults files.old) (F.file_faults files.new) }
    ensures kept { F.files files.new ≡ F.files files.old }
{
    match read_key(alloc, files, options.key()) {
        Ok(_) => check_maps(alloc, files, options.passwd(), options.group()),
        Err(ending) => Err(ending),
    }
}
