//! The command `session`.

ghost use Rattle.std.specs.Prelude.{◌≡◌, ◌≢◌};
ghost use Rattle.byte_io.specs.Counts.{Rose};
ghost use Rattle.session_core.specs.Things.{input_of, outside_of};
ghost use Rattle.munged_files.specs.Ending.{clock_failed, input_failed, output_failed};
ghost use Rattle.munged_files.specs.EndingTold.{ending_told};
ghost use Rattle.munged_files.specs.Faults.{FaultOf};
ghost use Rattle.munged_run.specs.AfterSession.{after_session};
ghost use Rattle.munged_run.specs.Program.{SessionCame};
ghost use Rattle.munged_run.specs.SessionCommand.{asked_told};

use crate::command::SessionCommand;
use byte_io::{Clock, Files, Sink, Source};
use decode_rules::World;
use group_map::GroupMap;
use munge_types::Settings;
use munged_files::{Ending, read_key, read_seed};
use replay_table::ReplayTable;
use session_core::{HowEnded, session};
use std::alloc::Global;
use std::hash::{BuildHasherDefault, FoldHasher};

/// Runs the session that was asked for, with the usual settings, without groups and with an empty
/// replay state, and says how the program ends. The key file is read first, then the seed file.
pub fn run_session<'a, F: Files, I: Source, O: Sink, C: Clock>(
    alloc: Global,
    asked: &SessionCommand<'a>,
    files: &mut F,
    input: &mut I,
    out: &mut O,
    clock: &mut C,
) -> Ending<'a>
    ensures came { let before = outside_of (input_of (I.left input.old) (I.ends input.old))
        (O.taken out.old) (C.readings clock.old) in
        let after = outside_of (input_of (I.left input.new) (I.ends input.new))
        (O.taken out.new) (C.readings clock.new) in
        SessionCame (F.files files.old) (asked_told asked.now)
        (((input.new ≡ input.old) × (clock.new ≡ clock.old)) × (out.new ≡ out.old))
        before after (ending_told result) }

    ensures file_fault { FaultOf (ending_told result)
        (F.file_faults files.old) (F.file_faults files.new) }
    ensures read_fault { ending_told result ≡ input_failed
        → Rose (I.read_faults input.old) (I.read_faults input.new) }
    ensures write_fault { ending_told result ≡ output_failed
        → Rose (O.write_faults out.old) (O.write_faults out.new) }
    ensures clock_fault { ending_told result ≡ clock_failed
        → Rose (C.clock_faults clock.old) (C.clock_faults clock.new) }
    ensures reads_sound { ending_told result ≢ input_failed
        → I.read_faults input.new ≡ I.read_faults input.old }
    ensures writes_sound { ending_told result ≢ output_failed
        → O.write_faults out.new ≡ O.write_faults out.old }
    ensures clock_sound { ending_told result ≢ clock_failed
        → C.clock_faults clock.new ≡ C.clock_faults clock.old }

    ensures files_stay { F.files files.new ≡ F.files files.old }
{
    let subkeys = match read_key(alloc, files, asked.key_file) {
        Ok(subkeys) => subkeys,
        Err(ending) => return ending,
    };
    let seed = match read_seed(alloc, files, asked.seed_file) {
        Ok(seed) => seed,
        Err(ending) => return ending,
    };
    let world = World {
        subkeys,
        settings: Settings::usual(),
        groups: GroupMap::none(),
    };
    let hash_state: BuildHasherDefault<FoldHasher> = BuildHasherDefault::new();
    let mut replay = ReplayTable::new(alloc, hash_state);
    let who = asked.caller();
    let end = session(alloc, input, out, clock, &mut replay, who, &world, seed);
    after_session(end.how)
}

/// How the program ends after a session that ended so.
fn after_session(how: HowEnded) -> Ending<'static>
    ensures { ending_told result ≡ after_session how }
{
    match how {
        HowEnded::Done => Ending::Done,
        HowEnded::ReadFault => Ending::InputFailed,
        HowEnded::WriteFault => Ending::OutputFailed,
        HowEnded::ClockFault => Ending::ClockFailed,
        HowEnded::Malformed(place) => Ending::Malformed(place),
        HowEnded::Budget => Ending::Budget,
        HowEnded::NoMemory => Ending::NoMemory,
    }
}
