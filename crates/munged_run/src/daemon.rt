//! The daemon over the outside that it is handed.

ghost use Rattle.std.specs.Prelude.{
  ◌≡◌,
  ◌≢◌,
  ◌↔◌,
  ◌⊎◌,
  ◌≤◌,
  IsSomeAnd,
  None,
  false,
  map,
  option_map,
  true,
};
ghost use Rattle.std.specs.String.{string_bytes};
ghost use Rattle.byte_io.specs.Counts.{Rose};
ghost use Rattle.munged_run.specs.Daemon.{
  AfterTotals,
  DaemonCame,
  ExerciseCame,
};
ghost use Rattle.munged_files.specs.Ending.{Ended, Says, errors_of};
ghost use Rattle.munged_files.specs.EndingTold.{ending_told};
ghost use Rattle.munged_run.specs.ExerciseWords.{exercise_of};
ghost use Rattle.munged_run.specs.Output.{output_of};
ghost use Rattle.munged_run.specs.Program.{given_of};
ghost use Rattle.munged_run.specs.Servable.{CanServe, IsWornTicket};
ghost use Rattle.munged_run.specs.Serve.{Serves, outside_of, pool_of, times_of};
ghost use Rattle.munged_run.specs.ServeDoors.{HasFaultyDoor};
ghost use Rattle.munged_run.specs.ServeWords.{serve_of};
ghost use Rattle.munged_files.specs.Status.{
  bad_message,
  bad_words,
  failed_output,
  failed_socket,
  failed_ticker,
  success,
  unread_file,
  want_of_memory,
  worn_gate,
};
ghost use Rattle.munged_run.specs.StopWords.{stop_of};
ghost use Rattle.munged_run.specs.Stoppable.{CanStop, MeetsAnother};
ghost use Rattle.munged_run.specs.Wire.{WireFailed, WireSound, seen_by};
ghost use Rattle.worker_pool.specs.Accepting.{door_sight};
ghost use Rattle.worker_pool.specs.Cases.{link_sight};
ghost use Rattle.worker_pool.specs.Daemon.{daemon_sight, told_of};
ghost use Rattle.worker_pool.specs.Desks.{desk_sight};
ghost use Rattle.worker_pool.specs.Purging.{clock_sight, ticker_sight};

use crate::daemon_end::DaemonEnd;
use crate::exercise::{LoadEnd, serve_load};
use crate::exercise_words::{AskedExercise, exercise_of_words};
use crate::kept::Kept;
use crate::serve::run_serve;
use crate::serve_words::serve_of_words;
use crate::stop::run_stop;
use crate::stop_words::stop_of_words;
use crate::totals::write_totals;
use byte_io::{Clocks, Door, Files, Hall, Sink, Ticker};
use munge_types::{Failed, NoMemory, Replay};
use munged_files::{Ending, end};
use std::alloc::Global;
use std::sync::Wait;
use std::thread::Threads;
use worker_pool::Books;

/// Does what the words ask for, which do not hold the program's name: `exercise N NUMBER WORKERS`
/// makes N credentials from the number and presents each of them twice, over connections that the
/// workers serve on one gate; `serve CONFIG` serves by an option file, until all doors are over or
/// have failed; `stop CONFIG` asks the daemon that serves by an option file to stop. A daemon that
/// serves takes a clock for each worker, in order, then the purger's, and a book for each worker, in
/// order. Where the status is not 0, one line on `err` says why.
///
/// Whatever the threads do, the look-ups of all workers make one history, which `ran` names: each
/// decode request is answered by the first of the fourteen rules that fails for its bytes, the key,
/// the caller, the moment and all before it in that history, or is accepted, and no pair is accepted
/// twice. With status 0 the line of totals on `out` is that history's; of a load, the history then
/// has one look-up for each request, with the pair of its credential and its moment, and then one
/// purge.
pub fn munged_daemon<F, H, O, E, C, T, B, W>(
    rt: &W,
    alloc: Global,
    words: &[String],
    files: &mut F,
    hall: &mut H,
    out: &mut O,
    err: &mut E,
    clocks: &mut C,
    ticker: &mut T,
    books: &mut B,
) -> DaemonEnd<H::Door, C::One, B::One>
where
    F: Files,
    H: Hall,
    H::Door: Drop,
    <H::Door as Door>::Conn: Drop,
    O: Sink,
    E: Sink,
    C: Clocks,
    C::One: Drop,
    T: Ticker,
    B: Books<<H::Door as Door>::Conn>,
    B::One: Drop,
    W: Threads + Wait + Sync,
    ensures ran { let output = output_of (errors_of (O.taken out.old) (O.write_faults out.old))
        (errors_of (O.taken out.new) (O.write_faults out.new)) in
        let seen = seen_by H.dialled H.replies H.left H.taken H.ends
        H.dial_faults H.read_faults H.write_faults in
        let given = given_of (map string_bytes words.now) (F.files files.old) in
        let desks = desk_sight
        (link_sight H.Door.Conn.left H.Door.Conn.ends H.Door.Conn.taken H.Door.Conn.rings
        H.Door.Conn.read_faults H.Door.Conn.write_faults)
        C.One.readings C.One.last_reading C.One.given C.One.clock_faults B.One.kept in
        let sight = daemon_sight (door_sight H.Door.coming H.Door.door_faults H.Door.is_over) desks
        (clock_sight C.One.readings C.One.last_reading C.One.given C.One.clock_faults)
        (ticker_sight T.due T.tick_faults T.is_over) in
        let before = outside_of (H.doors hall.old) (times_of (C.clocks clocks.old) ticker.old) in
        let after = outside_of (H.doors hall.new) (times_of (C.clocks clocks.new) ticker.new) in
        let served = option_map (λ pool. pool_of
        pool.posts.items pool.clocks.items pool.purge_clock pool.books.items pool.left.items
        (told_of pool.purges pool.missed pool.ticker_failed
        pool.worn pool.tally pool.closed.length (⟦<Kept as Replay>⟧.remembered pool.closed.state)))
        result.served in
        let serves = Serves sight given.files (out.new ≡ out.old) output before after served
        result.tally result.kept in
        Ended (DaemonCame given result.tally result.kept (out.new ≡ out.old)
        (hall.new ≡ hall.old) serves output (seen hall.old) (seen hall.new))
        (Says (errors_of (E.taken err.old) (E.write_faults err.old))
        (errors_of (E.taken err.new) (E.write_faults err.new))) result.status }
    ensures no_command { (result.status ≡ bad_words)
        ↔ ((exercise_of (map string_bytes words.now) ≡ None)
        × (stop_of (map string_bytes words.now) ≡ None)
        × (serve_of (map string_bytes words.now) ≡ None)) }
    ensures unserved { serve_of (map string_bytes words.now) ≡ None → result.served ≡ None }
    ensures malformed { (result.malformed ≡ true) ↔ (result.status ≡ bad_message) }

    ensures file_fault { result.status ≡ unread_file
        → Rose (F.file_faults files.old) (F.file_faults files.new) }
    ensures files_sound { result.status ≢ unread_file
        → F.file_faults files.new ≡ F.file_faults files.old }
    ensures write_fault { result.status ≡ failed_output
        → Rose (O.write_faults out.old) (O.write_faults out.new) }
    ensures writes_sound { serve_of (map string_bytes words.now) ≡ None
        → result.status ≢ failed_output → result.status ≢ want_of_memory
        → O.write_faults out.new ≡ O.write_faults out.old }
    ensures served_writes_sound { result.status ≡ success
        → O.write_faults out.new ≡ O.write_faults out.old }
    ensures hall_fault { let seen = seen_by H.dialled H.replies H.left H.taken H.ends
        H.dial_faults H.read_faults H.write_faults in
        serve_of (map string_bytes words.now) ≡ None
        → result.status ≡ failed_socket → WireFailed (seen hall.old) (seen hall.new) }
    ensures hall_sound { let seen = seen_by H.dialled H.replies H.left H.taken H.ends
        H.dial_faults H.read_faults H.write_faults in
        result.status ≢ failed_socket → WireSound (seen hall.old) (seen hall.new) }

    ensures hall_faults_sound { result.status ≢ failed_socket
        → H.hall_faults hall.new ≡ H.hall_faults hall.old }

    // The causes of how a daemon ends that was to serve.
    ensures door_fault { serve_of (map string_bytes words.now) ≢ None
        → result.status ≡ failed_socket
        → Rose (H.hall_faults hall.old) (H.hall_faults hall.new)
        ⊎ IsSomeAnd result.served (λ pool. HasFaultyDoor H.Door.door_faults pool.posts.items) }
    ensures ticker_fault { result.status ≡ failed_ticker
        → Rose (T.tick_faults ticker.old) (T.tick_faults ticker.new) }
    ensures worn { result.status ≡ worn_gate
        → IsSomeAnd result.served (λ pool. IsWornTicket pool.worn pool.closed.length) }

    // Nothing else than want of memory keeps it from doing what is asked.
    ensures complete { exercise_of (map string_bytes words.now) ≢ None
        → ¬ Rose (O.write_faults out.old) (O.write_faults out.new)
        → (result.status ≡ success) ⊎ (result.status ≡ want_of_memory) }
    ensures complete_stop { let seen = seen_by H.dialled H.replies H.left H.taken H.ends
        H.dial_faults H.read_faults H.write_faults in
        let given = given_of (map string_bytes words.now) (F.files files.old) in
        CanStop given (seen hall.old)
        → ¬ Rose (F.file_faults files.old) (F.file_faults files.new)
        → ¬ WireFailed (seen hall.old) (seen hall.new)
        → (result.status ≡ success) ⊎ (result.status ≡ want_of_memory) }

    ensures complete_serve { let given = given_of (map string_bytes words.now) (F.files files.old) in
        CanServe given
        → ¬ Rose (F.file_faults files.old) (F.file_faults files.new)
        → ¬ Rose (H.hall_faults hall.old) (H.hall_faults hall.new)
        → ¬ Rose (O.write_faults out.old) (O.write_faults out.new)
        → ¬ Rose (T.tick_faults ticker.old) (T.tick_faults ticker.new)
        → ¬ IsSomeAnd result.served (λ pool. HasFaultyDoor H.Door.door_faults pool.posts.items)
        → (result.status ≡ success)
        ⊎ ((result.status ≡ want_of_memory) ⊎ (result.status ≡ worn_gate)) }

    // A request to stop that went out whole and met no good answer and no fault ends so.
    ensures another { let seen = seen_by H.dialled H.replies H.left H.taken H.ends
        H.dial_faults H.read_faults H.write_faults in
        MeetsAnother (seen hall.old) (seen hall.new)
        → ¬ WireFailed (seen hall.old) (seen hall.new) → result.status ≡ bad_message }

    ensures files_stay { F.files files.new ≡ F.files files.old }
    ensures files_unread { stop_of (map string_bytes words.now) ≡ None
        → serve_of (map string_bytes words.now) ≡ None → files.new ≡ files.old }
    ensures hall_stays { stop_of (map string_bytes words.now) ≡ None
        → serve_of (map string_bytes words.now) ≡ None → hall.new ≡ hall.old }
    ensures doors_stay { serve_of (map string_bytes words.now) ≡ None
        → H.doors hall.new ≡ H.doors hall.old }
    ensures hall_faults_stay { serve_of (map string_bytes words.now) ≡ None
        → H.hall_faults hall.new ≡ H.hall_faults hall.old }
    ensures clocks_stay { serve_of (map string_bytes words.now) ≡ None → clocks.new ≡ clocks.old }
    ensures ticker_stays { serve_of (map string_bytes words.now) ≡ None → ticker.new ≡ ticker.old }
    ensures books_stay { serve_of (map string_bytes words.now) ≡ None → books.new ≡ books.old }
{
    if let Some(asked) = exercise_of_words(words) {
        return run_exercise(rt, alloc, &asked, out, err);
    }
    match stop_of_words(words) {
        Some(config) => {
            let ended = run_stop(alloc, config, files, hall, err);
            DaemonEnd {
                malformed: ended.malformed,
                ..DaemonEnd::unserved(ended.status)
            }
        }
        None => match serve_of_words(words) {
            Some(config) => run_serve(
                rt, alloc, config, files, hall, out, err, clocks, ticker, books,
            ),
            None => DaemonEnd::unserved(end(err, Ending::NoCommand)),
        },
    }
}

/// Serves the load that was asked for, prints its totals, says how the program ends, and returns
/// that.
fn run_exercise<D, O, E, C, B, W>(
    rt: &W,
    alloc: Global,
    asked: &AskedExercise,
    out: &mut O,
    err: &mut E,
) -> DaemonEnd<D, C, B>
where
    D: Door + Drop,
    D::Conn: Drop,
    O: Sink,
    E: Sink,
    C: Drop,
    B: Drop,
    W: Threads + Wait + Sync,
    requires credentials { (1 ≤ asked.now.credentials) × (asked.now.credentials ≤ 50000) }
    requires workers { (1 ≤ asked.now.workers) × (asked.now.workers ≤ 64) }

    ensures came { let output = output_of (errors_of (O.taken out.old) (O.write_faults out.old))
        (errors_of (O.taken out.new) (O.write_faults out.new)) in
        Ended (ExerciseCame asked.now result.tally result.kept (out.new ≡ out.old) output)
        (Says (errors_of (E.taken err.old) (E.write_faults err.old))
        (errors_of (E.taken err.new) (E.write_faults err.new))) result.status }
    ensures write_fault { result.status ≡ failed_output
        → Rose (O.write_faults out.old) (O.write_faults out.new) }
    ensures writes_sound { result.status ≢ failed_output → result.status ≢ want_of_memory
        → O.write_faults out.new ≡ O.write_faults out.old }
    ensures statuses { (result.status ≡ success)
        ⊎ ((result.status ≡ failed_output) ⊎ (result.status ≡ want_of_memory)) }
    ensures no_answer { result.malformed ≡ false }
    ensures unserved { result.served ≡ None }
{
    match serve_load(rt, alloc, asked) {
        Ok(served) => {
            let ending = print_totals(out, &served);
            DaemonEnd {
                status: end(err, ending),
                tally: served.tally,
                kept: served.kept,
                served: None,
                malformed: false,
            }
        }
        Err(NoMemory) => DaemonEnd::unserved(end(err, Ending::NoMemory)),
    }
}

/// Prints the totals of a load that was served, and says how the program ends.
fn print_totals<O: Sink>(out: &mut O, served: &LoadEnd) -> Ending<'static>
    ensures { let output = output_of (errors_of (O.taken out.old) (O.write_faults out.old))
        (errors_of (O.taken out.new) (O.write_faults out.new)) in
        AfterTotals served.now.tally served.now.kept served.now.wanted output (ending_told result) }
{
    let printed = write_totals(out, served.tally, served.kept);
    if served.wanted {
        return Ending::NoMemory;
    }
    match printed {
        Ok(()) => Ending::Done,
        Err(Failed) => Ending::OutputFailed,
    }
}
