//! The line of totals.

ghost use Rattle.std.specs.Prelude.{◌≡◌, OnErr, OnOk};
ghost use Rattle.std.specs.Io.KnownBytes.{Appends};
ghost use Rattle.byte_io.specs.Counts.{Rose};
ghost use Rattle.munged_files.specs.Line.{CutShort};
ghost use Rattle.munged_run.specs.Totals.{counted, totals_line};

use byte_io::Sink;
use itoa::Buffer;
use munge_types::Failed;
use munged_files::put;
use worker_pool::Tally;

/// Writes the line of a tally and of how many pairs are kept, up to the first write that fails. It
/// takes no memory.
pub fn write_totals<O: Sink>(out: &mut O, tally: Tally, kept: u64) -> Result<(), Failed>
    ensures written { OnOk result
        (Appends (O.taken out.old) (O.taken out.new) (totals_line tally kept)) }
    ensures cut { OnErr result
        (CutShort (O.taken out.old) (O.taken out.new) (totals_line tally kept)) }
    ensures failed { OnErr result (Rose (O.write_faults out.old) (O.write_faults out.new)) }
    ensures sound { OnOk result (O.write_faults out.new ≡ O.write_faults out.old) }
{
    put_count(out, "presented ", tally.presented, " ")?;
    put_count(out, "accepted ", tally.accepted, " ")?;
    put_count(out, "replayed ", tally.replayed, " ")?;
    put_count(out, "expired ", tally.expired, " ")?;
    put_count(out, "kept ", kept, "\n")
}

/// Writes a number in decimal between two words.
fn put_count<O: Sink>(out: &mut O, name: &str, count: u64, end: &str) -> Result<(), Failed>
    ensures written { OnOk result
        (Appends (O.taken out.old) (O.taken out.new) (counted name.now count end.now)) }
    ensures cut { OnErr result
        (CutShort (O.taken out.old) (O.taken out.new) (counted name.now count end.now)) }
    ensures failed { OnErr result (Rose (O.write_faults out.old) (O.write_faults out.new)) }
    ensures sound { OnOk result (O.write_faults out.new ≡ O.write_faults out.old) }
{
    put(out, name)?;
    put(out, Buffer::new().format(count))?;
    put(out, end)
}
