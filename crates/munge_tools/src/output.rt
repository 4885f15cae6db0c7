//! Writing what a tool prints.

ghost use Rattle.std.specs.Prelude.{◌≡◌, OnErr, OnOk};
ghost use Rattle.std.specs.Io.KnownBytes.{Appends};
ghost use Rattle.byte_io.specs.Counts.{Rose};
ghost use Rattle.munge_tools.specs.Munge.{text_line};
ghost use Rattle.munge_tools.specs.Output.{TakesCut};

use byte_io::{AllWritten, Sink, write_all};
use munge_types::Failed;

/// Writes a text and nothing behind it, up to the first write that fails.
pub fn print<O: Sink>(out: &mut O, text: &[u8]) -> Result<(), Failed>
    ensures written { OnOk result (Appends (O.taken out.old) (O.taken out.new) text.now) }
    ensures cut { OnErr result (TakesCut (O.taken out.old) (O.taken out.new) text.now) }
    ensures failed { OnErr result (Rose (O.write_faults out.old) (O.write_faults out.new)) }
    ensures sound { OnOk result (O.write_faults out.new ≡ O.write_faults out.old) }
{
    match write_all(out, text) {
        AllWritten::All => Ok(()),
        AllWritten::Failed(_) => Err(Failed),
    }
}

/// Writes a text and a line feed, up to the first write that fails.
pub fn print_line<O: Sink>(out: &mut O, text: &[u8]) -> Result<(), Failed>
    ensures written { OnOk result
        (Appends (O.taken out.old) (O.taken out.new) (text_line text.now)) }
    ensures cut { OnErr result
        (TakesCut (O.taken out.old) (O.taken out.new) (text_line text.now)) }
    ensures failed { OnErr result (Rose (O.write_faults out.old) (O.write_faults out.new)) }
    ensures sound { OnOk result (O.write_faults out.new ≡ O.write_faults out.old) }
{
    match print(out, text) {
        Ok(()) => {}
        Err(Failed) => return Err(Failed),
    }
    match print(out, b"\n") {
        Ok(()) => Ok(()),
        Err(Failed) => Err(Failed),
    }
}
