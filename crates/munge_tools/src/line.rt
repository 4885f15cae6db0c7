//! Text in parts, written without taking memory.

ghost use Rattle.std.specs.Prelude.{◌≡◌, ◌++◌, OnErr, OnOk, codes, option_map};
ghost use Rattle.std.specs.Io.KnownBytes.{Appends};
ghost use Rattle.byte_io.specs.Counts.{Rose};
ghost use Rattle.munge_tools.specs.Line.{line_with, number_text};

use byte_io::{AllWritten, Sink, write_all};
use itoa::Buffer;
use munge_types::Failed;

/// Writes the line in which the tool of this name gives this reason, with a number behind it if
/// there is one, up to the first write that fails.
pub fn write_line<E: Sink>(
    err: &mut E,
    tool: &str,
    reason: &str,
    number: Option<u8>,
) -> Result<(), Failed>
    ensures written { OnOk result (Appends (E.taken err.old) (E.taken err.new)
        (line_with tool.now reason.now number)) }
    ensures failed { OnErr result (Rose (E.write_faults err.old) (E.write_faults err.new)) }
{
    put(err, tool)?;
    put(err, ": ")?;
    put(err, reason)?;
    put_number(err, number)?;
    put(err, "\n")
}

/// Writes a part.
pub fn put<E: Sink>(err: &mut E, part: &str) -> Result<(), Failed>
    ensures written { OnOk result (Appends (E.taken err.old) (E.taken err.new) part.now) }
    ensures failed { OnErr result (Rose (E.write_faults err.old) (E.write_faults err.new)) }
    ensures sound { OnOk result (E.write_faults err.new ≡ E.write_faults err.old) }
{
    match write_all(err, part.as_bytes()) {
        AllWritten::All => Ok(()),
        AllWritten::Failed(_) => Err(Failed),
    }
}

/// Writes a number in decimal, if there is one.
fn put_number<E: Sink>(err: &mut E, number: Option<u8>) -> Result<(), Failed>
    ensures written { OnOk result
        (Appends (E.taken err.old) (E.taken err.new) (number_text number)) }
    ensures failed { OnErr result (Rose (E.write_faults err.old) (E.write_faults err.new)) }
    ensures sound { OnOk result (E.write_faults err.new ≡ E.write_faults err.old) }
{
    let mut digits = Buffer::new();
    match number {
        None => put(err, ""),
        Some(number) => put(err, digits.format(number)),
    }
}
