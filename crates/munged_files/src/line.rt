//! A line on the error stream, written without taking memory.

ghost use Rattle.std.specs.Prelude.{◌≡◌, [], OnErr, OnOk};
ghost use Rattle.std.specs.Io.KnownBytes.{Appends};
ghost use Rattle.byte_io.specs.Counts.{Rose};
ghost use Rattle.munged_files.specs.Line.{CutShort, number_text, text_of};

use byte_io::{AllWritten, Sink, write_all};
use itoa::Buffer;
use munge_types::Failed;

/// A number in a line.
#[derive(Clone, Copy, Debug, PartialEq, Eq)]
pub enum Number {
    /// There is none.
    Nothing,
    /// How many, or which one.
    Count(u64),
    /// What was given where a number is wanted.
    Value(i64),
}

/// A line in parts, one behind the other, of which any may be empty.
#[derive(Clone, Copy, Debug, PartialEq, Eq)]
pub struct Line<'a> {
    pub front: &'static str,
    pub name: &'a str,
    pub middle: &'static str,
    pub number: Number,
    pub back: &'static str,
}

impl Line<'_> {
    /// A line of this front alone.
    pub fn of(front: &'static str) -> Line<'static>
        ensures front { result.front.now ≡ front.now }
        ensures name { result.name.now ≡ [] }
        ensures middle { result.middle.now ≡ [] }
        ensures number { result.number ≡ Number.Nothing }
        ensures back { result.back.now ≡ [] }
    {
        Line {
            front,
            name: "",
            middle: "",
            number: Number::Nothing,
            back: "",
        }
    }
}

/// Writes a line, up to the first write that fails.
pub fn write_line<E: Sink>(err: &mut E, line: Line<'_>) -> Result<(), Failed>
    ensures written { OnOk result
        (Appends (E.taken err.old) (E.taken err.new) (text_of line.entry)) }
    ensures failed { OnErr result (Rose (E.write_faults err.old) (E.write_faults err.new)) }
{
    put(err, line.front)?;
    put(err, line.name)?;
    put(err, line.middle)?;
    put_number(err, line.number)?;
    put(err, line.back)
}

/// Writes this text whole. At the first write that fails it stops and answers `Failed`; a front of
/// the text was written then. No memory is taken.
pub fn put<E: Sink>(err: &mut E, part: &str) -> Result<(), Failed>
    ensures written { OnOk result (Appends (E.taken err.old) (E.taken err.new) part.now) }
    ensures cut { OnErr result (CutShort (E.taken err.old) (E.taken err.new) part.now) }
    ensures failed { OnErr result (Rose (E.write_faults err.old) (E.write_faults err.new)) }
    ensures sound { OnOk result (E.write_faults err.new ≡ E.write_faults err.old) }
{
    match write_all(err, part.as_bytes()) {
        AllWritten::All => Ok(()),
        AllWritten::Failed(_) => Err(Failed),
    }
}

/// Writes a number in decimal, if there is one.
fn put_number<E: Sink>(err: &mut E, number: Number) -> Result<(), Failed>
    ensures written { OnOk result
        (Appends (E.taken err.old) (E.taken err.new) (number_text number)) }
    ensures failed { OnErr result (Rose (E.write_faults err.old) (E.write_faults err.new)) }
    ensures sound { OnOk result (E.write_faults err.new ≡ E.write_faults err.old) }
{
    let mut digits = Buffer::new();
    match number {
        Number::Nothing => put(err, ""),
        Number::Count(count) => put(err, digits.format(count)),
        Number::Value(value) => put(err, digits.format(value)),
    }
}
