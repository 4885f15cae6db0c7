//! The totals of remunge.

ghost use Rattle.std.specs.Prelude.{◌≡◌, ◌++◌, IfOk, OnOk};
ghost use Rattle.munge_tools.specs.TotalsLine.{counted, totals_line};

use itoa::Buffer;
use munge_types::NoMemory;
use std::alloc::Global;

/// How many replies said what.
#[derive(Clone, Copy, Debug, PartialEq, Eq)]
pub struct Totals {
    /// Encode replies with status 0.
    pub encoded: u64,
    /// Decode replies with status 0.
    pub decoded: u64,
    /// Every other reply.
    pub failed: u64,
}

impl Totals {
    /// Their line.
    #[tactic(auto, unfolding(crate::specs::TotalsLine::totals_line))]
    pub fn line(&self, alloc: Global) -> Result<Vec<u8>, NoMemory>
        ensures { IfOk result (λ text. text.items ≡ totals_line self.now) }
    {
        let mut text = Vec::new(alloc);
        put_count(&mut text, "encoded ", self.encoded, " decoded ")?;
        put_count(&mut text, "", self.decoded, " failed ")?;
        put_count(&mut text, "", self.failed, "\n")?;
        Ok(text)
    }
}

/// Appends a name, a number in decimal and what stands behind it.
fn put_count(text: &mut Vec<u8>, name: &str, count: u64, end: &str) -> Result<(), NoMemory>
    ensures { OnOk result
        (text.new.items ≡ text.old.items ++ counted name.now count end.now) }
{
    text.extend_from_slice(name.as_bytes())?;
    text.extend_from_slice(Buffer::new().format(count).as_bytes())?;
    text.extend_from_slice(end.as_bytes())?;
    Ok(())
}
