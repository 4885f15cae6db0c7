//! Reading the input of a tool.

ghost use Rattle.std.specs.Prelude.{◌≡◌, ◌≢◌, ◌≤◌, ◌<◌, ◌+◌, ◌^◌, Err, IfErr, IfOk, vec_len};
ghost use Rattle.byte_io.specs.Counts.{Rose};
ghost use Rattle.munge_tools.specs.Ending.{IsBeforeDial};
ghost use Rattle.munge_tools.specs.InputRead.{IsWholeInput, NoInput};
ghost use Rattle.munge_tools.specs.ReplyRead.{input_of};

use crate::ending::Ending;
use byte_io::{FullRead, Source, read_full};
use std::alloc::Global;

/// Reads the input to its end, if no more bytes than the limit come. It reads one byte more at
/// most.
pub fn read_input<I: Source>(alloc: Global, input: &mut I, limit: u32) -> Result<Vec<u8>, Ending>
    ensures within { IfOk result (λ bytes. vec_len bytes ≤ limit) }
    ensures whole { IfOk result (λ bytes. IsWholeInput
        (input_of (I.left input.old) (I.ends input.old))
        (input_of (I.left input.new) (I.ends input.new)) bytes.items) }
    ensures none { IfErr result (NoInput limit (input.new ≡ input.old)
        (input_of (I.left input.old) (I.ends input.old))
        (input_of (I.left input.new) (I.ends input.new))) }
    ensures own { IfErr result IsBeforeDial }
    ensures fault { result ≡ Err Ending.InputFailed
        → Rose (I.read_faults input.old) (I.read_faults input.new) }
    ensures sound { result ≢ Err Ending.InputFailed
        → I.read_faults input.new ≡ I.read_faults input.old }
{
    let Ok(mut bytes) = vec![in alloc; 0u8; limit as usize + 1] else {
        return Err(Ending::NoMemory);
    };
    match read_full(input, bytes.as_mut_slice()) {
        FullRead::Full => Err(Ending::TooLong),
        FullRead::Short(count) => {
            bytes.truncate(count);
            Ok(bytes)
        }
        FullRead::Failed(_) => Err(Ending::InputFailed),
    }
}
