//! A file that is read by its name.

ghost use Rattle.std.specs.Prelude.{◌≡◌, ◌≤◌, IfErr, IfOk, vec_len};
ghost use Rattle.byte_io.specs.Files.{ReadsFile};
ghost use Rattle.munged_files.specs.EndingTold.{ending_told};
ghost use Rattle.munged_files.specs.Faults.{CountsFault};
ghost use Rattle.munged_files.specs.Unread.{IsUnread};

use crate::ending::Ending;
use byte_io::{FileFail, Files};
use std::alloc::Global;

/// The bytes of the file of that name, or its first `most` where it has more; or how the program
/// ends without them.
pub fn read_file<'a, F: Files>(
    alloc: Global,
    files: &mut F,
    name: &'a str,
    most: u32,
) -> Result<Vec<u8>, Ending<'a>>
    ensures within { IfOk result (λ bytes. vec_len bytes ≤ most) }
    ensures read { IfOk result (λ bytes. ReadsFile (F.files files.old) name.now most bytes.items) }
    ensures unread { IfErr result (λ why. IsUnread name.now (ending_told why)) }
    ensures counted { CountsFault result (F.file_faults files.old) (F.file_faults files.new) }
    ensures kept { F.files files.new ≡ F.files files.old }
{
    match files.read(alloc, name, most) {
        Ok(bytes) => Ok(bytes),
        Err(FileFail::Failed) => Err(Ending::Unread(name)),
        Err(FileFail::NoMemory) => Err(Ending::NoMemory),
    }
}
