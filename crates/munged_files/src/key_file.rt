//! The key file.

ghost use Rattle.std.specs.Prelude.{◌≡◌, IfErr, IfOk};
ghost use Rattle.munged_files.specs.EndingTold.{ending_told};
ghost use Rattle.munged_files.specs.Faults.{CountsFault};
ghost use Rattle.munged_files.specs.KeyFile.{GivesNoKey, IsKeyOf};

use crate::ending::Ending;
use crate::file::read_file;
use byte_io::Files;
use std::alloc::Global;
use subkeys::Subkeys;

/// The most bytes that are read of a key file, one more than it may have.
const KEY_ROOM: u32 = 1025;

/// The subkeys of the key in the file of that name, or how the program ends without them.
pub fn read_key<'a, F: Files>(
    alloc: Global,
    files: &mut F,
    name: &'a str,
) -> Result<Subkeys, Ending<'a>>
    ensures key { IfOk result (IsKeyOf (F.files files.old) name.now) }
    ensures no_key { IfErr result (λ why.
        GivesNoKey (F.files files.old) name.now (ending_told why)) }
    ensures counted { CountsFault result (F.file_faults files.old) (F.file_faults files.new) }
    ensures kept { F.files files.new ≡ F.files files.old }
{
    let key = read_file(alloc, files, name, KEY_ROOM)?;
    match Subkeys::of(key.as_slice()) {
        Ok(subkeys) => Ok(subkeys),
        Err(_) => Err(Ending::WrongSize(name, key.len() as u64)),
    }
}
