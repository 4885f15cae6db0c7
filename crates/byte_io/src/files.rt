//! Files that are read by their names.

ghost use Rattle.std.specs.Prelude.{◌≡◌, ℕ, ◌≤◌, List, Option, IfOk, vec_len};
ghost use Rattle.byte_io.specs.Files.{ReadsFile, CountsFileFault};

use std::alloc::Global;

/// Why a file could not be read.
#[derive(Clone, Copy, Debug, PartialEq, Eq)]
pub enum FileFail {
    /// The file is not there, or the read failed.
    Failed,
    /// There was no memory for its bytes.
    NoMemory,
}

/// A place where files lie.
pub trait Files {
    // The names and the bytes of the files, where they are told.
    ghost files: { Self → Option (List (List ℕ × List ℕ)) };

    // How many reads failed.
    ghost file_faults: { Self → ℕ };

    /// The bytes of the file of that name, or its first `most` where it has more.
    fn read(&mut self, alloc: Global, name: &str, most: u32) -> Result<Vec<u8>, FileFail>
        ensures within { IfOk result (λ bytes. vec_len bytes ≤ most) }
        ensures content { IfOk result (λ bytes.
            ReadsFile (files self.old) name.now most bytes.items) }
        ensures counted { CountsFileFault result (file_faults self.old) (file_faults self.new) }
        ensures faults_stay { file_faults self.old ≤ file_faults self.new }
        ensures kept { files self.new ≡ files self.old };
}
