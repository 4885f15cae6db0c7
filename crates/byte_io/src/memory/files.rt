//! Files in memory.

ghost use Rattle.std.specs.Prelude.{◌≡◌, ◌≤◌, ◌⊎◌, Some, None, Contains, IfOk, IsErrOf, option_map};
ghost use Rattle.byte_io.specs.Counts.{raised};
ghost use Rattle.byte_io.specs.Files.{file_of, ReadsFile, faults_after};
ghost use Rattle.byte_io.specs.MemFiles.{told_of};

use super::calls::Calls;
use crate::files::{FileFail, Files};
use std::alloc::Global;
use std::marker::Model;

/// A file in memory.
#[derive(Drop)]
pub struct NamedFile {
    /// Its name, as a path is written.
    pub name: String,
    /// All of its bytes.
    pub bytes: Vec<u8>,
}

/// Files in memory. Of two with one name the first is read.
#[derive(Drop)]
pub struct MemFiles {
    files: Vec<NamedFile>,
    calls: Calls,
}

impl Model for MemFiles {
    ghost use Rattle.byte_io.specs.MemFiles.{FilesState, told_of};

    ghost Value = { FilesState };

    ghost view = { λ s. record {
      files = told_of s.files.items;
      fails = s.calls.fails.items;
      reads = s.calls.made;
      faults = s.calls.faults;
    } };
}

impl MemFiles {
    /// The reads whose numbers are in `fails` fail, counted from 1, and so does a read of a name
    /// that no file has.
    pub fn new(files: Vec<NamedFile>, fails: Vec<u32>) -> MemFiles
        ensures { result ≡ record {
          files = told_of files.items;
          fails = fails.items;
          reads = 0;
          faults = 0;
        } }
    {
        MemFiles {
            files,
            calls: Calls::new(fails),
        }
    }
}

/// The bytes of the first file of that name.
fn find_file<'a>(files: &'a [NamedFile], name: &str) -> Option<&'a Vec<u8>>
    ensures { option_map (λ bytes. bytes.now.items) result ≡ file_of (told_of files.now) name.now }
{
    for file in files {
        if file.name.as_str() == name {
            return Some(&file.bytes);
        }
    }
    None
}

impl Files for MemFiles {
    ghost files = { λ s. Some s.files };

    ghost file_faults = { λ s. s.faults };

    fn read(&mut self, alloc: Global, name: &str, most: u32) -> Result<Vec<u8>, FileFail>
        ensures planned { Contains self.old.fails (raised self.old.reads)
            → IsErrOf result FileFail.Failed }
        ensures absent { file_of self.old.files name.now ≡ None
            → IsErrOf result FileFail.Failed }
        ensures only { IsErrOf result FileFail.Failed
            → Contains self.old.fails (raised self.old.reads)
            ⊎ (file_of self.old.files name.now ≡ None) }

        ensures content { IfOk result (λ bytes.
            ReadsFile (Some self.old.files) name.now most bytes.items) }
        ensures state { self.new ≡ record self.old {
          reads = raised self.old.reads;
          faults = faults_after result self.old.faults;
        } }
        ensures faults_stay { self.old.faults ≤ self.new.faults }
    {
        if self.calls.begin().is_err() {
            return Err(FileFail::Failed);
        }
        match find_file(&self.files, name) {
            Some(bytes) => {
                let n = bytes.len().min(most as usize);
                Vec::from_slice(alloc, &bytes[..n]).map_err(|_| FileFail::NoMemory)
            }
            None => {
                self.calls.fault();
                Err(FileFail::Failed)
            }
        }
    }
}
