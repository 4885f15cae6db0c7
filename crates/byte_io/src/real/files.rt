//! The files of the operating system.

ghost use Rattle.std.specs.Prelude.{◌≡◌, ◌≤◌, None, IfOk, vec_len};

use crate::files::{FileFail, Files};
use std::alloc::Global;
use std::fs::File;
use std::io::{ErrorKind, Read};
use std::{io, rt};

/// The system's files, by their paths. What they hold it does not tell.
#[derive(Drop)]
pub struct DiskFiles<R> {
    rt: R,
    faults: u64,
}

impl<R: rt::Files + Drop> DiskFiles<R> {
    /// The files of that runtime.
    pub fn new(rt: R) -> DiskFiles<R>
        ensures files { ⟦<DiskFiles<R> as Files>⟧.files result ≡ None }
        ensures faults { ⟦<DiskFiles<R> as Files>⟧.file_faults result ≡ 0 }
    {
        DiskFiles { rt, faults: 0 }
    }
}

/// The first `most` bytes of a file.
fn read_at_most(rt: &impl rt::Files, alloc: Global, name: &str, most: u32) -> io::Result<Vec<u8>>
    ensures { IfOk result (λ bytes. vec_len bytes ≤ most) }
{
    let mut bytes = Vec::new(alloc);
    File::open(rt, name)?
        .take(u64::from(most))
        .read_to_end(&mut bytes)?;
    bytes.truncate(most as usize);
    Ok(bytes)
}

impl<R: rt::Files + Drop> Files for DiskFiles<R> {
    ghost files = { λ _. None };

    ghost file_faults = { λ s. s.faults };

    fn read(&mut self, alloc: Global, name: &str, most: u32) -> Result<Vec<u8>, FileFail> {
        match read_at_most(&self.rt, alloc, name, most) {
            Ok(bytes) => Ok(bytes),
            Err(e) if e.kind() == ErrorKind::OutOfMemory => Err(FileFail::NoMemory),
            Err(_) => {
                self.faults = self.faults.saturating_add(1);
                Err(FileFail::Failed)
            }
        }
    }
}
