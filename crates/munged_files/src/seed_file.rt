//! The seed file, from which a session has one seed, and a daemon one for each worker.

ghost use Rattle.std.specs.Prelude.{
  ◌≡◌,
  ◌<◌,
  ◌≤◌,
  IfErr,
  IfNone,
  IfOk,
  IfSome,
  OnSome,
  length,
  option_map,
};
ghost use Rattle.munged_files.specs.EndingTold.{ending_told};
ghost use Rattle.munged_files.specs.Faults.{CountsFault};
ghost use Rattle.munged_files.specs.SeedFile.{
  AreSeedsIn,
  GivesNoSeed,
  GivesNoSeeds,
  IsSeedOf,
  seeds_in,
  seeds_size,
};

use crate::ending::Ending;
use crate::file::read_file;
use byte_io::Files;
use munge_types::NoMemory;
use std::alloc::Global;

/// The bytes of a seed.
const SEED_SIZE: usize = 32;

/// The seed of a session: the first 32 bytes of the file of that name, and none where no file is
/// named; or how the program ends without it. At most 32 bytes are read.
pub fn read_seed<'a, F: Files>(
    alloc: Global,
    files: &mut F,
    seed_file: Option<&'a str>,
) -> Result<Option<[u8; SEED_SIZE]>, Ending<'a>>
    ensures seed { let name = option_map (λ name. name.now) seed_file.entry in
        IfOk result (IsSeedOf (F.files files.old) name) }
    ensures no_seed { let name = option_map (λ name. name.now) seed_file.entry in
        IfErr result (λ why. GivesNoSeed (F.files files.old) name (ending_told why)) }
    ensures counted { CountsFault result (F.file_faults files.old) (F.file_faults files.new) }
    ensures kept { F.files files.new ≡ F.files files.old }
{
    let Some(name) = seed_file else {
        return Ok(None);
    };
    let bytes = match read_file(alloc, files, name, SEED_SIZE as u32) {
        Ok(bytes) => bytes,
        Err(ending) => return Err(ending),
    };
    match seed_of(&bytes) {
        Some(seed) => Ok(Some(seed)),
        None => Err(Ending::WrongSize(name, bytes.len() as u64)),
    }
}

/// The seed that these bytes are, which are no more than one.
fn seed_of(bytes: &[u8]) -> Option<[u8; SEED_SIZE]>
    requires { length bytes.now ≤ 32 }
    ensures whole { IfSome result (λ seed. seed ≡ bytes.now) }
    ensures size { OnSome result (length bytes.now ≡ 32) }
    ensures short { IfNone result (length bytes.now < 32) }
{
    if bytes.len() < SEED_SIZE {
        return None;
    }
    Some(whole_seed(bytes))
}

/// The seed that these bytes are.
fn whole_seed(bytes: &[u8]) -> [u8; SEED_SIZE]
    requires { length bytes.now ≡ 32 }
    ensures { result ≡ bytes.now }
{
    let mut seed = [0; SEED_SIZE];
    seed.copy_from_slice(bytes);
    seed
}

/// The seeds of so many workers, one behind the other at the front of the file of that name; or how
/// the program ends without them. No more bytes are read than they have.
pub fn read_seeds<'a, F: Files>(
    alloc: Global,
    files: &mut F,
    name: &'a str,
    workers: u32,
) -> Result<Vec<[u8; SEED_SIZE]>, Ending<'a>>
    requires { workers ≤ 64 }
    ensures seeds { IfOk result (λ seeds.
        AreSeedsIn (F.files files.old) name.now workers seeds.items) }
    ensures count { IfOk result (λ seeds. length seeds.items ≡ workers) }
    ensures no_seeds { IfErr result (λ why.
        GivesNoSeeds (F.files files.old) name.now workers (ending_told why)) }
    ensures counted { CountsFault result (F.file_faults files.old) (F.file_faults files.new) }
    ensures kept { F.files files.new ≡ F.files files.old }
{
    let size = SEED_SIZE as u32 * workers;
    let bytes = match read_file(alloc, files, name, size) {
        Ok(bytes) => bytes,
        Err(ending) => return Err(ending),
    };
    if bytes.len() < size as usize {
        return Err(Ending::WrongSize(name, bytes.len() as u64));
    }
    match cut_seeds(alloc, &bytes, workers) {
        Ok(seeds) => Ok(seeds),
        Err(NoMemory) => Err(Ending::NoMemory),
    }
}

/// The seeds that these bytes are, one for each worker.
fn cut_seeds(alloc: Global, bytes: &[u8], workers: u32) -> Result<Vec<[u8; SEED_SIZE]>, NoMemory>
    requires few { workers ≤ 64 }
    requires whole { length bytes.now ≡ seeds_size workers }
    ensures seeds { IfOk result (λ seeds. seeds.items ≡ seeds_in bytes.now workers) }
    ensures count { IfOk result (λ seeds. length seeds.items ≡ workers) }
{
    let mut seeds = Vec::with_capacity(alloc, workers as usize)?;
    'seeds: for worker in 0..workers {
        let at = SEED_SIZE * worker as usize;
        seeds.push_reserved(whole_seed(&bytes[at..at + SEED_SIZE]));
    }
    Ok(seeds)
}
