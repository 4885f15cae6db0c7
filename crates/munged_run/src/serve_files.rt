//! What a daemon reads of the files that its option file names.

ghost use Rattle.std.specs.Prelude.{◌≡◌, ◌≤◌, IfErr, IfOk, length};
ghost use Rattle.munged_files.specs.EndingTold.{ending_told};
ghost use Rattle.munged_files.specs.Faults.{CountsFault};
ghost use Rattle.munged_run.specs.ServeFiles.{ReadsWorld, RefusesWorld};

use byte_io::Files;
use decode_rules::World;
use munged_files::{Ending, read_key, read_maps, read_seeds};
use option_file::Options;
use std::alloc::Global;

/// What a daemon serves by.
#[derive(Drop)]
pub struct Provided {
    /// The key's subkeys, the settings and the groups.
    pub world: World,
    /// A seed for each worker.
    pub seeds: Vec<[u8; 32]>,
}

/// Reads the files that the options name, in this order: key file, seed file, passwd file, group
/// file. What one of them is refused for comes before the next is read.
pub fn read_world<'a, F: Files>(
    alloc: Global,
    options: &'a Options,
    files: &mut F,
) -> Result<Provided, Ending<'a>>
    ensures world { IfOk result (λ provided.
        ReadsWorld (F.files files.old) options.now provided.world provided.seeds.items) }
    ensures some { IfOk result (λ provided. 1 ≤ length provided.seeds.items) }
    ensures within { IfOk result (λ provided. length provided.seeds.items ≤ 64) }
    ensures refused { IfErr result (λ why.
        RefusesWorld (F.files files.old) options.now (ending_told why)) }
    ensures counted { CountsFault result (F.file_faults files.old) (F.file_faults files.new) }
    ensures kept { F.files files.new ≡ F.files files.old }
{
    let subkeys = match read_key(alloc, files, options.key()) {
        Ok(subkeys) => subkeys,
        Err(ending) => return Err(ending),
    };
    let seeds = match read_seeds(alloc, files, options.seed(), options.workers()) {
        Ok(seeds) => seeds,
        Err(ending) => return Err(ending),
    };
    match read_maps(alloc, files, options.passwd(), options.group()) {
        Ok(groups) => Ok(Provided {
            world: World {
                subkeys,
                settings: options.settings(),
                groups,
            },
            seeds,
        }),
        Err(ending) => Err(ending),
    }
}
