//! The keys of an option file's table that go together.

ghost use Rattle.std.specs.Prelude.{◌≡◌, ◌≤◌, IfOk};
ghost use Rattle.toml.specs.View.{table_view};
ghost use Rattle.option_file.specs.Gives.{Gives};
ghost use Rattle.option_file.specs.Parts.{names_in, times_in, crew_in};
ghost use Rattle.option_file.specs.Rules.{first_of, name_rules, time_rules, crew_rules};

use crate::{Key, Name, OptionRefused, fields};
use std::alloc::Global;
use toml::Table;

/// The paths of the files that are named.
#[derive(Debug, Drop)]
pub(crate) struct FileNames {
    pub(crate) key: Name,
    pub(crate) seed: Name,
    pub(crate) passwd: Option<Name>,
    pub(crate) group: Option<Name>,
}

/// The times, in seconds.
#[derive(Clone, Copy, Debug)]
pub(crate) struct Times {
    pub(crate) max_ttl: u32,
    pub(crate) default_ttl: u32,
    pub(crate) skew: u32,
    pub(crate) interval: u32,
}

/// How many workers there are, and how many connections may wait for them.
#[derive(Clone, Copy, Debug)]
pub(crate) struct Crew {
    pub(crate) workers: u32,
    pub(crate) queue: u32,
}

/// The files that a table names.
pub(crate) fn read_names(alloc: Global, table: &Table) -> Result<FileNames, OptionRefused>
    ensures { Gives (λ names. names) (first_of (name_rules (table_view table.now)))
        (names_in (table_view table.now)) result }
{
    let key = fields::needed_text(alloc, table, Key::KeyFile)?;
    let seed = fields::text_or(alloc, table, Key::Seed, "/dev/urandom")?;
    let passwd = fields::text_if(alloc, table, Key::Passwd)?;
    let group = fields::text_if(alloc, table, Key::Group)?;
    Ok(FileNames {
        key,
        seed,
        passwd,
        group,
    })
}

/// The times that a table gives.
pub(crate) fn read_times(table: &Table) -> Result<Times, OptionRefused>
    ensures some_default { IfOk result (λ times. 1 ≤ times.default_ttl) }
    ensures default_within { IfOk result (λ times. times.default_ttl ≤ times.max_ttl) }
    ensures max_within { IfOk result (λ times. times.max_ttl ≤ 3600) }
    ensures skew_within { IfOk result (λ times. times.skew ≤ 300) }
    ensures some_interval { IfOk result (λ times. 1 ≤ times.interval) }
    ensures interval_within { IfOk result (λ times. times.interval ≤ 60) }
    ensures exact { Gives (λ times. times) (first_of (time_rules (table_view table.now)))
        (times_in (table_view table.now)) result }
{
    let max_ttl = fields::whole_or(table, Key::MaxTtl, 1, 3600, 3600)?;
    let usual_ttl = max_ttl.min(300);
    let default_ttl = fields::whole_or(table, Key::DefaultTtl, 1, max_ttl, usual_ttl)?;
    let skew = fields::whole_or(table, Key::Skew, 0, 300, 300)?;
    let interval = fields::whole_or(table, Key::PurgeInterval, 1, 60, 60)?;
    Ok(Times {
        max_ttl,
        default_ttl,
        skew,
        interval,
    })
}

/// The workers and the queue that a table gives.
pub(crate) fn read_crew(table: &Table) -> Result<Crew, OptionRefused>
    ensures some_workers { IfOk result (λ crew. 1 ≤ crew.workers) }
    ensures workers_within { IfOk result (λ crew. crew.workers ≤ 64) }
    ensures some_queue { IfOk result (λ crew. 1 ≤ crew.queue) }
    ensures queue_within { IfOk result (λ crew. crew.queue ≤ 1024) }
    ensures exact { Gives (λ crew. crew) (first_of (crew_rules (table_view table.now)))
        (crew_in (table_view table.now)) result }
{
    let workers = fields::whole_or(table, Key::Workers, 1, 64, 4)?;
    let queue = fields::whole_or(table, Key::Queue, 1, 1024, 64)?;
    Ok(Crew { workers, queue })
}
