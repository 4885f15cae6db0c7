//! What an option file says.

ghost use Rattle.std.specs.Prelude.{◌≡◌, ◌≢◌, ◌≤◌, Some, None, length, option_map, IfOk, IfErr, OnOk};
ghost use Rattle.toml.specs.View.{table_view};
ghost use Rattle.option_file.specs.Configuration.{configuration_in, configuration_of};
ghost use Rattle.option_file.specs.Gives.{Gives};
ghost use Rattle.option_file.specs.Limits.{IsText};
ghost use Rattle.option_file.specs.Refusals.{document_refusal, first_refusal, table_in, table_refusal};

use crate::known_keys::Place;
use crate::{Key, Name, OptionRefused, SocketLine, fields, parts, sockets};
use munge_types::Settings;
use std::alloc::Global;
use std::marker::Model;
use toml::Table;

/// The most bytes of an option file.
const FILE_LIMIT: usize = 65_536;

/// What an option file says. Contracts see it as a `Configuration`.
#[derive(Debug, Drop)]
pub struct Options {
    key: Name,
    seed: Name,
    passwd: Option<Name>,
    group: Option<Name>,
    settings: Settings,
    interval: u32,
    workers: u32,
    queue: u32,
    sockets: Vec<SocketLine>,
}

impl Model for Options {
    ghost use Rattle.std.specs.Prelude.{◌≤◌, length};
    ghost use Rattle.option_file.specs.Configuration.{Configuration};
    ghost use Rattle.option_file.specs.Limits.{IsWithinLimits};

    ghost Value = { Configuration };

    ghost view = { λ options. record {
      key = options.key;
      seed = options.seed;
      passwd = options.passwd;
      group = options.group;
      max_ttl = options.settings.max_ttl;
      default_ttl = options.settings.default_ttl;
      skew = options.settings.skew;
      interval = options.interval;
      addr = options.settings.addr;
      workers = options.workers;
      queue = options.queue;
      sockets = options.sockets.items;
    } };

    ghost invariant = { λ options.
        IsWithinLimits options.interval options.workers options.queue
        (length options.sockets.items) };
}

/// The table of an option file.
fn parse(alloc: Global, bytes: &[u8]) -> Result<Table, OptionRefused>
    ensures exact { Gives table_view (document_refusal bytes.now) (table_in bytes.now) result }
    ensures no_memory { result ≡ Err OptionRefused.NoMemory → IsText bytes.now }
    ensures text { OnOk result (IsText bytes.now) }
{
    if bytes.len() > FILE_LIMIT {
        return Err(OptionRefused::TooLong(bytes.len() as u64));
    }
    let text = match std::str::from_utf8(bytes) {
        Ok(text) => text,
        Err(_) => return Err(OptionRefused::NotToml),
    };
    match toml::table_from_str(alloc, text) {
        Ok(table) => Ok(table),
        Err(error) => {
            if error.is_memory() {
                Err(OptionRefused::NoMemory)
            } else {
                Err(OptionRefused::NotToml)
            }
        }
    }
}

/// What a file's table says.
fn from_table(alloc: Global, table: &Table) -> Result<Options, OptionRefused>
    ensures { Gives (λ options. options) (table_refusal (table_view table.now))
        (configuration_in (table_view table.now)) result }
{
    Place::File.refuse_unknown(alloc, table)?;
    let names = parts::read_names(alloc, table)?;
    let times = parts::read_times(table)?;
    let addr = fields::address_or_none(table, Key::Address)?;
    let crew = parts::read_crew(table)?;
    let sockets = sockets::read_sockets(alloc, table)?;
    Ok(Options {
        key: names.key,
        seed: names.seed,
        passwd: names.passwd,
        group: names.group,
        settings: Settings {
            default_ttl: times.default_ttl,
            max_ttl: times.max_ttl,
            skew: times.skew,
            addr,
        },
        interval: times.interval,
        workers: crew.workers,
        queue: crew.queue,
        sockets,
    })
}

impl Options {
    /// What the bytes of an option file say, with what stands for each key that is not there; or
    /// the first cause to refuse them. Want of memory may stand in place of each but `TooLong`, and
    /// of `NotToml` for bytes that are no UTF-8.
    pub fn read(alloc: Global, bytes: &[u8]) -> Result<Options, OptionRefused>
        ensures accepted { OnOk result (first_refusal bytes.now ≡ None) }
        ensures said { IfOk result (λ options. options ≡ configuration_of bytes.now) }
        ensures refused { IfErr result (λ refused.
            refused ≢ OptionRefused.NoMemory → first_refusal bytes.now ≡ Some refused) }
        ensures no_memory { result ≡ Err OptionRefused.NoMemory → IsText bytes.now }
    {
        let table = parse(alloc, bytes)?;
        from_table(alloc, &table)
    }

    /// The path of the key file.
    pub fn key(&self) -> &str
        ensures { result.now ≡ self.now.key }
    {
        self.key.text()
    }

    /// The path of the seed file.
    pub fn seed(&self) -> &str
        ensures { result.now ≡ self.now.seed }
    {
        self.seed.text()
    }

    /// The path of the file of users, if one is named.
    pub fn passwd(&self) -> Option<&str>
        ensures { option_map (λ path. path.now) result ≡ self.now.passwd }
    {
        self.passwd.as_ref().map(|path| path.text())
    }

    /// The path of the file of groups, if one is named.
    pub fn group(&self) -> Option<&str>
        ensures { option_map (λ path. path.now) result ≡ self.now.group }
    {
        self.group.as_ref().map(|path| path.text())
    }

    /// The times that sealing and opening go by, and the address that credentials get.
    pub fn settings(&self) -> Settings
        ensures max_ttl { result.max_ttl ≡ self.now.max_ttl }
        ensures default_ttl { result.default_ttl ≡ self.now.default_ttl }
        ensures skew { result.skew ≡ self.now.skew }
        ensures addr { result.addr ≡ self.now.addr }
    {
        self.settings
    }

    /// The seconds between purges, from 1 to 60.
    pub fn interval(&self) -> u32
        ensures same { result ≡ self.now.interval }
        ensures some { 1 ≤ result }
        ensures within { result ≤ 60 }
    {
        self.interval
    }

    /// How many workers serve, from 1 to 64.
    pub fn workers(&self) -> u32
        ensures same { result ≡ self.now.workers }
        ensures some { 1 ≤ result }
        ensures within { result ≤ 64 }
    {
        self.workers
    }

    /// How many connections may wait for a worker, from 1 to 1024.
    pub fn queue(&self) -> u32
        ensures same { result ≡ self.now.queue }
        ensures some { 1 ≤ result }
        ensures within { result ≤ 1024 }
    {
        self.queue
    }

    /// The sockets in the file's order, from 1 to 64.
    pub fn sockets(&self) -> &[SocketLine]
        ensures same { result.now ≡ self.now.sockets }
        ensures some { 1 ≤ length result.now }
        ensures within { length result.now ≤ 64 }
    {
        self.sockets.as_slice()
    }
}
