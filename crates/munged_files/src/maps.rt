//! The passwd file and the group file.

ghost use Rattle.std.specs.Prelude.{◌≡◌, [], None, IfErr, IfOk, OnOk, option_map};
ghost use Rattle.group_map.specs.FirstBadLine.{first_bad};
ghost use Rattle.group_map.specs.GroupLine.{is_group_line};
ghost use Rattle.group_map.specs.GroupMap.{IsOf};
ghost use Rattle.group_map.specs.PasswdLine.{is_passwd_line};
ghost use Rattle.munged_files.specs.EndingTold.{ending_told};
ghost use Rattle.munged_files.specs.Faults.{CountsFault};
ghost use Rattle.munged_files.specs.MapFile.{
  GivesNoBytes,
  GivesNoMap,
  HoldMaps,
  HoldsMap,
  IsMapOf,
  RefusesNamed,
};
ghost use Rattle.munged_files.specs.MapsRead.{HasUsers, IsMapBeside};

use crate::ending::Ending;
use crate::file::read_file;
use byte_io::Files;
use group_map::{GroupMap, MapRefused};
use std::alloc::Global;

/// The most bytes that are read of a passwd or a group file, one more than it may have.
const MAP_ROOM: u32 = 16_777_217;

/// The bytes of a passwd file with right lines, and the map of that file without groups.
#[derive(Drop)]
pub(crate) struct Users {
    pub(crate) bytes: Vec<u8>,
    pub(crate) map: GroupMap,
}

/// Looks over the passwd file and the group file of these names, as far as they are named, and lets
/// them go.
pub fn check_maps<'a, F: Files>(
    alloc: Global,
    files: &mut F,
    passwd: Option<&'a str>,
    group: Option<&'a str>,
) -> Result<(), Ending<'a>>
    ensures right { OnOk result (HoldMaps (F.files files.old)
        (option_map (λ name. name.now) passwd.entry) (option_map (λ name. name.now) group.entry)) }
    ensures refused { IfErr result (λ why. GivesNoMap (F.files files.old)
        (option_map (λ name. name.now) passwd.entry) (option_map (λ name. name.now) group.entry)
        (ending_told why)) }
    ensures counted { CountsFault result (F.file_faults files.old) (F.file_faults files.new) }
    ensures kept { F.files files.new ≡ F.files files.old }
{
    match read_maps(alloc, files, passwd, group) {
        Ok(_) => Ok(()),
        Err(ending) => Err(ending),
    }
}

/// The map of the passwd file and the group file of these names, as far as they are named. The
/// lines of the passwd file are looked at before the group file is read.
pub fn read_maps<'a, F: Files>(
    alloc: Global,
    files: &mut F,
    passwd: Option<&'a str>,
    group: Option<&'a str>,
) -> Result<GroupMap, Ending<'a>>
    ensures map { IfOk result (λ map. IsMapOf (F.files files.old)
        (option_map (λ name. name.now) passwd.entry) (option_map (λ name. name.now) group.entry)
        map) }
    ensures refused { IfErr result (λ why. GivesNoMap (F.files files.old)
        (option_map (λ name. name.now) passwd.entry) (option_map (λ name. name.now) group.entry)
        (ending_told why)) }
    ensures counted { CountsFault result (F.file_faults files.old) (F.file_faults files.new) }
    ensures kept { F.files files.new ≡ F.files files.old }
{
    match read_users(alloc, files, passwd) {
        Ok(users) => read_groups(alloc, files, users, group),
        Err(ending) => Err(ending),
    }
}

/// The passwd file of this name; an empty one where none is named.
fn read_users<'a, F: Files>(
    alloc: Global,
    files: &mut F,
    named: Option<&'a str>,
) -> Result<Users, Ending<'a>>
    ensures users { IfOk result (λ users. HasUsers (F.files files.old)
        (option_map (λ name. name.now) named.entry) users.bytes.items users.map) }
    ensures refused { IfErr result (λ why. RefusesNamed is_passwd_line (F.files files.old)
        (option_map (λ name. name.now) named.entry) (ending_told why)) }
    ensures counted { CountsFault result (F.file_faults files.old) (F.file_faults files.new) }
    ensures kept { F.files files.new ≡ F.files files.old }
{
    let Some(name) = named else {
        return Ok(Users {
            bytes: Vec::new(alloc),
            map: GroupMap::none(),
        });
    };
    let bytes = match read_map(alloc, files, name) {
        Ok(bytes) => bytes,
        Err(ending) => return Err(ending),
    };
    match GroupMap::read(alloc, &bytes, &[]) {
        Ok(map) => Ok(Users { bytes, map }),
        Err(MapRefused::Passwd(line)) => Err(Ending::BadLine(name, line)),
        Err(MapRefused::Group(_)) => unreachable!(),
        Err(MapRefused::NoMemory) => Err(Ending::NoMemory),
    }
}

/// The map of these users and of the group file of this name; of an empty one where none is named.
fn read_groups<'a, F: Files>(
    alloc: Global,
    files: &mut F,
    users: Users,
    named: Option<&'a str>,
) -> Result<GroupMap, Ending<'a>>
    requires right { first_bad is_passwd_line users.bytes.items ≡ None }
    requires alone { IsOf users.map users.bytes.items [] }
    ensures map { IfOk result (λ map. IsMapBeside (F.files files.old) users.bytes.items
        (option_map (λ name. name.now) named.entry) map) }
    ensures refused { IfErr result (λ why. RefusesNamed is_group_line (F.files files.old)
        (option_map (λ name. name.now) named.entry) (ending_told why)) }
    ensures counted { CountsFault result (F.file_faults files.old) (F.file_faults files.new) }
    ensures kept { F.files files.new ≡ F.files files.old }
{
    let Some(name) = named else {
        return Ok(users.map);
    };
    let bytes = match read_map(alloc, files, name) {
        Ok(bytes) => bytes,
        Err(ending) => return Err(ending),
    };
    match GroupMap::read(alloc, &users.bytes, &bytes) {
        Ok(map) => Ok(map),
        Err(MapRefused::Passwd(_)) => unreachable!(),
        Err(MapRefused::Group(line)) => Err(Ending::BadLine(name, line)),
        Err(MapRefused::NoMemory) => Err(Ending::NoMemory),
    }
}

/// The bytes of the file of that name, which are no more than such a file may have.
fn read_map<'a, F: Files>(
    alloc: Global,
    files: &mut F,
    name: &'a str,
) -> Result<Vec<u8>, Ending<'a>>
    ensures bytes { IfOk result (λ bytes. HoldsMap (F.files files.old) name.now bytes.items) }
    ensures none { IfErr result (λ why.
        GivesNoBytes (F.files files.old) name.now (ending_told why)) }
    ensures counted { CountsFault result (F.file_faults files.old) (F.file_faults files.new) }
    ensures kept { F.files files.new ≡ F.files files.old }
{
    let bytes = read_file(alloc, files, name, MAP_ROOM)?;
    if bytes.len() >= MAP_ROOM as usize {
        return Err(Ending::TooLong(name, bytes.len() as u64));
    }
    Ok(bytes)
}
