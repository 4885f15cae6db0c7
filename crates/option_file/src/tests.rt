//! Option files by worked values. What is expected was written out by hand from the description of
//! the option file.

mod administrator;

use crate::{Key, OptionRefused, Options};
use munge_types::Identity;
use std::alloc::Global;
use std::process::Abort;
use std::test::Fail;

/// A file as a small host has it.
const EXAMPLE: &str = r#"key = "munge.key"
seed = "munge.seed"
passwd = "passwd"
group = "group"
workers = 2

[[socket]]
path = "ann.socket"
uid = 7
gid = 7

[[socket]]
path = "root.socket"
uid = 0
gid = 0
control = true
"#;

/// A file with no key that may be left out.
const LEAST: &str = r#"key = "k"
socket = [{ path = "s", uid = 4294967294, gid = 1 }]
"#;

/// A file with each number at its greatest, but for the time to live where none is asked for.
const GREATEST: &str = r#"key = "k"
max_ttl = 200
skew = 300
purge_interval = 60
address = "10.0.07.255"
workers = 64
queue = 1024
socket = [{ path = "s", uid = 1, gid = 4294967294, control = false }]
"#;

/// Lines at the head of the first example, and what the file is refused with.
const HEADS: &[(&str, &str)] = &[
    ("skew = 301", "skew out of range 301"),
    ("skew = -1", "skew out of range -1"),
    ("skew = '1'", "wrong skew"),
    ("zip = 1", "unknown zip"),
    ("zip = 1\nabc = 2", "unknown abc"),
    ("abc = 1\nZip = 2", "unknown Zip"),
    ("skew = 301\nzip = 1", "unknown zip"),
    ("workers = 3", "not toml"),
    ("max_ttl = 0", "max_ttl out of range 0"),
    ("max_ttl = 3601", "max_ttl out of range 3601"),
    ("max_ttl = 1.5", "wrong max_ttl"),
    ("default_ttl = 0", "default_ttl out of range 0"),
    ("default_ttl = 3601", "default_ttl out of range 3601"),
    (
        "max_ttl = 200\ndefault_ttl = 201",
        "default_ttl out of range 201",
    ),
    (
        "default_ttl = 9999\nmax_ttl = 9998",
        "max_ttl out of range 9998",
    ),
    ("purge_interval = 0", "purge_interval out of range 0"),
    ("purge_interval = 61", "purge_interval out of range 61"),
    ("address = 1", "wrong address"),
    ("address = ''", "wrong address"),
    ("address = '10.0.0'", "wrong address"),
    ("address = '10.0.0.256'", "wrong address"),
    ("address = '1.2.3.4.5'", "wrong address"),
    ("address = '0001.2.3.4'", "wrong address"),
    ("queue = 0", "queue out of range 0"),
    ("queue = 1025", "queue out of range 1025"),
    ("queue = 0\nskew = true", "wrong skew"),
];

/// Whole files, and what they are refused with.
const FILES: &[(&[u8], &str)] = &[
    (b"key = ", "not toml"),
    (b"key = '\xff'", "not toml"),
    (b"", "missing key"),
    (b"seed = 1", "missing key"),
    (b"key = 1", "wrong key"),
    (b"key = 'k'", "missing socket"),
    (b"key = 'k'\nseed = 1", "wrong seed"),
    (b"key = 'k'\npasswd = []", "wrong passwd"),
    (b"key = 'k'\ngroup = {}", "wrong group"),
    (b"key = 'k'\nworkers = 0", "workers out of range 0"),
    (b"key = 'k'\nworkers = 65", "workers out of range 65"),
    (b"key = 'k'\nsocket = {}", "wrong socket"),
    (b"key = 'k'\nsocket = []", "socket out of range 0"),
    (b"key = 'k'\nsocket = [1]", "wrong socket"),
];

/// What is listed at `socket`, in brackets, of a file that is refused, and with what.
const SOCKETS: &[(&str, &str)] = &[
    ("{}", "missing socket.path"),
    ("{ path = 1 }", "wrong socket.path"),
    ("{ path = 'a' }", "missing socket.uid"),
    ("{ path = 'a', uid = 'b' }", "wrong socket.uid"),
    ("{ path = 'a', uid = -1 }", "socket.uid out of range -1"),
    (
        "{ path = 'a', uid = 4294967295 }",
        "socket.uid out of range 4294967295",
    ),
    ("{ path = 'a', uid = 1 }", "missing socket.gid"),
    (
        "{ path = 'a', uid = 1, gid = 4294967295 }",
        "socket.gid out of range 4294967295",
    ),
    (
        "{ path = 'a', uid = 1, gid = 1, control = 1 }",
        "wrong socket.control",
    ),
    ("{ path = 1, zip = 1, mode = 2 }", "unknown mode"),
    ("{ path = 'a', uid = 1, gid = 1 }, 5, {}", "wrong socket"),
    (
        "{ path = 'a', uid = 1, gid = 1 }, { path = 'b', uid = 2, gid = 1 }, \
         { path = 'b', uid = 3, gid = 1 }, { path = 'a', uid = 4, gid = 1 }",
        "socket 2 has an earlier path",
    ),
    (
        "{ path = 'a', uid = 1, gid = 1 }, { path = 'a', uid = 2 }",
        "missing socket.gid",
    ),
];

/// The options of a file that is accepted.
fn accepted(rt: &impl Abort, alloc: Global, file: &[u8]) -> Options {
    match Options::read(alloc, file) {
        Ok(options) => options,
        Err(refused) => panic!(rt; "{refused}"),
    }
}

/// The file is refused with this text.
fn refused(rt: &impl Abort, alloc: Global, file: &[u8], told: &str) -> Result<(), Fail> {
    match Options::read(alloc, file) {
        Ok(_) => panic!(rt; "accepted, and not {told}"),
        Err(refused) => {
            let found = format!(in alloc; "{refused}")?;
            assert_eq!(rt; found.as_str(), told);
            Ok(())
        }
    }
}

/// The file is refused so.
fn refused_so(rt: &impl Abort, alloc: Global, file: &[u8], due: OptionRefused) {
    match Options::read(alloc, file) {
        Ok(_) => panic!(rt; "accepted, and not {due}"),
        Err(refused) => assert!(rt; refused == due, "{refused}, and not {due}"),
    }
}

/// The names of files and the settings.
fn names(rt: &impl Abort, options: &Options, due: [Option<&str>; 4]) {
    assert!(rt; Some(options.key()) == due[0]);
    assert!(rt; Some(options.seed()) == due[1]);
    assert!(rt; options.passwd() == due[2]);
    assert!(rt; options.group() == due[3]);
}

/// Times to live, skew, purge interval, workers and queue.
fn numbers(rt: &impl Abort, options: &Options, due: [u32; 6]) {
    let settings = options.settings();
    let found = [
        settings.max_ttl,
        settings.default_ttl,
        settings.skew,
        options.interval(),
        options.workers(),
        options.queue(),
    ];
    assert!(rt; found == due, "{found:?}");
}

/// The socket at this place.
fn socket(rt: &impl Abort, options: &Options, at: usize, path: &str, who: Identity) {
    match options.sockets().get(at) {
        None => panic!(rt; "no socket {at}"),
        Some(line) => {
            assert!(rt; line.path.text() == path);
            assert!(rt; line.who == who);
        }
    }
}

fn who(uid: u32, gid: u32, control: bool) -> Identity {
    Identity { uid, gid, control }
}

#[test]
fn example_is_read(rt: HostRuntime) {
    let options = accepted(&rt, rt.alloc(), EXAMPLE.as_bytes());
    names(
        &rt,
        &options,
        [
            Some("munge.key"),
            Some("munge.seed"),
            Some("passwd"),
            Some("group"),
        ],
    );
    numbers(&rt, &options, [3600, 300, 300, 60, 2, 64]);
    assert!(rt; options.settings().addr == [0, 0, 0, 0]);
    assert!(rt; options.sockets().len() == 2);
    socket(&rt, &options, 0, "ann.socket", who(7, 7, false));
    socket(&rt, &options, 1, "root.socket", who(0, 0, true));
}

#[test]
fn least_and_greatest(rt: HostRuntime) {
    let options = accepted(&rt, rt.alloc(), LEAST.as_bytes());
    names(&rt, &options, [Some("k"), Some("/dev/urandom"), None, None]);
    numbers(&rt, &options, [3600, 300, 300, 60, 4, 64]);
    socket(&rt, &options, 0, "s", who(4294967294, 1, false));
    let options = accepted(&rt, rt.alloc(), GREATEST.as_bytes());
    numbers(&rt, &options, [200, 200, 300, 60, 64, 1024]);
    assert!(rt; options.settings().addr == [10, 0, 7, 255]);
    socket(&rt, &options, 0, "s", who(1, 4294967294, false));
}

#[test]
fn example_of_the_documents_is_read(rt: HostRuntime) {
    let options = accepted(&rt, rt.alloc(), administrator::FILE.as_bytes());
    numbers(&rt, &options, [3600, 300, 300, 60, 4, 64]);
    assert!(rt; options.settings().addr == [192, 0, 2, 7]);
    socket(
        &rt,
        &options,
        0,
        "/run/munged/www-data.socket",
        who(33, 33, false),
    );
    socket(&rt, &options, 1, "/run/munged/root.socket", who(0, 0, true));
}

#[test]
fn tables_of_refusals(rt: HostRuntime) -> Result<(), Fail> {
    let alloc = rt.alloc();
    for (head, told) in HEADS {
        let file = format!(in alloc; "{head}\n{EXAMPLE}")?;
        refused(&rt, alloc, file.as_bytes(), told)?;
    }
    for (file, told) in FILES {
        refused(&rt, alloc, file, told)?;
    }
    for (listed, told) in SOCKETS {
        let file = format!(in alloc; "key = 'k'\nsocket = [{listed}]\n")?;
        refused(&rt, alloc, file.as_bytes(), told)?;
    }
    Ok(())
}

#[test]
fn refusals_as_values(rt: HostRuntime) -> Result<(), Fail> {
    let alloc = rt.alloc();
    let mut file = vec![in alloc; b' '; 65536]?;
    refused_so(&rt, alloc, &file, OptionRefused::Missing(Key::KeyFile));
    file.push(b' ')?;
    refused_so(&rt, alloc, &file, OptionRefused::TooLong(65537));
    refused_so(&rt, alloc, b"key = ", OptionRefused::NotToml);
    refused_so(
        &rt,
        alloc,
        b"key = \"k\"",
        OptionRefused::Missing(Key::Socket),
    );
    let file = format!(in alloc; "skew = 301\n{EXAMPLE}")?;
    refused_so(
        &rt,
        alloc,
        file.as_bytes(),
        OptionRefused::Range(Key::Skew, 301),
    );
    let file = format!(in alloc; "zip = 1\n{EXAMPLE}")?;
    match Options::read(alloc, file.as_bytes()) {
        Err(OptionRefused::Unknown(name)) => assert!(rt; name.text() == "zip"),
        _ => panic!(rt; "not unknown"),
    }
    Ok(())
}

#[test]
fn sixty_four_sockets(rt: HostRuntime) -> Result<(), Fail> {
    let alloc = rt.alloc();
    let mut file = String::from_str(alloc, "key = 'k'\n")?;
    for at in 0..64 {
        let socket = format!(in alloc; "[[socket]]\npath = 's{at}'\nuid = {at}\ngid = 1\n")?;
        file.push_str(socket.as_str())?;
    }
    let options = accepted(&rt, alloc, file.as_bytes());
    assert!(rt; options.sockets().len() == 64);
    socket(&rt, &options, 63, "s63", who(63, 1, false));
    file.push_str("[[socket]]\n")?;
    refused_so(
        &rt,
        alloc,
        file.as_bytes(),
        OptionRefused::Range(Key::Socket, 65),
    );
    Ok(())
}
