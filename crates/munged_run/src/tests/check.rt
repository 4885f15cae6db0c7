//! The command `check` over option files, and the files that they name.

use super::fixture::Run;
use std::alloc::{AllocError, Global};
use std::test::Fail;

/// An option file with every key that a small host needs.
const EXAMPLE: &str = "\
key = \"munge.key\"
seed = \"munge.seed\"
passwd = \"passwd\"
group = \"group\"
workers = 2

[[socket]]
path = \"ann.socket\"
uid = 7
gid = 7

[[socket]]
path = \"root.socket\"
uid = 0
gid = 0
control = true
";

/// The text of docs/examples/munged.toml.
const DOCUMENTED: &str =
    r#"# Options of munged. The file is TOML; a key that is not known is refused.
# A path that does not begin with / goes from the folder that munged is started in.

# The key file, 32 to 1024 bytes, the same on every host whose credentials are to be opened here.
# Nobody but the daemon should be able to read it.
key = "/etc/munged/key"

# Where salts and initial vectors come from. (/dev/urandom)
seed = "/dev/urandom"

# Users and groups, in the format of /etc/passwd and /etc/group. By them it is decided who may open
# a credential for a group. Without them nobody is a member of any group but by his own GID.
passwd = "/etc/passwd"
group = "/etc/group"

# Seconds for which a credential may be opened: at most (1 to 3600; 3600), and where none are asked
# for (1 to max_ttl; 300, or max_ttl if that is less).
max_ttl = 3600
default_ttl = 300

# Seconds by which another host's clock may be ahead of this one's. (0 to 300; 300)
skew = 300

# Seconds between two purges of what has expired. (1 to 60; 60)
purge_interval = 60

# The IPv4 address of this host, which is written into credentials. (0.0.0.0)
address = "192.0.2.7"

# Connections that are served at a time (1 to 64; 4), and that may wait. (1 to 1024; 64)
workers = 4
queue = 64

# The sockets, 1 to 64 of them. Whoever connects to one is taken for the user and the group that
# stand here, so its file has to be open to just that user. No two may have one path.
[[socket]]
path = "/run/munged/www-data.socket"
uid = 33
gid = 33

# On a socket with control a client may stop the daemon. (false)
[[socket]]
path = "/run/munged/root.socket"
uid = 0
gid = 0
control = true
"#;

const PASSWD: &[u8] = b"ann:x:7:7:::\n";

const GROUP: &[u8] = b"ops:x:50:bob,ann\n";

/// A look at an option file of this front and the example, with a key file of 32 bytes and these
/// maps.
fn check(alloc: Global, front: &str, passwd: &[u8], group: &[u8]) -> Result<Run, AllocError> {
    let mut run = Run::new(alloc)?;
    run.words = String::from_str(alloc, "check\nmunged.toml")?;
    let mut options = String::from_str(alloc, front)?;
    options.push_str(EXAMPLE)?;
    run.add_file("munged.toml", options.as_bytes())?;
    run.add_file("munge.key", &[0; 32])?;
    run.add_file("passwd", passwd)?;
    run.add_file("group", group)?;
    Ok(run)
}

#[test]
fn example_is_accepted(rt: HostRuntime) -> Result<(), Fail> {
    let mut run = check(rt.alloc(), "", PASSWD, GROUP)?;
    run.output.extend_from_slice(b"ok\n")?;
    run.assert_ends(&rt, 0, "the example")?;
    let mut run = check(rt.alloc(), "", PASSWD, GROUP)?;
    run.failing_write = 1;
    run.assert_ends(&rt, 6, "the example, with an output that fails")?;
    Ok(())
}

#[test]
fn documented_example_is_accepted(rt: HostRuntime) -> Result<(), Fail> {
    let mut run = Run::new(rt.alloc())?;
    run.words = String::from_str(rt.alloc(), "check\nmunged.toml")?;
    run.add_file("munged.toml", DOCUMENTED.as_bytes())?;
    run.add_file("/etc/munged/key", &[7; 1024])?;
    run.add_file("/etc/passwd", PASSWD)?;
    run.add_file("/etc/group", GROUP)?;
    run.output.extend_from_slice(b"ok\n")?;
    run.assert_ends(&rt, 0, "the documented example")?;
    Ok(())
}

#[test]
fn option_files_that_are_refused(rt: HostRuntime) -> Result<(), Fail> {
    for (front, said) in [
        ("skew = 301\n", "options: skew out of range 301"),
        ("max_ttl = -1\n", "options: max_ttl out of range -1"),
        ("zip = 1\n", "options: unknown zip"),
        ("skew = \"\"\n", "options: wrong skew"),
        ("key = \n", "options: not toml"),
        (
            "[[socket]]\npath = \"a\"\nuid = 1\ngid = 1\n[other]\n",
            "options: unknown other",
        ),
    ] {
        let mut run = check(rt.alloc(), front, PASSWD, GROUP)?;
        run.said = String::from_str(rt.alloc(), said)?;
        run.assert_ends(&rt, 4, front)?;
    }
    Ok(())
}

#[test]
fn option_files_alone(rt: HostRuntime) -> Result<(), Fail> {
    for (options, said) in [
        ("", "options: missing key"),
        ("key = ", "options: not toml"),
        ("key = \"k\"", "options: missing socket"),
        (
            "key = \"k\"\n[[socket]]\npath = \"a\"\nuid = 1\n",
            "options: missing socket.gid",
        ),
        (
            "key = \"k\"\n[[socket]]\npath = \"a\"\nuid = 1\ngid = 1\n[[socket]]\npath = \"a\"\nuid = 2\ngid = 2\n",
            "options: socket 1 has an earlier path",
        ),
    ] {
        let mut run = Run::new(rt.alloc())?;
        run.words = String::from_str(rt.alloc(), "check\nmunged.toml")?;
        run.add_file("munged.toml", options.as_bytes())?;
        run.said = String::from_str(rt.alloc(), said)?;
        run.assert_ends(&rt, 4, options)?;
    }
    Ok(())
}

#[test]
fn files_that_are_named(rt: HostRuntime) -> Result<(), Fail> {
    // The read of a file that fails, the passwd file, the group file, the status, and what is said.
    let table: [(u32, &[u8], &[u8], u8, &str); 8] = [
        (1, PASSWD, GROUP, 2, "cannot read munged.toml"),
        (2, PASSWD, GROUP, 2, "cannot read munge.key"),
        (3, PASSWD, GROUP, 2, "cannot read passwd"),
        (4, PASSWD, GROUP, 2, "cannot read group"),
        (0, b"ann:x:7:7:::\nbob\n", b"bad", 4, "passwd: bad line 2"),
        (4, b"bob\n", GROUP, 4, "passwd: bad line 1"),
        (3, b"bob\n", b"bad", 2, "cannot read passwd"),
        (0, PASSWD, b"#\n\nops:x:50\n", 4, "group: bad line 3"),
    ];
    for (fails, passwd, group, status, said) in table {
        let mut run = check(rt.alloc(), "", passwd, group)?;
        run.failing_file = fails;
        run.said = String::from_str(rt.alloc(), said)?;
        run.assert_ends(&rt, status, said)?;
    }
    Ok(())
}

#[test]
fn files_that_are_too_long(rt: HostRuntime) -> Result<(), Fail> {
    let comment = vec![in rt.alloc(); b'#'; 16_777_216]?;
    let mut run = check(rt.alloc(), "", PASSWD, &comment)?;
    run.output.extend_from_slice(b"ok\n")?;
    run.assert_ends(&rt, 0, "the longest group file")?;
    let comment = vec![in rt.alloc(); b'#'; 16_777_217]?;
    let mut run = check(rt.alloc(), "", PASSWD, &comment)?;
    run.said = String::from_str(rt.alloc(), "group: too long 16777217")?;
    run.assert_ends(&rt, 4, "a longer one")?;
    let options = vec![in rt.alloc(); b'#'; 65_538]?;
    let mut run = Run::new(rt.alloc())?;
    run.words = String::from_str(rt.alloc(), "check\nmunged.toml")?;
    run.add_file("munged.toml", &options)?;
    run.said = String::from_str(rt.alloc(), "options: too long 65537")?;
    run.assert_ends(&rt, 4, "too long an option file")?;
    Ok(())
}
