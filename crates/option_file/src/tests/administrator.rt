//! The option file for an administrator that the documents have. `tools/option-example` says
//! whether it is that very text.

/// The text of docs/examples/munged.toml.
pub(super) const FILE: &str =
    r#"# Options of munged. The file is TOML; a key that is not known is refused.
# A path that does not begin with / goes from the folder that munged is started in.

# The key file, 32 to 1024 bytes, the same on every host whose credentials are to be opened here.
# Nobody but the daemon should be able to read it.
key = "/etc/munged/key"

# Where salts and initial vectors come from. (/dev/urandom)
seed = "/dev/urandom"

# Users and groups, in the format of /etc/passwd and /etc/group. By them it is decided who may open
# a credential for a group. Without them nobody is a member of any group but by his own GID.
passwd = "/etc/passwd"
group = "/etc/group"

# Seconds for which a credential may be opened: at most (1 to 3600; 3600), and where none are asked
# for (1 to max_ttl; 300, or max_ttl if that is less).
max_ttl = 3600
default_ttl = 300

# Seconds by which another host's clock may be ahead of this one's. (0 to 300; 300)
skew = 300

# Seconds between two purges of what has expired. (1 to 60; 60)
purge_interval = 60

# The IPv4 address of this host, which is written into credentials. (0.0.0.0)
address = "192.0.2.7"

# Connections that are served at a time (1 to 64; 4), and that may wait. (1 to 1024; 64)
workers = 4
queue = 64

# The sockets, 1 to 64 of them. Whoever connects to one is taken for the user and the group that
# stand here, so its file has to be open to just that user. No two may have one path.
[[socket]]
path = "/run/munged/www-data.socket"
uid = 33
gid = 33

# On a socket with control a client may stop the daemon. (false)
[[socket]]
path = "/run/munged/root.socket"
uid = 0
gid = 0
control = true
"#;
