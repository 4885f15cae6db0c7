//! The keys of an option file.

ghost use Rattle.std.specs.Prelude.{◌≡◌};
ghost use Rattle.option_file.specs.KeyNames.{spelling_of, name_of};

/// A key of the file's own table, or of a socket's.
#[derive(Clone, Copy, Debug, PartialEq, Eq)]
pub enum Key {
    /// `key`, the path of the key file.
    KeyFile,
    /// `seed`, the path of the seed file.
    Seed,
    /// `passwd`, the path of the file of users.
    Passwd,
    /// `group`, the path of the file of groups.
    Group,
    /// `max_ttl`, the longest time to live in seconds.
    MaxTtl,
    /// `default_ttl`, the time to live in seconds where none is asked for.
    DefaultTtl,
    /// `skew`, how many seconds a credential's time may lie ahead of the clock.
    Skew,
    /// `purge_interval`, the seconds between purges.
    PurgeInterval,
    /// `address`, the IPv4 address that is written into credentials.
    Address,
    /// `workers`, how many of them serve.
    Workers,
    /// `queue`, how many connections may wait.
    Queue,
    /// `socket`, the list of sockets.
    Socket,
    /// `path` of a socket.
    SocketPath,
    /// `uid` of a socket, that of its callers.
    SocketUid,
    /// `gid` of a socket, that of its callers.
    SocketGid,
    /// `control` of a socket: its callers may stop the daemon.
    SocketControl,
}

impl Key {
    /// The key as it is told to a reader: as the file has it, and a socket's key behind `socket.`.
    pub fn name(self) -> &'static str
        ensures { result.now ≡ name_of self }
    {
        match self {
            Key::SocketPath => "socket.path",
            Key::SocketUid => "socket.uid",
            Key::SocketGid => "socket.gid",
            Key::SocketControl => "socket.control",
            _ => self.spelling(),
        }
    }

    /// The key as it stands in its table.
    pub(crate) fn spelling(self) -> &'static str
        ensures { result.now ≡ spelling_of self }
    {
        match self {
            Key::KeyFile => "key",
            Key::Seed => "seed",
            Key::Passwd => "passwd",
            Key::Group => "group",
            Key::MaxTtl => "max_ttl",
            Key::DefaultTtl => "default_ttl",
            Key::Skew => "skew",
            Key::PurgeInterval => "purge_interval",
            Key::Address => "address",
            Key::Workers => "workers",
            Key::Queue => "queue",
            Key::Socket => "socket",
            Key::SocketPath => "path",
            Key::SocketUid => "uid",
            Key::SocketGid => "gid",
            Key::SocketControl => "control",
        }
    }
}
