//! What clients and the daemon say to each other.

ghost use Rattle.std.specs.Prelude.{◌≡◌};
ghost use Rattle.wire_msg.specs.Spelling.{fields_of, kind_of};

use crate::{Bytes, Kind};

/// A message of a client or of the daemon.
#[derive(Debug, Drop, PartialEq, Eq)]
pub enum Message {
    /// A client asks to seal.
    EncodeRequest(EncodeAsk),
    /// The daemon says what became of that.
    EncodeReply(EncodeSaid),
    /// A client asks to open the credential with this text.
    DecodeRequest(Bytes),
    /// The daemon says what became of that.
    DecodeReply(DecodeSaid),
    /// A client asks the daemon to stop.
    Stop,
    /// The daemon says with this status what becomes of that: 0 where it stops.
    Bye(u8),
}

/// What a client asks to be sealed, by the numbers that it sent.
#[derive(Debug, Drop, PartialEq, Eq)]
pub struct EncodeAsk {
    /// The number of the cipher.
    pub cipher: u8,
    /// The number of the MAC.
    pub kind: u8,
    /// For how many seconds the credential is to be good.
    pub ttl: u32,
    /// The UID that alone may open it, or 4294967295 for any.
    pub for_uid: u32,
    /// The GID whose members alone may open it, or 4294967295 for any.
    pub for_gid: u32,
    /// What it is to carry.
    pub payload: Bytes,
}

/// What became of sealing.
#[derive(Debug, Drop, PartialEq, Eq)]
pub struct EncodeSaid {
    /// The number of the status: 0 where there is a text.
    pub status: u8,
    /// The credential.
    pub text: Bytes,
}

/// What became of opening.
#[derive(Debug, Drop, PartialEq, Eq)]
pub struct DecodeSaid {
    /// The number of the status.
    pub status: u8,
    /// The first rule that the credential broke, and 0 where it broke none.
    pub rule: u8,
    /// The place of the look-up in the history, or 18446744073709551615 where there was none.
    pub place: u64,
    /// What the credential says, where the caller may know it.
    pub content: Option<Content>,
}

/// How a credential was sealed, and what it says. Times are in seconds.
#[derive(Debug, Drop, PartialEq, Eq)]
pub struct Content {
    /// The number of the cipher.
    pub cipher: u8,
    /// The number of the MAC.
    pub kind: u8,
    /// The IPv4 address of the host that sealed.
    pub addr: [u8; 4],
    /// When it was sealed, since 1970.
    pub time: u32,
    /// For how long it is good.
    pub ttl: u32,
    /// The UID of the caller who asked for it.
    pub uid: u32,
    /// The GID of the caller who asked for it.
    pub gid: u32,
    /// The UID that alone may open it, or 4294967295 for any.
    pub for_uid: u32,
    /// The GID whose members alone may open it, or 4294967295 for any.
    pub for_gid: u32,
    /// What it carries.
    pub payload: Bytes,
}

/// The fields of a content before its payload.
#[derive(Clone, Copy, Debug, PartialEq, Eq)]
pub struct ContentFields {
    /// The number of the cipher.
    pub cipher: u8,
    /// The number of the MAC.
    pub kind: u8,
    /// The IPv4 address of the host that sealed.
    pub addr: [u8; 4],
    /// When it was sealed, since 1970.
    pub time: u32,
    /// For how long it is good.
    pub ttl: u32,
    /// The UID of the caller who asked for it.
    pub uid: u32,
    /// The GID of the caller who asked for it.
    pub gid: u32,
    /// The UID that alone may open it, or 4294967295 for any.
    pub for_uid: u32,
    /// The GID whose members alone may open it, or 4294967295 for any.
    pub for_gid: u32,
}

impl Message {
    /// Its kind.
    pub fn kind(&self) -> Kind
        ensures { result ≡ kind_of self.now }
    {
        match self {
            Message::EncodeRequest(_) => Kind::EncodeRequest,
            Message::EncodeReply(_) => Kind::EncodeReply,
            Message::DecodeRequest(_) => Kind::DecodeRequest,
            Message::DecodeReply(_) => Kind::DecodeReply,
            Message::Stop => Kind::Stop,
            Message::Bye(_) => Kind::Bye,
        }
    }
}

impl Content {
    /// Its fields before the payload.
    pub fn fields(&self) -> ContentFields
        ensures { result ≡ fields_of self.now }
    {
        ContentFields {
            cipher: self.cipher,
            kind: self.kind,
            addr: self.addr,
            time: self.time,
            ttl: self.ttl,
            uid: self.uid,
            gid: self.gid,
            for_uid: self.for_uid,
            for_gid: self.for_gid,
        }
    }
}
