//! Who sends what.

ghost use Rattle.std.specs.Prelude.{◌≡◌, IfSome, IfNone};
ghost use Rattle.wire_msg.specs.FrameHead.{IsNoKind, kind_number, side_of_kind};

/// The most bytes of a body.
pub const BODY_LIMIT: u32 = 2_097_152;

/// Who sends a message.
#[derive(Clone, Copy, Debug, PartialEq, Eq)]
pub enum Side {
    /// A client.
    Requests,
    /// The daemon.
    Replies,
}

/// The kinds of messages.
#[derive(Clone, Copy, Debug, PartialEq, Eq)]
pub enum Kind {
    /// A client asks to seal.
    EncodeRequest,
    /// What became of sealing.
    EncodeReply,
    /// A client asks to open.
    DecodeRequest,
    /// What became of opening.
    DecodeReply,
    /// A client asks the daemon to stop.
    Stop,
    /// What became of stopping.
    Bye,
}

impl Kind {
    /// The third byte of a frame of this kind.
    pub fn number(self) -> u8
        ensures { result ≡ kind_number self }
    {
        match self {
            Kind::EncodeRequest => 1,
            Kind::EncodeReply => 2,
            Kind::DecodeRequest => 3,
            Kind::DecodeReply => 4,
            Kind::Stop => 5,
            Kind::Bye => 6,
        }
    }

    /// The kind of this number on this side, and None where it is that of no kind there.
    pub(crate) fn of(number: u8, side: Side) -> Option<Kind>
        ensures number { IfSome result (λ kind. number ≡ kind_number kind) }
        ensures side { IfSome result (λ kind. side_of_kind kind ≡ side) }
        ensures none { IfNone result (IsNoKind side number) }
    {
        match side {
            Side::Requests => match number {
                1 => Some(Kind::EncodeRequest),
                3 => Some(Kind::DecodeRequest),
                5 => Some(Kind::Stop),
                _ => None,
            },
            Side::Replies => match number {
                2 => Some(Kind::EncodeReply),
                4 => Some(Kind::DecodeReply),
                6 => Some(Kind::Bye),
                _ => None,
            },
        }
    }
}
