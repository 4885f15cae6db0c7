//! The statuses of replies, with their numbers.

ghost use Rattle.std.specs.Prelude.{◌≡◌, ◌≢◌, ◌<◌, IfSome, IsNone, ◌↔◌};
ghost use Rattle.munge_types.specs.Status.{status_number};

/// What a reply says of a request. The numbers are MUNGE's.
#[derive(Clone, Copy, Debug, PartialEq, Eq)]
pub enum Status {
    /// The request was done.
    Success,
    /// Never sent.
    Internal,
    /// A request that the session cannot serve.
    BadArgument,
    /// A payload above its limit.
    BadLength,
    /// Never sent.
    Overflow,
    /// Never sent.
    Memory,
    /// Never sent.
    Socket,
    /// Never sent.
    Timeout,
    /// A text that is no credential.
    BadCredential,
    /// A credential of another version.
    BadVersion,
    /// A cipher that is not supported.
    BadCipher,
    /// A MAC that is not supported.
    BadMac,
    /// A compression that is not supported.
    BadCompression,
    /// A realm that is not accepted.
    BadRealm,
    /// A credential that was not sealed under this key, or was altered.
    Invalid,
    /// A credential past its expiry.
    Expired,
    /// A credential from the future.
    Rewound,
    /// A credential that was accepted before.
    Replayed,
    /// A credential for another caller.
    Unauthorized,
}

impl Status {
    /// The status's number, from 0 to 18 in the order above.
    pub fn number(self) -> u8
        ensures number { result ≡ status_number self }
        ensures range { result < 19 }
    {
        self as u8
    }

    /// The status of this number, and None exactly above 18.
    pub fn of(n: u8) -> Option<Status>
        ensures found { IfSome result (λ status. status_number status ≡ n) }
        ensures none { IsNone result ↔ (18 < n) }
    {
        let status = match n {
            0 => Status::Success,
            1 => Status::Internal,
            2 => Status::BadArgument,
            3 => Status::BadLength,
            4 => Status::Overflow,
            5 => Status::Memory,
            6 => Status::Socket,
            7 => Status::Timeout,
            8 => Status::BadCredential,
            9 => Status::BadVersion,
            10 => Status::BadCipher,
            11 => Status::BadMac,
            12 => Status::BadCompression,
            13 => Status::BadRealm,
            14 => Status::Invalid,
            15 => Status::Expired,
            16 => Status::Rewound,
            17 => Status::Replayed,
            18 => Status::Unauthorized,
            _ => return None,
        };
        Some(status)
    }
}
