//! A credential that the history is to be asked about.

ghost use Rattle.std.specs.Prelude.{◌≡◌, ◌≤◌, vec_len};
ghost use Rattle.cred_open.specs.Credential.{Credential};
ghost use Rattle.decode_rules.specs.DecodeReply.{unsaid_frame, verdict_answer};

use crate::Reply;
use crate::reply::FRONT_SIZE;
use munge_types::{Pair, Status, Verdict};
use std::marker::Model;
use wire_msg::{HEAD_SIZE, reply_head};

/// A credential that breaks none of the decode rules 1 to 12. The memory of its reply is taken.
#[derive(Debug, Drop)]
pub struct Ready {
    pub(crate) pair: Pair,
    /// The reply, but for what the history says.
    pub(crate) frame: Vec<u8>,
}

impl Model for Ready {
    ghost use Rattle.std.specs.Prelude.{◌≤◌, vec_len};
    ghost use Rattle.decode_rules.specs.Reply.{Pending};

    ghost Value = { Pending };

    ghost view = { λ ready. record { pair = ready.pair; frame = ready.frame.items } };

    ghost invariant = { λ ready. 17 ≤ vec_len ready.frame };
}

impl Ready {
    /// What the replay state is to be asked about.
    pub fn pair(&self) -> &Pair
        ensures { result.now ≡ self.now.pair }
    {
        &self.pair
    }
}

/// The reply to a credential of which the history said this, at this place. It takes no memory.
pub fn complete(ready: Ready, verdict: Verdict, place: u64) -> Reply
    ensures { (credential : Credential) → ready.frame ≡ unsaid_frame credential
        → result ≡ verdict_answer verdict place credential }
{
    let (rule, status) = match verdict {
        Verdict::Accepted => (0, Status::Success),
        Verdict::Expired => (13, Status::Expired),
        Verdict::Replayed => (14, Status::Replayed),
    };
    let mut frame = ready.frame;
    frame[HEAD_SIZE..FRONT_SIZE].copy_from_slice(&reply_head(status.number(), rule, place));
    Reply {
        frame,
        status,
        rule,
    }
}
