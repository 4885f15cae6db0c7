//! What calls on a gate answer.

ghost use Rattle.std.specs.Prelude.{Some};
ghost use Rattle.replay_gate.specs.RefusedText.{refused_text, worn_text};

use munge_types::Verdict;
use std::error::Error;
use std::fmt;

/// A look-up was made.
#[derive(Clone, Copy, Debug, PartialEq, Eq)]
pub struct Admitted {
    /// What the history says of the pair at that place.
    pub verdict: Verdict,
    /// How many entries there are before it.
    pub place: u64,
}

/// A look-up was not made.
#[derive(Clone, Copy, Debug, PartialEq, Eq)]
pub enum GateRefused {
    /// The pair would be accepted, and there is no memory for it. It is not accepted.
    NoMemory,
    /// The gate gives no more tickets: this is the ticket word that was read.
    Worn(u64),
}

/// A purge was not made: the gate gives no more tickets, and this is the ticket word that was read.
#[derive(Clone, Copy, Debug, PartialEq, Eq)]
pub struct Worn(pub u64);

impl fmt::Display for GateRefused {
    ghost output = { λ refused. Some (refused_text refused) };

    fn fmt<W: fmt::Write>(&self, f: &mut fmt::Formatter<W>) -> fmt::Result {
        match self {
            GateRefused::NoMemory => write!(f, "no memory"),
            GateRefused::Worn(ticket) => write!(f, "the gate is worn at ticket {ticket}"),
        }
    }
}

impl fmt::Display for Worn {
    ghost output = { λ worn. Some (worn_text worn.0) };

    fn fmt<W: fmt::Write>(&self, f: &mut fmt::Formatter<W>) -> fmt::Result {
        let ticket = self.0;
        write!(f, "the gate is worn at ticket {ticket}")
    }
}

impl Error for GateRefused {}

impl Error for Worn {}
