//! A caller's token of a gate.

ghost use Rattle.std.specs.Prelude.{◌≡◌, length};

use crate::view::View;
use atomic_table::Badge;
use std::marker::Model;

/// A pass of one gate, which a thread makes its calls with. Contracts see its gate, its own number,
/// its numbers (its own and those of the passes that were met into it), how many of the gate's
/// passes it stands for and how many numbers it can give away, the greatest ticket word that a call
/// of it has read, and what it has seen: a front of the gate's one history, with every entry by its
/// numbers.
#[derive(Drop)]
pub struct Pass {
    pub(crate) badge: Badge<View>,
    pub(crate) number: u32,
    pub(crate) spare: u32,
    pub(crate) share: u32,
    pub(crate) length: u64,
}

impl Model for Pass {
    ghost use Rattle.replay_gate.specs.IsPass.{the_view, pass_state, IsPass};
    ghost use Rattle.replay_gate.specs.PassState.{PassState};

    ghost Value = { PassState };

    ghost view = { λ pass. pass_state pass.badge.table_id (the_view pass.badge.views) };

    ghost invariant = { λ pass.
        IsPass pass.badge.views pass.number pass.spare pass.share pass.length };
}

impl Pass {
    /// Its own number, which its entries carry.
    pub fn number(&self) -> u32
        ensures { result ≡ self.now.number }
    {
        self.number
    }

    /// How many numbers it can give away. They follow its own.
    pub fn spare(&self) -> u32
        ensures { result ≡ self.now.spare }
    {
        self.spare
    }

    /// How many of the gate's passes it stands for.
    pub fn share(&self) -> u32
        ensures { result ≡ self.now.share }
    {
        self.share
    }

    /// The length of the history that it has seen.
    pub fn length(&self) -> u64
        ensures { result ≡ length self.now.seen }
    {
        self.length
    }
}
