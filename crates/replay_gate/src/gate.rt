//! A gate: a ticket word, a serving word, and the replay state behind them.

ghost use Rattle.std.specs.Prelude.{◌≡◌, ◌≤◌, [], IfOk};
ghost use Rattle.munge_types.specs.StandsFor.{Stands};
ghost use Rattle.replay_gate.specs.PassState.{first_pass};
ghost use Rattle.replay_gate.specs.Worn.{worn_at};

use crate::pass::Pass;
use crate::view::View;
use atomic_table::{Table, TableRule};
use munge_types::{NoMemory, Replay};
use std::alloc::Global;
use std::marker::Model;

/// The word that tickets are drawn from.
pub(crate) const TICKETS: usize = 0;

/// The word with the ticket whose turn it is.
pub(crate) const SERVING: usize = 1;

/// At which number a gate begins, and how many passes it may have.
#[derive(Clone, Copy, Drop)]
pub struct Origin {
    /// The first ticket.
    pub start: u64,
    /// How many passes there may be at most, at least 1.
    pub passes: u32,
}

/// The rule of a gate: its passes make one history, which its state stands for.
pub struct OneHistory;

impl<R: Replay> TableRule<R, View, Origin> for OneHistory {
    ghost use Rattle.replay_gate.specs.Rule.{Kept};
    ghost use Rattle.replay_gate.specs.Views.{first_view};

    ghost holds = { λ origin table. Kept R.remembered origin.start origin.passes table };

    ghost first = { λ origin. first_view origin.start origin.passes };
}

/// A replay state that threads share. Contracts see which gate it is, at which number its tickets
/// began, and how many passes it may have.
#[derive(Drop)]
pub struct Gate<R: Replay + Drop> {
    pub(crate) table: Table<R, View, Origin, OneHistory, Global>,
    pub(crate) origin: Origin,
}

impl<R: Replay + Drop> Model for Gate<R> {
    ghost use Rattle.replay_gate.specs.IsGate.{gate_id, IsGate};
    ghost use Rattle.replay_gate.specs.PassState.{GateId};

    ghost Value = { GateId };

    ghost view = { λ gate. gate_id gate.table.shared.table_id gate.origin };

    ghost invariant = { λ gate.
        IsGate gate.table.shared.table_id gate.table.shared.key gate.origin };
}

/// A gate, and its first pass, which stands for all of them.
#[derive(Drop)]
pub struct Entry<R: Replay + Drop> {
    pub gate: Gate<R>,
    pub pass: Pass,
}

impl<R: Replay + Drop> Gate<R> {
    /// A gate over a state that stands for the empty history, of so many passes, at least 1. Its
    /// tickets begin at 0. Where there is no memory for it, the state is dropped.
    pub fn new(alloc: Global, state: R, passes: u32) -> Result<Entry<R>, NoMemory>
        requires passes { 1 ≤ passes }
        requires empty { Stands (R.remembered state) [] }
        ensures start { IfOk result (λ entry. entry.gate.start ≡ 0) }
        ensures passes { IfOk result (λ entry. entry.gate.passes ≡ passes) }
        ensures pass { IfOk result (λ entry. entry.pass ≡ first_pass entry.gate) }
    {
        Gate::new_at(alloc, state, passes, 0)
    }

    /// The same, with the tickets beginning at this number, which is at most 2^62. With 2^62 the gate
    /// is worn from the first.
    pub fn new_at(alloc: Global, state: R, passes: u32, ticket: u64) -> Result<Entry<R>, NoMemory>
        requires passes { 1 ≤ passes }
        requires ticket { ticket ≤ worn_at }
        requires empty { Stands (R.remembered state) [] }
        ensures start { IfOk result (λ entry. entry.gate.start ≡ ticket) }
        ensures passes { IfOk result (λ entry. entry.gate.passes ≡ passes) }
        ensures pass { IfOk result (λ entry. entry.pass ≡ first_pass entry.gate) }
    {
        let origin = Origin {
            start: ticket,
            passes,
        };
        let mut slots = Vec::with_capacity(alloc, 1)?;
        slots.push_reserved(state);
        let Ok((table, seat)) = Table::new(alloc, &[ticket, ticket], slots, &origin) else {
            return Err(NoMemory);
        };
        let pass = Pass {
            badge: seat.into_badge(),
            number: 0,
            spare: passes - 1,
            share: passes,
            length: 0,
        };
        Ok(Entry {
            gate: Gate { table, origin },
            pass,
        })
    }

    /// How many passes it may have.
    pub fn passes(&self) -> u32
        ensures { result ≡ self.now.passes }
    {
        self.origin.passes
    }
}
