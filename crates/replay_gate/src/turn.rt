//! The steps of a call: draw a ticket, wait for its turn, and give the turn up.

ghost use Rattle.std.specs.Prelude.{◌≡◌, ℕ, [], IfOk, IfErr};
ghost use Rattle.replay_gate.specs.Makers.{maker};
ghost use Rattle.replay_gate.specs.Rule.{IsServing};
ghost use Rattle.replay_gate.specs.Seats.{Rests, Waits, FindsWorn, HasTurn, StandsWith};
ghost use Rattle.replay_gate.specs.Steps.{Serves};
ghost use Rattle.replay_gate.specs.Views.{entered};
ghost use Rattle.replay_gate.specs.declared.view.Stage.TheVariants.{Waiting};

use crate::gate::{Gate, SERVING, TICKETS};
use crate::plays::{Ask, Draw, Entered, Leave, Look};
use crate::view::View;
use atomic_table::Seat;
use munge_types::{Event, Replay};
use std::sync::Wait;
use std::{hint, thread};

/// A gate whose ticket word has come to this gives no more tickets, so that the word never wraps.
const WORN_AT: u64 = 1 << 62;

/// How often a call that waits looks at the serving word before it yields the processor.
///
/// Measured on 2026-12-01 on four processors with look-ups of expired pairs, in nanoseconds a
/// look-up, for 0, 4, 16, 64 and 256 looks and for calls that never yield:
///
/// - four threads that nothing disturbs (in the real-time class): 218, 215, 223, 201, 208, 202
/// - four threads at a load of 17 to 20, medians of 24 tries with quartiles from about 500 to 5000,
///   and for the last from 25,000 to 140,000: 632, 1035, 1671, 759, 858, 59,325
/// - two threads at a load of 15, twice: 455, 359, 194, 154, 110, 105, and 639, 667, 383, 131, 333,
///   5489
///
/// So calls have to yield, and 64 looks are the best or among the best in each row.
const LOOKS: u32 = 64;

impl<R: Replay + Drop> Gate<R> {
    /// Draws a ticket. Where the gate is worn, it answers the ticket word that it read.
    pub(crate) fn draw(&self, seat: &mut Seat<R, View>) -> Result<u64, u64>
        requires gate { seat.old.table_id ≡ self.now.table }
        requires rests { Rests seat.old.me }
        ensures gate { seat.new.table_id ≡ seat.old.table_id }
        ensures drawn { IfOk result (Waits seat.old.me seat.new.me) }
        ensures worn { IfErr result (FindsWorn seat.old.me seat.new.me) }
    {
        let found = self.table.shared.load::<Ask>(seat, TICKETS);
        if found >= WORN_AT {
            return Err(found);
        }
        Ok(self.table.shared.fetch_add::<Draw>(seat, TICKETS, 1))
    }

    /// Waits until the serving word is the ticket.
    pub(crate) fn wait<W: Wait>(&self, rt: &W, seat: &mut Seat<R, View>, ticket: u64)
        requires gate { seat.old.table_id ≡ self.now.table }
        requires holds_nothing { seat.old.me.1 ≡ [] }
        requires waits { seat.old.me.0.stage ≡ Waiting ticket }
        ensures gate { seat.new.table_id ≡ seat.old.table_id }
        ensures serves { Serves R.remembered ticket seat.old.me seat.new.me }
    {
        let mut looks = 0;
        for _ in rt.forever() {
            if self.table.shared.load::<Look>(seat, SERVING) == ticket {
                return;
            }
            if looks < LOOKS {
                looks += 1;
                hint::spin_loop();
            } else {
                thread::yield_now();
            }
        }
        unreachable!()
    }

    /// Draws a ticket and waits for its turn.
    pub(crate) fn take_turn<W: Wait>(&self, rt: &W, seat: &mut Seat<R, View>) -> Result<u64, u64>
        requires gate { seat.old.table_id ≡ self.now.table }
        requires rests { Rests seat.old.me }
        ensures gate { seat.new.table_id ≡ seat.old.table_id }
        ensures turn { IfOk result (HasTurn R.remembered seat.old.me seat.new.me) }
        ensures worn { IfErr result (FindsWorn seat.old.me seat.new.me) }
    {
        let ticket = self.draw(seat)?;
        self.wait(rt, seat, ticket);
        Ok(ticket)
    }

    /// Gives the turn up, which adds the entry.
    pub(crate) fn leave<E: Entered>(&self, seat: &mut Seat<R, View>, entry: Event)
        requires gate { seat.old.table_id ≡ self.now.table }
        requires entry { entry ≡ E.entry }
        requires own { maker E.entry ≡ seat.old.me.0.number }
        requires state { StandsWith R.remembered seat.old.me E.entry }
        requires turn { (ticket : ℕ) × IsServing seat.old.me.0 ticket }
        ensures gate { seat.new.table_id ≡ seat.old.table_id }
        ensures entered { seat.new.me ≡ (entered E.entry seat.old.me.0, []) }
    {
        // The entry is for the proof alone: `E` has it.
        let _ = entry;
        self.table.shared.fetch_add::<Leave<E>>(seat, SERVING, 1);
    }
}
