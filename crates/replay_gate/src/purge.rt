//! Purging the state of a gate.

ghost use Rattle.std.specs.Prelude.{◌≡◌, IfOk, IfErr};
ghost use Rattle.munge_types.specs.declared.history.Event.TheVariants.{Purge};
ghost use Rattle.replay_gate.specs.Purges.{Drops, Purges};
ghost use Rattle.replay_gate.specs.Seats.{Rests, FindsWorn, StandsForSeen, StandsWith, HasPurged};
ghost use Rattle.replay_gate.specs.Worn.{IsWorn};

use crate::gate::Gate;
use crate::pass::Pass;
use crate::refused::Worn;
use crate::view::View;
use atomic_table::{Badge, Seat};
use munge_types::{Event, Purged, Replay};
use std::marker::Brand;
use std::mem;
use std::sync::Wait;

impl<R: Replay + Drop> Gate<R> {
    /// Purges the state, which the seat holds while it has the turn, at the moment, in seconds since
    /// 1970.
    fn purge_state(&self, seat: &mut Seat<R, View>, moment: u32, slice: u32) -> Purged
        requires gate { seat.old.table_id ≡ self.now.table }
        requires state { StandsForSeen R.remembered seat.old.me }
        ensures gate { seat.new.table_id ≡ seat.old.table_id }
        ensures view { seat.new.me.0 ≡ seat.old.me.0 }
        ensures state { StandsWith R.remembered seat.new.me (Purge seat.new.me.0.number moment) }
        ensures drops { Drops seat.old.me.0.seen seat.old.me.0.number moment slice result }
    {
        seat.slot_mut(&self.table.shared, 0).purge(moment, slice)
    }

    /// Takes a turn, purges at the moment, in seconds since 1970, and gives the turn up with the entry
    /// of a pass of this number. Answers the ticket with what was dropped and left, or the ticket word
    /// of a worn gate.
    fn purge_at<W: Wait>(
        &self,
        rt: &W,
        seat: &mut Seat<R, View>,
        number: u32,
        moment: u32,
        slice: u32,
    ) -> Result<(u64, Purged), u64>
        requires gate { seat.old.table_id ≡ self.now.table }
        requires rests { Rests seat.old.me }
        requires number { seat.old.me.0.number ≡ number }
        ensures gate { seat.new.table_id ≡ seat.old.table_id }
        ensures worn { IfErr result (FindsWorn seat.old.me seat.new.me) }
        ensures purged { IfOk result (λ answer.
            HasPurged seat.old.me seat.new.me answer.0 moment slice answer.1) }
    {
        let ticket = self.take_turn(rt, seat)?;
        let purged = self.purge_state(seat, moment, slice);
        let entry = Event::Purge {
            pass: number,
            moment,
        };
        self.leave::<Brand>(seat, entry);
        Ok((ticket, purged))
    }

    /// Purges the state: raises its floor to the moment, in seconds since 1970, where it is lower, and
    /// drops the pairs of the `slice` least expiries below the new floor, of all where there are no
    /// more; `u32::MAX` bounds nothing. It waits for the calls that drew a ticket before, and makes one
    /// entry, with the number of the pass. Where the gate is worn, it makes none, and answers the
    /// ticket word that it read. It takes no memory.
    pub fn purge<W: Wait>(
        &self,
        rt: &W,
        pass: &mut Pass,
        moment: u32,
        slice: u32,
    ) -> Result<Purged, Worn>
        requires gate { pass.old.gate ≡ self.now }
        ensures purged { IfOk result (Purges pass.old pass.new moment slice) }
        ensures worn { IfErr result (λ worn. IsWorn pass.old pass.new worn.0) }
    {
        let mut seat = mem::replace(&mut pass.badge, Badge::blank()).into_seat();
        let answer = self.purge_at(rt, &mut seat, pass.number, moment, slice);
        pass.badge = seat.into_badge();
        match answer {
            Ok((ticket, purged)) => {
                pass.length = ticket - self.origin.start + 1;
                Ok(purged)
            }
            Err(ticket) => Err(Worn(ticket)),
        }
    }
}
