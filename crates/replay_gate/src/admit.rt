//! Looking a pair up on a gate.

ghost use Rattle.std.specs.Prelude.{◌≡◌, IfOk, IfErr, OnOk, OnErr, MatchResult};
ghost use Rattle.munge_types.specs.History.{verdict};
ghost use Rattle.munge_types.specs.declared.history.Event.TheVariants.{Admit, Idle};
ghost use Rattle.munge_types.specs.declared.history.Verdict.TheVariants.{Accepted};
ghost use Rattle.replay_gate.specs.Answers.{Answers, Refuses};
ghost use Rattle.replay_gate.specs.Seats.{Rests, FindsWorn, StandsForSeen, StandsWith, HasAnswered, HasIdled};

use crate::gate::Gate;
use crate::pass::Pass;
use crate::refused::{Admitted, GateRefused};
use crate::view::View;
use atomic_table::{Badge, Seat};
use munge_types::{Event, NoMemory, Pair, Replay, Verdict};
use std::marker::Brand;
use std::mem;
use std::sync::Wait;

impl<R: Replay + Drop> Gate<R> {
    /// Looks the pair up at the moment, in seconds since 1970, in the state, which the seat holds while
    /// it has the turn.
    fn look_up(
        &self,
        seat: &mut Seat<R, View>,
        pair: &Pair,
        moment: u32,
    ) -> Result<Verdict, NoMemory>
        requires gate { seat.old.table_id ≡ self.now.table }
        requires state { StandsForSeen R.remembered seat.old.me }
        ensures gate { seat.new.table_id ≡ seat.old.table_id }
        ensures view { seat.new.me.0 ≡ seat.old.me.0 }
        ensures said { IfOk result (λ said. said ≡ verdict seat.old.me.0.seen pair.now moment) }
        ensures wanted { OnErr result (verdict seat.old.me.0.seen pair.now moment ≡ Accepted) }
        ensures admits { OnOk result
            (StandsWith R.remembered seat.new.me (Admit seat.new.me.0.number pair.now moment)) }
        ensures idles { OnErr result
            (StandsWith R.remembered seat.new.me (Idle seat.new.me.0.number)) }
    {
        seat.slot_mut(&self.table.shared, 0).admit(pair, moment)
    }

    /// Takes a turn, looks the pair up at the moment, in seconds since 1970, and gives the turn up with
    /// the entry of a pass of this number. Answers the ticket with what was said of the pair, or the
    /// ticket word of a worn gate.
    fn admit_at<W: Wait>(
        &self,
        rt: &W,
        seat: &mut Seat<R, View>,
        number: u32,
        pair: &Pair,
        moment: u32,
    ) -> Result<(u64, Result<Verdict, NoMemory>), u64>
        requires gate { seat.old.table_id ≡ self.now.table }
        requires rests { Rests seat.old.me }
        requires number { seat.old.me.0.number ≡ number }
        ensures gate { seat.new.table_id ≡ seat.old.table_id }
        ensures worn { IfErr result (FindsWorn seat.old.me seat.new.me) }
        ensures answered { IfOk result (λ answer. MatchResult answer.1
            (HasAnswered seat.old.me seat.new.me answer.0 pair.now moment)
            (λ _. HasIdled seat.old.me seat.new.me answer.0 pair.now moment)) }
    {
        let ticket = self.take_turn(rt, seat)?;
        match self.look_up(seat, pair, moment) {
            Ok(said) => {
                let entry = Event::Admit {
                    pass: number,
                    pair: *pair,
                    moment,
                };
                self.leave::<Brand>(seat, entry);
                Ok((ticket, Ok(said)))
            }
            Err(NoMemory) => {
                self.leave::<Brand>(seat, Event::Idle { pass: number });
                Ok((ticket, Err(NoMemory)))
            }
        }
    }

    /// Looks the pair up at the moment, in seconds since 1970, and enters it where it is accepted. It
    /// waits for the calls that drew a ticket before. It makes one entry, with the number of the pass:
    /// the look-up, or `Idle` where the pair would be accepted and there is no memory for it. Where the
    /// gate is worn, it makes none, and answers the ticket word that it read.
    pub fn admit<W: Wait>(
        &self,
        rt: &W,
        pass: &mut Pass,
        pair: &Pair,
        moment: u32,
    ) -> Result<Admitted, GateRefused>
        requires gate { pass.old.gate ≡ self.now }
        ensures answered { IfOk result (Answers pass.old pass.new pair.now moment) }
        ensures refused { IfErr result (Refuses pass.old pass.new pair.now moment) }
    {
        let mut seat = mem::replace(&mut pass.badge, Badge::blank()).into_seat();
        let answer = self.admit_at(rt, &mut seat, pass.number, pair, moment);
        pass.badge = seat.into_badge();
        let (ticket, said) = match answer {
            Ok(answer) => answer,
            Err(ticket) => return Err(GateRefused::Worn(ticket)),
        };
        let place = ticket - self.origin.start;
        pass.length = place + 1;
        match said {
            Ok(verdict) => Ok(Admitted { verdict, place }),
            Err(NoMemory) => Err(GateRefused::NoMemory),
        }
    }
}
