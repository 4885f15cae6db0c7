//! Cutting a pass in two, and taking one into another.

ghost use Rattle.std.specs.Prelude.{◌≡◌, ◌<◌, ◌≤◌, [], IfOk, OnOk, OnErr};
ghost use Rattle.replay_gate.specs.Meets.{Meets};
ghost use Rattle.replay_gate.specs.PassState.{kept_pass, given_pass};
ghost use Rattle.replay_gate.specs.Seats.{Rests, HasMet};
ghost use Rattle.replay_gate.specs.Views.{left_part, given_part};

use crate::gate::{Gate, TICKETS};
use crate::pass::Pass;
use crate::plays::{Compare, Counted, Give, Merge};
use crate::view::View;
use atomic_table::{Badge, Seat};
use munge_types::{NoMemory, Replay};
use std::marker::Brand;
use std::mem;

impl<R: Replay + Drop> Gate<R> {
    /// Cuts a seat with the last `count` numbers off this one.
    fn cut<C: Counted>(&self, seat: &mut Seat<R, View>, count: u32) -> Seat<R, View>
        requires gate { seat.old.table_id ≡ self.now.table }
        requires rests { Rests seat.old.me }
        requires count { count ≡ C.count }
        requires several { 0 < C.count }
        requires spare { C.count ≤ seat.old.me.0.spare }
        ensures gate { seat.new.table_id ≡ seat.old.table_id }
        ensures given_gate { result.table_id ≡ seat.old.table_id }
        ensures left { seat.new.me ≡ (left_part C.count seat.old.me.0, []) }
        ensures given { result.me ≡ (given_part C.count seat.old.me.0, []) }
    {
        // The count is for the proof alone: `C` has it.
        let _ = count;
        self.table.shared.split_seat::<Give<C>>(seat)
    }

    /// Gives the last `count` of the numbers that the pass can give away, from 1 to all of them, to a
    /// new pass, which has seen what the pass has seen. The first of them is the new pass's own. Where
    /// it answers `NoMemory`, the pass is as before.
    pub fn split(&self, pass: &mut Pass, count: u32) -> Result<Pass, NoMemory>
        requires gate { pass.old.gate ≡ self.now }
        requires count { (1 ≤ count) × (count ≤ pass.old.spare) }
        ensures given { IfOk result (λ given. given ≡ given_pass count pass.old) }
        ensures kept { OnOk result (pass.new ≡ kept_pass count pass.old) }
        ensures refused { OnErr result (pass.new ≡ pass.old) }
    {
        let number = pass.number + pass.spare - count + 1;
        let length = pass.length;
        let mut seat = mem::replace(&mut pass.badge, Badge::blank()).into_seat();
        let given = self.cut::<Brand>(&mut seat, count);
        pass.badge = seat.into_badge();
        pass.spare -= count;
        pass.share -= count;
        Ok(Pass {
            badge: given.into_badge(),
            number,
            spare: count - 1,
            share: count,
            length,
        })
    }

    /// Takes the other seat into this one. The load after it is where the proof learns that what both
    /// have seen are fronts of one history.
    fn join(&self, seat: &mut Seat<R, View>, other: Seat<R, View>)
        requires gate { (seat.old.table_id ≡ self.now.table) × (other.table_id ≡ self.now.table) }
        requires rests { Rests seat.old.me × Rests other.me }
        ensures gate { seat.new.table_id ≡ seat.old.table_id }
        ensures met { HasMet seat.old.me.0 other.me.0 seat.new.me }
    {
        self.table.shared.join_seat::<Merge>(seat, other);
        self.table.shared.load::<Compare>(seat, TICKETS);
    }

    /// Takes the second pass into the first, which then has the numbers of both, of which none is in
    /// common, and has seen what either has seen. It takes no memory.
    pub fn meet(&self, first: Pass, second: Pass) -> Pass
        requires gate { (first.gate ≡ self.now) × (second.gate ≡ self.now) }
        ensures { Meets first second result }
    {
        let Pass {
            badge,
            number,
            spare,
            share,
            length,
        } = first;
        let Pass {
            badge: other,
            number: _,
            spare: _,
            share: more,
            length: further,
        } = second;
        let mut seat = badge.into_seat();
        self.join(&mut seat, other.into_seat());
        Pass {
            badge: seat.into_badge(),
            number,
            spare,
            share: share + more,
            length: length.max(further),
        }
    }
}
