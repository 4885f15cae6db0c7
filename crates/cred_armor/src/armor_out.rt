//! An armour that is written part by part, straight into room that was reserved before.

ghost use Rattle.std.specs.Prelude.{◌≡◌, ◌+◌, ◌%◌, ◌<◌, ◌≤◌, ◌++◌, [], length, take};
ghost use Rattle.base64.specs.GeneralPurpose.{IsBytes};
ghost use Rattle.cred_armor.specs.Armoring.{armor_size};
ghost use Rattle.cred_armor.specs.CredentialText.{armor_of};

use crate::encoding::{GROUP, put_base64, put_group};
use crate::marks::{CLOSING, OPENING};
use munge_types::{Put, Room};
use std::marker::Model;

/// An armour in the making, behind what the room held before it. Whole groups of three bytes are
/// spelled as they are completed, and fewer than three wait for the next part.
#[derive(Drop)]
pub struct ArmorOut {
    out: Room,
    start: usize,
    waiting: [u8; GROUP],
    count: usize,
    left: usize,
}

impl Model for ArmorOut {
    ghost use Rattle.std.specs.Prelude.{◌++◌, take};
    ghost use Rattle.cred_armor.specs.Armoring.{Armoring, IsBegun, spelled_from};

    ghost Value = { Armoring };

    ghost view = { λ armor. record {
      base = take armor.start armor.out.bytes;
      taken = spelled_from armor.start armor.out.bytes ++ take armor.count armor.waiting;
      spare = armor.left;
    } };

    ghost invariant = { λ armor.
        IsBegun armor.out.bytes armor.start armor.count armor.left armor.out.spare };
}

impl ArmorOut {
    /// The armour of no bytes yet, for a body of up to this many, behind what the room holds.
    pub fn new(out: Room, n: usize) -> ArmorOut
        requires within { n ≤ 2097152 }
        requires room { armor_size n ≤ out.spare }
        ensures base { result.base ≡ out.bytes }
        ensures taken { result.taken ≡ [] }
        ensures spare { result.spare ≡ n }
    {
        let mut out = out;
        let start = out.filled();
        out.put(OPENING.as_bytes());
        ArmorOut {
            out,
            start,
            waiting: [0; GROUP],
            count: 0,
            left: n,
        }
    }

    /// The room, with the armour of all parts behind what it held before.
    pub fn finish(self) -> Room
        ensures armored { result.bytes ≡ self.base ++ armor_of self.taken }
        ensures bytes { IsBytes self.taken }
    {
        let ArmorOut {
            mut out,
            start: _,
            waiting,
            count,
            left: _,
        } = self;
        put_group(&mut out, &waiting[..count]);
        out.put(CLOSING.as_bytes());
        out
    }

    /// How many bytes wait.
    fn waits(&self) -> usize
        ensures { result ≡ length self.now.taken % 3 }
    {
        self.waiting[..self.count].len()
    }

    /// Takes bytes that complete no group.
    fn keep(&mut self, part: &[u8])
        requires few { length self.old.taken % 3 + length part.now < 3 }
        requires room { length part.now ≤ self.old.spare }
        ensures base { self.new.base ≡ self.old.base }
        ensures taken { self.new.taken ≡ self.old.taken ++ part.now }
        ensures spare { self.new.spare + length part.now ≡ self.old.spare }
    {
        append(&mut self.waiting, self.count, part);
        self.count += part.len();
        self.left -= part.len();
    }

    /// Takes bytes that complete a group or more, and spells the groups.
    fn spell(&mut self, part: &[u8])
        requires some { 3 ≤ length self.old.taken % 3 + length part.now }
        requires room { length part.now ≤ self.old.spare }
        ensures base { self.new.base ≡ self.old.base }
        ensures taken { self.new.taken ≡ self.old.taken ++ part.now }
        ensures spare { self.new.spare + length part.now ≡ self.old.spare }
    {
        let (front, behind) = part.split_at(GROUP - self.count);
        let (groups, rest) = behind.split_at(behind.len() - behind.len() % GROUP);
        append(&mut self.waiting, self.count, front);
        put_group(&mut self.out, &self.waiting);
        put_base64(&mut self.out, groups);
        append(&mut self.waiting, 0, rest);
        self.count = rest.len();
        self.left -= part.len();
    }
}

impl Put for ArmorOut {
    ghost taken = { λ armor. armor.taken };

    ghost base = { λ armor. armor.base };

    ghost spare = { λ armor. armor.spare };

    fn put(&mut self, part: &[u8]) {
        if self.waits() + part.len() < GROUP {
            self.keep(part);
        } else {
            self.spell(part);
        }
    }
}

/// Writes the part behind the first bytes of a group.
fn append(group: &mut [u8; GROUP], count: usize, part: &[u8])
    requires { count + length part.now ≤ 3 }
    ensures { take (count + length part.now) group.new ≡ take count group.old ++ part.now }
{
    group[count..count + part.len()].copy_from_slice(part);
}
