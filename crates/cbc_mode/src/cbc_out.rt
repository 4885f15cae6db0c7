//! Encryption of a message that comes in parts (NIST SP 800-38A, section 6.2), into room that was
//! reserved before.

ghost use Rattle.std.specs.Prelude.{◌≡◌, ◌+◌, ◌%◌, ◌<◌, ◌≤◌, ◌++◌, [], ℕ, List, length};
ghost use Rattle.aes_block.specs.DataKey.{key_of};
ghost use Rattle.cbc_mode.specs.Cbc.{cbc};
ghost use Rattle.cbc_mode.specs.Chaining.{Chains};
ghost use Rattle.cbc_mode.specs.Padding.{padded};
ghost use Rattle.cbc_mode.specs.WholeBlocks.{beyond, completed, whole_blocks};

use crate::block::BLOCK;
use crate::padding::pad_size;
use crate::sealing::{seal_chained, seal_in_place};
use aes_block::DataKey;
use munge_types::Put;
use std::marker::Model;

/// The bytes that are encrypted at once: whole blocks, and whole groups of base64, so that what takes
/// them by threes has as many left over behind such a piece as before it.
const PIECE: usize = 768;

/// The encryption of a message that comes in parts. Each part's whole blocks go out as they are
/// completed, and fewer than 16 bytes wait for the next part.
///
/// Contracts see what is kept between two parts, and say of it which message it has come to the end
/// of (`Chains`).
#[derive(Drop)]
pub struct CbcOut<'k> {
    key: &'k DataKey,
    before: [u8; BLOCK],
    waiting: [u8; BLOCK],
    count: usize,
}

impl<'k> Model for CbcOut<'k> {
    ghost use Rattle.std.specs.Prelude.{◌<◌, take};
    ghost use Rattle.aes_block.specs.DataKey.{key_of};
    ghost use Rattle.cbc_mode.specs.Chaining.{Chaining};

    ghost Value = { Chaining };

    ghost view = { λ out. record {
      key = key_of out.key.now;
      before = out.before;
      waiting = take out.count out.waiting;
    } };

    ghost invariant = { λ out. out.count < 16 };
}

impl<'k> CbcOut<'k> {
    /// The empty message, under the key and with the vector before the first block.
    pub fn new(key: &'k DataKey, iv: &[u8; 16]) -> CbcOut<'k>
        ensures { Chains result (key_of key.now) iv.now [] }
    {
        CbcOut {
            key,
            before: *iv,
            waiting: [0; BLOCK],
            count: 0,
        }
    }

    /// Adds a part to the message, and puts the blocks that it completes, encrypted.
    pub fn write<P: Put>(&mut self, part: &[u8], to: &mut P)
        requires { completed (length self.old.waiting) (length part.now) ≤ P.spare to.old }
        ensures chains { (key iv plain : List ℕ) → Chains self.old key iv plain
            → Chains self.new key iv (plain ++ part.now) }
        ensures appended { (key iv plain : List ℕ) → Chains self.old key iv plain
            → P.taken to.new ≡ P.taken to.old ++ beyond (cbc key iv (whole_blocks plain))
            (cbc key iv (whole_blocks (plain ++ part.now))) }
        ensures lowered { P.spare to.new + completed (length self.old.waiting) (length part.now)
            ≡ P.spare to.old }
        ensures same_base { P.base to.new ≡ P.base to.old }
    {
        self.advance(part, to);
    }

    /// The same, said of what was kept before: the part is chained behind that.
    fn advance<P: Put>(&mut self, part: &[u8], to: &mut P)
        requires { completed (length self.old.waiting) (length part.now) ≤ P.spare to.old }
        ensures chains { Chains self.new self.old.key self.old.before
            (self.old.waiting ++ part.now) }
        ensures appended { P.taken to.new ≡ P.taken to.old
            ++ cbc self.old.key self.old.before (whole_blocks (self.old.waiting ++ part.now)) }
        ensures lowered { P.spare to.new + completed (length self.old.waiting) (length part.now)
            ≡ P.spare to.old }
        ensures same_base { P.base to.new ≡ P.base to.old }
    {
        let size = self.waits() + part.len();
        if size < BLOCK {
            self.keep(part);
            return;
        }
        let (blocks, rest) = part.split_at(part.len() - size % BLOCK);
        self.write_blocks(blocks, to);
        self.keep(rest);
    }

    /// How many bytes wait.
    fn waits(&self) -> usize
        ensures size { result ≡ length self.now.waiting }
        ensures few { result < 16 }
    {
        self.count
    }

    /// Adds what completes whole blocks, and puts them, encrypted.
    fn write_blocks<P: Put>(&mut self, part: &[u8], to: &mut P)
        requires few { length self.old.waiting < 16 }
        requires whole { (length self.old.waiting + length part.now) % 16 ≡ 0 }
        requires room { length self.old.waiting + length part.now ≤ P.spare to.old }
        ensures chains { Chains self.new self.old.key self.old.before
            (self.old.waiting ++ part.now) }
        ensures appended { P.taken to.new ≡ P.taken to.old
            ++ cbc self.old.key self.old.before (self.old.waiting ++ part.now) }
        ensures lowered { P.spare to.new + (length self.old.waiting + length part.now)
            ≡ P.spare to.old }
        ensures same_base { P.base to.new ≡ P.base to.old }
    {
        let mut at = 0;
        'pieces: while at < part.len() {
            let end = part.len().min(at + (PIECE - self.waits()));
            self.write_piece(&part[at..end], to);
            at = end;
        }
    }

    /// The same for what fits a piece together with what waits.
    fn write_piece<P: Put>(&mut self, part: &[u8], to: &mut P)
        requires size { length self.old.waiting + length part.now ≤ 768 }
        requires whole { (length self.old.waiting + length part.now) % 16 ≡ 0 }
        requires room { length self.old.waiting + length part.now ≤ P.spare to.old }
        ensures key { self.new.key ≡ self.old.key }
        ensures none_waits { self.new.waiting ≡ [] }
        ensures goes_on { (rest : List ℕ)
            → cbc self.old.key self.old.before ((self.old.waiting ++ part.now) ++ rest)
            ≡ cbc self.old.key self.old.before (self.old.waiting ++ part.now)
            ++ cbc self.old.key self.new.before rest }
        ensures appended { P.taken to.new ≡ P.taken to.old
            ++ cbc self.old.key self.old.before (self.old.waiting ++ part.now) }
        ensures lowered { P.spare to.new + (length self.old.waiting + length part.now)
            ≡ P.spare to.old }
        ensures same_base { P.base to.new ≡ P.base to.old }
    {
        let mut buffer = [0; PIECE];
        let piece = &mut buffer[..self.count + part.len()];
        join(&self.waiting[..self.count], part, piece);
        seal_chained(self.key, &mut self.before, piece);
        to.put(piece);
        self.count = 0;
    }

    /// Keeps bytes that complete no block.
    fn keep(&mut self, part: &[u8])
        requires { length self.old.waiting + length part.now < 16 }
        ensures key { self.new.key ≡ self.old.key }
        ensures before { self.new.before ≡ self.old.before }
        ensures waiting { self.new.waiting ≡ self.old.waiting ++ part.now }
    {
        let count = self.count + part.len();
        self.waiting[self.count..count].copy_from_slice(part);
        self.count = count;
    }

    /// Puts the last block of the message, with its padding, encrypted.
    pub fn finish<P: Put>(self, to: &mut P)
        requires { 16 ≤ P.spare to.old }
        ensures appended { (key iv plain : List ℕ) → Chains self.entry key iv plain
            → P.taken to.new ≡ P.taken to.old ++ beyond (cbc key iv (whole_blocks plain))
            (cbc key iv (padded plain)) }
        ensures lowered { P.spare to.new + 16 ≡ P.spare to.old }
        ensures same_base { P.base to.new ≡ P.base to.old }
    {
        to.put(&self.last_block());
    }

    /// What waits, with its padding, encrypted.
    fn last_block(&self) -> [u8; BLOCK]
        ensures { result ≡ cbc self.now.key self.now.before (padded self.now.waiting) }
    {
        let mut block = [0; BLOCK];
        pad(&self.waiting[..self.count], &mut block);
        seal_in_place(self.key, &self.before, &mut block);
        block
    }
}

/// Writes one slice behind the other.
fn join(front: &[u8], back: &[u8], to: &mut [u8])
    requires { length to.old ≡ length front.now + length back.now }
    ensures { to.new ≡ front.now ++ back.now }
{
    let (first, second) = to.split_at_mut(front.len());
    first.copy_from_slice(front);
    second.copy_from_slice(back);
}

/// Writes fewer bytes than a block, and their padding, over a block.
fn pad(bytes: &[u8], block: &mut [u8])
    requires few { length bytes.now < 16 }
    requires block { length block.old ≡ 16 }
    ensures { block.new ≡ padded bytes.now }
{
    let (front, back) = block.split_at_mut(bytes.len());
    front.copy_from_slice(bytes);
    back.fill(pad_size(bytes.len()));
}
