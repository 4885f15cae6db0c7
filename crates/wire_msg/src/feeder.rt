//! Frames from pieces of a stream.

ghost use Rattle.std.specs.Prelude.{◌≡◌, ℕ, ◌+◌, ◌<◌, ◌≤◌, ◌-◌, List, [], ◌++◌, length, take, Ok, IfOk, OnErr};
ghost use Rattle.wire_msg.specs.Begun.{IsBegunBy};
ghost use Rattle.munge_types.specs.Bytes.{IsBytes};
ghost use Rattle.wire_msg.specs.Feeding.{Answers, Leaves, bytes_with};
ghost use Rattle.wire_msg.specs.Frame.{IsFrame, IsNoFrame, IsUnfinished, LeadsToFrame};
ghost use Rattle.wire_msg.specs.FrameHead.{head_size};
ghost use Rattle.wire_msg.specs.Head.{IsHead};
ghost use Rattle.wire_msg.specs.declared.fed.Fed.TheVariants.{Bad};

use crate::begun::Begun;
use crate::head::{Seen, head_in};
use crate::heads::HEAD_SIZE;
use crate::short_bytes::ShortBytes;
use crate::{Fed, Side};
use munge_types::NoMemory;
use std::alloc::Global;
use std::marker::Model;
use std::mem::replace;

/// Takes the bytes of a stream in pieces of any size, and gives the messages of one side. Contracts
/// see the side, the place where the frame begins whose bytes come now, and those that came.
#[derive(Debug, Drop)]
pub struct Feeder {
    alloc: Global,
    side: Side,
    /// Where the frame begins whose bytes come now.
    begins: u64,
    /// The bytes of its head, until that is whole.
    front: ShortBytes,
    /// The frame, from then on.
    begun: Option<Begun>,
    /// What the next body is kept in, as far as its memory goes.
    spare: Vec<u8>,
}

impl Model for Feeder {
    ghost use Rattle.wire_msg.specs.Begun.{IsWaiting, came};
    ghost use Rattle.wire_msg.specs.Feeding.{Feeding};

    ghost Value = { Feeding };

    ghost view = { λ feeder. record {
      side = feeder.side;
      begins = feeder.begins;
      unfinished = came feeder.front feeder.begun;
    } };

    ghost invariant = { λ feeder. IsWaiting feeder.side feeder.front feeder.begun };
}

impl Feeder {
    /// A feeder of the messages of this side, at the beginning of their stream. It takes no memory.
    pub fn new(alloc: Global, side: Side) -> Feeder
        ensures side { result.side ≡ side }
        ensures begins { result.begins ≡ 0 }
        ensures unfinished { result.unfinished ≡ [] }
    {
        Feeder {
            alloc,
            side,
            begins: 0,
            front: ShortBytes::new(),
            begun: None,
            spare: Vec::new(alloc),
        }
    }

    /// Gives it the memory of this vector for the next text or payload. What the vector held is
    /// dropped. It takes no memory.
    pub fn lend(&mut self, spare: Vec<u8>)
        ensures { self.new ≡ self.old }
    {
        self.spare = spare;
    }

    /// Where the frame begins whose bytes come now: how many bytes the whole frames before had. It
    /// stays at 18446744073709551615 once there. It takes no memory.
    pub fn place(&self) -> u64
        ensures { result ≡ self.now.begins }
    {
        self.begins
    }

    /// Takes the next bytes of the stream, up to the end of a frame. The memory for a body is taken
    /// once, when the head is whole, as far as what was lent does not do, and a text or payload is
    /// copied once, from the piece. After want of memory nothing was taken.
    pub fn feed(&mut self, piece: &[u8]) -> Result<Fed, NoMemory>
        ensures answers { IfOk result (Answers self.old piece.now) }
        ensures leaves { IfOk result (λ fed. Leaves self.old piece.now fed self.new) }
        ensures side { self.new.side ≡ self.old.side }
        ensures unchanged { OnErr result (self.new ≡ self.old) }
        ensures wants_memory { OnErr result
            (LeadsToFrame self.old.side (bytes_with self.old piece.now)) }

        // So it is after Bad.
        ensures bad { IsNoFrame self.old.side (bytes_with self.old piece.now)
            → result ≡ Ok (Bad self.old.begins) }
    {
        if let Some(begun) = self.begun.take() {
            return Ok(self.go_on(begun, piece, 0));
        }
        let front = front_with(&self.front, piece);
        match head_in(self.side, front.bytes()) {
            Seen::Whole(head) => {
                let spare = replace(&mut self.spare, Vec::new(self.alloc));
                let begun = Begun::new(spare, head)?;
                let taken = front.len() - self.front.len();
                Ok(self.go_on(begun, piece, taken))
            }
            Seen::Part => {
                self.front = front;
                Ok(Fed::More)
            }
            Seen::Broken => {
                self.front = front;
                Ok(Fed::Bad(self.begins))
            }
        }
    }

    /// How many more bytes a frame needs at least. Until its head is whole these are the bytes that
    /// the head lacks, and then those that the frame lacks. After `Fed::Bad` it means nothing. It
    /// takes no memory.
    pub fn wanted(&self) -> usize
        ensures head { length self.now.unfinished < head_size
            → result + length self.now.unfinished ≡ head_size }
        ensures least { (piece : List ℕ) → IsFrame self.now.side (bytes_with self.now piece)
            → result ≤ length piece }
        ensures enough { IsUnfinished self.now.side self.now.unfinished
            → head_size ≤ length self.now.unfinished → (piece : List ℕ) → IsBytes piece
            → length piece ≡ result → IsFrame self.now.side (bytes_with self.now piece) }
        ensures fewer { IsUnfinished self.now.side self.now.unfinished
            → head_size ≤ length self.now.unfinished → (piece : List ℕ) → IsBytes piece
            → length piece < result → IsUnfinished self.now.side (bytes_with self.now piece) }
        ensures some { IsUnfinished self.now.side self.now.unfinished → 1 ≤ result }
    {
        match &self.begun {
            Some(begun) => begun.missing(),
            None => HEAD_SIZE - self.front.len(),
        }
    }

    /// Goes on with a frame whose head is whole, after so many bytes of the piece.
    fn go_on(&mut self, mut begun: Begun, piece: &[u8], taken: usize) -> Fed
        requires head { IsHead self.old.side begun.kind begun.size }
        requires taken { taken ≤ length piece.now }
        ensures answers { (unfinished : List ℕ) → IsBegunBy unfinished piece.now taken begun
            → Answers (record self.old { unfinished = unfinished }) piece.now result }
        ensures leaves { (unfinished : List ℕ) → IsBegunBy unfinished piece.now taken begun
            → Leaves (record self.old { unfinished = unfinished }) piece.now result self.new }
        ensures side { self.new.side ≡ self.old.side }
    {
        let rest = &piece[taken..];
        let count = begun.missing().min(rest.len());
        begun.take(&rest[..count]);
        self.front = ShortBytes::new();
        if begun.missing() > 0 {
            self.begun = Some(begun);
            return Fed::More;
        }
        self.begun = None;
        self.begins = self.begins.saturating_add(begun.frame_size());
        Fed::Message {
            message: begun.finish(),
            used: taken + count,
        }
    }
}

/// The first bytes of a frame, and then those of the piece, up to the end of a head.
fn front_with(front: &ShortBytes, piece: &[u8]) -> ShortBytes
    requires { length front.now ≤ head_size }
    ensures { result ≡ front.now ++ take (head_size - length front.now) piece.now }
{
    let count = piece.len().min(HEAD_SIZE - front.len());
    let mut all = ShortBytes::new();
    all.put(front.bytes());
    all.put(&piece[..count]);
    all
}
