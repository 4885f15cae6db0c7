//! What a pass knows of its gate. It is for proofs alone: no value of these types is made.

use munge_types::Event;
use std::collections::LinkedList;

/// Where a pass stands in the call that it is in.
pub enum Stage {
    /// It is in no call.
    Resting,
    /// It has read a ticket word that is not worn, and has no ticket yet.
    Asking,
    /// It has this ticket, and not yet the turn.
    Waiting(u64),
    /// It has the turn, by this ticket. No other pass can add an entry.
    Serving(u64),
    /// It has just taken another pass in: what the two had seen.
    Meeting(Part, Part),
}

/// The numbers of a pass, and what it has seen.
pub struct Part {
    pub numbers: LinkedList<u32>,
    pub seen: LinkedList<Event>,
}

/// What a pass knows.
pub struct View {
    /// At which number the gate's ticket word and serving word began.
    pub start: u64,
    /// How many passes the gate may have.
    pub passes: u32,
    /// The pass's own number.
    pub number: u32,
    /// Its own number and those of the passes that were met into it.
    pub numbers: LinkedList<u32>,
    /// How many numbers after its own it may give away.
    pub spare: u32,
    /// How many of the gate's passes it stands for.
    pub share: u32,
    /// The greatest ticket word that a call of it has read.
    pub highest: u64,
    /// A front of the gate's history, with every entry by its numbers.
    pub seen: LinkedList<Event>,
    pub stage: Stage,
}
