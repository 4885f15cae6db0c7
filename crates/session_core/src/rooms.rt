//! The buffers of one who serves requests.

ghost use Rattle.std.specs.Prelude.{◌≡◌, ◌≤◌, IfOk, length, min};

use crate::request::PIECE_SIZE;
use munge_types::NoMemory;
use std::alloc::Global;
use std::mem::replace;
use wire_msg::Message;

/// The buffers of one who serves requests, who keeps them between these, so that their memory is not
/// given back and taken anew for each. They grow as far as a request asks for. What they hold is
/// never looked at again.
#[derive(Debug, Drop)]
pub struct Rooms {
    alloc: Global,
    /// A piece of a request is read into it, and then a text is opened in it.
    work: Vec<u8>,
    /// The text or payload of the next request is kept in it.
    body: Vec<u8>,
    /// The next reply is made in it.
    frame: Vec<u8>,
}

impl Rooms {
    /// The buffers of one who has served nothing yet. It takes no memory.
    pub fn new(alloc: Global) -> Rooms {
        Rooms {
            alloc,
            work: Vec::new(alloc),
            body: Vec::new(alloc),
            frame: Vec::new(alloc),
        }
    }

    /// What to read a piece of a request into, of which so many bytes are wanted: all of them, or the
    /// most that one read asks for.
    pub(crate) fn piece(&mut self, wanted: usize) -> Result<&mut [u8], NoMemory>
        ensures { IfOk result (λ piece. length piece.now ≡ min wanted PIECE_SIZE) }
    {
        self.work(wanted.min(PIECE_SIZE))
    }

    /// A buffer of this many bytes.
    pub(crate) fn work(&mut self, size: usize) -> Result<&mut [u8], NoMemory>
        ensures { IfOk result (λ work. length work.now ≡ size) }
    {
        if self.work.len() < size {
            self.work.reserve_exact(size - self.work.len())?;
            self.work.resize(size, 0)?;
        }
        Ok(&mut self.work[..size])
    }

    /// Gives away the memory for the next request's text or payload.
    pub(crate) fn body(&mut self) -> Vec<u8> {
        replace(&mut self.body, Vec::new(self.alloc))
    }

    /// Gives away the memory for the next reply.
    pub(crate) fn frame(&mut self) -> Vec<u8> {
        replace(&mut self.frame, Vec::new(self.alloc))
    }

    /// Takes back the memory of a request's text or payload.
    pub(crate) fn keep_body(&mut self, request: Message) {
        match request {
            Message::EncodeRequest(ask) => self.body = ask.payload.into_vec(),
            Message::DecodeRequest(text) => self.body = text.into_vec(),
            Message::EncodeReply(_) | Message::DecodeReply(_) | Message::Stop | Message::Bye(_) =>
                {}
        }
    }

    /// Takes back the memory of a reply.
    pub(crate) fn keep_frame(&mut self, reply: Vec<u8>) {
        self.frame = reply;
    }
}
