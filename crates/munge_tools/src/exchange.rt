//! One request to the daemon, and the reply to it.

ghost use Rattle.std.specs.Prelude.{◌≡◌, ◌≢◌, ◌≤◌, Err, IfErr, IfOk, length};
ghost use Rattle.wire_msg.specs.FrameHead.{body_limit};
ghost use Rattle.wire_msg.specs.Spelling.{body_of, frame_of};
ghost use Rattle.munge_tools.specs.Exchange.{AnyReply, Heard, NotHeard};
ghost use Rattle.munge_tools.specs.Wire.{WireFailed, WireSound, seen_by};

use crate::reply::read_reply;
use byte_io::{AllWritten, Wire, write_all};
use std::alloc::Global;
use wire_msg::laws::just_one_holds;
use wire_msg::{FrameRefused, Message, frame};

/// The most bytes that one read of a reply asks for.
const PIECE_SIZE: usize = 65_536;

/// Why no reply came that fits.
#[derive(Clone, Copy, Debug, PartialEq, Eq)]
pub enum Unheard {
    /// A dial, a read or a write failed.
    Unreached,
    /// What came is no such reply.
    BadReply,
    /// No memory was left.
    NoMemory,
}

/// Dials the socket of this path, sends a request and reads one reply of any kind. The memory for
/// the request is taken before the dial.
pub fn exchange<W: Wire>(
    alloc: Global,
    wire: &mut W,
    path: &str,
    request: &Message,
) -> Result<Message, Unheard>
    requires { length (body_of request.now) ≤ body_limit }
    ensures heard { let seen = seen_by W.dialled W.replies W.left W.taken W.ends
        W.dial_faults W.read_faults W.write_faults in
        IfOk result (Heard path.now (frame_of request.now) (seen wire.old) (seen wire.new)) }
    ensures unheard { let seen = seen_by W.dialled W.replies W.left W.taken W.ends
        W.dial_faults W.read_faults W.write_faults in
        IfErr result (NotHeard AnyReply path.now (frame_of request.now)
        (seen wire.old) (seen wire.new)) }
    ensures fault { let seen = seen_by W.dialled W.replies W.left W.taken W.ends
        W.dial_faults W.read_faults W.write_faults in
        result ≡ Err Unheard.Unreached → WireFailed (seen wire.old) (seen wire.new) }
    ensures sound { let seen = seen_by W.dialled W.replies W.left W.taken W.ends
        W.dial_faults W.read_faults W.write_faults in
        result ≢ Err Unheard.Unreached → WireSound (seen wire.old) (seen wire.new) }
{
    let request = match frame(alloc, request) {
        Ok(request) => request,
        Err(FrameRefused::TooLong(_)) => unreachable!(),
        Err(FrameRefused::NoMemory) => return Err(Unheard::NoMemory),
    };
    let Ok(mut buffer) = vec![in alloc; 0u8; PIECE_SIZE] else {
        return Err(Unheard::NoMemory);
    };
    let buffer = buffer.as_mut_slice();
    over_wire(alloc, wire, path, request.as_slice(), buffer)
}

/// Dials the socket of this path, sends a frame and reads one reply of any kind, by pieces of the
/// buffer's size at most.
fn over_wire<W: Wire>(
    alloc: Global,
    wire: &mut W,
    path: &str,
    request: &[u8],
    buffer: &mut [u8],
) -> Result<Message, Unheard>
    requires { 1 ≤ length buffer.old }
    ensures heard { let seen = seen_by W.dialled W.replies W.left W.taken W.ends
        W.dial_faults W.read_faults W.write_faults in
        IfOk result (Heard path.now request.now (seen wire.old) (seen wire.new)) }
    ensures unheard { let seen = seen_by W.dialled W.replies W.left W.taken W.ends
        W.dial_faults W.read_faults W.write_faults in
        IfErr result (NotHeard AnyReply path.now request.now (seen wire.old) (seen wire.new)) }
    ensures fault { let seen = seen_by W.dialled W.replies W.left W.taken W.ends
        W.dial_faults W.read_faults W.write_faults in
        result ≡ Err Unheard.Unreached → WireFailed (seen wire.old) (seen wire.new) }
    ensures sound { let seen = seen_by W.dialled W.replies W.left W.taken W.ends
        W.dial_faults W.read_faults W.write_faults in
        result ≢ Err Unheard.Unreached → WireSound (seen wire.old) (seen wire.new) }
{
    just_one_holds();
    let Ok(()) = wire.dial(path) else {
        return Err(Unheard::Unreached);
    };
    match write_all(wire, request) {
        AllWritten::All => {}
        AllWritten::Failed(_) => return Err(Unheard::Unreached),
    }
    match read_reply(alloc, wire, buffer) {
        Ok(message) => Ok(message),
        Err(why) => Err(why),
    }
}
