//! Requests to the daemon, and the replies that fit them.

ghost use Rattle.std.specs.Prelude.{◌≡◌, ◌≢◌, ◌≤◌, Err, IfErr, IfOk, length};
ghost use Rattle.wire_msg.specs.FrameHead.{body_limit};
ghost use Rattle.wire_msg.specs.Spelling.{frame_of};
ghost use Rattle.wire_msg.specs.declared.message.Message.TheVariants.{
  DecodeReply,
  DecodeRequest,
  EncodeReply,
  EncodeRequest,
};
ghost use Rattle.munge_tools.specs.Exchange.{Heard, NotHeard};
ghost use Rattle.munge_tools.specs.Fitting.{FitsDecode, FitsDecodeSaid, FitsEncode, FitsEncodeSaid};
ghost use Rattle.munge_tools.specs.Munge.{payload_limit};
ghost use Rattle.munge_tools.specs.Wire.{WireFailed, WireSound, seen_by};

use crate::exchange::{Unheard, exchange};
use crate::fitting::{decode_said, encode_said};
use byte_io::Wire;
use std::alloc::Global;
use wire_msg::laws::{frame_has_one_message, no_frame_goes_on_to_another};
use wire_msg::{Bytes, DecodeSaid, EncodeAsk, EncodeSaid, Message};

/// Asks the daemon at the socket of this path to seal, over a new connection.
pub fn ask_to_seal<W: Wire>(
    alloc: Global,
    wire: &mut W,
    path: &str,
    ask: EncodeAsk,
) -> Result<EncodeSaid, Unheard>
    requires { length ask.payload ≤ payload_limit }
    ensures fits { IfOk result FitsEncodeSaid }
    ensures heard { let seen = seen_by W.dialled W.replies W.left W.taken W.ends
        W.dial_faults W.read_faults W.write_faults in
        IfOk result (λ said. Heard path.now (frame_of (EncodeRequest ask))
        (seen wire.old) (seen wire.new) (EncodeReply said)) }
    ensures unheard { let seen = seen_by W.dialled W.replies W.left W.taken W.ends
        W.dial_faults W.read_faults W.write_faults in
        IfErr result (NotHeard FitsEncode path.now (frame_of (EncodeRequest ask))
        (seen wire.old) (seen wire.new)) }
    ensures fault { let seen = seen_by W.dialled W.replies W.left W.taken W.ends
        W.dial_faults W.read_faults W.write_faults in
        result ≡ Err Unheard.Unreached → WireFailed (seen wire.old) (seen wire.new) }
    ensures sound { let seen = seen_by W.dialled W.replies W.left W.taken W.ends
        W.dial_faults W.read_faults W.write_faults in
        result ≢ Err Unheard.Unreached → WireSound (seen wire.old) (seen wire.new) }
{
    frame_has_one_message();
    no_frame_goes_on_to_another();
    match exchange(alloc, wire, path, &Message::EncodeRequest(ask)) {
        Ok(message) => match encode_said(message) {
            Some(said) => Ok(said),
            None => Err(Unheard::BadReply),
        },
        Err(why) => Err(why),
    }
}

/// Asks the daemon at the socket of this path to open the credential with this text, over a new
/// connection.
pub fn ask_to_open<W: Wire>(
    alloc: Global,
    wire: &mut W,
    path: &str,
    text: Bytes,
) -> Result<DecodeSaid, Unheard>
    requires { length text ≤ body_limit }
    ensures fits { IfOk result FitsDecodeSaid }
    ensures heard { let seen = seen_by W.dialled W.replies W.left W.taken W.ends
        W.dial_faults W.read_faults W.write_faults in
        IfOk result (λ said. Heard path.now (frame_of (DecodeRequest text))
        (seen wire.old) (seen wire.new) (DecodeReply said)) }
    ensures unheard { let seen = seen_by W.dialled W.replies W.left W.taken W.ends
        W.dial_faults W.read_faults W.write_faults in
        IfErr result (NotHeard FitsDecode path.now (frame_of (DecodeRequest text))
        (seen wire.old) (seen wire.new)) }
    ensures fault { let seen = seen_by W.dialled W.replies W.left W.taken W.ends
        W.dial_faults W.read_faults W.write_faults in
        result ≡ Err Unheard.Unreached → WireFailed (seen wire.old) (seen wire.new) }
    ensures sound { let seen = seen_by W.dialled W.replies W.left W.taken W.ends
        W.dial_faults W.read_faults W.write_faults in
        result ≢ Err Unheard.Unreached → WireSound (seen wire.old) (seen wire.new) }
{
    frame_has_one_message();
    no_frame_goes_on_to_another();
    match exchange(alloc, wire, path, &Message::DecodeRequest(text)) {
        Ok(message) => match decode_said(message) {
            Some(said) => Ok(said),
            None => Err(Unheard::BadReply),
        },
        Err(why) => Err(why),
    }
}
