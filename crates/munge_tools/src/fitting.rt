//! Replies that fit their requests.

ghost use Rattle.std.specs.Prelude.{◌≡◌, IfNone, IfSome, is_some};
ghost use Rattle.wire_msg.specs.declared.message.Message.TheVariants.{DecodeReply, EncodeReply};
ghost use Rattle.munge_tools.specs.Fitting.{
  FitsDecode,
  FitsDecodeSaid,
  FitsEncode,
  FitsEncodeSaid,
  agrees,
  is_encode_status,
  shows_content,
};

use wire_msg::{DecodeSaid, EncodeSaid, Message};

/// What became of sealing, where the message is a reply that says it and fits.
pub fn encode_said(message: Message) -> Option<EncodeSaid>
    ensures said { IfSome result (λ said. message ≡ EncodeReply said) }
    ensures fits { IfSome result FitsEncodeSaid }
    ensures none { IfNone result (FitsEncode message → ⊥) }
{
    match message {
        Message::EncodeReply(said) => {
            if is_status_of_encoding(said.status) {
                Some(said)
            } else {
                None
            }
        }
        _ => None,
    }
}

/// What became of opening, where the message is a reply that says it and fits.
pub fn decode_said(message: Message) -> Option<DecodeSaid>
    ensures said { IfSome result (λ said. message ≡ DecodeReply said) }
    ensures fits { IfSome result FitsDecodeSaid }
    ensures none { IfNone result (FitsDecode message → ⊥) }
{
    match message {
        Message::DecodeReply(said) => {
            if !agree(said.status, said.rule) {
                return None;
            }
            if said.content.is_some() != shows(said.rule) {
                return None;
            }
            Some(said)
        }
        _ => None,
    }
}

/// It is a status that the daemon may answer to an encode request.
fn is_status_of_encoding(status: u8) -> bool
    ensures { result ≡ is_encode_status status }
{
    status == 0 || status == 2 || status == 3 || status == 10 || status == 11
}

/// With this rule the content is shown.
fn shows(rule: u8) -> bool
    ensures { result ≡ shows_content rule }
{
    rule == 0 || rule == 12 || rule == 13 || rule == 14
}

/// The status may stand beside this rule, where 0 says that none was broken.
fn agree(status: u8, rule: u8) -> bool
    ensures { result ≡ agrees status rule }
{
    match rule {
        0 => status == 0,
        1 => status == 8,
        2 => status == 8 || status == 9,
        3 => status == 8 || status == 10,
        4 => status == 11,
        5 => status == 12,
        6 => status == 13,
        7 => status == 8,
        8 => status == 14,
        9 => status == 8,
        10 => status == 18,
        11 => status == 18,
        12 => status == 16,
        13 => status == 15,
        14 => status == 17,
        _ => false,
    }
}
