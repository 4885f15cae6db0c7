//! Laws of frames. A function here does nothing: its contract is the law.

ghost use Rattle.std.specs.Prelude.{◌≡◌, ◌≤◌, ◌⊎◌, ℕ, List, [], ◌++◌, length};
ghost use Rattle.munge_types.specs.Bytes.{IsBytes};
ghost use Rattle.wire_msg.specs.Fits.{IsMessage};
ghost use Rattle.wire_msg.specs.Frame.{BeginsFrame, IsFrame, IsNoFrame, IsUnfinished, LeadsToFrame};
ghost use Rattle.wire_msg.specs.FrameHead.{AllowsSize, message_head, side_of_kind};
ghost use Rattle.wire_msg.specs.Spelling.{body_of, frame_of, kind_of};
ghost use Rattle.wire_msg.specs.declared.kind.Kind.{Kind};
ghost use Rattle.wire_msg.specs.declared.kind.Side.{Side};
ghost use Rattle.wire_msg.specs.declared.message.Message.{Message};

/// A frame is that of one message at most.
pub fn frame_has_one_message()
    ensures { (side other : Side) (first second : Message) → IsMessage side first
        → IsMessage other second → frame_of first ≡ frame_of second → first ≡ second }
{}

/// No frame is a proper prefix of a frame.
pub fn no_frame_goes_on_to_another()
    ensures { (side : Side) (frame more : List ℕ) → IsFrame side frame
        → IsFrame side (frame ++ more) → more ≡ [] }
{}

/// Just one holds of any bytes: they begin with a whole frame, or are a prefix of one and not all
/// of it, or neither.
pub fn just_one_holds()
    ensures one_does { (side : Side) (bytes : List ℕ) → IsBytes bytes
        → BeginsFrame side bytes ⊎ (IsUnfinished side bytes ⊎ IsNoFrame side bytes) }
    ensures not_the_first_two { (side : Side) (bytes : List ℕ) → BeginsFrame side bytes
        → IsUnfinished side bytes → ⊥ }
    ensures not_the_third_with_one { (side : Side) (bytes : List ℕ) → LeadsToFrame side bytes
        → IsNoFrame side bytes → ⊥ }
{}

/// No bytes are an unfinished frame, and so are the first bytes of any unfinished one.
pub fn fronts_are_unfinished()
    ensures none_yet { (side : Side) → IsUnfinished side [] }
    ensures fewer { (side : Side) (bytes more : List ℕ) → IsUnfinished side (bytes ++ more)
        → IsUnfinished side bytes }
{}

/// Bytes that are no frame's stay so, whatever comes after them.
pub fn no_frame_stays()
    ensures { (side : Side) (bytes more : List ℕ) → IsNoFrame side bytes
        → IsNoFrame side (bytes ++ more) }
{}

/// A frame is the head of a kind of its side, and a body of a length that is allowed to that kind.
pub fn allowed_lengths()
    ensures every_body { (side : Side) (kind : Kind) (body : List ℕ) → side_of_kind kind ≡ side
        → AllowsSize kind (length body) → IsBytes body
        → IsFrame side (message_head kind (length body) ++ body) }
    ensures no_other { (side : Side) (message : Message) → IsMessage side message
        → AllowsSize (kind_of message) (length (body_of message)) }
{}
