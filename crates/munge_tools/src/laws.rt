//! Laws of what the tools print. A function here does nothing: its contract is the law.

ghost use Rattle.std.specs.Prelude.{◌≡◌};
ghost use Rattle.wire_msg.specs.declared.message.DecodeSaid.{DecodeSaid};
ghost use Rattle.munge_tools.specs.Fitting.{FitsDecodeSaid};
ghost use Rattle.munge_tools.specs.PayloadLast.{PrintsPayloadLast};

/// A decode reply that fits and in which no rule was broken has status 0 and a content, and what is
/// printed of it ends with the payload.
pub fn accepted_ends_with_its_payload()
    ensures { (said : DecodeSaid) → FitsDecodeSaid said → said.rule ≡ 0
        → PrintsPayloadLast said }
{}
