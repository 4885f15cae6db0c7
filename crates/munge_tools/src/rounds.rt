//! Credentials made and opened one after the other.

ghost use Rattle.std.specs.Prelude.{◌≡◌, ◌≢◌, ◌+◌, ◌<◌, ◌≤◌, ◌^◌, Err, IfErr, IfOk, OnOk, length};
ghost use Rattle.munge_tools.specs.Munge.{payload_limit};
ghost use Rattle.munge_tools.specs.RemungeAskedTold.{remunge_told};
ghost use Rattle.munge_tools.specs.Rounds.{Made, RanAll, RoundAdds, RoundStopped, Stops};
ghost use Rattle.munge_tools.specs.Wire.{WireFailed, WireSound, seen_by};

use crate::exchange::Unheard;
use crate::remunge_words::AskedRemunge;
use crate::replies::{ask_to_open, ask_to_seal};
use crate::totals::Totals;
use byte_io::Wire;
use std::alloc::Global;
use wire_msg::{Bytes, EncodeAsk, EncodeSaid};

/// The number that says that the daemon is to choose.
const DEFAULT: u8 = 1;

/// The restriction that is none.
const ANY: u32 = 4294967295;

/// Has as many credentials made as are asked for, and opened where that is asked for, and counts
/// the replies.
pub fn run_rounds<W: Wire>(
    alloc: Global,
    wire: &mut W,
    asked: &AskedRemunge<'_>,
) -> Result<Totals, Unheard>
    requires { length asked.now.payload.now ≤ payload_limit }
    ensures ran { let seen = seen_by W.dialled W.replies W.left W.taken W.ends
        W.dial_faults W.read_faults W.write_faults in
        IfOk result (RanAll (remunge_told asked.now) (seen wire.old) (seen wire.new)) }
    ensures stopped { let seen = seen_by W.dialled W.replies W.left W.taken W.ends
        W.dial_faults W.read_faults W.write_faults in
        IfErr result (Stops (remunge_told asked.now) (seen wire.old) (seen wire.new)) }
    ensures fault { let seen = seen_by W.dialled W.replies W.left W.taken W.ends
        W.dial_faults W.read_faults W.write_faults in
        result ≡ Err Unheard.Unreached → WireFailed (seen wire.old) (seen wire.new) }
    ensures sound { let seen = seen_by W.dialled W.replies W.left W.taken W.ends
        W.dial_faults W.read_faults W.write_faults in
        result ≢ Err Unheard.Unreached → WireSound (seen wire.old) (seen wire.new) }
{
    let mut totals = Totals {
        encoded: 0,
        decoded: 0,
        failed: 0,
    };
    'rounds: for _done in 0..asked.count {
        match run_round(alloc, wire, asked, &mut totals) {
            Ok(()) => {}
            Err(why) => return Err(why),
        }
    }
    Ok(totals)
}

/// Has one credential made, and opened where that is asked for, and counts the replies.
fn run_round<W: Wire>(
    alloc: Global,
    wire: &mut W,
    asked: &AskedRemunge<'_>,
    totals: &mut Totals,
) -> Result<(), Unheard>
    requires payload { length asked.now.payload.now ≤ payload_limit }
    requires encoded { totals.old.encoded < 2 ^ 40 }
    requires decoded { totals.old.decoded < 2 ^ 40 }
    requires failed { totals.old.failed < 2 ^ 40 }
    ensures ran { let seen = seen_by W.dialled W.replies W.left W.taken W.ends
        W.dial_faults W.read_faults W.write_faults in
        OnOk result (RoundAdds (remunge_told asked.now) (seen wire.old) (seen wire.new)
        totals.old totals.new) }
    ensures stopped { let seen = seen_by W.dialled W.replies W.left W.taken W.ends
        W.dial_faults W.read_faults W.write_faults in
        IfErr result (RoundStopped (remunge_told asked.now) (seen wire.old) (seen wire.new)) }
    ensures fault { let seen = seen_by W.dialled W.replies W.left W.taken W.ends
        W.dial_faults W.read_faults W.write_faults in
        result ≡ Err Unheard.Unreached → WireFailed (seen wire.old) (seen wire.new) }
    ensures sound { let seen = seen_by W.dialled W.replies W.left W.taken W.ends
        W.dial_faults W.read_faults W.write_faults in
        result ≢ Err Unheard.Unreached → WireSound (seen wire.old) (seen wire.new) }
{
    let made = match make(alloc, wire, asked) {
        Ok(made) => made,
        Err(why) => return Err(why),
    };
    if made.status != 0 {
        totals.failed += 1;
        return Ok(());
    }
    totals.encoded += 1;
    if !asked.decode {
        return Ok(());
    }
    let EncodeSaid { status: _, text } = made;
    match ask_to_open(alloc, wire, asked.socket, text) {
        Ok(said) => {
            count_opened(totals, said.status);
            Ok(())
        }
        Err(why) => Err(why),
    }
}

/// Counts a reply to a decode request.
fn count_opened(totals: &mut Totals, status: u8)
    requires decoded { totals.old.decoded < 2 ^ 41 }
    requires failed { totals.old.failed < 2 ^ 41 }
    ensures opened { status ≡ 0 → totals.new ≡ record totals.old {
      decoded = totals.old.decoded + 1;
    } }
    ensures unopened { status ≢ 0 → totals.new ≡ record totals.old {
      failed = totals.old.failed + 1;
    } }
{
    if status == 0 {
        totals.decoded += 1;
        return;
    }
    totals.failed += 1;
}

/// Has one credential made.
fn make<W: Wire>(
    alloc: Global,
    wire: &mut W,
    asked: &AskedRemunge<'_>,
) -> Result<EncodeSaid, Unheard>
    requires { length asked.now.payload.now ≤ payload_limit }
    ensures made { let seen = seen_by W.dialled W.replies W.left W.taken W.ends
        W.dial_faults W.read_faults W.write_faults in
        IfOk result (Made (remunge_told asked.now) (seen wire.old) (seen wire.new)) }
    ensures stopped { let seen = seen_by W.dialled W.replies W.left W.taken W.ends
        W.dial_faults W.read_faults W.write_faults in
        IfErr result (RoundStopped (remunge_told asked.now) (seen wire.old) (seen wire.new)) }
    ensures fault { let seen = seen_by W.dialled W.replies W.left W.taken W.ends
        W.dial_faults W.read_faults W.write_faults in
        result ≡ Err Unheard.Unreached → WireFailed (seen wire.old) (seen wire.new) }
    ensures sound { let seen = seen_by W.dialled W.replies W.left W.taken W.ends
        W.dial_faults W.read_faults W.write_faults in
        result ≢ Err Unheard.Unreached → WireSound (seen wire.old) (seen wire.new) }
{
    let Ok(payload) = Vec::from_slice(alloc, asked.payload.as_bytes()) else {
        return Err(Unheard::NoMemory);
    };
    let ask = EncodeAsk {
        cipher: DEFAULT,
        kind: DEFAULT,
        ttl: 0,
        for_uid: ANY,
        for_gid: ANY,
        payload: Bytes::of(payload),
    };
    match ask_to_seal(alloc, wire, asked.socket, ask) {
        Ok(made) => Ok(made),
        Err(why) => Err(why),
    }
}
