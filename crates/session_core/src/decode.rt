//! Answering a decode request.

ghost use Rattle.std.specs.Prelude.{◌≡◌, ℕ, ◌+◌, ◌<◌, ◌≤◌, ◌^◌, ◌++◌, List, Option, length, IfOk, OnErr};
ghost use Rattle.munge_types.specs.StandsFor.{Stands};
ghost use Rattle.munge_types.specs.declared.history.Event.{Event};
ghost use Rattle.decode_rules.specs.Terms.{IsMadeOf, WorldFiles};
ghost use Rattle.session_core.specs.AllLive.{AllLive};
ghost use Rattle.session_core.specs.Answering.{before_decode};
ghost use Rattle.session_core.specs.Session.{session_of};
ghost use Rattle.session_core.specs.Turn.{IsDecoded, IsPurged};

use crate::Rooms;
use crate::answer::Answer;
use decode_rules::{Prepared, World, complete, prepare_in};
use munge_types::{Identity, NoMemory, Replay};

/// How far the moment has to be above the floor for a purge to come before an answer, in seconds.
const PURGE_INTERVAL: u32 = 60;

/// Answers a decode request with this text at this moment, in seconds since 1970, after so many
/// events of the session's own.
pub(crate) fn decode<R: Replay>(
    rooms: &mut Rooms,
    replay: &mut R,
    who: Identity,
    world: &World,
    moment: u32,
    text: &[u8],
    entries: u64,
) -> Result<Answer, NoMemory>
    requires { entries + 2 < 2 ^ 64 }

    ensures decoded { (files : WorldFiles) (seed : Option (List ℕ)) (base own : List Event)
        → IsMadeOf world.now files
        → Stands (R.remembered replay.old) (base ++ own) → length own ≡ entries
        → IfOk result (λ answer. IsDecoded (session_of world.now who files seed base) own moment
        text.now answer.reply.items answer.entries (R.remembered replay.new)) }
    ensures given_up { (base own : List Event) → Stands (R.remembered replay.old) (base ++ own)
        → OnErr result (Stands (R.remembered replay.new) (base ++ before_decode base own moment)) }
    ensures bound { IfOk result (λ answer. answer.entries ≤ entries + 2) }
    ensures live { AllLive (R.remembered replay.old) → AllLive (R.remembered replay.new) }
{
    let entries = entries + purge_if_due(replay, moment);
    let memory = rooms.frame();
    let work = rooms.work(text.len())?;
    match prepare_in(memory, world, who, moment, work, text)? {
        Prepared::Refused(reply) => Ok(Answer {
            reply: reply.into_bytes(),
            entries,
        }),
        Prepared::Ready(ready) => {
            let verdict = replay.admit(ready.pair(), moment)?;
            let reply = complete(ready, verdict, entries);
            Ok(Answer {
                reply: reply.into_bytes(),
                entries: entries + 1,
            })
        }
    }
}

/// Makes the purge that comes before an answer at this moment, if one is due. Returns how many
/// events that are.
fn purge_if_due<R: Replay>(replay: &mut R, moment: u32) -> u64
    ensures bound { result ≤ 1 }
    ensures live { AllLive (R.remembered replay.old) → AllLive (R.remembered replay.new) }
    ensures purged { (base own : List Event) → Stands (R.remembered replay.old) (base ++ own)
        → IsPurged (R.remembered replay.new) base own moment result }
{
    let floor = replay.floor();
    if moment < floor || moment - floor < PURGE_INTERVAL {
        return 0;
    }
    let _ = replay.purge(moment, u32::MAX);
    1
}
