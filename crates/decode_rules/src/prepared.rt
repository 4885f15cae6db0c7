//! What a text comes to before the history is asked.

ghost use Rattle.std.specs.Prelude.{◌≡◌, ◌≤◌, length, IfOk};
ghost use Rattle.cred_inner.specs.Inner.{content_of};
ghost use Rattle.cred_open.specs.OpeningRules.{first_broken};
ghost use Rattle.decode_rules.specs.CallerRules.{belongs_to, caller_rules};
ghost use Rattle.decode_rules.specs.DecodeReply.{refused_answer};
ghost use Rattle.decode_rules.specs.Finding.{shown_by};
ghost use Rattle.decode_rules.specs.Prepared.{IsJudged, IsPrepared, line_of};
ghost use Rattle.decode_rules.specs.Terms.{IsMadeOf, WorldFiles, terms_of};

use crate::reply::{refusal, showing, unsaid};
use crate::{Ready, Reply, World};
use cred_inner::Inner;
use cred_open::{OpenRefused, OpenedIn, OuterRefused, open_in, open_text};
use munge_types::{Identity, NoMemory, Rule, Status};
use std::alloc::Global;

/// The UID and the GID of a credential that anyone may open.
const ANY: u32 = u32::MAX;

/// What the decode rules 1 to 12 make of a text.
#[derive(Debug, Drop)]
pub enum Prepared {
    /// One is broken, and this is the reply by the first.
    Refused(Reply),
    /// None is broken, and the history is to be asked about this credential.
    Ready(Ready),
}

/// Reads a text by the decode rules 1 to 12, for this caller at this moment, in seconds since 1970.
/// It waits for nothing, and asks no history. After `Ready` the reply takes no more memory.
pub fn prepare(
    alloc: Global,
    world: &World,
    who: Identity,
    moment: u32,
    text: &[u8],
) -> Result<Prepared, NoMemory>
    // For all files that the world is made of.
    ensures { (files : WorldFiles) → IsMadeOf world.now files
        → IfOk result (IsPrepared (terms_of world.now who files) moment text.now) }
{
    match open_text(alloc, &world.subkeys, text) {
        Ok(opened) => {
            let prepared = judge(Vec::new(alloc), world, who, moment, &opened.lent())?;
            Ok(prepared)
        }
        Err(OpenRefused::Failed(broken)) => {
            let reply = refusal(Vec::new(alloc), broken)?;
            Ok(Prepared::Refused(reply))
        }
        Err(OpenRefused::NoMemory) => Err(NoMemory),
    }
}

/// The same, where the text is opened inside a buffer of the caller's that is at least as long as the
/// text, and the reply is made in the memory of a vector that is given away. Only what that lacks is
/// taken. What the buffer holds then is not said, and what the vector held is dropped.
pub fn prepare_in(
    memory: Vec<u8>,
    world: &World,
    who: Identity,
    moment: u32,
    work: &mut [u8],
    text: &[u8],
) -> Result<Prepared, NoMemory>
    requires room { length text.now ≤ length work.old }

    // For all files that the world is made of.
    ensures { (files : WorldFiles) → IsMadeOf world.now files
        → IfOk result (IsPrepared (terms_of world.now who files) moment text.now) }
{
    match open_in(&world.subkeys, work, text) {
        Ok(opened) => {
            let prepared = judge(memory, world, who, moment, &opened)?;
            Ok(prepared)
        }
        Err(broken) => {
            let reply = refusal(memory, broken)?;
            Ok(Prepared::Refused(reply))
        }
    }
}

/// Goes on with a credential that breaks none of the rules 1 to 9.
fn judge(
    memory: Vec<u8>,
    world: &World,
    who: Identity,
    moment: u32,
    opened: &OpenedIn<'_>,
) -> Result<Prepared, NoMemory>
    ensures { (files : WorldFiles) → IsMadeOf world.now files
        → IfOk result (IsJudged (terms_of world.now who files) moment opened.now) }
{
    match broken_rule(world, who, moment, &opened.inner()) {
        None => {
            let frame = unsaid(memory, opened)?;
            let pair = opened.pair(world.settings.max_ttl);
            Ok(Prepared::Ready(Ready { pair, frame }))
        }
        Some(broken) => {
            let reply = barred(memory, broken, opened)?;
            Ok(Prepared::Refused(reply))
        }
    }
}

/// The reply to a credential that breaks this rule. It shows the credential where the rule is that
/// on its time.
fn barred(memory: Vec<u8>, broken: OuterRefused, opened: &OpenedIn<'_>) -> Result<Reply, NoMemory>
    ensures { IfOk result (λ reply.
        reply ≡ refused_answer broken.rule broken.status (shown_by broken.rule opened.now)) }
{
    if broken.rule == Rule::TIME {
        showing(memory, broken, opened)
    } else {
        refusal(memory, broken)
    }
}

/// The first of the rules 10 to 12 that the credential breaks.
fn broken_rule(world: &World, who: Identity, moment: u32, inner: &Inner<'_>) -> Option<OuterRefused>
    ensures { (files : WorldFiles) → IsMadeOf world.now files → line_of result
        ≡ first_broken (caller_rules (terms_of world.now who files) moment (content_of inner.now)) }
{
    if inner.for_uid != ANY && inner.for_uid != who.uid {
        return Some(OuterRefused {
            rule: Rule::UID,
            status: Status::Unauthorized,
        });
    }
    if inner.for_gid != ANY && !belongs_to(world, who, inner.for_gid) {
        return Some(OuterRefused {
            rule: Rule::GID,
            status: Status::Unauthorized,
        });
    }
    if u64::from(inner.time) > u64::from(moment) + u64::from(world.settings.skew) {
        return Some(OuterRefused {
            rule: Rule::TIME,
            status: Status::Rewound,
        });
    }
    None
}

/// The caller is of this GID, or a member of it.
fn belongs_to(world: &World, who: Identity, gid: u32) -> bool
    ensures { (files : WorldFiles) → IsMadeOf world.now files
        → result ≡ belongs_to (terms_of world.now who files) gid }
{
    gid == who.gid || world.groups.member(who.uid, gid)
}
