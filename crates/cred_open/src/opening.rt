//! From a credential's text to the credential, by the decode rules 1 to 9.

ghost use Rattle.std.specs.Prelude.{◌≡◌, ◌≤◌, ℕ, List, Some, length, IfOk, IfErr};
ghost use Rattle.cred_armor.specs.CredentialText.{Spells};
ghost use Rattle.cred_inner.specs.InnerPart.{inner_part};
ghost use Rattle.cred_open.specs.OpeningRules.{Opens, Refuses};
ghost use Rattle.cred_open.specs.OpenRefused.{IsRefusal, WantsMemoryFor};
ghost use Rattle.cred_open.specs.RefusedText.{refused_text};
ghost use Rattle.cred_open.specs.Unsealed.{IsUnsealed};
ghost use Rattle.subkeys.specs.Subkeys.{IsOf};

use crate::unsealing::{Unsealed, unseal};
use crate::{Opened, OpenedIn, OuterRefused};
use cred_armor::{ArmorRefused, unarmor, unarmor_in};
use cred_inner::{Inner, read_inner};
use munge_types::{Rule, Status};
use std::alloc::Global;
use std::error::Error;
use std::fmt;
use subkeys::Subkeys;

/// The answer to a text that spells no body.
const NO_TEXT: OuterRefused = OuterRefused {
    rule: Rule::TEXT,
    status: Status::BadCredential,
};

/// The answer to a body whose inner part is that of no content.
const NO_CONTENT: OuterRefused = OuterRefused {
    rule: Rule::CONTENT,
    status: Status::BadCredential,
};

/// Why a text is not opened.
#[derive(Clone, Copy, Debug, PartialEq, Eq)]
pub enum OpenRefused {
    /// The first of the decode rules 1 to 9 that it breaks.
    Failed(OuterRefused),
    /// There was no memory for its body.
    NoMemory,
}

impl fmt::Display for OpenRefused {
    ghost output = { λ refused. Some (refused_text refused) };

    fn fmt<W: fmt::Write>(&self, f: &mut fmt::Formatter<W>) -> fmt::Result {
        match self {
            OpenRefused::Failed(broken) => write!(f, "{broken}"),
            OpenRefused::NoMemory => write!(f, "no memory"),
        }
    }
}

impl Error for OpenRefused {}

/// The credential that the text is under these subkeys, or the first of the decode rules 1 to 9
/// that the text breaks.
pub fn open_text(alloc: Global, subkeys: &Subkeys, text: &[u8]) -> Result<Opened, OpenRefused>
    ensures opened { (key : List ℕ) → IsOf subkeys.now key
        → IfOk result (λ opened. Opens key text.now opened) }
    ensures refused { (key : List ℕ) → IsOf subkeys.now key
        → IfErr result (IsRefusal key text.now) }
    ensures memory { IfErr result (WantsMemoryFor text.now) }
{
    let body = match unarmor(alloc, text) {
        Ok(body) => body,
        Err(ArmorRefused::NotArmor) => return Err(OpenRefused::Failed(NO_TEXT)),
        Err(ArmorRefused::NoMemory) => return Err(OpenRefused::NoMemory),
    };
    match open_body(subkeys, body) {
        Ok(opened) => Ok(opened),
        Err(broken) => Err(OpenRefused::Failed(broken)),
    }
}

/// Opens a text inside a buffer of the caller's that is at least as long as the text: the credential
/// that it is under these subkeys, or the first of the decode rules 1 to 9 that it breaks. The
/// payload is borrowed from the buffer. What the buffer holds after a refusal is not said. It takes
/// no memory.
pub fn open_in<'w>(
    subkeys: &Subkeys,
    work: &'w mut [u8],
    text: &[u8],
) -> Result<OpenedIn<'w>, OuterRefused>
    requires room { length text.now ≤ length work.old }
    ensures opened { (key : List ℕ) → IsOf subkeys.now key
        → IfOk result (λ opened. Opens key text.now opened) }
    ensures refused { (key : List ℕ) → IsOf subkeys.now key
        → IfErr result (λ broken. Refuses key text.now broken.rule broken.status) }
{
    let Some(size) = unarmor_in(work, text) else {
        return Err(NO_TEXT);
    };
    let body = &mut work[..size];
    let unsealed = unseal(subkeys, body)?;
    read_plain(&unsealed, &body[unsealed.at..unsealed.at + unsealed.size])
}

/// The credential of this body, by the rules 2 to 9. Its inner part is decrypted where it stands.
fn open_body(subkeys: &Subkeys, mut body: Vec<u8>) -> Result<Opened, OuterRefused>
    ensures opened { (key text : List ℕ) → IsOf subkeys.now key → Spells text body.items
        → IfOk result (λ opened. Opens key text opened) }
    ensures refused { (key text : List ℕ) → IsOf subkeys.now key → Spells text body.items
        → IfErr result (λ broken. Refuses key text broken.rule broken.status) }
{
    let unsealed = unseal(subkeys, &mut body)?;
    body.truncate(unsealed.at + unsealed.size);
    let inner = match read_plain(&unsealed, &body[unsealed.at..]) {
        Ok(opened) => opened.inner(),
        Err(broken) => return Err(broken),
    };
    let payload_at = body.len() - inner.payload.len();
    Ok(Opened {
        cipher: unsealed.cipher,
        kind: unsealed.kind,
        mac: unsealed.mac,
        head: Inner {
            payload: &[],
            ..inner
        },
        body,
        payload_at,
    })
}

/// The credential of a body that was unsealed so, whose inner part is this, by the rule 9.
fn read_plain<'b>(unsealed: &Unsealed, plain: &'b [u8]) -> Result<OpenedIn<'b>, OuterRefused>
    ensures opened { (key text body : List ℕ) → Spells text body
        → IsUnsealed key body unsealed.now.cipher unsealed.now.kind unsealed.now.mac plain.now
        → IfOk result (λ opened. Opens key text opened) }
    ensures laid_out { IfOk result (λ opened. plain.now ≡ inner_part opened.content) }
    ensures refused { (key text body : List ℕ) → Spells text body
        → IsUnsealed key body unsealed.now.cipher unsealed.now.kind unsealed.now.mac plain.now
        → IfErr result (λ broken. Refuses key text broken.rule broken.status) }
{
    match read_inner(plain) {
        Some(inner) => Ok(OpenedIn {
            cipher: unsealed.cipher,
            kind: unsealed.kind,
            mac: unsealed.mac,
            inner,
        }),
        None => Err(NO_CONTENT),
    }
}
