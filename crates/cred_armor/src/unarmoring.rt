//! From a text to the body that it spells.

ghost use Rattle.std.specs.Prelude.{◌≡◌, ◌≤◌, ℕ, List, Some, IfSome, IfNone, IfOk, IsErrOf, MatchResult, length, take};
ghost use Rattle.base64.specs.GeneralPurpose.{IsBytes};
ghost use Rattle.cred_armor.specs.CredentialText.{is_space, Frames, IsFramed, Spells};
ghost use Rattle.cred_armor.specs.RefusedText.{refused_text};
ghost use Rattle.cred_armor.specs.Trimming.{trim_front, trim_back};

use crate::marks::{CLOSING, OPENING};
use base64::DecodeAllocError;
use base64::engine::general_purpose::STANDARD;
use std::alloc::Global;
use std::error::Error;
use std::fmt;

/// Why a text gives no body.
#[derive(Clone, Copy, Debug, PartialEq, Eq)]
pub enum ArmorRefused {
    /// The text is the armour of no body.
    NotArmor,
    /// There was no memory for the body.
    NoMemory,
}

impl fmt::Display for ArmorRefused {
    ghost output = { λ refused. Some (refused_text refused) };

    fn fmt<W: fmt::Write>(&self, f: &mut fmt::Formatter<W>) -> fmt::Result {
        match self {
            ArmorRefused::NotArmor => write!(f, "not the armour of a body"),
            ArmorRefused::NoMemory => write!(f, "no memory"),
        }
    }
}

impl Error for ArmorRefused {}

/// Whether a byte is a tab, line feed, vertical tab, form feed, carriage return or space.
fn is_space(byte: u8) -> bool
    ensures { result ≡ is_space byte }
{
    (9 <= byte && byte <= 13) || byte == 32
}

/// The text without the spaces in front.
fn trim_front(mut text: &[u8]) -> &[u8]
    ensures { result.now ≡ trim_front text.entry.now }
{
    'spaces: while let [first, rest @ ..] = text
        && is_space(*first)
    {
        text = rest;
    }
    text
}

/// The text without the spaces at its end.
fn trim_back(mut text: &[u8]) -> &[u8]
    ensures { result.now ≡ trim_back text.entry.now }
{
    'spaces: while let [rest @ .., last] = text
        && is_space(*last)
    {
        text = rest;
    }
    text
}

/// What stands between the marks, and None where the text has no marks.
fn framed(text: &[u8]) -> Option<&[u8]>
    ensures found { IfSome result (λ inside. Frames text.now inside.now) }
    ensures none { IfNone result ((inside : List ℕ) → ¬ Frames text.now inside) }
{
    let trimmed = trim_back(trim_front(text));
    let behind = trimmed.strip_prefix(OPENING.as_bytes())?;
    behind.strip_suffix(CLOSING.as_bytes())
}

/// The one body that the text spells. The text may have spaces round it; the base64 has to be in
/// its canonical spelling.
pub fn unarmor(alloc: Global, text: &[u8]) -> Result<Vec<u8>, ArmorRefused>
    ensures spelled { IfOk result (λ body. Spells text.now body.items) }
    ensures unspelled { IsErrOf result ArmorRefused.NotArmor
        → (body : List ℕ) → ¬ Spells text.now body }
    ensures framed { IsErrOf result ArmorRefused.NoMemory → IsFramed text.now }

    // What spells a body is read as that body, unless there was no memory.
    ensures read { (body : List ℕ) → Spells text.now body
        → MatchResult result (λ found. found.items ≡ body)
        (λ refused. refused ≡ ArmorRefused.NoMemory) }
{
    let Some(inside) = framed(text) else {
        return Err(ArmorRefused::NotArmor);
    };
    match STANDARD.decode(alloc, inside) {
        Ok(body) => Ok(body),
        Err(DecodeAllocError::OutOfMemory) => Err(ArmorRefused::NoMemory),
        Err(DecodeAllocError::DecodeError(_)) => Err(ArmorRefused::NotArmor),
    }
}

/// Decodes the one body that the text spells into the front of a buffer that is at least as long as
/// the text: how many bytes the body has, and None where the text spells none. The text is read as
/// by `unarmor`. What the buffer holds behind the body, or where there is none, is not said. It
/// takes no memory.
pub fn unarmor_in(work: &mut [u8], text: &[u8]) -> Option<usize>
    requires room { length text.now ≤ length work.old }
    ensures size { length work.new ≡ length work.old }
    ensures within { IfSome result (λ size. size ≤ length work.new) }
    ensures spelled { IfSome result (λ size. Spells text.now (take size work.new)) }
    ensures unspelled { IfNone result ((body : List ℕ) → ¬ Spells text.now body) }
{
    let Some(inside) = framed(text) else {
        return None;
    };
    match STANDARD.decode_slice_unchecked(inside, work) {
        Ok(size) => {
            are_bytes(inside);
            are_bytes(work);
            Some(size)
        }
        Err(_) => None,
    }
}

/// Does nothing: what the bytes of a slice are.
fn are_bytes(slice: &[u8])
    ensures { IsBytes slice.now }
{
    let _slice = slice;
}
