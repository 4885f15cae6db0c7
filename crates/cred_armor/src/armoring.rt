//! From a body to its armour.

ghost use Rattle.std.specs.Prelude.{◌≡◌, ◌+◌, ◌*◌, ◌≤◌, ◌++◌, [], ◌∷◌, length, replicate, IfOk};
ghost use Rattle.std.specs.Int.{div_ceil};
ghost use Rattle.base64.specs.Engines.{standard};
ghost use Rattle.base64.specs.GeneralPurpose.{encode_of};
ghost use Rattle.cred_armor.specs.Armoring.{armor_size};
ghost use Rattle.cred_armor.specs.CredentialText.{Spells, armor_of, closing_mark};

use crate::marks::OPENING;
use base64::engine::general_purpose::STANDARD;
use munge_types::NoMemory;
use std::alloc::Global;

/// The closing mark, as a byte.
const CLOSING: u8 = b':';

/// How many bytes the armour of this many bytes has: the marks, and four for each begun three.
pub fn armor_size(n: usize) -> usize
    requires { n ≤ 2097152 }
    ensures { result ≡ armor_size n }
{
    OPENING.len() + 4 * n.div_ceil(3) + 1
}

/// The armour of a body, with no spaces round it. One reservation takes the memory for all of it,
/// and the body is spelled right into it.
pub fn armor(alloc: Global, body: &[u8]) -> Result<Vec<u8>, NoMemory>
    ensures armored { IfOk result (λ text. text.items ≡ armor_of body.now) }
    ensures spelled { IfOk result (λ text. Spells text.items body.now) }
{
    let size = OPENING.len() + 4 * body.len().div_ceil(3) + 1;
    let mut text = vec![in alloc; CLOSING; size]?;
    write_armor(body, &mut text);
    Ok(text)
}

/// Writes the armour of the body over closing marks, of which the last stays.
fn write_armor(body: &[u8], text: &mut [u8])
    requires { text.old ≡ replicate (7 + 4 * div_ceil (length body.now) 3) 58 }
    ensures { text.new ≡ armor_of body.now }
{
    let (front, room) = text.split_at_mut(OPENING.len());
    front.copy_from_slice(OPENING.as_bytes());
    spell(body, room);
}

/// Writes the base64 of the body over closing marks, of which the last stays.
fn spell(body: &[u8], room: &mut [u8])
    requires { room.old ≡ replicate (4 * div_ceil (length body.now) 3 + 1) 58 }
    ensures { room.new ≡ encode_of standard body.now ++ closing_mark }
{
    match STANDARD.encode_slice(body, room) {
        Ok(_) => {}
        Err(_) => unreachable!(),
    }
}
