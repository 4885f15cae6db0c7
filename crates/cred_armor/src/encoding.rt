//! Base64, straight into a room.

ghost use Rattle.std.specs.Prelude.{◌≡◌, ◌+◌, ◌*◌, ◌≤◌, ◌++◌, length};
ghost use Rattle.std.specs.Int.{div_ceil};
ghost use Rattle.base64.specs.Engines.{standard};
ghost use Rattle.base64.specs.GeneralPurpose.{IsBytes, encode_of};

use base64::engine::general_purpose::STANDARD;
use munge_types::{Put, Room};

/// The bytes of a group, which base64 spells by four.
pub(crate) const GROUP: usize = 3;

/// The bytes that are spelled at once: whole groups.
const PIECE: usize = 768;

/// The bytes of their base64.
const SPELLED: usize = 1024;

/// Appends the base64 of the body.
pub(crate) fn put_base64(out: &mut Room, body: &[u8])
    requires { 4 * div_ceil (length body.now) 3 ≤ out.old.spare }
    ensures bytes { IsBytes body.now }
    ensures appended { out.new.bytes ≡ out.old.bytes ++ encode_of standard body.now }
    ensures lowered { out.new.spare + 4 * div_ceil (length body.now) 3 ≡ out.old.spare }
{
    let pieces = body.len() / PIECE;
    for number in 0..pieces {
        let at = PIECE * number;
        put_piece(out, &body[at..at + PIECE]);
    }
    put_piece(out, &body[PIECE * pieces..]);
}

/// The same for a piece.
fn put_piece(out: &mut Room, piece: &[u8])
    requires size { length piece.now ≤ 768 }
    requires room { 4 * div_ceil (length piece.now) 3 ≤ out.old.spare }
    ensures appended { out.new.bytes ≡ out.old.bytes ++ encode_of standard piece.now }
    ensures lowered { out.new.spare + 4 * div_ceil (length piece.now) 3 ≡ out.old.spare }
{
    let mut buffer = [0; SPELLED];
    let text = &mut buffer[..4 * piece.len().div_ceil(GROUP)];
    spell(piece, text);
    out.put(text);
}

/// The same for a group or what is left of one.
pub(crate) fn put_group(out: &mut Room, group: &[u8])
    requires size { length group.now ≤ 3 }
    requires room { 4 * div_ceil (length group.now) 3 ≤ out.old.spare }
    ensures bytes { IsBytes group.now }
    ensures appended { out.new.bytes ≡ out.old.bytes ++ encode_of standard group.now }
    ensures lowered { out.new.spare + 4 * div_ceil (length group.now) 3 ≡ out.old.spare }
{
    let mut buffer = [0; 4];
    let text = &mut buffer[..4 * group.len().div_ceil(GROUP)];
    spell(group, text);
    out.put(text);
}

/// Writes the base64 of the body over all of the text.
fn spell(body: &[u8], text: &mut [u8])
    requires { length text.old ≡ 4 * div_ceil (length body.now) 3 }
    ensures { text.new ≡ encode_of standard body.now }
{
    match STANDARD.encode_slice(body, text) {
        Ok(_) => {}
        Err(_) => unreachable!(),
    }
}
