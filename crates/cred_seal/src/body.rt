//! The body of a credential, spelled as it is made.

ghost use Rattle.std.specs.Prelude.{◌≡◌, ◌+◌, ◌≤◌, ◌++◌, [], false, ℕ, List, take, length, None};
ghost use Rattle.munge_types.specs.Algorithms.{cipher_number, mac_number, mac_size};
ghost use Rattle.aes_block.specs.DataKey.{key_of};
ghost use Rattle.cbc_mode.specs.Cbc.{cbc};
ghost use Rattle.cbc_mode.specs.Padding.{pad_size, padded};
ghost use Rattle.hmac_core.specs.Hmac.{hmac};
ghost use Rattle.subkeys.specs.Subkeys.{IsOf};
ghost use Rattle.cred_armor.specs.Armoring.{armor_size};
ghost use Rattle.cred_inner.specs.Inner.{content_of};
ghost use Rattle.cred_inner.specs.InnerPart.{IsContent, inner_part, payload_limit};
ghost use Rattle.cred_outer.specs.OuterPart.{outer_part, outer_size, vector_size};
ghost use Rattle.cred_outer.specs.OuterRules.{first_broken, key_too_long, outer_rules};
ghost use Rattle.cred_open.specs.Body.{IsBody, Seals};
ghost use Rattle.cred_seal.specs.PlainPart.{body_size, plain_size};
ghost use Rattle.cred_seal.specs.SealedInto.{behind};

use aes_block::DataKey;
use cbc_mode::laws::{chaining_is_one_to_one, padding_is_one_to_one, parts_make_the_whole};
use cbc_mode::{CbcOut, pad_size};
use cred_armor::ArmorOut;
use cred_inner::laws::{inner_part_is_bytes, inner_part_size};
use cred_inner::{HEAD_SIZE, Inner, inner_head};
use cred_outer::laws::parts_break_no_rule;
use cred_outer::{outer_head, outer_size, vector_size};
use hmac_core::laws::mac_has_its_size;
use munge_types::{Cipher, MacBytes, MacKind, Put, Room};
use subkeys::Subkeys;

/// The armour of the body of the credential that says this, sealed by these algorithms, behind what
/// the room holds. It takes no memory: what is encrypted and what is spelled goes by pieces through
/// buffers on the stack.
pub(crate) fn sealed_body(
    out: Room,
    subkeys: &Subkeys,
    cipher: Cipher,
    kind: MacKind,
    iv: &[u8; 16],
    inner: &Inner<'_>,
) -> ArmorOut
    requires keyed { key_too_long (cipher_number cipher) (mac_number kind) ≡ false }
    requires payload { length inner.now.payload.now ≤ payload_limit }
    requires room { armor_size (body_size cipher kind (41 + length inner.now.payload.now))
        ≤ out.spare }
    ensures content { IsContent (content_of inner.now) }
    ensures body { (key : List ℕ) → IsOf subkeys.now key → IsBody key cipher kind
        (take (vector_size cipher) iv.now) (inner_part (content_of inner.now)) result.taken }
    ensures unbroken { first_broken (outer_rules result.taken) ≡ None }
    ensures size { length result.taken
        ≡ body_size cipher kind (41 + length inner.now.payload.now) }
    ensures base { result.base ≡ out.bytes }
{
    inner_part_is_bytes();
    parts_break_no_rule();

    let mac = inner_mac(subkeys, cipher, kind, iv, inner);
    let size = body_size(cipher, kind, HEAD_SIZE + inner.payload.len());
    let mut body = ArmorOut::new(out, size);
    put_front(&mut body, cipher, kind, iv, mac.bytes());
    put_sealed(&mut body, subkeys, cipher, kind, iv, mac.bytes(), inner);
    body
}

/// The bytes of the body of an inner part of this many.
pub(crate) fn body_size(cipher: Cipher, kind: MacKind, inner: usize) -> usize
    requires { inner ≤ 41 + payload_limit }
    ensures size { result ≡ body_size cipher kind inner }
    ensures bound { result ≤ 2097152 }
{
    outer_size(cipher) + kind.size() + plain_size(cipher, inner)
}

/// The bytes of an inner part of this many, with its padding where there is a cipher.
fn plain_size(cipher: Cipher, inner: usize) -> usize
    requires { inner ≤ 41 + payload_limit }
    ensures size { result ≡ plain_size cipher inner }
    ensures bound { result ≤ inner + 16 }
{
    match cipher {
        Cipher::None => inner,
        Cipher::Aes128 | Cipher::Aes256 => inner + usize::from(pad_size(inner)),
    }
}

/// The MAC of the outer part and the inner part without padding. The payload is read where it
/// stands.
fn inner_mac(
    subkeys: &Subkeys,
    cipher: Cipher,
    kind: MacKind,
    iv: &[u8; 16],
    inner: &Inner<'_>,
) -> MacBytes
    requires { length inner.now.payload.now ≤ payload_limit }
    ensures content { IsContent (content_of inner.now) }
    ensures mac { result ≡ hmac kind subkeys.now.mac
        (outer_part cipher kind (take (vector_size cipher) iv.now)
        ++ inner_part (content_of inner.now)) }
    ensures size { length result ≡ mac_size kind }
{
    mac_has_its_size();
    let mut hmac = subkeys.mac_state(kind);
    hmac.update(&outer_head(cipher, kind));
    hmac.update(&iv[..vector_size(cipher)]);
    hmac.update(&inner_head(inner));
    hmac.update(inner.payload);
    hmac.finish()
}

/// Puts what stands before the sealed part: the outer part, of which without a cipher the initial
/// vector is no part, and the MAC.
fn put_front(to: &mut ArmorOut, cipher: Cipher, kind: MacKind, iv: &[u8; 16], mac: &[u8])
    requires { outer_size cipher + length mac.now ≤ to.old.spare }
    ensures appended { to.new.taken ≡ to.old.taken
        ++ (outer_part cipher kind (take (vector_size cipher) iv.now) ++ mac.now) }
    ensures lowered { to.new.spare + (outer_size cipher + length mac.now) ≡ to.old.spare }
    ensures same_base { to.new.base ≡ to.old.base }
{
    to.put(&outer_head(cipher, kind));
    to.put(&iv[..vector_size(cipher)]);
    to.put(mac);
}

/// Puts the sealed part: the inner part, padded and encrypted under the key that the MAC gives, or
/// as it is without a cipher.
fn put_sealed(
    to: &mut ArmorOut,
    subkeys: &Subkeys,
    cipher: Cipher,
    kind: MacKind,
    iv: &[u8; 16],
    mac: &[u8],
    inner: &Inner<'_>,
)
    requires keyed { key_too_long (cipher_number cipher) (mac_number kind) ≡ false }
    requires payload { length inner.now.payload.now ≤ payload_limit }
    requires room { plain_size cipher (41 + length inner.now.payload.now) ≤ to.old.spare }
    ensures sealed { (key : List ℕ) → IsOf subkeys.now key → Seals key cipher kind
        (take (vector_size cipher) iv.now) mac.now (inner_part (content_of inner.now))
        (behind to.old.taken to.new.taken) }
    ensures front { take (length to.old.taken) to.new.taken ≡ to.old.taken }
    ensures size { length to.new.taken
        ≡ length to.old.taken + plain_size cipher (41 + length inner.now.payload.now) }
    ensures same_base { to.new.base ≡ to.old.base }
{
    inner_part_size();
    let head = inner_head(inner);
    let plain = cipher == Cipher::None;
    if plain {
        to.put(&head);
        to.put(inner.payload);
        return;
    }
    let key = subkeys.data_key(cipher, kind, mac);
    put_encrypted(to, &key, iv, &head, inner.payload);
}

/// Puts a message of two parts, padded and encrypted under the key, with the vector before its first
/// block.
fn put_encrypted(to: &mut ArmorOut, key: &DataKey, iv: &[u8; 16], head: &[u8], payload: &[u8])
    requires { length head.now + length payload.now
        + pad_size (length head.now + length payload.now) ≤ to.old.spare }
    ensures appended { to.new.taken ≡ to.old.taken
        ++ cbc (key_of key.now) iv.now (padded (head.now ++ payload.now)) }
    ensures size { length to.new.taken ≡ length to.old.taken + (length head.now
        + length payload.now + pad_size (length head.now + length payload.now)) }
    ensures same_base { to.new.base ≡ to.old.base }
{
    padding_is_one_to_one();
    chaining_is_one_to_one();
    parts_make_the_whole();

    let mut out = CbcOut::new(key, iv);
    out.write(head, to);
    out.write(payload, to);
    out.finish(to);
}
