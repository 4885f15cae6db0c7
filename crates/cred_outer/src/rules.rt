//! The decode rules 2 to 7, looked at in their order.

ghost use Rattle.std.specs.Prelude.{◌≡◌, ◌+◌, ◌-◌, ◌≤◌, ◌&&◌, not, nat_le, true, false, length, take, None, Some, Err, IfOk, IfErr, IfSome, IfNone, OnOk};
ghost use Rattle.munge_types.specs.Algorithms.{cipher_number, mac_number, mac_size};
ghost use Rattle.cred_outer.specs.OuterPart.{outer_head, outer_size};
ghost use Rattle.cred_outer.specs.OuterRules.{first_broken, is_mac, is_sealed_size, key_too_long, outer_rules};

use crate::OuterRefused;
use crate::outer::{BLOCK_SIZE, HEAD_SIZE, NO_COMPRESSION, REALM_SIZE, VERSION, outer_size};
use munge_types::{Cipher, MacKind, Rule, Status};

/// The cipher and the MAC of a body that follows the rules on its outside; or the first of them
/// that it breaks.
pub(crate) fn follow_rules(body: &[u8]) -> Result<(Cipher, MacKind), OuterRefused>
    ensures broken { IfErr result (λ refused.
        first_broken (outer_rules body.now) ≡ Some (refused.rule, refused.status)) }
    ensures unbroken { OnOk result (first_broken (outer_rules body.now) ≡ None) }
    ensures head { IfOk result (λ algorithms.
        take 5 body.now ≡ outer_head algorithms.0 algorithms.1) }
    ensures keyed { IfOk result (λ algorithms.
        key_too_long (cipher_number algorithms.0) (mac_number algorithms.1) ≡ false) }
    ensures room { IfOk result (λ algorithms.
        outer_size algorithms.0 + mac_size algorithms.1 ≤ length body.now) }
    ensures sealed { IfOk result (λ algorithms. is_sealed_size (cipher_number algorithms.0)
        (length body.now - (outer_size algorithms.0 + mac_size algorithms.1)) ≡ true) }
{
    if body.is_empty() {
        return broken(Rule::VERSION, Status::BadCredential);
    }
    if body[0] != VERSION {
        return broken(Rule::VERSION, Status::BadVersion);
    }
    if body.len() < HEAD_SIZE {
        return broken(Rule::CIPHER, Status::BadCredential);
    }
    let Some(cipher) = Cipher::of(body[1]) else {
        return broken(Rule::CIPHER, Status::BadCipher);
    };
    let Some(kind) = mac_with(cipher, body[2]) else {
        return broken(Rule::MAC, Status::BadMac);
    };
    if body[3] != NO_COMPRESSION {
        return broken(Rule::COMPRESSION, Status::BadCompression);
    }
    if body[4] != REALM_SIZE {
        return broken(Rule::REALM, Status::BadRealm);
    }
    if !has_sealed_part(cipher, kind, body.len()) {
        return broken(Rule::SIZE, Status::BadCredential);
    }
    Ok((cipher, kind))
}

/// This rule is broken, with this status.
fn broken<T>(rule: Rule, status: Status) -> Result<T, OuterRefused>
    ensures { result ≡ Err (record { rule = rule; status = status }) }
{
    Err(OuterRefused { rule, status })
}

/// The MAC of this number, and None where none has it that can be used with the cipher.
fn mac_with(cipher: Cipher, number: u8) -> Option<MacKind>
    ensures found { IfSome result (λ kind. mac_number kind ≡ number) }
    ensures keyed { IfSome result (λ kind.
        key_too_long (cipher_number cipher) (mac_number kind) ≡ false) }
    ensures none { IfNone result
        ((is_mac number && not (key_too_long (cipher_number cipher) number)) ≡ false) }
{
    let kind = MacKind::of(number)?;
    if cipher == Cipher::Aes256 && kind == MacKind::Sha1 {
        return None;
    }
    Some(kind)
}

/// Behind head, initial vector and MAC, a body of this size has what may be a sealed part.
fn has_sealed_part(cipher: Cipher, kind: MacKind, size: usize) -> bool
    ensures { result ≡ (nat_le (outer_size cipher + mac_size kind) size
        && is_sealed_size (cipher_number cipher) (size - (outer_size cipher + mac_size kind))) }
{
    let sealed_at = outer_size(cipher) + kind.size();
    if size < sealed_at {
        return false;
    }
    let sealed = size - sealed_at;
    cipher == Cipher::None || (sealed > 0 && sealed % BLOCK_SIZE == 0)
}
