//! From a credential's body to its parts.

ghost use Rattle.std.specs.Prelude.{◌≡◌, [], false, true, length, None, Some, IfOk, IfErr, OnOk};
ghost use Rattle.munge_types.specs.Algorithms.{cipher_number, mac_number};
ghost use Rattle.cred_outer.specs.BodyParts.{AreParts};
ghost use Rattle.cred_outer.specs.OuterPart.{outer_part};
ghost use Rattle.cred_outer.specs.OuterRules.{first_broken, is_sealed_size, key_too_long, outer_rules};

use crate::outer::{HEAD_SIZE, REALM_SIZE, outer_size};
use crate::rules::follow_rules;
use crate::{Outer, OuterRefused};

/// The parts of a body; or the first of the decode rules 2 to 7 that it breaks, with its status. It
/// takes no memory.
pub fn read_outer(body: &[u8]) -> Result<Outer<'_>, OuterRefused>
    ensures broken { IfErr result (λ refused.
        first_broken (outer_rules body.now) ≡ Some (refused.rule, refused.status)) }
    ensures unbroken { OnOk result (first_broken (outer_rules body.now) ≡ None) }

    // The parts are those of the body, in order and with their lengths.
    ensures parts { IfOk result (λ outer. AreParts outer.cipher outer.kind
        outer.iv.now outer.mac.now outer.rest.now body.now) }
    ensures front { IfOk result (λ outer.
        outer.front.now ≡ outer_part outer.cipher outer.kind outer.iv.now) }
    ensures realm { IfOk result (λ outer. outer.realm.now ≡ []) }
    ensures rest { IfOk result (λ outer.
        is_sealed_size (cipher_number outer.cipher) (length outer.rest.now) ≡ true) }

    // The MAC is long enough for the cipher's key.
    ensures keyed { IfOk result (λ outer.
        key_too_long (cipher_number outer.cipher) (mac_number outer.kind) ≡ false) }
{
    let (cipher, kind) = follow_rules(body)?;
    let (front, behind) = body.split_at(outer_size(cipher));
    let (realm, iv) = front[HEAD_SIZE..].split_at(REALM_SIZE as usize);
    let (mac, rest) = behind.split_at(kind.size());
    Ok(Outer {
        cipher,
        kind,
        front,
        realm,
        iv,
        mac,
        rest,
    })
}
