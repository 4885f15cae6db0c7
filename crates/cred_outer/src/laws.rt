//! Laws of a body's parts. Each function does nothing: what it ensures is the law.

ghost use Rattle.std.specs.Prelude.{◌≡◌, false, true, ℕ, List, length, None};
ghost use Rattle.munge_types.specs.Algorithms.{cipher_number, mac_number};
ghost use Rattle.munge_types.specs.declared.algorithms.Cipher.{Cipher};
ghost use Rattle.munge_types.specs.declared.algorithms.MacKind.{MacKind};
ghost use Rattle.cred_outer.specs.BodyParts.{AreParts, SameParts};
ghost use Rattle.cred_outer.specs.OuterRules.{first_broken, is_sealed_size, key_too_long, outer_rules};

/// A body is cut into its parts in one way at most.
pub fn body_has_its_parts_once()
    ensures { (c d : Cipher) (k l : MacKind) (v w m n r s body : List ℕ)
        → AreParts c k v m r body → AreParts d l w n s body → SameParts c d k l v w m n r s }
{}

/// A body that is made of parts breaks no rule, where the MAC is long enough for the cipher's key,
/// and the rest may be a sealed part.
pub fn parts_break_no_rule()
    ensures { (cipher : Cipher) (kind : MacKind) (vector mac rest body : List ℕ)
        → AreParts cipher kind vector mac rest body
        → key_too_long (cipher_number cipher) (mac_number kind) ≡ false
        → is_sealed_size (cipher_number cipher) (length rest) ≡ true
        → first_broken (outer_rules body) ≡ None }
{}
