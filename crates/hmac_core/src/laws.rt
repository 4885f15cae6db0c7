//! Laws of the definition. Each function does nothing: what it ensures is the law.

ghost use Rattle.std.specs.Prelude.{◌≡◌, ◌<◌, ℕ, List, All, length};
ghost use Rattle.munge_types.specs.Algorithms.{mac_size};
ghost use Rattle.munge_types.specs.declared.algorithms.MacKind.{MacKind};
ghost use Rattle.hmac_core.specs.Hmac.{hmac};

/// Each MAC has the bytes of its hash function's digest.
pub fn mac_has_its_size()
    ensures { (kind : MacKind) (key message : List ℕ)
        → length (hmac kind key message) ≡ mac_size kind }
{}

/// Each MAC is made of bytes, whatever its key and its message are.
pub fn mac_is_bytes()
    ensures { (kind : MacKind) (key message : List ℕ) → All (λ b. b < 256) (hmac kind key message) }
{}
