//! Laws of the definitions. The function does nothing: what it ensures is the law.

ghost use Rattle.std.specs.Prelude.{◌≡◌, ◌<◌, ◌≤◌, ℕ, List, All, length};
ghost use Rattle.munge_types.specs.Algorithms.{mac_size};
ghost use Rattle.munge_types.specs.declared.algorithms.Cipher.{Cipher};
ghost use Rattle.munge_types.specs.declared.algorithms.MacKind.{MacKind};
ghost use Rattle.subkeys.specs.DataKey.{data_key_under, key_size};

use hmac_core::laws::{mac_has_its_size, mac_is_bytes};

/// A data key is made of bytes, as many as its cipher's key has where the MAC has no fewer.
pub fn data_key_is_bytes()
    ensures size { (cipher : Cipher) (kind : MacKind) (subkey mac : List ℕ)
        → key_size cipher ≤ mac_size kind
        → length (data_key_under cipher kind subkey mac) ≡ key_size cipher }
    ensures bytes { (cipher : Cipher) (kind : MacKind) (subkey mac : List ℕ)
        → All (λ b. b < 256) (data_key_under cipher kind subkey mac) }
{
    mac_has_its_size();
    mac_is_bytes();
}
