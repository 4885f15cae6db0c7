//! Laws of the cipher. Each function does nothing: what it ensures is the law.

ghost use Rattle.std.specs.Prelude.{◌≡◌, ◌<◌, ℕ, List, All, length};
ghost use Rattle.aes_block.specs.State.{IsBlock};
ghost use Rattle.aes_block.specs.Cipher.{cipher};
ghost use Rattle.aes_block.specs.DataKey.{key_of};

use crate::data_key::DataKey;

/// Whatever is encrypted, the result has sixteen elements. Under a key of bytes a block is encrypted
/// to a block, and no two blocks to the same.
pub fn encryption_is_one_to_one()
    ensures size { (key block : List ℕ) → length (cipher key block) ≡ 16 }
    ensures block { (key block : List ℕ) → All (λ b. b < 256) key
        → IsBlock block → IsBlock (cipher key block) }
    ensures one { (key first second : List ℕ) → All (λ b. b < 256) key
        → IsBlock first → IsBlock second → cipher key first ≡ cipher key second → first ≡ second }
{}

/// A key is made of bytes.
pub fn key_is_bytes(key: &DataKey)
    ensures { All (λ b. b < 256) (key_of key.now) }
{
    match key {
        DataKey::Aes128(key) => key.is_bytes(),
        DataKey::Aes256(key) => key.is_bytes(),
    }
}
