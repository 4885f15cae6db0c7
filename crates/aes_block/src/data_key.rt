//! Keys of either size.

ghost use Rattle.std.specs.Prelude.{◌≡◌, ℕ, List};
ghost use Rattle.aes_block.specs.State.{IsBlock};
ghost use Rattle.aes_block.specs.Cipher.{cipher};
ghost use Rattle.aes_block.specs.DataKey.{key_of};

use crate::key128::Key128;
use crate::key256::Key256;

/// A key of 16 or of 32 bytes.
#[derive(Drop)]
pub enum DataKey {
    /// AES-128.
    Aes128(Key128),
    /// AES-256.
    Aes256(Key256),
}

impl DataKey {
    /// Encrypts a block in place.
    pub fn encrypt(&self, block: &mut [u8; 16])
        ensures { block.new ≡ cipher (key_of self.now) block.old }
    {
        match self {
            DataKey::Aes128(key) => key.encrypt(block),
            DataKey::Aes256(key) => key.encrypt(block),
        }
    }

    /// Decrypts a block in place: leaves the one block whose encryption it was.
    pub fn decrypt(&self, block: &mut [u8; 16])
        ensures undone { cipher (key_of self.now) block.new ≡ block.old }
        ensures only { (other : List ℕ) →
            IsBlock other → cipher (key_of self.now) other ≡ block.old → other ≡ block.new }
    {
        match self {
            DataKey::Aes128(key) => key.decrypt(block),
            DataKey::Aes256(key) => key.decrypt(block),
        }
    }
}
