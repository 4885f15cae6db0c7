//! Keys of 32 bytes.

ghost use Rattle.std.specs.Prelude.{◌≡◌, ◌<◌, ℕ, List, All};
ghost use Rattle.aes_block.specs.State.{IsBlock};
ghost use Rattle.aes_block.specs.Cipher.{cipher};

use crate::state::State;
use crate::word::Word;
use crate::{cipher, inverse_cipher, key_expansion};
use std::marker::Model;

/// The number of rounds (FIPS 197, 5, table 3).
const ROUNDS: usize = 14;

/// A key of 32 bytes, as the words of its round keys. Contracts see its bytes.
#[derive(Drop)]
pub struct Key256 {
    words: [Word; 60],
    /// The words of which MIXCOLUMNS makes the others.
    unmixed: [Word; 60],
}

impl Model for Key256 {
    ghost use Rattle.std.specs.Prelude.{ℕ, List};
    ghost use Rattle.aes_block.specs.Schedule.{key_bytes, IsSchedule};

    ghost Value = { List ℕ };

    ghost view = { λ k. key_bytes 8 k.words };

    ghost invariant = { λ k. IsSchedule 8 k.words k.unmixed };
}

impl Key256 {
    /// The key of 32 bytes.
    pub fn new(key: &[u8; 32]) -> Key256
        ensures { result ≡ key.now }
    {
        let mut words = [Word::new(0); 60];
        key_expansion::expand(key, &mut words);
        let mut unmixed = [Word::new(0); 60];
        inverse_cipher::unmix(&words, &mut unmixed);
        Key256 { words, unmixed }
    }

    /// Does nothing: the key is made of bytes.
    pub(crate) fn is_bytes(&self)
        ensures { All (λ b. b < 256) self.now }
    {
        let _ = &self.words;
    }

    /// Encrypts a block in place (5.1).
    pub fn encrypt(&self, block: &mut [u8; 16])
        ensures { block.new ≡ cipher self.now block.old }
    {
        let state = cipher::encrypt(&self.words, ROUNDS, State::from_block(block));
        *block = state.to_block();
    }

    /// Decrypts a block in place: leaves the one block whose encryption it was.
    pub fn decrypt(&self, block: &mut [u8; 16])
        ensures undone { cipher self.now block.new ≡ block.old }
        ensures only { (other : List ℕ) →
            IsBlock other → cipher self.now other ≡ block.old → other ≡ block.new }
    {
        let state = State::from_block(block);
        let state = inverse_cipher::decrypt(&self.words, &self.unmixed, ROUNDS, state);
        *block = state.to_block();
    }
}
