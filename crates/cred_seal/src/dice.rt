//! Salts and initial vectors, drawn from a seed.

ghost use Rattle.std.specs.Prelude.{◌≡◌, ◌<◌, ◌+◌, ◌%◌, ◌^◌, ◌++◌};
ghost use Rattle.cred_seal.specs.Dice.{next_place, salt_at, vector_at, word};

use rand_chacha::ChaCha20Rng;
use rand_core::SeedableRng;
use rand_core::utils::NextWord;
use std::marker::Model;

/// A stream of words from which salts and initial vectors are drawn: the ChaCha20 stream 0 (RFC
/// 8439, with a counter of 64 bits and a nonce of 64) of a seed, and a place in it. It takes no
/// memory.
#[derive(Drop)]
pub struct Dice {
    seed: [u8; 32],
    words: ChaCha20Rng,
}

impl Model for Dice {
    ghost use Rattle.cred_seal.specs.Dice.{DiceState, IsGenerator};

    ghost Value = { DiceState };

    ghost view = { λ dice. record { seed = dice.seed; place = dice.words.word_pos } };

    ghost invariant = { λ dice.
        IsGenerator dice.seed dice.words.key dice.words.stream dice.words.word_pos };
}

/// What was drawn for one credential.
#[derive(Clone, Copy, Debug, PartialEq, Eq)]
pub struct Drawn {
    /// The salt.
    pub salt: [u8; 8],
    /// The initial vector.
    pub iv: [u8; 16],
    /// The place of the first of the words, counted from the start of the stream.
    pub place: u128,
}

impl Dice {
    /// The dice of this seed, at the start of the stream.
    pub fn new(seed: [u8; 32]) -> Dice
        ensures { result ≡ record { seed = seed; place = 0 } }
    {
        Dice {
            seed,
            words: ChaCha20Rng::from_seed(seed),
        }
    }

    /// Draws the next six words: two for the salt and four for the initial vector, each written as
    /// four big-endian bytes. The place goes on by six, modulo 2^68.
    pub fn draw(&mut self) -> Drawn
        ensures salt { result.salt ≡ salt_at self.old.seed self.old.place }
        ensures vector { result.iv ≡ vector_at self.old.seed self.old.place }
        ensures place { result.place ≡ self.old.place }
        ensures bound { result.place < 2 ^ 68 }
        ensures goes_on { self.new ≡ record self.old { place = next_place self.old.place } }
    {
        let place = self.words.get_word_pos();
        let salt = self.two_words();
        let first = self.two_words();
        let second = self.two_words();
        let mut iv = [0; 16];
        iv[0..8].copy_from_slice(&first);
        iv[8..16].copy_from_slice(&second);
        Drawn { salt, iv, place }
    }

    /// The next two words, each as four big-endian bytes.
    fn two_words(&mut self) -> [u8; 8]
        ensures value { result
            ≡ word self.old.seed self.old.place ++ word self.old.seed (self.old.place + 1) }
        ensures goes_on { self.new ≡ record self.old { place = (self.old.place + 2) % 2 ^ 68 } }
    {
        let mut bytes = [0; 8];
        bytes[0..4].copy_from_slice(&self.word());
        bytes[4..8].copy_from_slice(&self.word());
        bytes
    }

    /// The next word, as four big-endian bytes.
    fn word(&mut self) -> [u8; 4]
        ensures value { result ≡ word self.old.seed self.old.place }
        ensures goes_on { self.new ≡ record self.old { place = (self.old.place + 1) % 2 ^ 68 } }
    {
        let word: u32 = self.words.next_word();
        word.to_be_bytes()
    }
}

#[cfg(test)]
mod tests;
