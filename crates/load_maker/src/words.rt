//! The words that a load is made of.

ghost use Rattle.std.specs.Prelude.{◌≡◌, ◌<◌, ◌+◌, ◌^◌, ◌++◌};
ghost use Rattle.cred_seal.specs.Dice.{word};
ghost use Rattle.load_maker.specs.Words.{drawn_at, four_words, key_of, seed_of};

use rand_chacha::ChaCha20Rng;
use rand_core::SeedableRng;
use rand_core::utils::NextWord;
use std::marker::Model;

/// A stream of words: the ChaCha20 stream 0 (RFC 8439, with a counter of 64 bits and a nonce of 64)
/// of a seed, and a place in it. It takes no memory.
#[derive(Drop)]
pub(crate) struct Words {
    seed: [u8; 32],
    words: ChaCha20Rng,
}

impl Model for Words {
    ghost use Rattle.cred_seal.specs.Dice.{DiceState, IsGenerator};

    ghost Value = { DiceState };

    ghost view = { λ words. record { seed = words.seed; place = words.words.word_pos } };

    ghost invariant = { λ words.
        IsGenerator words.seed words.words.key words.words.stream words.words.word_pos };
}

/// What is drawn for one credential.
#[derive(Clone, Copy, Debug)]
pub(crate) struct Drawn {
    /// The salt.
    pub(crate) salt: [u8; 8],
    /// The initial vector.
    pub(crate) iv: [u8; 16],
    /// The payload.
    pub(crate) payload: [u8; 16],
}

impl Words {
    /// The words of a load's number, from the first on. The seed is the number as eight big-endian
    /// bytes, and 24 bytes of value 0.
    pub(crate) fn of(number: u64) -> Words
        ensures { result ≡ record { seed = seed_of number; place = 0 } }
    {
        let mut seed = [0; 32];
        seed[0..8].copy_from_slice(&number.to_be_bytes());
        Words {
            seed,
            words: ChaCha20Rng::from_seed(seed),
        }
    }

    /// The key: the first eight words.
    pub(crate) fn key(&mut self) -> [u8; 32]
        requires { self.old.place ≡ 0 }
        ensures value { result ≡ key_of self.old.seed }
        ensures goes_on { self.new ≡ record self.old { place = 8 } }
    {
        let first = self.four_words();
        let second = self.four_words();
        let mut key = [0; 32];
        key[0..16].copy_from_slice(&first);
        key[16..32].copy_from_slice(&second);
        key
    }

    /// Draws the next ten words: two for a salt, four for an initial vector, four for a payload.
    pub(crate) fn draw(&mut self) -> Drawn
        requires { self.old.place + 10 < 2 ^ 68 }
        ensures value { result ≡ drawn_at self.old.seed self.old.place }
        ensures goes_on { self.new ≡ record self.old { place = self.old.place + 10 } }
    {
        let salt = self.two_words();
        let iv = self.four_words();
        let payload = self.four_words();
        Drawn { salt, iv, payload }
    }

    /// The next four words, each as four big-endian bytes.
    fn four_words(&mut self) -> [u8; 16]
        requires { self.old.place + 4 < 2 ^ 68 }
        ensures value { result ≡ four_words self.old.seed self.old.place }
        ensures goes_on { self.new ≡ record self.old { place = self.old.place + 4 } }
    {
        let first = self.two_words();
        let second = self.two_words();
        let mut bytes = [0; 16];
        bytes[0..8].copy_from_slice(&first);
        bytes[8..16].copy_from_slice(&second);
        bytes
    }

    /// The next two words, each as four big-endian bytes.
    fn two_words(&mut self) -> [u8; 8]
        requires { self.old.place + 2 < 2 ^ 68 }
        ensures value { result
            ≡ word self.old.seed self.old.place ++ word self.old.seed (self.old.place + 1) }
        ensures goes_on { self.new ≡ record self.old { place = self.old.place + 2 } }
    {
        let mut bytes = [0; 8];
        bytes[0..4].copy_from_slice(&self.word());
        bytes[4..8].copy_from_slice(&self.word());
        bytes
    }

    /// The next word, as four big-endian bytes.
    fn word(&mut self) -> [u8; 4]
        requires { self.old.place + 1 < 2 ^ 68 }
        ensures value { result ≡ word self.old.seed self.old.place }
        ensures goes_on { self.new ≡ record self.old { place = self.old.place + 1 } }
    {
        let word: u32 = self.words.next_word();
        word.to_be_bytes()
    }
}
