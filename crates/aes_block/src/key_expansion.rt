//! KEYEXPANSION, which makes the words of the round keys from a key (FIPS 197, 5.2).

ghost use Rattle.std.specs.Prelude.{◌≡◌, ◌+◌, ◌*◌, ◌/◌, ◌<◌, ◌≤◌, ◌⊎◌, length};
ghost use Rattle.aes_block.specs.State.{column_at};
ghost use Rattle.aes_block.specs.KeyExpansion.{rot_word, rcon, added_word, next_word, expanded_key};

use crate::s_box::sub_word;
use crate::word::Word;

/// The powers of x in the field, from the zeroth on.
static POWERS_OF_X: [u8; 10] = [0x01, 0x02, 0x04, 0x08, 0x10, 0x20, 0x40, 0x80, 0x1b, 0x36];

/// ROTWORD: each byte one row up, and the first at the end.
#[inline]
fn rot_word(word: Word) -> Word
    ensures { result ≡ rot_word word }
{
    Word::from_rows(word.row1(), word.row2(), word.row3(), word.row0())
}

/// Rcon[j], the constant of the j-th round of the expansion.
#[inline]
fn rcon(j: usize) -> Word
    requires first { 1 ≤ j }
    requires last { j ≤ 10 }
    ensures { result ≡ rcon j }
{
    Word::from_rows(POWERS_OF_X[j - 1], 0, 0, 0)
}

/// What the word `key_words` before word i is added to: the word before it, changed at some places.
#[inline]
#[tactic(auto, unfolding(crate::specs::KeyExpansion::added_word))]
fn added_word(key_words: usize, i: usize, temp: Word) -> Word
    requires size { (key_words ≡ 4) ⊎ (key_words ≡ 8) }
    requires after_key { key_words ≤ i }
    requires within { i < 4 * (key_words + 7) }
    ensures { result ≡ added_word key_words i temp }
{
    let place = i % key_words;
    if place == 0 {
        sub_word(rot_word(temp)) ^ rcon(i / key_words)
    } else if key_words > 6 && place == 4 {
        sub_word(temp)
    } else {
        temp
    }
}

/// The word that follows the words so far.
#[inline]
fn next_word(key_words: usize, words: &[Word]) -> Word
    requires size { (key_words ≡ 4) ⊎ (key_words ≡ 8) }
    requires after_key { key_words ≤ length words.now }
    requires within { length words.now < 4 * (key_words + 7) }
    ensures { result ≡ next_word key_words words.now }
{
    let i = words.len();
    words[i - key_words] ^ added_word(key_words, i, words[i - 1])
}

/// The word of the four bytes from an index on.
#[inline]
fn word_of_key(key: &[u8], i: usize) -> Word
    requires { i + 4 ≤ length key.now }
    ensures { result ≡ column_at key.now i }
{
    Word::from_rows(key[i], key[i + 1], key[i + 2], key[i + 3])
}

/// Fills `words` with the words of the round keys: those of the key, 16 or 32 bytes, and then each
/// from the ones before it.
#[inline]
pub fn expand(key: &[u8], words: &mut [Word])
    requires size { (length key.now ≡ 16) ⊎ (length key.now ≡ 32) }
    requires room { length words.old ≡ length key.now + 28 }
    ensures { words.new ≡ expanded_key key.now }
{
    let key_words = key.len() / 4;
    for i in 0..key_words {
        words[i] = word_of_key(key, 4 * i);
    }
    for i in key_words..words.len() {
        let word = next_word(key_words, &words[..i]);
        words[i] = word;
    }
}
