//! EQINVCIPHER, the inverse of the cipher in the cipher's own order (FIPS 197, 5.3.5).
//!
//! Each contract says what the cipher makes of the result, so no decryption has to be defined.

ghost use Rattle.std.specs.Prelude.{◌≡◌, ℕ, ◌+◌, ◌*◌, ◌<◌, ◌≤◌, length, map};
ghost use Rattle.aes_block.specs.SubBytes.{sub_word, sub_bytes};
ghost use Rattle.aes_block.specs.Rounds.{diagonal, shift_rows, mix_column, mix_columns, add_round_key};
ghost use Rattle.aes_block.specs.Cipher.{encrypted};

use crate::cipher::round_key;
use crate::inverse_tables::{unmixed_column, unmixed_word};
use crate::s_box::inverse_sub_byte;
use crate::state::State;
use crate::word::Word;

/// The column of which MIXCOLUMNS, and SUBBYTES after it, make the bytes on a diagonal.
#[inline]
fn inverse_round_column(a: Word, b: Word, c: Word, d: Word) -> Word
    ensures { sub_word (mix_column result) ≡ diagonal a b c d }
{
    unmixed_column(a.row0(), b.row1(), c.row2(), d.row3())
}

/// A round undone, from what SHIFTROWS left in the next round to what it left in this one. `key` is
/// the round key, undone by columns as the state is.
#[inline]
fn inverse_round(state: State, key: State) -> State
    ensures { shift_rows (sub_bytes (mix_columns (add_round_key result key))) ≡ state }
{
    let State {
        column0: a,
        column1: b,
        column2: c,
        column3: d,
    } = state;
    State {
        column0: inverse_round_column(a, d, c, b) ^ key.column0,
        column1: inverse_round_column(b, a, d, c) ^ key.column1,
        column2: inverse_round_column(c, b, a, d) ^ key.column2,
        column3: inverse_round_column(d, c, b, a) ^ key.column3,
    }
}

/// The column of which SUBBYTES makes the bytes on a diagonal.
#[inline]
fn inverse_first_column(a: Word, b: Word, c: Word, d: Word) -> Word
    ensures { sub_word result ≡ diagonal a b c d }
{
    Word::from_rows(
        inverse_sub_byte(a.row0()),
        inverse_sub_byte(b.row1()),
        inverse_sub_byte(c.row2()),
        inverse_sub_byte(d.row3()),
    )
}

/// The first round undone from what SHIFTROWS left, and the key addition before it.
#[inline]
fn inverse_first_round(state: State, key: State) -> State
    ensures { shift_rows (sub_bytes (add_round_key result key)) ≡ state }
{
    let State {
        column0: a,
        column1: b,
        column2: c,
        column3: d,
    } = state;
    State {
        column0: inverse_first_column(a, d, c, b) ^ key.column0,
        column1: inverse_first_column(b, a, d, c) ^ key.column1,
        column2: inverse_first_column(c, b, a, d) ^ key.column2,
        column3: inverse_first_column(d, c, b, a) ^ key.column3,
    }
}

/// Fills `unmixed` with the words of which MIXCOLUMNS makes the words of the round keys.
#[inline]
pub fn unmix(words: &[Word], unmixed: &mut [Word])
    requires { length unmixed.old ≡ length words.now }
    ensures { map mix_column unmixed.new ≡ words.now }
{
    for i in 0..words.len() {
        unmixed[i] = unmixed_word(words[i]);
    }
}

/// The state that all the rounds turn into this one, `rounds` of them. `unmixed` has the words of
/// which MIXCOLUMNS makes `words`.
#[inline(always)]
pub fn decrypt(words: &[Word], unmixed: &[Word], rounds: usize, state: State) -> State
    requires some { 0 < rounds }
    requires keys { 4 * rounds + 4 ≤ length words.now }
    requires undone { map mix_column unmixed.now ≡ words.now }
    ensures { encrypted words.now rounds result ≡ state }
{
    let mut state = state.add_round_key(round_key(words, rounds));
    let mut number = rounds - 1;
    while number > 0 {
        let next = inverse_round(state, round_key(unmixed, number));
        state = next;
        number -= 1;
    }
    inverse_first_round(state, round_key(words, 0))
}
