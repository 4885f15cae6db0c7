//! CIPHER, the encryption of a block (FIPS 197, 5.1).

ghost use Rattle.std.specs.Prelude.{◌≡◌, ◌+◌, ◌-◌, ◌*◌, ◌/◌, ◌<◌, ◌≤◌, length};
ghost use Rattle.aes_block.specs.KeyExpansion.{round_key};
ghost use Rattle.aes_block.specs.SubBytes.{sub_word};
ghost use Rattle.aes_block.specs.Rounds.{diagonal, mix_column, round, last_round};
ghost use Rattle.aes_block.specs.Cipher.{encrypted};

use crate::s_box::sub_byte;
use crate::state::State;
use crate::tables::mixed_column;
use crate::word::Word;

/// The round key of a round, four words.
#[inline]
pub fn round_key(words: &[Word], round: usize) -> State
    requires { 4 * round + 4 ≤ length words.now }
    ensures { result ≡ round_key words.now round }
{
    State {
        column0: words[4 * round],
        column1: words[4 * round + 1],
        column2: words[4 * round + 2],
        column3: words[4 * round + 3],
    }
}

/// A column of a round before the last: the bytes on the diagonal of four columns.
#[inline]
fn round_column(a: Word, b: Word, c: Word, d: Word) -> Word
    ensures { result ≡ mix_column (sub_word (diagonal a b c d)) }
{
    mixed_column(a.row0(), b.row1(), c.row2(), d.row3())
}

/// A round before the last.
#[inline]
#[tactic(auto, unfolding(crate::specs::Rounds::round))]
fn round(state: State, key: State) -> State
    ensures { result ≡ round state key }
{
    let State {
        column0: a,
        column1: b,
        column2: c,
        column3: d,
    } = state;
    State {
        column0: round_column(a, b, c, d) ^ key.column0,
        column1: round_column(b, c, d, a) ^ key.column1,
        column2: round_column(c, d, a, b) ^ key.column2,
        column3: round_column(d, a, b, c) ^ key.column3,
    }
}

/// A column of the last round: the bytes on the diagonal of four columns.
#[inline]
fn last_column(a: Word, b: Word, c: Word, d: Word) -> Word
    ensures { result ≡ sub_word (diagonal a b c d) }
{
    Word::from_rows(
        sub_byte(a.row0()),
        sub_byte(b.row1()),
        sub_byte(c.row2()),
        sub_byte(d.row3()),
    )
}

/// The last round, which mixes no columns.
#[inline]
#[tactic(auto, unfolding(crate::specs::Rounds::last_round))]
fn last_round(state: State, key: State) -> State
    ensures { result ≡ last_round state key }
{
    let State {
        column0: a,
        column1: b,
        column2: c,
        column3: d,
    } = state;
    State {
        column0: last_column(a, b, c, d) ^ key.column0,
        column1: last_column(b, c, d, a) ^ key.column1,
        column2: last_column(c, d, a, b) ^ key.column2,
        column3: last_column(d, a, b, c) ^ key.column3,
    }
}

/// The state that all the rounds make of a state, `rounds` of them.
#[inline(always)]
pub fn encrypt(words: &[Word], rounds: usize, state: State) -> State
    requires some { 0 < rounds }
    requires keys { 4 * rounds + 4 ≤ length words.now }
    ensures { result ≡ encrypted words.now rounds state }
{
    let mut state = state.add_round_key(round_key(words, 0));
    for number in 1..rounds {
        let next = round(state, round_key(words, number));
        state = next;
    }
    last_round(state, round_key(words, rounds))
}
