//! The state of the cipher (FIPS 197, 3.4), by its columns (3.5).

ghost use Rattle.std.specs.Prelude.{◌≡◌};
ghost use Rattle.aes_block.specs.State.{IsBlock, state_of, block_of};
ghost use Rattle.aes_block.specs.Rounds.{add_round_key};

use crate::word::Word;
use std::marker::Model;

/// Sixteen bytes as four words, each of them a column.
#[derive(Drop)]
pub struct State {
    pub column0: Word,
    pub column1: Word,
    pub column2: Word,
    pub column3: Word,
}

impl Model for State {
    ghost use Rattle.aes_block.specs.State.{StateArray};

    ghost Value = { StateArray };

    ghost view = { λ s. record {
      column0 = s.column0;
      column1 = s.column1;
      column2 = s.column2;
      column3 = s.column3;
    } };
}

impl State {
    /// The state that a block fills, column by column.
    #[inline]
    pub fn from_block(block: &[u8; 16]) -> State
        ensures { result ≡ state_of block.now }
    {
        State {
            column0: Word::from_rows(block[0], block[1], block[2], block[3]),
            column1: Word::from_rows(block[4], block[5], block[6], block[7]),
            column2: Word::from_rows(block[8], block[9], block[10], block[11]),
            column3: Word::from_rows(block[12], block[13], block[14], block[15]),
        }
    }

    /// The block that the state leaves, column by column.
    #[inline]
    pub fn to_block(self) -> [u8; 16]
        ensures value { result ≡ block_of self }
        ensures block { IsBlock result }
    {
        [
            self.column0.row0(),
            self.column0.row1(),
            self.column0.row2(),
            self.column0.row3(),
            self.column1.row0(),
            self.column1.row1(),
            self.column1.row2(),
            self.column1.row3(),
            self.column2.row0(),
            self.column2.row1(),
            self.column2.row2(),
            self.column2.row3(),
            self.column3.row0(),
            self.column3.row1(),
            self.column3.row2(),
            self.column3.row3(),
        ]
    }

    /// ADDROUNDKEY: the sum of the state and a round key (5.1.4).
    #[inline]
    pub fn add_round_key(self, key: State) -> State
        ensures { result ≡ add_round_key self key }
    {
        State {
            column0: self.column0 ^ key.column0,
            column1: self.column1 ^ key.column1,
            column2: self.column2 ^ key.column2,
            column3: self.column3 ^ key.column3,
        }
    }
}
