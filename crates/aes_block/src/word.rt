//! Words: four bytes, a column of the state or of a round key (FIPS 197, 3.5).

ghost use Rattle.std.specs.Prelude.{◌≡◌};
ghost use Rattle.aes_block.specs.State.{add_columns};
ghost use Rattle.aes_block.specs.Packed.{column_of};

use std::marker::Model;
use std::ops::BitXor;

/// Four bytes as one number, the byte of the first row highest.
#[derive(Clone, Copy)]
pub struct Word(u32);

impl Model for Word {
    ghost use Rattle.aes_block.specs.State.{Column};
    ghost use Rattle.aes_block.specs.Packed.{column_of, number_of, number_of-column_of};

    ghost Value = { Column };

    ghost view = { λ w. column_of w.0 };

    ghost inverse = { λ c. record { 0 = number_of c } };

    ghost inverse_ok = { λ w _ i. record { 0 = number_of-column_of w.0 i } };
}

impl Word {
    /// The word whose bytes make up a number, the first row's highest.
    #[inline]
    pub fn new(number: u32) -> Word
        ensures { result ≡ column_of number }
    {
        Word(number)
    }

    /// The word of four bytes, from the first row on.
    #[inline]
    pub fn from_rows(row0: u8, row1: u8, row2: u8, row3: u8) -> Word
        ensures { result ≡ record { row0 = row0; row1 = row1; row2 = row2; row3 = row3 } }
    {
        Word(u32::from_be_bytes([row0, row1, row2, row3]))
    }

    /// The byte of the first row.
    #[inline]
    pub fn row0(self) -> u8
        ensures { result ≡ self.row0 }
    {
        (self.0 >> 24) as u8
    }

    /// The byte of the second row.
    #[inline]
    pub fn row1(self) -> u8
        ensures { result ≡ self.row1 }
    {
        ((self.0 >> 16) & 0xff) as u8
    }

    /// The byte of the third row.
    #[inline]
    pub fn row2(self) -> u8
        ensures { result ≡ self.row2 }
    {
        ((self.0 >> 8) & 0xff) as u8
    }

    /// The byte of the last row.
    #[inline]
    pub fn row3(self) -> u8
        ensures { result ≡ self.row3 }
    {
        (self.0 & 0xff) as u8
    }
}

impl BitXor for Word {
    type Output = Word;

    ghost bitxor_gives = { λ a b sum. sum ≡ add_columns a b };

    #[inline]
    fn bitxor(self, other: Word) -> Word {
        Word(self.0 ^ other.0)
    }
}
