//! A block, and the sum of two.

ghost use Rattle.std.specs.Prelude.{◌≡◌};
ghost use Rattle.cbc_mode.specs.Cbc.{xor};

/// The bytes of a block.
pub(crate) const BLOCK: usize = 16;

/// Adds a block to another, byte by byte.
pub(crate) fn add(sum: &mut [u8; 16], block: &[u8; 16])
    ensures { sum.new ≡ xor sum.old block.now }
{
    for i in 0..BLOCK {
        sum[i] ^= block[i];
    }
}
