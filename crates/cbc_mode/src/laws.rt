//! Laws of padding and of chaining. Each function does nothing: what it ensures is the law.

ghost use Rattle.std.specs.Prelude.{◌≡◌, ◌+◌, ◌%◌, ◌<◌, ◌≤◌, ◌++◌, [], ℕ, List, All, length};
ghost use Rattle.aes_block.specs.State.{IsBlock};
ghost use Rattle.cbc_mode.specs.Cbc.{cbc, IsBlocks};
ghost use Rattle.cbc_mode.specs.Chaining.{Chaining, Chains};
ghost use Rattle.cbc_mode.specs.Padding.{pad_size, padded};
ghost use Rattle.cbc_mode.specs.WholeBlocks.{beyond, whole_blocks};

use aes_block::laws::encryption_is_one_to_one;

/// Padding keeps what was padded, ends at whole blocks, and leaves bytes to be bytes.
pub fn padding_is_one_to_one()
    ensures size { (bytes : List ℕ)
        → length (padded bytes) ≡ length bytes + pad_size (length bytes) }
    ensures whole { (bytes : List ℕ) → length (padded bytes) % 16 ≡ 0 }
    ensures blocks { (bytes : List ℕ) → All (λ b. b < 256) bytes → IsBlocks (padded bytes) }
    ensures one { (first second : List ℕ) → padded first ≡ padded second → first ≡ second }
{}

/// Chaining keeps the length of whole blocks. Under a key of bytes, and behind a block, it makes
/// blocks of blocks, and no two lists of blocks the same.
pub fn chaining_is_one_to_one()
    ensures size { (key iv plain : List ℕ) → length plain % 16 ≡ 0
        → length (cbc key iv plain) ≡ length plain }
    ensures blocks { (key iv plain : List ℕ) → All (λ b. b < 256) key → IsBlock iv
        → IsBlocks plain → IsBlocks (cbc key iv plain) }
    ensures one { (key iv first second : List ℕ) → All (λ b. b < 256) key → IsBlock iv
        → IsBlocks first → IsBlocks second → cbc key iv first ≡ cbc key iv second
        → first ≡ second }
{
    encryption_is_one_to_one();
}

/// What the parts of a message put, one behind the other, is the encryption of its whole blocks, and
/// with what its end puts that of the padded message. As many bytes wait as are behind whole blocks.
pub fn parts_make_the_whole()
    ensures none { (key iv : List ℕ) → cbc key iv (whole_blocks []) ≡ [] }
    ensures more { (state : Chaining) (key iv plain part : List ℕ) → Chains state key iv plain
        → cbc key iv (whole_blocks plain) ++ beyond (cbc key iv (whole_blocks plain))
        (cbc key iv (whole_blocks (plain ++ part)))
        ≡ cbc key iv (whole_blocks (plain ++ part)) }
    ensures end { (state : Chaining) (key iv plain : List ℕ) → Chains state key iv plain
        → cbc key iv (whole_blocks plain) ++ beyond (cbc key iv (whole_blocks plain))
        (cbc key iv (padded plain))
        ≡ cbc key iv (padded plain) }
    ensures waiting { (state : Chaining) (key iv plain : List ℕ) → Chains state key iv plain
        → length state.waiting ≡ length plain % 16 }
{}
