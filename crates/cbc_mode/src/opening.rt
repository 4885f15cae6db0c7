//! Decryption of whole blocks in place (NIST SP 800-38A, section 6.2).

ghost use Rattle.std.specs.Prelude.{◌≡◌, ◌%◌, ℕ, List, length};
ghost use Rattle.aes_block.specs.Cipher.{cipher};
ghost use Rattle.aes_block.specs.DataKey.{key_of};
ghost use Rattle.cbc_mode.specs.Cbc.{xor, cbc, IsBlocks};

use crate::block::{BLOCK, add};
use crate::laws::chaining_is_one_to_one;
use aes_block::DataKey;
use aes_block::laws::key_is_bytes;

/// Decrypts whole blocks in place: leaves the one list whose encryption they were.
pub fn open_in_place(key: &DataKey, iv: &[u8; 16], buf: &mut [u8])
    requires { length buf.old % 16 ≡ 0 }
    ensures undone { cbc (key_of key.now) iv.now buf.new ≡ buf.old }
    ensures only { (other : List ℕ) → IsBlocks other
        → cbc (key_of key.now) iv.now other ≡ buf.old → other ≡ buf.new }
{
    let mut before = *iv;
    for number in 0..buf.len() / BLOCK {
        let at = BLOCK * number;
        open_block(key, &mut before, &mut buf[at..at + BLOCK]);
    }
    only_these_blocks(key, iv, buf);
}

/// Decrypts a block in place, behind a cipher block, whose place the block takes as it was.
fn open_block(key: &DataKey, before: &mut [u8; 16], block: &mut [u8])
    requires { length block.old ≡ 16 }
    ensures undone { cipher (key_of key.now) (xor block.new before.old) ≡ block.old }
    ensures kept { before.new ≡ block.old }
{
    let Some(block) = block.as_mut_array::<BLOCK>() else {
        unreachable!()
    };
    let sealed = *block;
    key.decrypt(block);
    add(block, before);
    *before = sealed;
}

/// Does nothing: no other blocks are encrypted to the same.
fn only_these_blocks(key: &DataKey, iv: &[u8; 16], blocks: &[u8])
    requires { length blocks.now % 16 ≡ 0 }
    ensures { (other : List ℕ) → IsBlocks other
        → cbc (key_of key.now) iv.now other ≡ cbc (key_of key.now) iv.now blocks.now
        → other ≡ blocks.now }
{
    key_is_bytes(key);
    chaining_is_one_to_one();
}
