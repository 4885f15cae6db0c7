//! Encryption of whole blocks in place (NIST SP 800-38A, section 6.2).

ghost use Rattle.std.specs.Prelude.{◌≡◌, ◌%◌, ◌++◌, ℕ, List, length};
ghost use Rattle.aes_block.specs.Cipher.{cipher};
ghost use Rattle.aes_block.specs.DataKey.{key_of};
ghost use Rattle.cbc_mode.specs.Cbc.{xor, cbc};

use crate::block::{BLOCK, add};
use aes_block::DataKey;

/// Encrypts whole blocks in place, with the vector before the first.
pub fn seal_in_place(key: &DataKey, iv: &[u8; 16], buf: &mut [u8])
    requires { length buf.old % 16 ≡ 0 }
    ensures { buf.new ≡ cbc (key_of key.now) iv.now buf.old }
{
    let mut before = *iv;
    seal_chained(key, &mut before, buf);
}

/// Encrypts whole blocks in place, the first behind a cipher block, whose place the last new one
/// takes: what comes next is chained to that.
pub(crate) fn seal_chained(key: &DataKey, before: &mut [u8; 16], buf: &mut [u8])
    requires { length buf.old % 16 ≡ 0 }
    ensures made { buf.new ≡ cbc (key_of key.now) before.old buf.old }
    ensures goes_on { (rest : List ℕ) → cbc (key_of key.now) before.old (buf.old ++ rest)
        ≡ buf.new ++ cbc (key_of key.now) before.new rest }
{
    for number in 0..buf.len() / BLOCK {
        let at = BLOCK * number;
        seal_block(key, before, &mut buf[at..at + BLOCK]);
    }
}

/// Encrypts a block in place, behind a cipher block, whose place the new one takes.
fn seal_block(key: &DataKey, before: &mut [u8; 16], block: &mut [u8])
    requires { length block.old ≡ 16 }
    ensures made { block.new ≡ cipher (key_of key.now) (xor block.old before.old) }
    ensures kept { before.new ≡ block.new }
{
    let Some(block) = block.as_mut_array::<BLOCK>() else {
        unreachable!()
    };
    add(block, before);
    key.encrypt(block);
    *before = *block;
}
