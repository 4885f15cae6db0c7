//! AES on blocks that are chained, as in CBC (NIST SP 800-38A, 6.2).

use crate::rate::Rate;
use aes_block::{DataKey, Key128, Key256};
use std::io;
use std::time::CpuClock;

type Block = [u8; 16];

/// The blocks of one pass, 8 KiB.
const BLOCKS: usize = 512;

const PASS_BYTES: u64 = 8192;

/// A message, and the block that its first one is chained to.
#[derive(Drop)]
struct Chain {
    blocks: [Block; BLOCKS],
    last: Block,
}

impl Chain {
    fn new() -> Chain {
        Chain {
            blocks: [[0; 16]; BLOCKS],
            last: [0; 16],
        }
    }

    #[inline(never)]
    fn encrypt(&mut self, key: &DataKey) {
        let mut last = self.last;
        for block in self.blocks.iter_mut() {
            add(block, &last);
            key.encrypt(block);
            last = *block;
        }
        self.last = last;
    }

    #[inline(never)]
    fn decrypt(&mut self, key: &DataKey) {
        let mut last = self.last;
        for block in self.blocks.iter_mut() {
            let encrypted = *block;
            key.decrypt(block);
            add(block, &last);
            last = encrypted;
        }
        self.last = last;
    }
}

/// Adds a block to another, bit by bit.
#[inline]
fn add(block: &mut Block, other: &Block) {
    for (byte, other) in block.iter_mut().zip(other) {
        *byte ^= *other;
    }
}

fn time(rt: &(impl CpuClock + Print), name: &str, key: &DataKey) -> io::Result<()> {
    let mut chain = Chain::new();
    let rate = Rate::of(rt, PASS_BYTES, || chain.encrypt(key))?;
    println!(rt; "{name} encrypt {rate}")?;
    let rate = Rate::of(rt, PASS_BYTES, || chain.decrypt(key))?;
    println!(rt; "{name} decrypt {rate}")
}

/// Times encryption and decryption of chained blocks under a key of either size, a second each.
pub fn run(rt: &(impl CpuClock + Print)) -> io::Result<()> {
    time(rt, "aes-128", &DataKey::Aes128(Key128::new(&[0x2b; 16])))?;
    time(rt, "aes-256", &DataKey::Aes256(Key256::new(&[0x2b; 32])))
}
