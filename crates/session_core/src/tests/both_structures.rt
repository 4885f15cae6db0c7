//! One session at moments that jump, over each of the two replay structures.

use super::sessions::{NONE, Ran, run};
use super::{HEAD, SEALED};
use crate::{HowEnded, SessionEnd};
use cred_seal::Dice;
use munge_types::Replay;
use replay_table::{PlainReplay, ReplayTable};
use std::alloc::{AllocError, Global};
use std::hash::{BuildHasherDefault, FoldHasher};
use std::test::Fail;

/// How many requests the session has.
const REQUESTS: u32 = 400;

/// How often six words are drawn, so that there are enough for all requests.
const DRAWS: u32 = 67;

/// The bytes of each reply.
const REPLY_SIZE: usize = 52;

/// The reply to the last request, whose look-up is the session's entry 258.
const LAST_REPLY: &[u8] =
    b"\x4d\x01\x04\x00\x00\x00\x2d\x0f\x0d\x00\x00\x00\x00\x00\x00\x01\x02\x04\x05\x00\x00\x00\x00\x00\x00\x03\xe8\x00\x00\x01\x2c\x00\x00\x00\x07\x00\x00\x00\x07\xff\xff\xff\xff\xff\xff\xff\xffhello";

/// Adds a moment below 2000 for each word of these bytes.
fn push_moments(moments: &mut Vec<u32>, words: &[u8]) -> Result<(), AllocError> {
    'words: for word in words.chunks_exact(4) {
        if let Some(word) = word.first_chunk::<4>() {
            moments.push(u32::from_be_bytes(*word) % 2000)?;
        }
    }
    Ok(())
}

/// The words of the ChaCha20 stream 0 of a seed of zeros, each modulo 2000.
fn jumping_moments(alloc: Global) -> Result<Vec<u32>, AllocError> {
    let mut dice = Dice::new([0; 32]);
    let mut moments = Vec::new(alloc);
    'draws: for _ in 0..DRAWS {
        let drawn = dice.draw();
        push_moments(&mut moments, &drawn.salt)?;
        push_moments(&mut moments, &drawn.iv)?;
    }
    Ok(moments)
}

/// A session at these moments, each of whose requests has the same text.
fn repeated<R: Replay>(alloc: Global, replay: &mut R) -> Result<Ran, Fail> {
    let mut input = Vec::new(alloc);
    'requests: for _ in 0..REQUESTS {
        input.extend_from_slice(HEAD)?;
        input.extend_from_slice(SEALED)?;
    }
    run(alloc, replay, input, jumping_moments(alloc)?, NONE)
}

/// How many of the replies name this rule.
fn count_of_rule(replies: &[u8], rule: u8) -> usize {
    replies
        .chunks_exact(REPLY_SIZE)
        .filter(|reply| reply.get(8) == Some(&rule))
        .count()
}

#[test]
fn list_and_table_give_the_same_replies(rt: HostRuntime) -> Result<(), Fail> {
    let alloc = rt.alloc();
    let mut plain = PlainReplay::new(alloc);
    let by_list = repeated(alloc, &mut plain)?;
    let hash_state: BuildHasherDefault<FoldHasher> = BuildHasherDefault::new();
    let mut table = ReplayTable::new(alloc, hash_state);
    let by_table = repeated(alloc, &mut table)?;
    let end = SessionEnd {
        answered: REQUESTS,
        how: HowEnded::Done,
    };
    assert_eq!(rt; (by_list.end, by_table.end), (end, end));
    assert_eq!(rt; by_list.output, by_table.output);
    // By a simulation in Python, with ChaCha20 written after RFC 8439.
    let rewound = count_of_rule(&by_table.output, 12);
    let expired = count_of_rule(&by_table.output, 13);
    assert_eq!(rt; (rewound, expired), (144, 256));
    assert!(rt; by_table.output.ends_with(LAST_REPLY));
    Ok(())
}
