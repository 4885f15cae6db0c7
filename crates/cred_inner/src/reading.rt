//! From bytes to what a credential says.

ghost use Rattle.std.specs.Prelude.{◌≡◌, ◌≢◌, ◌+◌, ◌≤◌, take, drop, IfSome, IfNone, IsSomeAnd};
ghost use Rattle.std.specs.Int.{w32, from_be_bytes};
ghost use Rattle.cred_inner.specs.Inner.{content_of};
ghost use Rattle.cred_inner.specs.InnerPart.{Content, IsContent, inner_part};

use crate::inner::{ADDR_SIZE, HEAD_SIZE, Inner, PAYLOAD_LIMIT};

/// The content of which these bytes are the inner part, and None where they are that of none.
pub fn read_inner(plain: &[u8]) -> Option<Inner<'_>>
    ensures content { IfSome result (λ inner. IsContent (content_of inner)) }
    ensures laid_out { IfSome result (λ inner. plain.now ≡ inner_part (content_of inner)) }
    ensures none { IfNone result ((content : Content) → IsContent content
        → plain.now ≢ inner_part content) }
    ensures read_back { (content : Content) → IsContent content → plain.now ≡ inner_part content
        → IsSomeAnd result (λ inner. content_of inner ≡ content) }
{
    let (head, payload) = plain.split_first_chunk::<HEAD_SIZE>()?;
    let length = number_at(head, 37) as usize;
    if head[8] != ADDR_SIZE || length != payload.len() || length > PAYLOAD_LIMIT {
        return None;
    }
    Some(Inner {
        salt: bytes_at(head, 0),
        addr: bytes_at(head, 9),
        time: number_at(head, 13),
        ttl: number_at(head, 17),
        uid: number_at(head, 21),
        gid: number_at(head, 25),
        for_uid: number_at(head, 29),
        for_gid: number_at(head, 33),
        payload,
    })
}

/// The big-endian number that stands at this place.
fn number_at(head: &[u8; HEAD_SIZE], at: usize) -> u32
    requires { at + 4 ≤ 41 }
    ensures { result ≡ from_be_bytes w32 (take 4 (drop at head.now)) }
{
    u32::from_be_bytes(bytes_at(head, at))
}

/// The bytes that stand at this place.
fn bytes_at<const N: usize>(head: &[u8; HEAD_SIZE], at: usize) -> [u8; N]
    requires { at + N ≤ 41 }
    ensures { result ≡ take N (drop at head.now) }
{
    let mut bytes = [0; N];
    bytes.copy_from_slice(&head[at..at + N]);
    bytes
}
