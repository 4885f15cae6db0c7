//! From what a credential says to its bytes.

ghost use Rattle.std.specs.Prelude.{◌≡◌, ◌+◌, ◌≤◌, ◌++◌, length, take, drop};
ghost use Rattle.munge_types.specs.Bytes.{IsBytes};
ghost use Rattle.cred_inner.specs.Inner.{content_of};
ghost use Rattle.cred_inner.specs.InnerPart.{IsContent, inner_part, payload_limit};

use crate::inner::{ADDR_SIZE, HEAD_SIZE, Inner};
use munge_types::Room;

/// The bytes of the inner part before its payload.
pub fn inner_head(inner: &Inner<'_>) -> [u8; HEAD_SIZE]
    requires { length inner.now.payload.now ≤ payload_limit }
    ensures head { result ≡ take 41 (inner_part (content_of inner.now)) }
    ensures content { IsContent (content_of inner.now) }
    ensures whole { result ++ inner.now.payload.now ≡ inner_part (content_of inner.now) }
{
    let mut head = [0; HEAD_SIZE];
    put(&mut head, 0, &inner.salt);
    put(&mut head, 8, &[ADDR_SIZE]);
    put(&mut head, 9, &inner.addr);
    put(&mut head, 13, &inner.time.to_be_bytes());
    put(&mut head, 17, &inner.ttl.to_be_bytes());
    put(&mut head, 21, &inner.uid.to_be_bytes());
    put(&mut head, 25, &inner.gid.to_be_bytes());
    put(&mut head, 29, &inner.for_uid.to_be_bytes());
    put(&mut head, 33, &inner.for_gid.to_be_bytes());
    put(&mut head, 37, &length_of(inner.payload).to_be_bytes());
    head
}

/// Appends the inner part. It takes no memory.
pub fn write_inner(out: &mut Room, inner: &Inner<'_>)
    requires payload { length inner.now.payload.now ≤ payload_limit }
    requires room { 41 + length inner.now.payload.now ≤ out.old.spare }
    ensures content { IsContent (content_of inner.now) }
    ensures appended { out.new.bytes ≡ out.old.bytes ++ inner_part (content_of inner.now) }
    ensures lowered { out.new.spare + length (inner_part (content_of inner.now)) ≡ out.old.spare }
{
    out.put(&inner_head(inner));
    out.put(inner.payload);
}

/// The payload's length, as its field has it.
fn length_of(payload: &[u8]) -> u32
    requires { length payload.now ≤ payload_limit }
    ensures length { result ≡ length payload.now }
    // Its callers cannot see this of a field.
    ensures bytes { IsBytes payload.now }
{
    payload.len() as u32
}

/// Writes the bytes at this place.
fn put(head: &mut [u8; HEAD_SIZE], at: usize, bytes: &[u8])
    requires { at + length bytes.now ≤ 41 }
    ensures front { take (at + length bytes.now) head.new ≡ take at head.old ++ bytes.now }
    ensures behind { drop (at + length bytes.now) head.new ≡ drop (at + length bytes.now) head.old }
    // Its callers cannot see this of a field.
    ensures bytes { IsBytes bytes.now }
{
    head[at..at + bytes.len()].copy_from_slice(bytes);
}
