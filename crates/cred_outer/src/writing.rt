//! From the algorithms of a credential to its outer part.

ghost use Rattle.std.specs.Prelude.{◌≡◌, ◌+◌, ◌≤◌, ◌++◌, take};
ghost use Rattle.cred_outer.specs.OuterPart.{outer_head, outer_part, outer_size, vector_size};

use crate::outer::{HEAD_SIZE, NO_COMPRESSION, REALM_SIZE, VECTOR_SIZE, VERSION, vector_size};
use munge_types::{Cipher, MacKind, Room};

/// The outer part before its initial vector: version, cipher, MAC, no compression, no realm.
pub fn outer_head(cipher: Cipher, kind: MacKind) -> [u8; HEAD_SIZE]
    ensures { result ≡ outer_head cipher kind }
{
    [
        VERSION,
        cipher.number(),
        kind.number(),
        NO_COMPRESSION,
        REALM_SIZE,
    ]
}

/// Appends the outer part, of which without a cipher the initial vector is no part. It takes no
/// memory.
pub fn write_outer(out: &mut Room, cipher: Cipher, kind: MacKind, iv: &[u8; VECTOR_SIZE])
    requires { outer_size cipher ≤ out.old.spare }
    ensures appended { out.new.bytes
        ≡ out.old.bytes ++ outer_part cipher kind (take (vector_size cipher) iv.now) }
    ensures lowered { out.new.spare + outer_size cipher ≡ out.old.spare }
{
    out.put(&outer_head(cipher, kind));
    out.put(&iv[..vector_size(cipher)]);
}
