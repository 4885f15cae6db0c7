//! Laws of the inner part. Each function does nothing: what it ensures is the law.

ghost use Rattle.std.specs.Prelude.{◌≡◌, ◌+◌, length};
ghost use Rattle.munge_types.specs.Bytes.{IsBytes};
ghost use Rattle.cred_inner.specs.InnerPart.{Content, IsContent, inner_part};

/// An inner part is that of one content at most.
pub fn inner_part_has_one_content()
    ensures { (first second : Content) → IsContent first → IsContent second
        → inner_part first ≡ inner_part second → first ≡ second }
{}

/// An inner part is 41 bytes and the payload.
pub fn inner_part_size()
    ensures { (content : Content) → IsContent content
        → length (inner_part content) ≡ 41 + length content.payload }
{}

/// An inner part is bytes.
pub fn inner_part_is_bytes()
    ensures { (content : Content) → IsContent content → IsBytes (inner_part content) }
{}
