//! Padding to whole blocks of 16 bytes (RFC 5652, section 6.3).

ghost use Rattle.std.specs.Prelude.{◌≡◌, ◌≢◌, ◌↔◌, ℕ, List, IfSome, IfNone, IsTrue, EachIndex, slice_index};
ghost use Rattle.cbc_mode.specs.Padding.{pad_size, padded, IsPaddedFront};

/// How many bytes of padding follow `n` bytes: from 1 to 16.
pub fn pad_size(n: usize) -> u8
    ensures { result ≡ pad_size n }
{
    16 - (n % 16) as u8
}

/// How many bytes the buffer has before its padding, and None where it does not end by padding to
/// whole blocks. Each byte of the padding counts.
pub fn unpad(buf: &[u8]) -> Option<usize>
    ensures front { IfSome result (λ n. IsPaddedFront buf.now n) }
    ensures none { IfNone result ((bytes : List ℕ) → padded bytes ≢ buf.now) }
{
    let size = *buf.last()?;
    let front = buf.len().checked_sub(usize::from(size))?;
    if size == pad_size(front) && all_are(&buf[front..], size) {
        Some(front)
    } else {
        None
    }
}

/// Whether each of the bytes is this one.
fn all_are(bytes: &[u8], value: u8) -> bool
    ensures { IsTrue result ↔ EachIndex bytes.now (λ k. slice_index bytes.now k ≡ value) }
{
    bytes.iter().all(|byte| *byte == value)
}
