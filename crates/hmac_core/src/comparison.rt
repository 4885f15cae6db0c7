//! A MAC beside the bytes that it should have.

ghost use Rattle.std.specs.Prelude.{◌≡◌, ◌↔◌, IsTrue};

use munge_types::MacBytes;

/// Whether the MAC is these bytes. Each byte is looked at, wherever they first differ.
pub fn equal(mac: &MacBytes, bytes: &[u8]) -> bool
    ensures { IsTrue result ↔ (mac.now ≡ bytes.now) }
{
    let mac = mac.bytes();
    if mac.len() != bytes.len() {
        return false;
    }
    let mut difference = 0;
    for (i, byte) in bytes.iter().enumerate() {
        difference |= mac[i] ^ *byte;
    }
    difference == 0
}
