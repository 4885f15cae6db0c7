//! Subkeys of worked key files. The expected values come from Python's `hashlib`, `hmac` and
//! `cryptography`.

use crate::{KeyRefused, Subkeys};
use munge_types::{Cipher, MacKind};
use std::test::Fail;

#[test]
fn keys_of_32_to_1024_bytes(rt: HostRuntime) -> Result<(), Fail> {
    let bytes = [0xab; 1025];
    assert!(rt; matches!(Subkeys::of(&bytes[..31]), Err(KeyRefused::TooShort(31))));
    assert!(rt; matches!(Subkeys::of(&bytes), Err(KeyRefused::TooLong(1025))));
    assert_eq!(rt;
        Subkeys::of(&[0; 32])?.mac_key(),
        b"\xb6\x8b\xfe\x0f\x6c\xc2\x70\x18\x06\x86\xd8\x22\xdc\x65\x04\x5e\x1e\x52\x06\x1e"
    );
    assert_eq!(rt;
        Subkeys::of(&bytes[..1024])?.mac_key(),
        b"\x4f\xcb\x4a\x9c\x0c\xbf\xaf\xf8\x3e\xa7\x0f\x36\xe5\x56\x64\x73\x0e\x3f\xdc\x4a"
    );
    Ok(())
}

#[test]
fn macs_under_the_subkey(rt: HostRuntime) -> Result<(), Fail> {
    let subkeys = Subkeys::of(&[0; 32])?;
    let table: [(MacKind, &[u8]); 3] = [
        (
            MacKind::Sha1,
            b"\x07\x2f\xce\x37\xb0\xa3\x91\x53\xd8\x39\xa4\xf5\xa4\x75\x70\x6d\x02\xdf\x72\x23",
        ),
        (
            MacKind::Sha256,
            b"\xcc\xf6\x19\xc6\x38\x0f\xd3\x09\x1a\xb2\x57\x60\x7f\xfd\x65\x00\
        \xe1\xbc\xf8\x1e\x27\x59\x67\x39\xec\xe2\x25\x9b\xa4\x8e\xcc\x8e",
        ),
        (
            MacKind::Sha512,
            b"\x6c\x0f\x94\xdf\xcb\xc3\x52\x2a\x16\x80\xa7\x47\x7d\x03\xcc\x52\
        \xbe\x46\x1f\xb3\xff\xc3\x30\xd0\xdb\x2b\x64\x4d\x38\x98\xb9\xc2\
        \x84\xd4\x7d\xd3\x50\x5b\xca\xfb\x59\x90\x71\x50\x2e\x43\xb5\x99\
        \x5d\x2a\x4d\x44\x0b\x74\x20\x0b\x0d\xcb\xb0\x55\x07\xca\x74\x4a",
        ),
    ];
    for (kind, want) in table {
        let mut hmac = subkeys.mac_state(kind);
        hmac.update(b"Hi There");
        assert_eq!(rt; hmac.finish().bytes(), want, "{kind:?}");
    }
    Ok(())
}

/// A block of zeros, encrypted under the data key that a MAC of the bytes 0 to 19 gives.
#[test]
fn data_keys(rt: HostRuntime) -> Result<(), Fail> {
    let subkeys = Subkeys::of(&[0; 32])?;
    let mac = [
        0, 1, 2, 3, 4, 5, 6, 7, 8, 9, 10, 11, 12, 13, 14, 15, 16, 17, 18, 19,
    ];
    let table: [(Cipher, MacKind, &[u8; 16]); 5] = [
        (
            Cipher::Aes128,
            MacKind::Sha1,
            b"\x09\x63\x3d\xdc\x79\xd3\x5a\x8f\x8d\x6e\x24\xfa\x2f\xeb\x5e\x17",
        ),
        (
            Cipher::Aes128,
            MacKind::Sha256,
            b"\x90\x29\xc7\xba\x2f\xe4\x14\x6d\x42\x1e\x69\xa6\x72\xd5\x46\x93",
        ),
        (
            Cipher::Aes128,
            MacKind::Sha512,
            b"\xc3\xb3\x5f\xdc\x87\x7f\x34\xed\xbd\xe8\x2c\xc1\x2e\x82\xeb\xcd",
        ),
        (
            Cipher::Aes256,
            MacKind::Sha256,
            b"\x85\xaf\xd3\x01\xc0\x47\xc9\xd6\xde\x43\xe5\xae\x74\x91\xde\xd9",
        ),
        (
            Cipher::Aes256,
            MacKind::Sha512,
            b"\xc5\xd1\x2b\xb3\x83\xdf\xa2\x6a\x09\x0c\x16\xaa\xce\xb5\xdb\x2c",
        ),
    ];
    for (cipher, kind, want) in table {
        let mut block = [0; 16];
        subkeys.data_key(cipher, kind, &mac).encrypt(&mut block);
        assert_eq!(rt; &block, want, "{cipher:?} {kind:?}");
    }
    Ok(())
}

fn crosses_threads<T: Send + Sync>(_: &T) {}

#[test]
fn subkeys_cross_threads(_rt: HostRuntime) -> Result<(), Fail> {
    crosses_threads(&Subkeys::of(&[0; 32])?);
    Ok(())
}
