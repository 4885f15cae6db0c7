//! Credentials under a key file of 32 zeros, made from their definition with the kit's hashes.

use super::fixture::KEY;
use base64::engine::general_purpose::STANDARD;
use sha1::Sha1;
use sha2::{Digest, Sha256};
use std::alloc::{AllocError, Global};

/// What is in every credential.
const PAYLOAD: &[u8] = b"hello";

/// What a credential says besides what is the same in all of these.
#[derive(Clone, Copy)]
pub(super) struct Content {
    pub(super) time: u32,
    pub(super) ttl: u32,
    pub(super) for_uid: u32,
    pub(super) for_gid: u32,
}

/// One that anyone may open from 1000 to 1300.
pub(super) const USUAL: Content = Content {
    time: 1000,
    ttl: 300,
    for_uid: u32::MAX,
    for_gid: u32::MAX,
};

/// The numbers of a content that a reply shows too.
fn push_numbers(bytes: &mut Vec<u8>, content: &Content) -> Result<(), AllocError> {
    bytes.extend_from_slice(&[127, 0, 0, 1])?;
    for number in [
        content.time,
        content.ttl,
        7,
        7,
        content.for_uid,
        content.for_gid,
    ] {
        bytes.extend_from_slice(&number.to_be_bytes())?;
    }
    Ok(())
}

/// A content as a reply shows it.
pub(super) fn shown(alloc: Global, content: &Content) -> Result<Vec<u8>, AllocError> {
    let mut bytes = vec![in alloc; 0, 5]?;
    push_numbers(&mut bytes, content)?;
    bytes.extend_from_slice(PAYLOAD)?;
    Ok(bytes)
}

/// The inner part of a credential.
fn inner_part(alloc: Global, content: &Content) -> Result<Vec<u8>, AllocError> {
    let mut bytes = Vec::from_slice(alloc, b"\x01\x02\x03\x04\x05\x06\x07\x08\x04")?;
    push_numbers(&mut bytes, content)?;
    let size = u32::try_from(PAYLOAD.len()).unwrap_or(u32::MAX);
    bytes.extend_from_slice(&size.to_be_bytes())?;
    bytes.extend_from_slice(PAYLOAD)?;
    Ok(bytes)
}

/// A block that begins with these bytes, each combined with the pad.
fn padded(bytes: &[u8; 20], pad: u8) -> [u8; 64] {
    let mut block = [pad; 64];
    for (i, byte) in bytes.iter().enumerate() {
        block[i] ^= *byte;
    }
    block
}

/// The body of a credential without a cipher, whose MAC is HMAC-SHA-256.
pub(super) fn body(alloc: Global, content: &Content) -> Result<Vec<u8>, AllocError> {
    let mut key = Sha1::new();
    key.update(&KEY);
    key.update(b"2");
    let key = key.finalize();
    let inner = inner_part(alloc, content)?;
    let outer = [3, 0, 5, 0, 0];
    let inside: [u8; 32] = Sha256::new_with_prefix(&padded(&key, 0x36)[..])
        .chain_update(&outer[..])
        .chain_update(inner.as_slice())
        .finalize();
    let mac: [u8; 32] = Sha256::new_with_prefix(&padded(&key, 0x5c)[..])
        .chain_update(&inside[..])
        .finalize();
    let mut bytes = Vec::from_slice(alloc, &outer)?;
    bytes.extend_from_slice(&mac)?;
    bytes.extend_from_slice(&inner)?;
    Ok(bytes)
}

/// The text of a body.
pub(super) fn armored(alloc: Global, body: &[u8]) -> Result<Vec<u8>, AllocError> {
    let mut text = Vec::from_slice(alloc, b"MUNGE:")?;
    text.extend_from_slice(STANDARD.encode(alloc, body)?.as_bytes())?;
    text.push(b':')?;
    Ok(text)
}

/// The text of a credential.
pub(super) fn text(alloc: Global, content: &Content) -> Result<Vec<u8>, AllocError> {
    armored(alloc, &body(alloc, content)?)
}
