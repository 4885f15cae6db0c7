//! Sealing by worked requests. The texts come from Python: MACs and keys from its `hmac` and `hashlib`,
//! encryption from `cryptography`, the salt and the vector from the ChaCha20 of `cryptography`.

ghost use Rattle.std.specs.Prelude.{◌≤◌};
ghost use Rattle.cred_seal.specs.Asked.{asked_of};
ghost use Rattle.cred_seal.specs.TextSize.{text_size};

use crate::asked::stored_ttl;
use crate::{SealRefused, SealRequest, SealedInto, seal, seal_into, text_size};
use cred_open::{open_in, open_text};
use munge_types::{Cipher, Identity, MacKind, Room, Settings};
use std::alloc::Global;
use std::process::Abort;
use std::test::Fail;
use subkeys::Subkeys;

/// A key file.
const KEY: [u8; 32] = [0; 32];

/// The first six words of the ChaCha20 stream of a zero seed.
const SALT: [u8; 8] = *b"\xad\xe0\xb8\x76\x90\x3d\xf1\xa0";

const VECTOR: [u8; 16] = *b"\xe5\x6a\x5d\x40\x28\xbd\x86\x53\xb8\x19\xd2\xbd\x1a\xed\x8d\xa0";

/// A request for the default time to live that anyone may open, without a payload.
const REQUEST: SealRequest<'static> = SealRequest {
    cipher: 0,
    kind: 5,
    ttl: 0,
    for_uid: u32::MAX,
    for_gid: u32::MAX,
    payload: b"",
};

/// What the request gives a caller of this UID and GID at moment 1000.
fn sealed(
    alloc: Global,
    subkeys: &Subkeys,
    request: &SealRequest<'_>,
    uid: u32,
    gid: u32,
) -> Result<Vec<u8>, SealRefused> {
    let settings = Settings::usual();
    let who = Identity {
        uid,
        gid,
        control: false,
    };
    seal(alloc, subkeys, &settings, request, who, 1000, SALT, VECTOR)
}

/// What the same answers with this room, which has to have the spare for the text.
fn sealed_into(out: Room, subkeys: &Subkeys, request: &SealRequest<'_>) -> SealedInto
    requires { text_size (asked_of request.now) ≤ out.spare }
{
    let settings = Settings::usual();
    let who = Identity {
        uid: 7,
        gid: 7,
        control: false,
    };
    seal_into(out, subkeys, &settings, request, who, 1000, SALT, VECTOR)
}

/// The room holds this.
fn assert_holds(rt: &impl Abort, room: Room, bytes: &[u8]) {
    let held = room.finish();
    let same = held.as_slice() == bytes;
    assert!(rt; same);
}

/// The request is refused for this cause.
fn assert_refused(
    rt: &impl Abort,
    alloc: Global,
    request: &SealRequest<'_>,
    cause: SealRefused,
) -> Result<(), Fail> {
    match sealed(alloc, &Subkeys::of(&KEY)?, request, 7, 7) {
        Ok(_text) => assert!(rt; false, "sealed: {cause:?}"),
        Err(refused) => assert_eq!(rt; refused, cause),
    }
    Ok(())
}

#[test]
fn smallest_credentials(rt: HostRuntime) -> Result<(), Fail> {
    let subkeys = Subkeys::of(&KEY)?;
    let table: [(u8, u8, &[u8]); 10] = [
        (
            0,
            3,
            b"MUNGE:AwADAAAb+xplOHh3GqFFfxKwAMjWcurUQ63guHaQPfGgBAAAAAAAAAPoAAABLAAAAAcAAAAH//////////8AAAAA:",
        ),
        (
            0,
            5,
            b"MUNGE:AwAFAADhMiyL+m7FLrtAbdjwKCA+Sx/kbat52oPA4UtrxjqF/q3guHaQPfGgBAAAAAAAAAPoAAABLAAAAAcAAAAH//////////8AAAAA:",
        ),
        (
            0,
            1,
            b"MUNGE:AwAFAADhMiyL+m7FLrtAbdjwKCA+Sx/kbat52oPA4UtrxjqF/q3guHaQPfGgBAAAAAAAAAPoAAABLAAAAAcAAAAH//////////8AAAAA:",
        ),
        (
            0,
            6,
            b"MUNGE:AwAGAAC1SgZWTA1oilneEEDjl8PRWeZVzI3JPybYN8UUGHMAxZ5vnGtIv7FUiakqgn/2JLJ+PRnemV7otQ9g6sa1+I87reC4dpA98aAEAAAAAAAAA+gAAAEsAAAABwAAAAf//////////wAAAAA=:",
        ),
        (
            4,
            3,
            b"MUNGE:AwQDAADlal1AKL2GU7gZ0r0a7Y2gULmG7fH/zUvQolM56YjJJ0KYYkrM6OHE+TRpBMsyGmUBWKwG4Y/xOdauQZnEOBsBl0dgJDnQia69kkOWTR8Wf/qWvLo=:",
        ),
        (
            4,
            5,
            b"MUNGE:AwQFAADlal1AKL2GU7gZ0r0a7Y2gyUmJJl8z9IyBQwOJ0gj+WlqmrG0HeopHOuvc2KatM9UEeKmRvXWhVeznd0h6H+50mlk7m2AHAgFipYup+rSAzJ99xZIM6uY6fne0JS2Tu94=:",
        ),
        (
            1,
            1,
            b"MUNGE:AwQFAADlal1AKL2GU7gZ0r0a7Y2gyUmJJl8z9IyBQwOJ0gj+WlqmrG0HeopHOuvc2KatM9UEeKmRvXWhVeznd0h6H+50mlk7m2AHAgFipYup+rSAzJ99xZIM6uY6fne0JS2Tu94=:",
        ),
        (
            1,
            6,
            b"MUNGE:AwQGAADlal1AKL2GU7gZ0r0a7Y2gHbrTNFfvcXG0aXskicFpxE88A4k8XgN5TmNhS94iRPSrG1UaWOy/IJGyls0CuGGyLXyWgz9C63OvIW7xhQ4vBTdNun/J5cNDo2yWTSnMlP+f8/q53uFuO7VplupQBUqXmY25UQ6gYfdu3OAMx0BXVg==:",
        ),
        (
            5,
            5,
            b"MUNGE:AwUFAADlal1AKL2GU7gZ0r0a7Y2gyAsVcDjX/iSgPgsa0BJmkPKRVHKM7XGyOQbmpqBOd8H2xp2mIilbaJZvy8WaGCXXHrNQ0ETp8pc69fWD2ULUEJixzDpL2fU3IV1Rjg8bRd4=:",
        ),
        (
            5,
            6,
            b"MUNGE:AwUGAADlal1AKL2GU7gZ0r0a7Y2gn/9KIfKleW7e1Q4M+rZLoNMMaW6sQNo8MmrlBC3kmopmSHxoNRnNMC59HHJ3wg8xUchQVNSnboTp/pVH54beMt2nRUaGJw96+YcOjj4dHA2gB36/h7m8iPcmHQzcOwlkUgt4WBBZabXGivvFr+8GPQ==:",
        ),
    ];
    for (cipher, kind, text) in table {
        let request = SealRequest {
            cipher,
            kind,
            ..REQUEST
        };
        assert_eq!(rt;
            sealed(rt.alloc(), &subkeys, &request, 7, 7)?.as_slice(),
            text,
            "with the cipher {cipher} and the MAC {kind}"
        );
    }
    Ok(())
}

#[test]
fn usual_credential(rt: HostRuntime) -> Result<(), Fail> {
    let subkeys = Subkeys::of(&KEY)?;
    let request = SealRequest {
        cipher: 4,
        payload: b"hello",
        ..REQUEST
    };
    let text = sealed(rt.alloc(), &subkeys, &request, 7, 7)?;
    assert_eq!(rt; text.len(), 143);
    assert_eq!(rt;
        text.as_slice(),
        b"MUNGE:AwQFAADlal1AKL2GU7gZ0r0a7Y2gZdOW0dtIZnPPrjS6h3x2aomh8ZNQVH6NmOcaPRwS8mjed530PxWTNeODkFayJ+4ddvj+VTK0PF2qdcCP1XSD2VKm4Mz/XqmVx2UOiIvzOCA=:".as_slice()
    );
    Ok(())
}

/// The text, with and without spaces round it, opens to what was asked for by these algorithms.
fn assert_opens(
    rt: &impl Abort,
    alloc: Global,
    subkeys: &Subkeys,
    text: &[u8],
    cipher: Cipher,
    kind: MacKind,
) -> Result<(), Fail> {
    let mut in_spaces = Vec::from_slice(alloc, b" \t\n")?;
    in_spaces.extend_from_slice(text)?;
    in_spaces.extend_from_slice(b"\r\n")?;
    for spelling in [text, in_spaces.as_slice()] {
        let opened = open_text(alloc, subkeys, spelling)?;
        assert_eq!(rt; opened.cipher(), cipher);
        assert_eq!(rt; opened.kind(), kind);
        let inner = opened.inner();
        assert_eq!(rt; inner.salt, SALT);
        assert_eq!(rt; inner.addr, [0; 4]);
        assert_eq!(rt; (inner.time, inner.ttl), (1000, 3600));
        assert_eq!(rt; (inner.uid, inner.gid), (7, 8));
        assert_eq!(rt; (inner.for_uid, inner.for_gid), (9, 10));
        assert_eq!(rt; inner.payload, b"hello".as_slice());
    }
    Ok(())
}

#[test]
fn what_was_sealed_opens(rt: HostRuntime) -> Result<(), Fail> {
    let subkeys = Subkeys::of(&KEY)?;
    let table = [
        (0, Cipher::None, 3, MacKind::Sha1),
        (1, Cipher::Aes128, 1, MacKind::Sha256),
        (4, Cipher::Aes128, 3, MacKind::Sha1),
        (5, Cipher::Aes256, 6, MacKind::Sha512),
    ];
    for (cipher_number, cipher, kind_number, kind) in table {
        let request = SealRequest {
            cipher: cipher_number,
            kind: kind_number,
            ttl: u32::MAX,
            for_uid: 9,
            for_gid: 10,
            payload: b"hello",
        };
        let text = sealed(rt.alloc(), &subkeys, &request, 7, 8)?;
        assert_opens(&rt, rt.alloc(), &subkeys, &text, cipher, kind)?;
    }
    Ok(())
}

#[test]
fn each_refusal(rt: HostRuntime) -> Result<(), Fail> {
    let alloc = rt.alloc();
    for cipher in [2, 3, 6, 255] {
        let request = SealRequest {
            cipher,
            kind: 0,
            ..REQUEST
        };
        assert_refused(&rt, alloc, &request, SealRefused::BadCipher)?;
    }
    let payload = vec![in alloc; 0x5a; 1_048_577]?;
    for kind in [0, 2, 4, 7, 255] {
        let request = SealRequest {
            kind,
            payload: &payload,
            ..REQUEST
        };
        assert_refused(&rt, alloc, &request, SealRefused::BadMac)?;
    }
    let request = SealRequest {
        cipher: 5,
        kind: 3,
        payload: &payload,
        ..REQUEST
    };
    assert_refused(&rt, alloc, &request, SealRefused::BadMac)?;
    let request = SealRequest {
        payload: &payload,
        ..REQUEST
    };
    assert_refused(&rt, alloc, &request, SealRefused::BadLength(1_048_577))
}

#[test]
fn largest_payload(rt: HostRuntime) -> Result<(), Fail> {
    let subkeys = Subkeys::of(&KEY)?;
    let payload = vec![in rt.alloc(); 0x5a; 1_048_576]?;
    let table: [(u8, u8, usize, &[u8]); 2] = [
        (0, 5, 1_398_215, b"lpaWg==:"),
        (5, 6, 1_398_287, b"SwQt+jD9XD4rCXXGR/Shgco=:"),
    ];
    for (cipher, kind, size, end) in table {
        let request = SealRequest {
            cipher,
            kind,
            payload: &payload,
            ..REQUEST
        };
        let text = sealed(rt.alloc(), &subkeys, &request, 7, 7)?;
        assert_eq!(rt; text.len(), size);
        assert!(rt; text.ends_with(end));
        let opened = open_text(rt.alloc(), &subkeys, &text)?;
        let same = opened.inner().payload == payload.as_slice();
        assert!(rt; same);
    }
    Ok(())
}

/// The largest credential, sealed into a room that was made with its size, and opened inside one
/// buffer of that size.
#[test]
fn largest_into_a_room(rt: HostRuntime) -> Result<(), Fail> {
    let subkeys = Subkeys::of(&KEY)?;
    let payload = vec![in rt.alloc(); 0x5a; 1_048_576]?;
    let request = SealRequest {
        cipher: 5,
        kind: 6,
        payload: &payload,
        ..REQUEST
    };
    assert_eq!(rt; text_size(&request), 1_398_287);
    let room = Room::new(rt.alloc(), 1_398_287)?;
    let SealedInto::Done(room) = sealed_into(room, &subkeys, &request) else {
        assert!(rt; false, "refused");
        return Ok(());
    };
    let text = room.finish();
    assert_eq!(rt; text.len(), 1_398_287);
    let same = text.as_slice() == sealed(rt.alloc(), &subkeys, &request, 7, 7)?.as_slice();
    assert!(rt; same);
    let mut work = vec![in rt.alloc(); 0; 1_398_287]?;
    let opened = open_in(&subkeys, &mut work, &text)?;
    assert_eq!(rt;
        (opened.cipher(), opened.kind()),
        (Cipher::Aes256, MacKind::Sha512)
    );
    let same = opened.inner().payload == payload.as_slice();
    assert!(rt; same);
    Ok(())
}

/// What the room held stays in front of the text.
#[test]
fn behind_what_the_room_holds(rt: HostRuntime) -> Result<(), Fail> {
    let subkeys = Subkeys::of(&KEY)?;
    let request = SealRequest {
        cipher: 4,
        payload: b"hello",
        ..REQUEST
    };
    assert_eq!(rt; text_size(&request), 143);
    let mut room = Room::new(rt.alloc(), 150)?;
    room.put(b"a front");
    let mut wanted = Vec::from_slice(rt.alloc(), b"a front")?;
    wanted.extend_from_slice(&sealed(rt.alloc(), &subkeys, &request, 7, 7)?)?;
    match sealed_into(room, &subkeys, &request) {
        SealedInto::Done(room) => assert_holds(&rt, room, &wanted),
        _ => assert!(rt; false, "refused"),
    }
    Ok(())
}

/// The request is refused for this cause, and the room comes back as it was.
fn assert_hands_back(
    rt: &impl Abort,
    alloc: Global,
    request: &SealRequest<'_>,
    cause: SealRefused,
) -> Result<(), Fail> {
    assert_eq!(rt; text_size(request), 0);
    let mut room = Room::new(alloc, 7)?;
    room.put(b"a front");
    let (room, found) = match sealed_into(room, &Subkeys::of(&KEY)?, request) {
        SealedInto::Done(room) => (room, None),
        SealedInto::BadCipher(room) => (room, Some(SealRefused::BadCipher)),
        SealedInto::BadMac(room) => (room, Some(SealRefused::BadMac)),
        SealedInto::BadLength(room, size) => (room, Some(SealRefused::BadLength(size))),
    };
    assert_eq!(rt; found, Some(cause));
    assert_holds(rt, room, b"a front");
    Ok(())
}

/// Each refusal hands the room back as it was.
#[test]
fn refused_with_the_room(rt: HostRuntime) -> Result<(), Fail> {
    let payload = vec![in rt.alloc(); 0x5a; 1_048_577]?;
    for (cipher, kind, cause) in [
        (2, 5, SealRefused::BadCipher),
        (5, 3, SealRefused::BadMac),
        (4, 5, SealRefused::BadLength(1_048_577)),
    ] {
        let request = SealRequest {
            cipher,
            kind,
            payload: &payload,
            ..REQUEST
        };
        assert_hands_back(&rt, rt.alloc(), &request, cause)?;
    }
    Ok(())
}

#[test]
fn times_to_live(rt: HostRuntime) {
    let settings = Settings::usual();
    for (asked, stored) in [
        (0, 300),
        (1, 1),
        (3600, 3600),
        (3601, 3600),
        (4_294_967_294, 3600),
        (4_294_967_295, 3600),
    ] {
        assert_eq!(rt; stored_ttl(&settings, asked), stored, "for {asked}");
    }
}
