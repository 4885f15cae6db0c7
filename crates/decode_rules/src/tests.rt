//! Worked texts. The credential comes from the option `--credential` of the repository's script of
//! vectors, for a key file and a seed of 32 zeros and the caller 7, 7; frames were written out by
//! hand from the layout of the messages.

use crate::{Prepared, Reply, World, complete, prepare, prepare_in};
use group_map::GroupMap;
use munge_types::{Identity, Settings, Status, Verdict};
use std::alloc::Global;
use std::process::Abort;
use std::test::Fail;
use subkeys::Subkeys;

/// `hello` sealed at 1000 with AES-128 and SHA-256, for anyone: the fields are
/// `cipher=4 mac=5 payload=hello`.
const SEALED: &[u8] =
    b"MUNGE:AwQFAADlal1AKL2GU7gZ0r0a7Y2gZdOW0dtIZnPPrjS6h3x2aomh8ZNQVH6NmOcaPRwS8mjed530PxWTNeODkFayJ+4ddvj+VTK0PF2qdcCP1XSD2VKm4Mz/XqmVx2UOiIvzOCA=:";

/// What a decode reply shows of it.
const SHOWN: &[u8] =
    b"\x04\x05\x00\x00\x00\x00\x00\x00\x03\xe8\x00\x00\x01\x2c\x00\x00\x00\x07\x00\x00\x00\x07\xff\xff\xff\xff\xff\xff\xff\xffhello";

/// The caller who sealed it.
const WHO: Identity = Identity {
    uid: 7,
    gid: 7,
    control: false,
};

fn usual_world() -> Result<World, Fail> {
    Ok(World {
        subkeys: Subkeys::of(&[0; 32])?,
        settings: Settings::usual(),
        groups: GroupMap::none(),
    })
}

/// The reply says this, in a frame with this head, this place and this content.
fn assert_says(
    rt: &impl Abort,
    alloc: Global,
    reply: &Reply,
    said: (Status, u8),
    size: u8,
    place: [u8; 8],
    content: &[u8],
) -> Result<(), Fail> {
    let mut frame = Vec::from_slice(alloc, b"\x4d\x01\x04\x00\x00\x00")?;
    frame.extend_from_slice(&[size, said.0.number(), said.1])?;
    frame.extend_from_slice(&place)?;
    frame.extend_from_slice(content)?;
    assert_eq!(rt; reply.status(), said.0, "the status");
    assert_eq!(rt; reply.rule(), said.1, "the rule");
    assert_eq!(rt; reply.bytes(), frame.as_slice(), "the frame");
    Ok(())
}

#[test]
fn texts_that_are_refused(rt: HostRuntime) -> Result<(), Fail> {
    let world = usual_world()?;
    // The text, the moment, the status, the rule, and the size of the reply's body with its content.
    let table: [(&[u8], u32, Status, u8, u8, &[u8]); 4] = [
        (b"", 1000, Status::BadCredential, 1, 10, b""),
        (b"MUNGE:AwQFAAE=:", 1000, Status::BadRealm, 6, 10, b""),
        (&SEALED[1..], 1000, Status::BadCredential, 1, 10, b""),
        (SEALED, 699, Status::Rewound, 12, 45, SHOWN),
    ];
    for (text, moment, status, rule, size, content) in table {
        let Prepared::Refused(reply) = prepare(rt.alloc(), &world, WHO, moment, text)? else {
            panic!(rt; "the text comes to something else");
        };
        assert_says(
            &rt,
            rt.alloc(),
            &reply,
            (status, rule),
            size,
            [255; 8],
            content,
        )?;
    }
    Ok(())
}

#[test]
fn text_by_each_verdict(rt: HostRuntime) -> Result<(), Fail> {
    let world = usual_world()?;
    for (verdict, status, rule) in [
        (Verdict::Accepted, Status::Success, 0),
        (Verdict::Expired, Status::Expired, 13),
        (Verdict::Replayed, Status::Replayed, 14),
    ] {
        let Prepared::Ready(ready) = prepare(rt.alloc(), &world, WHO, 700, SEALED)? else {
            panic!(rt; "the text comes to something else");
        };
        assert_eq!(rt; ready.pair().expiry, 1300, "the expiry");
        let reply = complete(ready, verdict, 258);
        let place = [0, 0, 0, 0, 0, 0, 1, 2];
        assert_says(&rt, rt.alloc(), &reply, (status, rule), 45, place, SHOWN)?;
    }
    Ok(())
}

/// What a text comes to inside a buffer of its length, with the reply in the memory of a vector of so
/// many bytes. Both held others.
fn prepared_inside(
    alloc: Global,
    world: &World,
    moment: u32,
    text: &[u8],
    size: usize,
) -> Result<Prepared, Fail> {
    let mut work = vec![in alloc; 0x5au8; text.len()]?;
    let memory = vec![in alloc; 0x5au8; size]?;
    Ok(prepare_in(memory, world, WHO, moment, &mut work, text)?)
}

#[test]
fn texts_inside_a_buffer(rt: HostRuntime) -> Result<(), Fail> {
    let alloc = rt.alloc();
    let world = usual_world()?;
    // No memory for the reply, less than it needs, as much as the longer one does, and more.
    for size in [0, 16, 52, 300] {
        let Prepared::Refused(reply) = prepared_inside(alloc, &world, 1000, b"MUNGE:", size)? else {
            panic!(rt; "no text comes to something else");
        };
        let said = (Status::BadCredential, 1);
        assert_says(&rt, alloc, &reply, said, 10, [255; 8], b"")?;
        let Prepared::Refused(reply) = prepared_inside(alloc, &world, 699, SEALED, size)? else {
            panic!(rt; "the text of later comes to something else");
        };
        let said = (Status::Rewound, 12);
        assert_says(&rt, alloc, &reply, said, 45, [255; 8], SHOWN)?;
        let Prepared::Ready(ready) = prepared_inside(alloc, &world, 1000, SEALED, size)? else {
            panic!(rt; "the text comes to something else");
        };
        assert_eq!(rt; ready.pair().expiry, 1300, "the expiry");
        let reply = complete(ready, Verdict::Accepted, 258);
        let said = (Status::Success, 0);
        let place = [0, 0, 0, 0, 0, 0, 1, 2];
        assert_says(&rt, alloc, &reply, said, 45, place, SHOWN)?;
    }
    Ok(())
}

/// The same for members of the GID 50 alone: the fields are
/// `cipher=4 mac=5 payload=hello for_gid=50`.
const FOR_A_GROUP: &[u8] =
    b"MUNGE:AwQFAADlal1AKL2GU7gZ0r0a7Y2gSLhAHTTnfB0Dk0RnV31NOTtqQ/3jmQgQpuCKizH/78+viP5WqOtWR1qKjIqngCf9WLvQ8KNDW4ISUCtI/fQd/REQo4yCBU+JKRENsuxajpo=:";

#[test]
fn text_for_a_group(rt: HostRuntime) -> Result<(), Fail> {
    let passwd = b"ann:x:7:7:::";
    let table: [(&[u8], bool); 3] = [
        (b"ops:x:50:bob,ann", true),
        (b"", false),
        (b"ops:x:50:bob\nann:x:51:ann", false),
    ];
    for (group, opens) in table {
        let mut world = usual_world()?;
        world.groups = GroupMap::read(rt.alloc(), passwd, group)?;
        match prepare(rt.alloc(), &world, WHO, 1000, FOR_A_GROUP)? {
            Prepared::Ready(_) => assert!(rt; opens, "it opens"),
            Prepared::Refused(reply) => {
                assert!(rt; !opens, "it is refused");
                let said = (Status::Unauthorized, 11);
                assert_says(&rt, rt.alloc(), &reply, said, 10, [255; 8], b"")?;
            }
        }
    }
    Ok(())
}

/// What a value has to be to be handed to threads and shared by them.
fn crosses_threads<T: Send + Sync>(_: &T) {}

#[test]
fn world_crosses_threads(_rt: HostRuntime) -> Result<(), Fail> {
    crosses_threads(&usual_world()?);
    Ok(())
}
