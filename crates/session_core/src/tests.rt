//! Connections in memory that are served on one gate. The credentials come from the option
//! `--credential` of the repository's script of vectors, for a key file and a seed of 32 zeros and
//! the caller 7, 7; frames were written out by hand from the layout of the messages.

mod both_structures;
mod sessions;

ghost use Rattle.std.specs.Prelude.{◌≡◌, IfOk};

use crate::{Rooms, ServeEnd, Served, serve_in, serve_one};
use byte_io::{MemClock, MemLink};
use cred_seal::Dice;
use decode_rules::World;
use group_map::GroupMap;
use munge_types::{Identity, Settings};
use replay_gate::{Entry, Gate, Pass};
use replay_table::PlainReplay;
use std::alloc::{AllocError, Global};
use std::process::Abort;
use std::sync::Wait;
use std::test::Fail;
use subkeys::Subkeys;

/// `hello` sealed at 1000 with AES-128 and SHA-256, for anyone: the fields are
/// `cipher=4 mac=5 payload=hello`.
const SEALED: &[u8] =
    b"MUNGE:AwQFAADlal1AKL2GU7gZ0r0a7Y2gZdOW0dtIZnPPrjS6h3x2aomh8ZNQVH6NmOcaPRwS8mjed530PxWTNeODkFayJ+4ddvj+VTK0PF2qdcCP1XSD2VKm4Mz/XqmVx2UOiIvzOCA=:";

/// The same for the UID 7 alone: the fields are `cipher=4 mac=5 payload=hello for_uid=7`.
const FOR_SEVEN: &[u8] =
    b"MUNGE:AwQFAADlal1AKL2GU7gZ0r0a7Y2gwkCAkxW8BUEsk9351zlKlvlor0lXQe6Qx9zz48ZeZsz9P/bdshIf2EZPY4z/PgMnmASg7/wWiTfW+W69bRleGBaEsIs5j4zsGU2OYDVzBTw=:";

/// The head of a decode request with one of these texts.
const HEAD: &[u8] = b"\x4d\x01\x03\x00\x00\x00\x8f";

/// The bytes of such a request.
const REQUEST_SIZE: u64 = 150;

fn caller(uid: u32, control: bool) -> Identity {
    Identity {
        uid,
        gid: 7,
        control,
    }
}

/// The world of a key file of 32 zeros, with the usual times and without groups.
fn world() -> Result<World, Fail> {
    Ok(World {
        subkeys: Subkeys::of(&[0; 32])?,
        settings: Settings::usual(),
        groups: GroupMap::none(),
    })
}

/// A gate, and what its connections are served with.
#[derive(Drop)]
struct Host {
    world: World,
    gate: Gate<PlainReplay>,
    pass: Pass,
    dice: Dice,
    rooms: Rooms,
}

impl Host {
    fn new(alloc: Global) -> Result<Host, Fail>
        ensures { IfOk result (λ host. host.pass.gate ≡ host.gate) }
    {
        let world = world()?;
        let Entry { gate, pass } = Gate::new(alloc, PlainReplay::new(alloc), 1)?;
        let dice = Dice::new([0; 32]);
        Ok(Host {
            world,
            gate,
            pass,
            dice,
            rooms: Rooms::new(alloc),
        })
    }

    /// Serves a connection at 1000 that brings these bytes, and gives what came of it and what was
    /// written. The first write fails, or none.
    fn serve<W: Wait>(
        &mut self,
        rt: &W,
        alloc: Global,
        who: Identity,
        parts: &[&[u8]],
        fails: &[u32],
    ) -> Result<(Served, Vec<u8>), AllocError>
        requires { self.old.pass.gate ≡ self.old.gate }
        ensures { self.new.pass.gate ≡ self.new.gate }
    {
        let mut bytes = Vec::new(alloc);
        for part in parts {
            bytes.extend_from_slice(part)?;
        }
        let mut conn = MemLink::new(alloc, bytes, Vec::new(alloc), fails.to_vec(alloc)?);
        let mut clock = MemClock::new(vec![in alloc; 1000]?, Vec::new(alloc));
        let served = serve_in(
            rt,
            alloc,
            &mut self.rooms,
            &mut conn,
            &mut clock,
            &self.gate,
            &mut self.pass,
            &mut self.dice,
            who,
            &self.world,
        );
        Ok((served, conn.taken().to_vec(alloc)?))
    }
}

/// A decode request that was answered at 1000.
fn decoded(how: ServeEnd, rule: u8, place: Option<u64>) -> Served {
    Served {
        how,
        kind: Some(3),
        read: REQUEST_SIZE,
        moment: Some(1000),
        rule: Some(rule),
        place,
        drawn: None,
    }
}

/// No request came, after so many bytes.
fn unheard(how: ServeEnd, read: u64) -> Served {
    Served {
        how,
        kind: None,
        read,
        moment: None,
        rule: None,
        place: None,
        drawn: None,
    }
}

#[test]
fn restricted_to_another_makes_no_entry(rt: HostRuntime) -> Result<(), Fail> {
    let mut host = Host::new(rt.alloc())?;
    let parts = [HEAD, FOR_SEVEN];
    let (served, reply) = host.serve(&rt, rt.alloc(), caller(8, false), &parts, &[])?;
    assert_eq!(rt; served, decoded(ServeEnd::Done, 10, None));
    let refused = b"\x4d\x01\x04\x00\x00\x00\x0a\x12\x0a\xff\xff\xff\xff\xff\xff\xff\xff";
    assert_eq!(rt; reply.as_slice(), refused.as_slice());
    let (served, _) = host.serve(&rt, rt.alloc(), caller(7, false), &parts, &[])?;
    assert_eq!(rt; served, decoded(ServeEnd::Done, 0, Some(0)));
    Ok(())
}

#[test]
fn accepted_pair_stays_spent(rt: HostRuntime) -> Result<(), Fail> {
    let mut host = Host::new(rt.alloc())?;
    let parts = [HEAD, SEALED];
    let (served, reply) = host.serve(&rt, rt.alloc(), caller(7, false), &parts, &[1])?;
    assert_eq!(rt; served, decoded(ServeEnd::WriteFault, 0, Some(0)));
    assert_eq!(rt; reply.len(), 0);
    let (served, _) = host.serve(&rt, rt.alloc(), caller(7, false), &parts, &[])?;
    assert_eq!(rt; served, decoded(ServeEnd::Done, 14, Some(1)));
    Ok(())
}

#[test]
fn connections_that_bring_no_request(rt: HostRuntime) -> Result<(), Fail> {
    let table: [(&[u8], ServeEnd, u64); 4] = [
        (b"", ServeEnd::Quiet, 0),
        (b"\x4d", ServeEnd::Malformed, 1),
        (b"\x4e\x01\x03\x00\x00\x00\x00\x00", ServeEnd::Malformed, 7),
        (b"\x4d\x01\x03\x00\x00\x00\x02\x00", ServeEnd::Malformed, 8),
    ];
    for (bytes, how, read) in table {
        let mut host = Host::new(rt.alloc())?;
        let (served, reply) = host.serve(&rt, rt.alloc(), caller(7, false), &[bytes], &[])?;
        assert_eq!(rt; served, unheard(how, read));
        assert_eq!(rt; reply.len(), 0);
    }
    Ok(())
}

#[test]
fn stop_asks_for_control(rt: HostRuntime) -> Result<(), Fail> {
    for (control, how, status) in [(false, ServeEnd::Done, 18), (true, ServeEnd::Stopped, 0)] {
        let mut host = Host::new(rt.alloc())?;
        let stop: &[u8] = b"\x4d\x01\x05\x00\x00\x00\x00";
        let (served, reply) = host.serve(&rt, rt.alloc(), caller(7, control), &[stop], &[])?;
        assert_eq!(rt; (served.how, served.kind, served.read), (how, Some(5), 7));
        assert_eq!(rt;
            reply.as_slice(),
            [0x4d, 1, 6, 0, 0, 0, 1, status].as_slice()
        );
    }
    Ok(())
}

#[test]
fn short_request_after_a_long_one(rt: HostRuntime) -> Result<(), Fail> {
    let mut host = Host::new(rt.alloc())?;
    let long = vec![in rt.alloc(); b' '; 70_000]?;
    let parts = [b"\x4d\x01\x03\x00\x01\x11\x70".as_slice(), &long];
    let (served, _) = host.serve(&rt, rt.alloc(), caller(7, false), &parts, &[])?;
    assert_eq!(rt; (served.how, served.read), (ServeEnd::Done, 70_007));
    let parts = [HEAD, SEALED];
    let (served, _) = host.serve(&rt, rt.alloc(), caller(7, false), &parts, &[])?;
    assert_eq!(rt; served, decoded(ServeEnd::Done, 0, Some(0)));
    Ok(())
}

#[test]
fn connection_in_buffers_of_its_own(rt: HostRuntime) -> Result<(), Fail> {
    let mut host = Host::new(rt.alloc())?;
    let stop = b"\x4d\x01\x05\x00\x00\x00\x00".to_vec(rt.alloc())?;
    let mut conn = MemLink::new(rt.alloc(), stop, Vec::new(rt.alloc()), Vec::new(rt.alloc()));
    let mut clock = MemClock::new(Vec::new(rt.alloc()), Vec::new(rt.alloc()));
    let served = serve_one(
        &rt,
        rt.alloc(),
        &mut conn,
        &mut clock,
        &host.gate,
        &mut host.pass,
        &mut host.dice,
        caller(7, true),
        &host.world,
    );
    assert_eq!(rt; served.how, ServeEnd::Stopped);
    assert_eq!(rt; conn.taken(), [0x4d, 1, 6, 0, 0, 0, 1, 0].as_slice());
    Ok(())
}
