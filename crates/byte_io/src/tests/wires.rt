//! Connections that go out.

ghost use Rattle.std.specs.Prelude.{◌≡◌, OnOk};
ghost use Rattle.byte_io.specs.Dials.{Dials};

use crate::{FullRead, Hall, MemHall, MemWire, Sink, Source, Wire, read_full, write_all};
use munge_types::Failed;
use std::test::Fail;

/// A wire with one reply, whose second dial is to fail.
fn wire_with_one_reply(rt: &HostRuntime) -> Result<MemWire, Fail> {
    let mut replies = Vec::new(rt.alloc());
    replies.push(b"yes".to_vec(rt.alloc())?)?;
    Ok(MemWire::new(rt.alloc(), replies, vec![in rt.alloc(); 2]?))
}

#[test]
fn each_dial_has_its_reply(rt: HostRuntime) -> Result<(), Fail> {
    let mut wire = wire_with_one_reply(&rt)?;
    let mut into = [0u8; 3];
    // The path, the dial's outcome, and how far the connection then fills three bytes.
    let rows = [
        ("/a", Ok(()), FullRead::Full),
        ("/b", Err(Failed), FullRead::Short(0)),
        ("/c", Ok(()), FullRead::Short(0)),
    ];
    assert_eq!(rt; wire.read(&mut into), Ok(0));
    for (path, dial, read) in rows {
        assert_eq!(rt; wire.dial(path), dial, "dialling {path}");
        assert_eq!(rt; read_full(&mut wire, &mut into), read, "after {path}");
        assert_eq!(rt; wire.write(path.as_bytes()), Ok(2));
    }
    assert_eq!(rt; wire.taken(), b"/a/b/c".as_slice());
    Ok(())
}

#[test]
fn wire_keeps_the_paths_that_were_dialled(rt: HostRuntime) -> Result<(), Fail> {
    let mut wire = wire_with_one_reply(&rt)?;
    for path in ["/a", "/b", "/c"] {
        let _ = wire.dial(path);
    }
    assert_eq!(rt; wire.dialled().len(), 2);
    for (path, want) in wire.dialled().iter().zip(["/a", "/c"]) {
        assert_eq!(rt; path.as_str(), want);
    }
    Ok(())
}

/// Dials, asks and reads the answer: in any hall the doors are left as they were.
fn ask<H: Hall>(
    hall: &mut H,
    path: &str,
    request: &[u8],
    into: &mut [u8],
) -> Result<FullRead, Failed>
    ensures path { OnOk result (Dials (H.dialled hall.old) (H.dialled hall.new) path.now) }
    ensures doors { H.doors hall.new ≡ H.doors hall.old }
{
    hall.dial(path)?;
    let _ = write_all(hall, request);
    Ok(read_full(hall, into))
}

#[test]
fn hall_is_asked_over_its_wire(rt: HostRuntime) -> Result<(), Fail> {
    let wire = wire_with_one_reply(&rt)?;
    let mut hall = MemHall::new(Vec::new(rt.alloc()), wire, Vec::new(rt.alloc()));
    let mut into = [0u8; 3];
    assert_eq!(rt; ask(&mut hall, "/a", b"why", &mut into), Ok(FullRead::Full));
    assert_eq!(rt; hall.taken(), b"why".as_slice());
    assert_eq!(rt; ask(&mut hall, "/b", b"why", &mut into), Err(Failed));
    assert_eq!(rt; hall.dialled().len(), 1);
    Ok(())
}
