//! Connections.

ghost use Rattle.std.specs.Prelude.{◌≡◌};
ghost use Rattle.std.specs.Io.KnownBytes.{Consumes, Appends};
ghost use Rattle.byte_io.specs.AllWritten.{bytes_written};
ghost use Rattle.byte_io.specs.FullRead.{bytes_read};

use crate::{AllWritten, FullRead, Link, MemLink, Source, read_full, write_all};
use std::test::Fail;

/// Reads, and then answers: over any connection each leaves what the other did.
fn exchange<L: Link>(conn: &mut L, into: &mut [u8], answer: &[u8]) -> (FullRead, AllWritten)
    ensures read { Consumes (L.left conn.old) (L.left conn.new) (bytes_read result.0 into.new) }
    ensures written { Appends (L.taken conn.old) (L.taken conn.new)
        (bytes_written result.1 answer.now) }
    ensures rings { L.rings conn.new ≡ L.rings conn.old }
{
    let read = read_full(conn, into);
    let written = write_all(conn, answer);
    (read, written)
}

#[test]
fn link_is_read_and_answered(rt: HostRuntime) -> Result<(), Fail> {
    // The read and the write that fail or 0, the two outcomes, and what was taken.
    let rows = [
        (0, 0, FullRead::Full, AllWritten::All, "bye"),
        (1, 0, FullRead::Failed(0), AllWritten::All, "bye"),
        (0, 1, FullRead::Full, AllWritten::Failed(0), ""),
    ];
    for (row, (read_fail, write_fail, read, written, taken)) in rows.into_iter().enumerate() {
        let bytes = b"hello".to_vec(rt.alloc())?;
        let read_fails = vec![in rt.alloc(); read_fail]?;
        let write_fails = vec![in rt.alloc(); write_fail]?;
        let mut link = MemLink::new(rt.alloc(), bytes, read_fails, write_fails);
        let mut into = [0u8; 4];
        assert_eq!(rt;
            exchange(&mut link, &mut into, b"bye"),
            (read, written),
            "in row {row}"
        );
        assert_eq!(rt; link.taken(), taken.as_bytes(), "in row {row}");
    }
    Ok(())
}

#[test]
fn ring_leaves_the_bytes(rt: HostRuntime) -> Result<(), Fail> {
    let bytes = b"a".to_vec(rt.alloc())?;
    let none = Vec::new(rt.alloc());
    let mut link = MemLink::new(rt.alloc(), bytes, none, Vec::new(rt.alloc()));
    link.ring();
    let mut into = [0u8; 2];
    assert_eq!(rt; link.read(&mut into), Ok(1));
    assert_eq!(rt; link.taken().len(), 0);
    Ok(())
}
