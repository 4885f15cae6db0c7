//! Reading until a buffer is full, and writing all of a text.

use crate::{AllWritten, FullRead, MemSink, MemSource, read_full, write_all};
use std::test::Fail;

#[test]
fn read_full_says_how_far_it_came(rt: HostRuntime) -> Result<(), Fail> {
    // The bytes there, the most of one read, the read that fails or 0, and the outcome for four.
    let rows = [
        ("abcd", 0, 0, FullRead::Full),
        ("abcde", 3, 0, FullRead::Full),
        ("abcd", 1, 5, FullRead::Full),
        ("abc", 2, 0, FullRead::Short(3)),
        ("", 0, 0, FullRead::Short(0)),
        ("abcd", 1, 4, FullRead::Failed(3)),
        ("abcd", 0, 1, FullRead::Failed(0)),
        ("abc", 0, 2, FullRead::Failed(3)),
    ];
    for (row, (bytes, piece, fails, want)) in rows.into_iter().enumerate() {
        let bytes = bytes.as_bytes().to_vec(rt.alloc())?;
        let mut source = MemSource::new(bytes, piece, vec![in rt.alloc(); fails]?);
        let mut into = [0u8; 4];
        assert_eq!(rt; read_full(&mut source, &mut into), want, "in row {row}");
        if want == FullRead::Full {
            assert_eq!(rt; into, *b"abcd", "in row {row}");
        }
    }
    Ok(())
}

#[test]
fn read_full_of_nothing_reads_nothing(rt: HostRuntime) -> Result<(), Fail> {
    let mut source = MemSource::new(Vec::new(rt.alloc()), 0, vec![in rt.alloc(); 1]?);
    assert_eq!(rt; read_full(&mut source, &mut []), FullRead::Full);
    Ok(())
}

#[test]
fn write_all_stops_at_a_fault(rt: HostRuntime) -> Result<(), Fail> {
    let mut sink = MemSink::new(rt.alloc(), vec![in rt.alloc(); 2]?);
    let rows = [
        ("abc", AllWritten::All, "abc"),
        ("d", AllWritten::Failed(0), "abc"),
        ("", AllWritten::All, "abc"),
        ("e", AllWritten::All, "abce"),
    ];
    for (bytes, want, taken) in rows {
        assert_eq!(rt;
            write_all(&mut sink, bytes.as_bytes()),
            want,
            "writing {bytes}"
        );
        assert_eq!(rt; sink.taken(), taken.as_bytes());
    }
    Ok(())
}
