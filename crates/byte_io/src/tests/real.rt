//! The real forms.

use crate::{
    AllWritten, Clock, DiskFiles, FileFail, Files, Sink, Source, StdSink, StdSource, SystemClock,
    write_all,
};
use munge_types::Failed;
use std::io::{self, ErrorKind, Read, Write};
use std::test::Fail;
use std::time::Duration;
use std::{fs, rt};

/// A reader or a writer whose first calls a signal interrupts, so many of them.
#[derive(Drop)]
struct Interrupted<T> {
    times: u32,
    stream: T,
}

impl<T> Interrupted<T> {
    fn interrupt(&mut self) -> io::Result<()> {
        if self.times == 0 {
            return Ok(());
        }
        self.times -= 1;
        Err(io::Error::from(ErrorKind::Interrupted))
    }
}

impl<T: Read> Read for Interrupted<T> {
    fn read(&mut self, buf: &mut [u8]) -> io::Result<usize> {
        self.interrupt()?;
        self.stream.read(buf)
    }
}

impl<T: Write> Write for Interrupted<T> {
    fn write(&mut self, buf: &[u8]) -> io::Result<usize> {
        self.interrupt()?;
        self.stream.write(buf)
    }

    fn flush(&mut self) -> io::Result<()> {
        self.stream.flush()
    }
}

#[test]
fn source_reads_on_after_interrupts(rt: HostRuntime) -> Result<(), Fail> {
    let mut source = StdSource::new(Interrupted {
        times: 5,
        stream: b"abc".as_slice(),
    });
    let mut into = [0u8; 2];
    for (want, bytes) in [(2, b"ab"), (1, b"cb"), (0, b"cb")] {
        assert_eq!(rt; source.read(&mut into), Ok(want));
        assert_eq!(rt; into, *bytes);
    }
    Ok(())
}

#[test]
fn source_gives_up_on_interrupts_without_end(rt: HostRuntime) {
    let mut source = StdSource::new(Interrupted {
        times: u32::MAX,
        stream: b"abc".as_slice(),
    });
    assert_eq!(rt; source.read(&mut [0u8; 2]), Err(Failed));
}

#[test]
fn sink_writes_to_its_writer(rt: HostRuntime) -> Result<(), Fail> {
    let mut bytes = Vec::new(rt.alloc());
    let mut sink = StdSink::new(Interrupted {
        times: 5,
        stream: &mut bytes,
    });
    assert_eq!(rt; write_all(&mut sink, b"abc"), AllWritten::All);
    assert_eq!(rt; sink.write(b""), Ok(0));
    drop(sink);
    assert_eq!(rt; bytes.as_slice(), b"abc".as_slice());
    Ok(())
}

#[test]
fn sink_fails_where_its_writer_takes_nothing(rt: HostRuntime) {
    let mut bytes = [0u8; 2];
    let mut sink = StdSink::new(bytes.as_mut_slice());
    assert_eq!(rt; write_all(&mut sink, b"abc"), AllWritten::Failed(2));
    assert_eq!(rt; sink.write(b"c"), Err(Failed));
    assert_eq!(rt; sink.write(b""), Ok(0));
}

/// A runtime's clock that stands at so many seconds since 1970.
#[derive(Clone, Copy)]
struct Standing(u64);

impl rt::Clock for Standing {
    fn monotonic(&self) -> io::Result<Duration> {
        Ok(Duration::ZERO)
    }

    fn since_1970(&self) -> io::Result<Duration> {
        Ok(Duration::from_secs(self.0))
    }
}

#[test]
fn clock_reads_the_seconds_since_1970(rt: HostRuntime) {
    let rows = [
        (0, Ok(0)),
        (4_294_967_295, Ok(4_294_967_295)),
        (4_294_967_296, Err(Failed)),
    ];
    for (seconds, want) in rows {
        assert_eq!(rt; SystemClock::new(Standing(seconds)).now(), want);
    }
    let now = SystemClock::new(rt).now();
    assert!(rt; now.is_ok_and(|moment| moment > 1_700_000_000));
}

#[test]
fn files_are_read_from_the_disk(rt: HostRuntime) -> Result<(), Fail> {
    let name = "byte_io_test_file";
    fs::write(&rt, name, "abcd")?;
    let mut files = DiskFiles::new(rt);
    for (most, want) in [(9, "abcd"), (4, "abcd"), (3, "abc"), (0, "")] {
        match files.read(rt.alloc(), name, most) {
            Ok(bytes) => assert_eq!(rt; bytes.as_slice(), want.as_bytes(), "at most {most}"),
            Err(_) => panic!(rt; "no bytes, at most {most}"),
        }
    }
    fs::remove_file(&rt, name)?;
    assert!(rt; matches!(files.read(rt.alloc(), name, 9), Err(FileFail::Failed)));
    Ok(())
}
