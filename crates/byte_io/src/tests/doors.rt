//! Doors, the halls where they are opened, and tickers.

ghost use Rattle.std.specs.Prelude.{All, IfOk};
ghost use Rattle.byte_io.specs.MemDoor.{HasNoFault};
ghost use Rattle.byte_io.specs.MemHall.{HasNoDoorFault};

use crate::{
    Door, FileFail, Hall, MemDoor, MemHall, MemLink, MemTicker, MemWire, NamedDoor, Next, Source,
    Tick, Ticker,
};
use std::test::Fail;

/// Connections that send these texts.
fn links(rt: &HostRuntime, texts: &[&str]) -> Result<Vec<MemLink>, Fail>
    ensures { IfOk result (λ conns. All HasNoFault conns.items) }
{
    let mut conns = Vec::new(rt.alloc());
    for text in texts {
        let bytes = text.as_bytes().to_vec(rt.alloc())?;
        let none = Vec::new(rt.alloc());
        conns.push(MemLink::new(rt.alloc(), bytes, none, Vec::new(rt.alloc())))?;
    }
    Ok(conns)
}

/// Doors at these paths, each of one connection that sends this text.
fn doors(rt: &HostRuntime, rows: &[(&str, &str)]) -> Result<Vec<NamedDoor>, Fail>
    ensures { IfOk result (λ doors. All HasNoDoorFault doors.items) }
{
    let mut doors = Vec::new(rt.alloc());
    for (path, text) in rows {
        let path = String::from_str(rt.alloc(), path)?;
        let door = MemDoor::new(links(rt, &[text])?, Vec::new(rt.alloc()));
        doors.push(NamedDoor { path, door })?;
    }
    Ok(doors)
}

/// The first byte that a connection sends, `.` for a door that is over, `!` for one that failed.
fn told(next: Next<MemLink>) -> u8 {
    match next {
        Next::Conn(mut conn) => {
            let mut into = [b'?'];
            let _ = conn.read(&mut into);
            into[0]
        }
        Next::Over => b'.',
        Next::Failed => b'!',
    }
}

#[test]
fn door_gives_its_connections_in_order(rt: HostRuntime) -> Result<(), Fail> {
    let mut door = MemDoor::new(links(&rt, &["ab", "c"])?, vec![in rt.alloc(); 2, 5]?);
    for want in *b"a!c.!." {
        assert_eq!(rt; told(door.accept()), want);
    }
    Ok(())
}

#[test]
fn ticker_stops_after_its_due_answers(rt: HostRuntime) -> Result<(), Fail> {
    let mut ticker = MemTicker::new(2, vec![in rt.alloc(); 2]?);
    for want in [Tick::Due, Tick::Failed, Tick::Due, Tick::Stop, Tick::Stop] {
        assert_eq!(rt; ticker.next(), want);
    }
    Ok(())
}

/// What the door of that path tells first, or `-` where none was opened.
fn opened(hall: &mut MemHall, rt: &HostRuntime, path: &str) -> u8 {
    match hall.open_door(rt.alloc(), path) {
        Ok(mut door) => told(door.accept()),
        Err(FileFail::Failed) => b'-',
        Err(FileFail::NoMemory) => b'm',
    }
}

#[test]
fn hall_opens_each_door_once(rt: HostRuntime) -> Result<(), Fail> {
    let all = doors(&rt, &[("/a", "1"), ("/b", "2"), ("/a", "3")])?;
    let wire = MemWire::new(rt.alloc(), Vec::new(rt.alloc()), Vec::new(rt.alloc()));
    let mut hall = MemHall::new(all, wire, vec![in rt.alloc(); 2]?);
    // The path, and what its door tells; the second call is to fail.
    let rows = [
        ("/a", b'1'),
        ("/a", b'-'),
        ("/a", b'3'),
        ("/a", b'-'),
        ("/b", b'2'),
    ];
    for (row, (path, want)) in rows.into_iter().enumerate() {
        assert_eq!(rt; opened(&mut hall, &rt, path), want, "in row {row}");
    }
    assert_eq!(rt; hall.taken().len(), 0);
    assert_eq!(rt; hall.dialled().len(), 0);
    Ok(())
}
