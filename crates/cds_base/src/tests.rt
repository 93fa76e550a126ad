ghost use Rattle.std.specs.Prelude.{◌≡◌, map, IfSome};
ghost use Rattle.std.specs.List.{All};
ghost use Rattle.cds_base.specs.MemDoor.{IsUnused};
ghost use Rattle.cds_base.specs.Named.{AreRising};

use super::*;
use std::alloc::Global;
use std::collections::VecDeque;
use std::test::Fail;

#[test]
fn names_are_1_to_64_letters_digits_and_signs(rt: HostRuntime) -> Result<(), Fail> {
    let longest = [b'z'; 64];
    let too_long = [b'z'; 65];
    let rows: [(&[u8], bool); 9] = [
        (b"", false),
        (b"a", true),
        (b"Caffeine_5.0-b", true),
        (b"two words", false),
        (b"a/b", false),
        (b"\xc3\xa4", false),
        (b"0", true),
        (&longest, true),
        (&too_long, false),
    ];
    for (bytes, is_name) in rows {
        assert_eq!(rt; Name::new(bytes).is_some(), is_name);
    }
    let (Some(early), Some(late)) = (Name::new(b"a1"), Name::new(b"a10")) else {
        return Err(Fail::from("no name"));
    };
    assert_eq!(rt; late.as_bytes(), b"a10".as_slice());
    assert!(rt; early < late);
    assert!(rt; early != late);
    Ok(())
}

// What is read of `abcde` in calls of room for four bytes, each `-` a failed call.
fn read_all(alloc: Global, piece: usize, failing: &[u64]) -> Result<Vec<u8>, Fail> {
    let mut source = MemSource::new(alloc, b"abcde", piece.max(1), failing)?;
    let mut all = Vec::new(alloc);
    let mut room = [0; 4];
    for _ in 0..8 {
        match source.read(&mut room) {
            Ok(count) => all.extend_from_slice(&room[..count])?,
            Err(Failed) => all.push(b'-')?,
        }
    }
    Ok(all)
}

#[test]
fn a_source_gives_its_bytes_in_pieces_and_fails_where_it_is_to(
    rt: HostRuntime,
) -> Result<(), Fail> {
    let rows: [(usize, &[u64], &[u8]); 4] = [
        (9, &[], b"abcde"),
        (1, &[], b"abcde"),
        (2, &[1, 3], b"-ab-cde"),
        (9, &[2, 7], b"abcd-e-"),
    ];
    for (piece, failing, all) in rows {
        assert_eq!(rt; read_all(rt.alloc(), piece, failing)?.as_slice(), all);
    }
    Ok(())
}

#[test]
fn a_sink_keeps_what_it_took(rt: HostRuntime) -> Result<(), Fail> {
    let mut sink = MemSink::new(rt.alloc(), 3, &[2])?;
    assert_eq!(rt; sink.write(b"abcde"), Ok(3));
    assert_eq!(rt; sink.write(b"de"), Err(Failed));
    assert_eq!(rt; sink.write(b"de"), Ok(2));
    assert_eq!(rt; sink.written(), b"abcde".as_slice());
    assert_eq!(rt; NoFailSink.write(b"abcde"), Ok(5));
    Ok(())
}

#[test]
fn a_clock_answers_its_moments_and_then_the_last_one(rt: HostRuntime) -> Result<(), Fail> {
    let mut clock = FixedClock::new(rt.alloc(), &[784_111_777, 5], 253_402_300_799)?;
    for moment in [784_111_777, 5, 253_402_300_799, 253_402_300_799] {
        assert_eq!(rt; clock.now(), moment);
    }
    Ok(())
}

// A connection that sends these bytes, given and taken whole.
fn add_connection(
    alloc: Global,
    coming: &mut VecDeque<(MemSource, MemSink)>,
    bytes: &[u8],
) -> Result<(), Fail>
    requires { All IsUnused coming.old.items }
    ensures { All IsUnused coming.new.items }
{
    let source = MemSource::new(alloc, bytes, 9, &[])?;
    let sink = MemSink::new(alloc, 9, &[])?;
    coming.push_back((source, sink))?;
    Ok(())
}

// What is read of the next connection in one call of room for three bytes, written back to it before it is closed.
fn echo<D: Door>(door: &mut D, room: &mut [u8; 3]) -> Result<usize, Failed>
    ensures pairs { (D.told door.new).pairs ≡ (D.told door.old).pairs }
    ensures port { IfSome (D.told door.old).connections
        (λ told. IfSome (D.told door.new).connections (λ now. now.port ≡ told.port)) }
{
    let (mut source, mut sink) = door.next()?;
    let read = source.read(room);
    let written = sink.write(room);
    door.close(source, sink);
    written?;
    read
}

#[test]
fn a_door_gives_its_connections_in_order_and_keeps_the_closed_ones(
    rt: HostRuntime,
) -> Result<(), Fail> {
    let mut coming = VecDeque::new(rt.alloc());
    add_connection(rt.alloc(), &mut coming, b"first")?;
    add_connection(rt.alloc(), &mut coming, b"2")?;
    let mut door = MemDoor::new(rt.alloc(), coming, &[1, 4])?;
    assert_eq!(rt; door.open(80), Err(Failed));
    assert_eq!(rt; door.port(), None);
    assert_eq!(rt; door.open(8080), Ok(()));
    assert_eq!(rt; door.port(), Some(8080));
    let rows = [Ok(3), Err(Failed), Ok(1), Err(Failed)];
    let mut room = [0; 3];
    for row in rows {
        assert_eq!(rt; echo(&mut door, &mut room), row);
    }
    let rows: [(&[u8], &[u8]); 2] = [(b"st", b"fir"), (b"", b"2ir")];
    assert_eq!(rt; door.closed().len(), 2);
    for ((source, sink), (left, written)) in door.closed().iter().zip(rows) {
        assert_eq!(rt; source.left(), left);
        assert_eq!(rt; sink.written(), written);
    }
    Ok(())
}

// Puts a value under a name.
fn put(list: &mut NamedList<u32>, name: &[u8], value: u32) -> Result<(), Fail>
    requires { AreRising (map (λ e. e.name) list.old.entries.items) }
    ensures { AreRising (map (λ e. e.name) list.new.entries.items) }
{
    let Some(name) = Name::new(name) else {
        return Err(Fail::from("no name"));
    };
    let place = list.reserve(name)?;
    list.put(place, name, value);
    Ok(())
}

#[test]
fn entries_stand_in_byte_order_and_each_name_once(rt: HostRuntime) -> Result<(), Fail> {
    let mut list = NamedList::new(rt.alloc());
    put(&mut list, b"b", 1)?;
    put(&mut list, b"a10", 2)?;
    put(&mut list, b"a1", 3)?;
    put(&mut list, b"b", 4)?;
    assert_eq!(rt; list.len(), 3);
    let rows: [(&[u8], u32); 3] = [(b"a1", 3), (b"a10", 2), (b"b", 4)];
    for (entry, (name, value)) in list.entries.iter().zip(rows) {
        assert_eq!(rt; entry.name.as_bytes(), name);
        assert_eq!(rt; entry.value, value);
    }
    let (Some(here), Some(absent)) = (Name::new(b"a10"), Name::new(b"a")) else {
        return Err(Fail::from("no name"));
    };
    assert_eq!(rt; list.find(here), Some(&2));
    assert_eq!(rt; list.find(absent), None);
    Ok(())
}
