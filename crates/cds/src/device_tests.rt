//! The devices of the system, over a reader and a writer whose calls go as a list says.
ghost use Rattle.std.specs.Prelude.{◌≤◌, IfOk};

use crate::clock::SystemClock;
use crate::devices::{ReaderSource, WriterSink};
use crate::door::ListenerDoor;
use crate::store::StoreKeeper;
use cds_base::{Clock, Door, Failed, MOMENT_LIMIT, Sink, Source};
use cds_keep::{Keeper, LoadError, MapKeeper};
use cds_keep_sql::SqlKeeper;
use std::fs;
use std::io::{self, ErrorKind, Read, Write};
use std::net::{Shutdown, TcpStream};
use std::test::Fail;

/// How a call of the system goes.
#[derive(Clone, Copy, Debug, PartialEq, Eq)]
enum Call {
    Interrupted,
    Fails(ErrorKind),
    Moves(usize),
}

/// A reader and writer whose calls go one after the other as the list says, and move nothing behind it.
#[derive(Drop)]
struct Scripted {
    calls: Vec<Call>,
    at: usize,
    taken: Vec<u8>,
}

impl Scripted {
    /// How many bytes the next call moves, at most as many as it may.
    fn next(&mut self, most: usize) -> io::Result<usize>
        ensures { IfOk result (λ n. n ≤ most) }
    {
        let call = self.calls.get(self.at).copied().unwrap_or(Call::Moves(0));
        self.at = self.at.saturating_add(1);
        match call {
            Call::Interrupted => Err(ErrorKind::Interrupted.into()),
            Call::Fails(kind) => Err(kind.into()),
            Call::Moves(count) => Ok(count.min(most)),
        }
    }
}

impl Read for Scripted {
    fn read(&mut self, buf: &mut [u8]) -> io::Result<usize> {
        let count = self.next(buf.len())?;
        for byte in buf.iter_mut().take(count) {
            *byte = b'r';
        }
        Ok(count)
    }
}

impl Write for Scripted {
    fn write(&mut self, piece: &[u8]) -> io::Result<usize> {
        let count = self.next(piece.len())?;
        for byte in piece.iter().take(count) {
            if self.taken.push(*byte).is_err() {
                return Err(ErrorKind::OutOfMemory.into());
            }
        }
        Ok(count)
    }

    fn flush(&mut self) -> io::Result<()> {
        Ok(())
    }
}

#[test]
fn a_read_that_fails_is_no_end_of_the_input(rt: HostRuntime) -> Result<(), Fail> {
    let calls = [
        Call::Moves(3),
        Call::Interrupted,
        Call::Interrupted,
        Call::Interrupted,
        Call::Moves(2),
        Call::Fails(ErrorKind::UnexpectedEof),
        Call::Fails(ErrorKind::OutOfMemory),
        Call::Fails(ErrorKind::Other),
        Call::Moves(1),
    ];
    let reader = Scripted {
        calls: Vec::from_slice(rt.alloc(), &calls)?,
        at: 0,
        taken: Vec::new(rt.alloc()),
    };
    let mut source = ReaderSource::new(reader);
    let mut room = [b'-'; 4];
    for (result, read) in [
        (Ok(3), b"rrr-"),
        (Ok(2), b"rr--"),
        (Err(Failed), b"----"),
        (Err(Failed), b"----"),
        (Err(Failed), b"----"),
        (Ok(1), b"r---"),
        (Ok(0), b"----"),
    ] {
        room = [b'-'; 4];
        assert_eq!(rt; source.read(&mut room), result);
        assert_eq!(rt; room, *read);
    }
    Ok(())
}

#[test]
fn bytes_count_as_written_where_the_writer_took_them(rt: HostRuntime) -> Result<(), Fail> {
    let calls = [
        Call::Moves(3),
        Call::Interrupted,
        Call::Interrupted,
        Call::Interrupted,
        Call::Moves(9),
        Call::Fails(ErrorKind::BrokenPipe),
        Call::Fails(ErrorKind::Other),
        Call::Moves(0),
        Call::Moves(1),
    ];
    let writer = Scripted {
        calls: Vec::from_slice(rt.alloc(), &calls)?,
        at: 0,
        taken: Vec::new(rt.alloc()),
    };
    let mut sink = WriterSink::new(writer);
    for (result, taken) in [
        (Ok(3), b"abc".as_slice()),
        (Ok(4), b"abcabcd".as_slice()),
        (Err(Failed), b"abcabcd".as_slice()),
        (Err(Failed), b"abcabcd".as_slice()),
        (Err(Failed), b"abcabcd".as_slice()),
        (Ok(1), b"abcabcda".as_slice()),
    ] {
        assert_eq!(rt; sink.write(b"abcd"), result);
        assert_eq!(rt; sink.writer.taken.as_slice(), taken);
    }
    Ok(())
}

// A client connects, writes and shuts its writing side before its connection is taken. The server reads what it wrote, and
// the client what the server writes.
#[test]
fn a_connection_is_taken_and_closed(rt: HostRuntime) -> Result<(), Fail> {
    let mut door = ListenerDoor::new(&rt);
    assert!(rt; door.next().is_err());
    door.open(0)?;
    let address = door.address()?;
    let mut client = TcpStream::connect(&rt, address)?;
    client.write_all(b"asked")?;
    client.shutdown(Shutdown::Write)?;
    let (mut input, mut output) = door.next()?;
    let mut room = [b'-'; 9];
    assert_eq!(rt; input.read(&mut room), Ok(5));
    assert_eq!(rt; room, *b"asked----");
    assert_eq!(rt; input.read(&mut room), Ok(0));
    assert_eq!(rt; output.write(b"answered"), Ok(8));
    door.close(input, output);
    let answer = io::read_to_string(rt.alloc(), client)?;
    assert_eq!(rt; answer.as_str(), "answered");
    Ok(())
}

#[test]
fn the_clock_of_the_system_stands_in_its_range(rt: HostRuntime) -> Result<(), Fail> {
    let mut clock = SystemClock::new(&rt);
    let moment = clock.now();
    assert!(rt; 1_700_000_000 < moment && moment < MOMENT_LIMIT);
    Ok(())
}

// Puts a record into the store of this name, and answers how many it had.
fn put_behind(keeper: &mut StoreKeeper<'_>, name: &str) -> Result<u64, Fail> {
    let records = keeper.load(name)?;
    keeper.put(b"record")?;
    Ok(records.len())
}

// The empty name is the store in memory, another one a file.
#[test]
fn the_name_picks_the_store(rt: HostRuntime) -> Result<(), Fail> {
    let _ = fs::remove_dir_all(&rt, "cds_stores");
    fs::create_dir(&rt, "cds_stores")?;
    let mut keeper = StoreKeeper::new(MapKeeper::new(rt.alloc(), &[])?, SqlKeeper::new(&rt));
    for (name, before) in [
        ("", 0),
        ("cds_stores/a.db", 0),
        ("", 1),
        ("cds_stores/a.db", 1),
    ] {
        assert_eq!(rt; keeper.load(name)?.len(), before, "{name}");
        assert_eq!(rt; keeper.put(b"record"), Ok(()), "{name}");
    }
    assert!(rt; matches!(keeper.load("cds_stores/none/a.db"), Err(LoadError::Failed)));
    keeper.close();
    fs::remove_dir_all(&rt, "cds_stores")?;
    Ok(())
}
