//! The door of the system: a TCP listener on 127.0.0.1.

ghost use Rattle.std.specs.Prelude.{◌≡◌, None};

use crate::devices::{ReaderSource, WriterSink};
use cds_base::{Door, Failed};
use std::io::{self, Read, Write};
use std::net::{Ipv4Addr, Net, OpenListener, OpenStream, Shutdown, SocketAddr};
use std::time::Duration;

/// How many reads a closing connection is drained with at most, each of at most `DRAINED_BYTES`.
const MOST_DRAINING_READS: u32 = 4096;

/// How many bytes a closing connection is drained of at a time.
const DRAINED_BYTES: usize = 4096;

/// How long a read waits at most that drains a closing connection, in milliseconds.
const DRAINING_MILLISECONDS: u64 = 250;

/// A door over the network of the system, which listens on 127.0.0.1 alone once it is opened. It tells nothing of its
/// connections.
#[derive(Drop)]
pub struct ListenerDoor<'r, R: Net> {
    network: &'r R,
    listener: Option<R::Listener>,
    pairs: u64,
    faults: u64,
}

impl<'r, R: Net> ListenerDoor<'r, R> {
    /// A door that listens nowhere yet, has handed out nothing and hasn't failed.
    pub fn new(network: &'r R) -> ListenerDoor<'r, R>
        ensures pairs { result.pairs ≡ 0 }
        ensures faults { result.faults ≡ 0 }
    {
        ListenerDoor {
            network,
            listener: None,
            pairs: 0,
            faults: 0,
        }
    }

    /// Where it listens.
    #[cfg(test)]
    pub fn address(&self) -> io::Result<SocketAddr> {
        match &self.listener {
            Some(listener) => listener.local_addr(),
            None => Err(io::ErrorKind::NotConnected.into()),
        }
    }
}

impl<'r, R: Net> Door for ListenerDoor<'r, R> {
    type In = ReaderSource<R::Stream>;

    type Out = WriterSink<R::Stream>;

    ghost told = { λ s. record { connections = None; pairs = s.pairs; faults = s.faults } };

    /// Listens at this port of 127.0.0.1, in place of any port before.
    fn open(&mut self, port: u16) -> Result<(), Failed> {
        match self
            .network
            .bind(SocketAddr::from((Ipv4Addr::LOCALHOST, port)))
        {
            Ok(listener) => {
                self.listener = Some(listener);
                Ok(())
            }
            Err(_) => {
                self.faults = self.faults.saturating_add(1);
                Err(Failed)
            }
        }
    }

    /// Waits for the next connection. One that is broken off before it is taken is a fault, and so is one of a door that
    /// wasn't opened.
    fn next(&mut self) -> Result<(Self::In, Self::Out), Failed> {
        let accepted = match &self.listener {
            Some(listener) => accept::<R>(listener).ok(),
            None => None,
        };
        match accepted {
            Some((input, output)) if self.pairs < u64::MAX => {
                self.pairs += 1;
                Ok((ReaderSource::new(input), WriterSink::new(output)))
            }
            _ => {
                self.faults = self.faults.saturating_add(1);
                Err(Failed)
            }
        }
    }

    /// Closes a connection. Its client is told that no more comes, and what it still sends is read and left, as far as it
    /// comes soon: a client that is still writing gets its response.
    fn close(&mut self, input: Self::In, output: Self::Out) {
        let mut stream = input.into_reader();
        if stream.shutdown(Shutdown::Write).is_ok() {
            drain(&mut stream);
        }
        self.pairs -= 1;
    }
}

/// The next connection of a listener, as one stream to read and one to write.
fn accept<R: Net>(listener: &R::Listener) -> io::Result<(R::Stream, R::Stream)> {
    let (stream, _address) = listener.accept()?;
    let other = stream.try_clone()?;
    Ok((stream, other))
}

/// Reads what still comes, as far as it comes soon.
fn drain<T: OpenStream + Read>(stream: &mut T) {
    let wait = Some(Duration::from_millis(DRAINING_MILLISECONDS));
    if stream.set_read_timeout(wait).is_err() {
        return;
    }
    let mut room = [0u8; DRAINED_BYTES];
    for _ in 0..MOST_DRAINING_READS {
        match stream.read(&mut room) {
            Ok(0) => return,
            Ok(_) => {}
            Err(_) => return,
        }
    }
}
