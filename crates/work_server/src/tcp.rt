//! Connections over TCP, on this machine.
// Thin over std: no proof tells what a real socket gives.
ghost use Rattle.std.specs.Prelude.{◌≡◌};

use crate::acceptor::{AcceptFailed, Acceptor};
use counts::Count;
use std::net::{Ipv4Addr, Net, TcpListener, TcpStream};
use std::time::{Clock, Duration};
use std::{io, thread};
use tao_io::{StdSink, StdSource};

/// How long it waits after a connection that wasn't accepted, in milliseconds.
const PAUSE: u64 = 10;

/// How many accepts in a row have to fail, each after a pause, before that is a fault: some ten minutes of them.
const TRIES: u64 = 60_000;

/// What opens and waits on sockets over TCP.
pub trait Tcp: Net<Listener = TcpListener, Stream = TcpStream> + Clock {}

impl<R: Net<Listener = TcpListener, Stream = TcpStream> + Clock> Tcp for R {}

/// Connections over TCP to 127.0.0.1. It has no end.
///
/// A connection that fails as it is accepted, as where its peer has gone, isn't a fault: it is passed over, and so is one for which the system has no
/// descriptor left. It is a fault where 60,000 accepts in a row failed, with ten milliseconds between each two of them.
#[derive(Drop)]
pub struct TcpAcceptor<'r, R> {
    rt: &'r R,
    listener: TcpListener,
    given: Count,
    faults: Count,
}

/// The two halves of a connection. What is written to it goes out at once.
fn halves(stream: TcpStream) -> io::Result<(StdSource<TcpStream>, StdSink<TcpStream>)> {
    stream.set_nodelay(true)?;
    let writer = stream.try_clone()?;
    Ok((StdSource::of(stream), StdSink::of(writer)))
}

impl<'r, R: Tcp> TcpAcceptor<'r, R> {
    /// Listens at a port of 127.0.0.1; at port 0, at one that the system picks. It fails where the port can't be had.
    pub fn bind(rt: &'r R, port: u16) -> Result<TcpAcceptor<'r, R>, AcceptFailed> {
        match TcpListener::bind(rt, (Ipv4Addr::LOCALHOST, port)) {
            Ok(listener) => Ok(TcpAcceptor {
                rt,
                listener,
                given: Count::new(),
                faults: Count::new(),
            }),
            Err(_) => Err(AcceptFailed),
        }
    }

    /// The port at which it listens, where the system tells.
    pub fn port(&self) -> Option<u16> {
        match self.listener.local_addr() {
            Ok(address) => Some(address.port()),
            Err(_) => None,
        }
    }

    /// The next connection, with its halves. An error is of that connection, or of a system that has no room for it.
    fn accept_once(&self) -> io::Result<(StdSource<TcpStream>, StdSink<TcpStream>)> {
        let (stream, _) = self.listener.accept()?;
        halves(stream)
    }

    /// The next connection that doesn't fail as it is accepted. None where too many in a row failed.
    fn accept(&self) -> Option<(StdSource<TcpStream>, StdSink<TcpStream>)> {
        for _ in 0..TRIES {
            if let Ok(connection) = self.accept_once() {
                return Some(connection);
            }
            thread::sleep(self.rt, Duration::from_millis(PAUSE));
        }
        None
    }
}

impl<'r, R: Tcp> Acceptor for TcpAcceptor<'r, R> {
    type In = StdSource<TcpStream>;

    type Out = StdSink<TcpStream>;

    ghost given = { λ a. a.given };

    ghost ends = { λ _. 0 };

    ghost faults = { λ a. a.faults };

    fn next(&mut self) -> Result<Option<(Self::In, Self::Out)>, AcceptFailed> {
        match self.accept() {
            Some(connection) => {
                self.given.rise();
                Ok(Some(connection))
            }
            None => {
                self.faults.rise();
                Err(AcceptFailed)
            }
        }
    }
}
