ghost use Rattle.std.specs.Prelude.{◌≡◌, ◌≢◌, ℕ, ◌≤◌, Option, Some, None, Err, IfSome, IfOk};
ghost use Rattle.dt_base.specs.Faults.{Rose};
ghost use Rattle.connections.specs.declared.dial.DialEnd.TheVariants.{Failed};

use crate::TcpLink;
use connections::{Dial, DialEnd};
use std::io;
use std::io::ErrorKind;
use std::net::{Net, TcpListener, TcpStream, ToSocketAddrs};
use std::time::{Clock, Duration};

/// For how many seconds the answer to a connect is waited for, at each address of a host.
const WAIT_SECONDS: u64 = 60;

/// What makes TCP connections. It tells neither what is ahead nor what is gone.
#[derive(Drop)]
pub struct TcpDial<R: Net<Listener = TcpListener, Stream = TcpStream> + Clock + Copy + Drop> {
    system: R,
    faults: u64,
    lost: u64,
}

impl<R: Net<Listener = TcpListener, Stream = TcpStream> + Clock + Copy + Drop> TcpDial<R> {
    /// A dial over the system, with no fault so far.
    pub fn new(system: R) -> TcpDial<R>
        ensures faults { ⟦<TcpDial<R> as Dial>⟧.faults result ≡ 0 }
        ensures lost { ⟦<TcpDial<R> as Dial>⟧.lost result ≡ 0 }
    {
        TcpDial {
            system,
            faults: 0,
            lost: 0,
        }
    }

    /// Connects to the first address of the host that answers. The system's resolver is given the host as it is.
    fn connect(&self, host: &str, port: u16) -> io::Result<TcpStream> {
        let wait = Duration::from_secs(WAIT_SECONDS);
        let mut last = io::Error::from(ErrorKind::NotFound);
        for address in (host, port).to_socket_addrs(&self.system)? {
            match TcpStream::connect_timeout(&self.system, &address, wait) {
                Ok(stream) => return Ok(stream),
                Err(error) => last = error,
            }
        }
        Err(last)
    }
}

impl<R: Net<Listener = TcpListener, Stream = TcpStream> + Clock + Copy + Drop> Dial for TcpDial<R> {
    type Link = TcpLink<R>;

    ghost faults = { λ d. d.faults };

    ghost lost = { λ d. d.lost };

    ghost ahead = { λ _. None };

    ghost gone = { λ _. None };

    /// Fails where the host has no address, and where none of its addresses answers within a minute.
    fn dial(&mut self, host: &str, port: u16) -> Result<TcpLink<R>, DialEnd> {
        let Ok(stream) = self.connect(host, port) else {
            self.faults = self.faults.saturating_add(1);
            return Err(DialEnd::Failed);
        };
        Ok(TcpLink::new(stream, self.system))
    }

    /// Closes the connection.
    fn done(&mut self, link: TcpLink<R>) {
        if link.is_broken() {
            self.lost = self.lost.saturating_add(1);
        }
    }
}
