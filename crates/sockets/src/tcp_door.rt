ghost use Rattle.std.specs.Prelude.{◌≡◌, ◌≢◌, ℕ, ◌+◌, ◌-◌, ◌^◌, ◌<◌, ◌≤◌, ◌↔◌, Option, Some, None, Ok, IfSome, IfOk, OnErr};
ghost use Rattle.dt_base.specs.Faults.{Rose};

use crate::TcpLink;
use connections::Door;
use dt_base::Failed;
use std::alloc::Global;
use std::io::ErrorKind;
use std::net::{TcpListener, TcpStream};
use std::sync::Arc;
use std::time::{Clock, Duration};
use std::{io, thread};

/// For how many milliseconds a door waits where a turn failed, so that a system without descriptors or memory does not take all its turns at once.
const PAUSE_MILLISECONDS: u64 = 100;

/// A door to a port, which it shares with the other doors of its harbor. It tells neither what is ahead nor what is gone.
///
/// An accept that was interrupted, or whose client was gone before it was taken, is no turn: the next one is waited for. Where
/// an accept fails otherwise, as for want of descriptors, the turn fails after a tenth of a second.
#[derive(Drop)]
pub struct TcpDoor<C: Clock + Copy + Drop> {
    listener: Arc<TcpListener, Global>,
    clock: C,
    left: u32,
    faults: u64,
    lost: u64,
    ghost within: { left < 2 ^ 32 },
}

/// Whether an accept failed for its client alone.
fn is_of_the_client(kind: ErrorKind) -> bool {
    matches!(
        kind,
        ErrorKind::Interrupted
            | ErrorKind::ConnectionAborted
            | ErrorKind::ConnectionReset
            | ErrorKind::NetworkDown
            | ErrorKind::NetworkUnreachable
            | ErrorKind::HostUnreachable
    )
}

/// The next connection whose client is there.
fn accept(listener: &TcpListener) -> io::Result<TcpStream> {
    for stream in listener.incoming() {
        match stream {
            Err(error) if is_of_the_client(error.kind()) => {}
            ended => return ended,
        }
    }
    Err(io::Error::from(ErrorKind::Interrupted))
}

impl<C: Clock + Copy + Drop> TcpDoor<C> {
    /// A door to a port that is listened at, with so many turns.
    pub(crate) fn new(listener: Arc<TcpListener, Global>, clock: C, left: u32) -> TcpDoor<C>
        ensures left { result.left ≡ left }
        ensures faults { result.faults ≡ 0 }
        ensures lost { result.lost ≡ 0 }
    {
        TcpDoor {
            listener,
            clock,
            left,
            faults: 0,
            lost: 0,
        }
    }
}

impl<C: Clock + Copy + Drop> Door for TcpDoor<C> {
    type Link = TcpLink<C>;

    ghost faults = { λ d. d.faults };

    ghost left = { λ d. d.left };

    ghost lost = { λ d. d.lost };

    ghost ahead = { λ _. None };

    ghost gone = { λ _. None };

    fn next(&mut self) -> Result<Option<TcpLink<C>>, Failed> {
        if self.left == 0 {
            return Ok(None);
        }
        self.left -= 1;
        match accept(&self.listener) {
            Ok(stream) => Ok(Some(TcpLink::new(stream, self.clock))),
            Err(_) => {
                thread::sleep(&self.clock, Duration::from_millis(PAUSE_MILLISECONDS));
                self.faults = self.faults.saturating_add(1);
                Err(Failed)
            }
        }
    }

    /// Closes the connection, once the other end has the last answer or a second is over.
    fn done(&mut self, link: TcpLink<C>) {
        if link.is_broken() {
            self.lost = self.lost.saturating_add(1);
        }
        link.close();
    }

    ghost within = { λ d. d.within };

    ghost one_each = { λ _. tt };
}
