ghost use Rattle.std.specs.Prelude.{◌≡◌, ℕ, ◌+◌, ◌-◌, ◌^◌, ◌<◌, ◌≤◌, ◌↔◌, Option, None, length, take, min, IfOk, OnErr, IsTrue, refl};
ghost use Rattle.std.specs.Io.KnownBytes.{Appends, Consumes, IsAtEnd, Keeps};
ghost use Rattle.dt_base.specs.Faults.{Rose};

use crate::wire::Wire;
use dt_base::{Failed, Link, Sink, Source};
use std::net::TcpStream;
use std::time::Clock;

/// One end of a TCP connection. It tells none of its bytes.
///
/// A read that begins a message fails after 60 seconds without a byte, and one that goes on with it 10 seconds after the
/// message's first bytes came; a write fails 60 seconds after the first write of its answer began. A message begins with the
/// first read behind a write, and an answer with the first write behind a read.
#[derive(Drop)]
pub struct TcpLink<C: Clock + Drop> {
    wire: Wire<C>,
    faults: u64,
}

impl<C: Clock + Drop> TcpLink<C> {
    /// A link over a new stream, with no fault so far.
    pub(crate) fn new(stream: TcpStream, clock: C) -> TcpLink<C>
        ensures { result.faults ≡ 0 }
    {
        TcpLink {
            wire: Wire::new(stream, clock),
            faults: 0,
        }
    }

    /// Whether one of its calls has failed.
    pub(crate) fn is_broken(&self) -> bool
        ensures { IsTrue result ↔ (0 < self.now.faults) }
    {
        self.faults > 0
    }

    /// Closes the connection, so that the other end has the last answer.
    pub(crate) fn close(self) {
        self.wire.farewell();
    }
}

impl<C: Clock + Drop> Source for TcpLink<C> {
    ghost left = { λ _. None };

    ghost aside = { λ _. None };

    ghost faults = { λ l. l.faults };

    fn read(&mut self, into: &mut [u8]) -> Result<usize, Failed> {
        match self.wire.read(into) {
            Ok(count) => Ok(count),
            Err(_) => {
                self.faults = self.faults.saturating_add(1);
                Err(Failed)
            }
        }
    }
}

impl<C: Clock + Drop> Sink for TcpLink<C> {
    ghost taken = { λ _. None };

    ghost aside = { λ _. None };

    ghost faults = { λ l. l.faults };

    /// A write that takes nothing counts as a failure.
    fn write(&mut self, piece: &[u8]) -> Result<usize, Failed> {
        match self.wire.write(piece) {
            Ok(count) if count > 0 => Ok(count),
            _ => {
                self.faults = self.faults.saturating_add(1);
                Err(Failed)
            }
        }
    }
}

impl<C: Clock + Drop> Link for TcpLink<C> {
    ghost one_count = { λ _. refl };

    ghost taken_aside = { λ _. refl };

    ghost left_aside = { λ _. refl };
}
