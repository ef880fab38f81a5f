ghost use Rattle.std.specs.Prelude.{◌≡◌, ℕ, ◌+◌, ◌-◌, ◌≤◌, List, [], length, map, Option, Some, None, Err, IfSome, IfOk, All};
ghost use Rattle.dt_base.specs.Faults.{Rose};
ghost use Rattle.connections.specs.declared.harbor.HarborEnd.TheVariants.{Failed};

use crate::TcpDoor;
use connections::{Harbor, HarborEnd};
use dt_base::List;
use std::alloc::Global;
use std::io;
use std::net::{Ipv4Addr, Net, TcpListener, TcpStream};
use std::os::fd::AsRawFd;
use std::sync::Arc;
use std::time::Clock;

/// How many connections may wait to be accepted, where the system allows so many.
const BACKLOG: i32 = 1024;

/// What opens doors at a port of this machine, at the address 127.0.0.1. Its doors share one listener.
#[derive(Drop)]
pub struct TcpHarbor<R: Net<Listener = TcpListener, Stream = TcpStream> + Clock + Copy + Drop> {
    alloc: Global,
    system: R,
    faults: u64,
}

impl<R: Net<Listener = TcpListener, Stream = TcpStream> + Clock + Copy + Drop> TcpHarbor<R> {
    /// A harbor over the system, with no fault so far.
    pub fn new(alloc: Global, system: R) -> TcpHarbor<R>
        ensures { ⟦<TcpHarbor<R> as Harbor>⟧.faults result ≡ 0 }
    {
        TcpHarbor {
            alloc,
            system,
            faults: 0,
        }
    }

    /// Listens at a port. Its address may be taken again at once after an earlier program.
    fn listen(&self, port: u16) -> io::Result<TcpListener> {
        let listener = TcpListener::bind(&self.system, (Ipv4Addr::LOCALHOST, port))?;
        // std listens with room for 128 connections: listening again only makes it more.
        let _ = libc::net::listen(listener.as_raw_fd(), BACKLOG);
        Ok(listener)
    }
}

impl<R: Net<Listener = TcpListener, Stream = TcpStream> + Clock + Copy + Drop> Harbor
    for TcpHarbor<R> {
    type Door = TcpDoor<R>;

    ghost faults = { λ h. h.faults };

    ghost ahead = { λ _ _ _. None };

    fn open(&mut self, port: u16, workers: u32, each: u32) -> Result<List<TcpDoor<R>>, HarborEnd> {
        let Ok(listener) = self.listen(port) else {
            self.faults = self.faults.saturating_add(1);
            return Err(HarborEnd::Failed);
        };
        let Ok(listener) = Arc::new(self.alloc, listener) else {
            return Err(HarborEnd::OutOfMemory);
        };
        let mut doors = Vec::with_capacity(self.alloc, workers as usize)?;
        'opening: for _ in 0..workers {
            let door = TcpDoor::new(Arc::try_clone(&listener)?, self.system, each);
            let Ok(()) = doors.push(door) else {
                return Err(HarborEnd::OutOfMemory);
            };
        }
        Ok(List::from_vec(doors))
    }
}
