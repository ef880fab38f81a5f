ghost use Rattle.std.specs.Prelude.{◌≡◌, ℕ, ◌+◌, ◌-◌, ◌*◌, ◌^◌, ◌<◌, ◌≤◌, ◌↔◌, List, Option, Some, None, [], length, take, min, IfOk, OnErr, IsErr, IsTrue, Contains};
ghost use Rattle.std.specs.Io.KnownBytes.{Appends, Keeps};
ghost use Rattle.dt_base.specs.Faults.{Rose};

use crate::{Failed, List, Sink};
use std::alloc::Global;

/// A sink in memory, which tells what it has taken, has a bounded room and fails where it was told to.
#[derive(Debug, Drop)]
pub struct MemSink {
    taken: List<u8>,
    room: u64,
    failing: List<u64>,
    writes: u64,
    faults: u64,
}

impl MemSink {
    /// A sink that has taken nothing and takes at most `room` bytes in all. `failing` lists the writes that
    /// are to fail, counted from 1. A write that finds no room, or no memory, fails too. It takes no memory.
    pub fn new(alloc: Global, room: u64, failing: List<u64>) -> MemSink
        ensures taken { ⟦<MemSink as Sink>⟧.taken result ≡ Some [] }
        ensures aside { ⟦<MemSink as Sink>⟧.aside result ≡ None }
        ensures faults { ⟦<MemSink as Sink>⟧.faults result ≡ 0 }
        ensures room { result.room ≡ room }
        ensures failing { result.failing ≡ failing }
        ensures writes { result.writes ≡ 0 }
    {
        MemSink {
            taken: List::new(alloc),
            room,
            failing,
            writes: 0,
            faults: 0,
        }
    }

    /// The bytes that it has taken.
    pub fn taken(&self) -> &[u8]
        ensures { ⟦<MemSink as Sink>⟧.taken self.now ≡ Some result.now }
    {
        self.taken.as_slice()
    }

    fn fail(&mut self) -> Result<usize, Failed>
        ensures failed { IsErr result }
        ensures counted { self.new ≡ record self.old { faults = min (self.old.faults + 1) (2 ^ 64 - 1) } }
    {
        self.faults = self.faults.saturating_add(1);
        Err(Failed)
    }

    /// The next write, which fails where it is to, where no room is left, and where no memory is found.
    pub(crate) fn turn(&mut self, piece: &[u8], fails: bool) -> Result<usize, Failed>
        requires { 0 < length piece.now }
        ensures appended { IfOk result (λ n. Appends (Some self.old.taken) (Some self.new.taken) (take n piece.now)) }
        ensures failed { OnErr result (Keeps (Some self.old.taken) (Some self.new.taken)) }
        ensures cause { OnErr result (Rose self.old.faults self.new.faults) }
        ensures count { self.old.faults ≤ self.new.faults }
        ensures fails { IsTrue fails → IsErr result }
        ensures full { self.old.room ≤ length self.old.taken → IsErr result }
        ensures filled { IfOk result (λ n. n ≡ min (self.old.room - length self.old.taken) (length piece.now)) }
        ensures writes { self.new.writes ≡ min (self.old.writes + 1) (2 ^ 64 - 1) }
        ensures lists { (self.new.failing ≡ self.old.failing) × (self.new.room ≡ self.old.room) }
    {
        self.writes = self.writes.saturating_add(1);
        let most = (self.room as usize)
            .saturating_sub(self.taken.len())
            .min(piece.len());
        if most == 0 || fails {
            return self.fail();
        }
        match self.taken.items.extend_from_slice(&piece[..most]) {
            Ok(()) => Ok(most),
            Err(_) => self.fail(),
        }
    }
}

impl Sink for MemSink {
    ghost taken = { λ s. Some s.taken };

    ghost aside = { λ _. None };

    ghost faults = { λ s. s.faults };

    /// Fails at each write that is listed and at each that finds no room. One that fails otherwise found no
    /// memory. A write that succeeds takes all that there is room for.
    fn write(&mut self, piece: &[u8]) -> Result<usize, Failed>
        requires { 0 < length piece.now }
        ensures some { IfOk result (λ n. 0 < n) }
        ensures bound { IfOk result (λ n. n ≤ length piece.now) }
        ensures appended { IfOk result (λ n. Appends (Some self.old.taken) (Some self.new.taken) (take n piece.now)) }
        ensures failed { OnErr result (Keeps (Some self.old.taken) (Some self.new.taken)) }
        ensures cause { OnErr result (Rose self.old.faults self.new.faults) }
        ensures count { self.old.faults ≤ self.new.faults }
        ensures listed { Contains self.old.failing self.new.writes → IsErr result }
        ensures full { self.old.room ≤ length self.old.taken → IsErr result }
        ensures filled { IfOk result (λ n. n ≡ min (self.old.room - length self.old.taken) (length piece.now)) }
        ensures writes { self.new.writes ≡ min (self.old.writes + 1) (2 ^ 64 - 1) }
        ensures lists { (self.new.failing ≡ self.old.failing) × (self.new.room ≡ self.old.room) }
    {
        let fails = self
            .failing
            .as_slice()
            .contains(&self.writes.saturating_add(1));
        self.turn(piece, fails)
    }
}
