ghost use Rattle.std.specs.Prelude.{◌≡◌, ℕ, ◌+◌, ◌-◌, ◌^◌, ◌<◌, ◌≤◌, ◌↔◌, Some, [], length, take, min, IfOk, OnErr, IsErr, Contains, refl};
ghost use Rattle.std.specs.Io.KnownBytes.{Appends, Consumes, IsAtEnd, Keeps};
ghost use Rattle.dt_base.specs.Faults.{Rose};
ghost use Rattle.dt_base.specs.Pieces.{piece_bound};
ghost use Rattle.connections.specs.MemRecords.{left_in, taken_in};

use crate::Gone;
use dt_base::{Failed, Link, List, OutOfMemory, Sink, Source};
use std::alloc::Global;

/// A link in memory, with the room that it takes among those that were handed back.
#[derive(Drop)]
pub struct MemLink {
    pub(crate) link: dt_base::MemLink,
    pub(crate) faults: u64,
    pub(crate) room: Box<Gone>,
}

impl MemLink {
    /// A link that has these bytes left and has taken nothing. `room` bounds what it takes in all, and `pieces` the
    /// lengths of its reads, where 0 counts as 1 and reads past its end are bounded by their room alone. `failing` lists
    /// the calls that are to fail, reads and writes counted together from 1.
    pub fn new(
        alloc: Global,
        left: List<u8>,
        room: u64,
        failing: List<u64>,
        pieces: List<u64>,
    ) -> Result<MemLink, OutOfMemory>
        ensures left { IfOk result (λ link. ⟦<MemLink as Source>⟧.left link ≡ Some left) }
        ensures taken { IfOk result (λ link. ⟦<MemLink as Sink>⟧.taken link ≡ Some []) }
        ensures faults { IfOk result (λ link. ⟦<MemLink as Source>⟧.faults link ≡ 0) }
        ensures room { IfOk result (λ link. link.link.sink.room ≡ room) }
        ensures failing { IfOk result (λ link. link.link.failing ≡ failing) }
        ensures pieces { IfOk result (λ link. link.link.source.pieces ≡ pieces) }
        ensures calls { IfOk result (λ link. (link.link.calls ≡ 0) × (link.link.source.reads ≡ 0)) }
    {
        let link = dt_base::MemLink::new(alloc, left, room, failing, pieces)?;
        let room = Box::new(alloc, Gone::new())?;
        Ok(MemLink {
            link,
            faults: 0,
            room,
        })
    }

    /// The bytes that it has taken.
    pub fn taken(&self) -> &[u8]
        ensures { ⟦<MemLink as Sink>⟧.taken self.now ≡ Some result.now }
    {
        self.link.taken()
    }

    /// Counts the fault of a call that failed.
    fn counted(&mut self, answer: Result<usize, Failed>) -> Result<usize, Failed>
        ensures same { result ≡ answer }
        ensures cause { OnErr result (Rose self.old.faults self.new.faults) }
        ensures count { self.old.faults ≤ self.new.faults }
        ensures link { self.new.link ≡ self.old.link }
    {
        if answer.is_err() {
            self.faults = self.faults.saturating_add(1);
        }
        answer
    }
}

impl Source for MemLink {
    ghost left = { λ l. left_in l.link };

    ghost aside = { λ l. taken_in l.link };

    ghost faults = { λ l. l.faults };

    /// Fails exactly at the calls that are listed.
    fn read(&mut self, into: &mut [u8]) -> Result<usize, Failed>
        requires { 0 < length into.old }
        ensures bound { IfOk result (λ n. n ≤ length into.old) }
        ensures moved { IfOk result (λ n. Consumes (left_in self.old.link) (left_in self.new.link) (take n into.new)) }
        ensures end { IfOk result (λ n. n ≡ 0 → IsAtEnd (left_in self.new.link)) }
        ensures failed { OnErr result (Keeps (left_in self.old.link) (left_in self.new.link)) }
        ensures cause { OnErr result (Rose (self.old.faults) (self.new.faults)) }
        ensures count { self.old.faults ≤ self.new.faults }
        ensures beside { taken_in self.new.link ≡ taken_in self.old.link }
        ensures listed { IsErr result ↔ Contains self.old.link.failing self.new.link.calls }
        ensures calls { self.new.link.calls ≡ min (self.old.link.calls + 1) (2 ^ 64 - 1) }
        ensures reads { self.new.link.source.reads
            ≡ min (self.old.link.source.reads + 1) (2 ^ 64 - 1) }
        ensures amount { let source = self.old.link.source in IfOk result (λ n.
            n ≡ min (min (piece_bound source.pieces source.reads) (length into.old))
            (length source.bytes - source.taken)) }
        ensures failing { self.new.link.failing ≡ self.old.link.failing }
        ensures pieces { self.new.link.source.pieces ≡ self.old.link.source.pieces }
        ensures room { self.new.link.sink.room ≡ self.old.link.sink.room }
    {
        let count = self.link.read(into);
        self.counted(count)
    }
}

impl Sink for MemLink {
    ghost taken = { λ l. taken_in l.link };

    ghost aside = { λ l. left_in l.link };

    ghost faults = { λ l. l.faults };

    /// Fails at each call that is listed and at each write that finds no room. One that fails otherwise found
    /// no memory. A write that succeeds takes all that there is room for.
    fn write(&mut self, piece: &[u8]) -> Result<usize, Failed>
        requires { 0 < length piece.now }
        ensures some { IfOk result (λ n. 0 < n) }
        ensures bound { IfOk result (λ n. n ≤ length piece.now) }
        ensures appended { IfOk result (λ n. Appends (taken_in self.old.link) (taken_in self.new.link) (take n piece.now)) }
        ensures failed { OnErr result (Keeps (taken_in self.old.link) (taken_in self.new.link)) }
        ensures cause { OnErr result (Rose (self.old.faults) (self.new.faults)) }
        ensures count { self.old.faults ≤ self.new.faults }
        ensures beside { left_in self.new.link ≡ left_in self.old.link }
        ensures listed { Contains self.old.link.failing self.new.link.calls → IsErr result }
        ensures calls { self.new.link.calls ≡ min (self.old.link.calls + 1) (2 ^ 64 - 1) }
        ensures full { self.old.link.sink.room ≤ length self.old.link.sink.taken → IsErr result }
        ensures filled { let sink = self.old.link.sink in
            IfOk result (λ n. n ≡ min (sink.room - length sink.taken) (length piece.now)) }
        ensures failing { self.new.link.failing ≡ self.old.link.failing }
        ensures source { self.new.link.source ≡ self.old.link.source }
        ensures room { self.new.link.sink.room ≡ self.old.link.sink.room }
    {
        let count = self.link.write(piece);
        self.counted(count)
    }
}

impl Link for MemLink {
    ghost one_count = { λ _. refl };

    ghost taken_aside = { λ _. refl };

    ghost left_aside = { λ _. refl };
}
