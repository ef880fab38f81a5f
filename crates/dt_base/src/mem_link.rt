ghost use Rattle.std.specs.Prelude.{◌≡◌, ℕ, ◌+◌, ◌-◌, ◌*◌, ◌^◌, ◌<◌, ◌≤◌, ◌↔◌, List, Option, Some, None, [], length, take, drop, min, IfOk, OnErr, IsErr, IsTrue, Contains, refl};
ghost use Rattle.std.specs.Io.KnownBytes.{Appends, Consumes, IsAtEnd, Keeps};
ghost use Rattle.dt_base.specs.Faults.{Rose};
ghost use Rattle.dt_base.specs.Pieces.{piece_bound};

use crate::{Failed, Link, List, MemSink, MemSource, OutOfMemory, Sink, Source};
use std::alloc::Global;

/// A link in memory: a source and a sink in memory of which the calls are counted together, and fail where
/// the link was told to.
#[derive(Debug, Drop)]
pub struct MemLink {
    source: MemSource,
    sink: MemSink,
    failing: List<u64>,
    calls: u64,
    ghost unlisted: { (source.failing ≡ []) × (sink.failing ≡ []) },
}

impl MemLink {
    /// A link that has these bytes left and has taken nothing. `room` bounds what it takes in all, as that of
    /// a sink in memory does, and `pieces` the lengths of its reads, as those of a source in memory do.
    /// `failing` lists the calls that are to fail, reads and writes counted together from 1.
    pub fn new(
        alloc: Global,
        left: List<u8>,
        room: u64,
        failing: List<u64>,
        pieces: List<u64>,
    ) -> Result<MemLink, OutOfMemory>
        ensures left { IfOk result (λ link. ⟦<MemLink as Source>⟧.left link ≡ Some left) }
        ensures taken { IfOk result (λ link. ⟦<MemLink as Sink>⟧.taken link ≡ Some []) }
        ensures faults { IfOk result (λ link. ⟦<MemLink as Source>⟧.faults link ≡ 0) }
        ensures room { IfOk result (λ link. link.sink.room ≡ room) }
        ensures failing { IfOk result (λ link. link.failing ≡ failing) }
        ensures pieces { IfOk result (λ link. link.source.pieces ≡ pieces) }
        ensures calls { IfOk result (λ link. (link.calls ≡ 0) × (link.source.reads ≡ 0)) }
    {
        Ok(MemLink {
            source: MemSource::new(left, List::new(alloc), pieces),
            sink: MemSink::new(alloc, room, List::new(alloc)),
            failing,
            calls: 0,
        })
    }

    /// The bytes that it has taken.
    pub fn taken(&self) -> &[u8]
        ensures { ⟦<MemLink as Sink>⟧.taken self.now ≡ Some result.now }
    {
        self.sink.taken()
    }

    /// Counts a call, and answers whether it is to fail.
    fn begin_call(&mut self) -> bool
        ensures listed { IsTrue result ↔ Contains self.old.failing self.new.calls }
        ensures counted { self.new ≡ record self.old { calls = min (self.old.calls + 1) (2 ^ 64 - 1) } }
    {
        self.calls = self.calls.saturating_add(1);
        self.failing.as_slice().contains(&self.calls)
    }
}

impl Source for MemLink {
    ghost left = { λ l. Some (drop l.source.taken l.source.bytes) };

    ghost aside = { λ l. Some l.sink.taken };

    ghost faults = { λ l. l.source.faults + l.sink.faults };

    /// Fails exactly at the calls that are listed.
    fn read(&mut self, into: &mut [u8]) -> Result<usize, Failed>
        requires { 0 < length into.old }
        ensures bound { IfOk result (λ n. n ≤ length into.old) }
        ensures moved { IfOk result (λ n. Consumes (Some (drop self.old.source.taken self.old.source.bytes)) (Some (drop self.new.source.taken self.new.source.bytes)) (take n into.new)) }
        ensures end { IfOk result (λ n. n ≡ 0 → IsAtEnd (Some (drop self.new.source.taken self.new.source.bytes))) }
        ensures failed { OnErr result (Keeps (Some (drop self.old.source.taken self.old.source.bytes)) (Some (drop self.new.source.taken self.new.source.bytes))) }
        ensures cause { OnErr result (Rose (self.old.source.faults + self.old.sink.faults) (self.new.source.faults + self.new.sink.faults)) }
        ensures count { self.old.source.faults + self.old.sink.faults ≤ self.new.source.faults + self.new.sink.faults }
        ensures beside { Some self.new.sink.taken ≡ Some self.old.sink.taken }
        ensures listed { IsErr result ↔ Contains self.old.failing self.new.calls }
        ensures calls { self.new.calls ≡ min (self.old.calls + 1) (2 ^ 64 - 1) }
        ensures reads { self.new.source.reads ≡ min (self.old.source.reads + 1) (2 ^ 64 - 1) }
        ensures amount { IfOk result (λ n. n ≡ min (min (piece_bound self.old.source.pieces self.old.source.reads) (length into.old)) (length self.old.source.bytes - self.old.source.taken)) }
        ensures lists { (self.new.failing ≡ self.old.failing) × (self.new.source.pieces ≡ self.old.source.pieces) × (self.new.sink.room ≡ self.old.sink.room) }
    {
        let fails = self.begin_call();
        self.source.turn(into, fails)
    }
}

impl Sink for MemLink {
    ghost taken = { λ l. Some l.sink.taken };

    ghost aside = { λ l. Some (drop l.source.taken l.source.bytes) };

    ghost faults = { λ l. l.source.faults + l.sink.faults };

    /// Fails at each call that is listed and at each write that finds no room. One that fails otherwise found
    /// no memory. A write that succeeds takes all that there is room for.
    fn write(&mut self, piece: &[u8]) -> Result<usize, Failed>
        requires { 0 < length piece.now }
        ensures some { IfOk result (λ n. 0 < n) }
        ensures bound { IfOk result (λ n. n ≤ length piece.now) }
        ensures appended { IfOk result (λ n. Appends (Some self.old.sink.taken) (Some self.new.sink.taken) (take n piece.now)) }
        ensures failed { OnErr result (Keeps (Some self.old.sink.taken) (Some self.new.sink.taken)) }
        ensures cause { OnErr result (Rose (self.old.source.faults + self.old.sink.faults) (self.new.source.faults + self.new.sink.faults)) }
        ensures count { self.old.source.faults + self.old.sink.faults ≤ self.new.source.faults + self.new.sink.faults }
        ensures beside { Some (drop self.new.source.taken self.new.source.bytes) ≡ Some (drop self.old.source.taken self.old.source.bytes) }
        ensures listed { Contains self.old.failing self.new.calls → IsErr result }
        ensures calls { self.new.calls ≡ min (self.old.calls + 1) (2 ^ 64 - 1) }
        ensures full { self.old.sink.room ≤ length self.old.sink.taken → IsErr result }
        ensures filled { IfOk result (λ n. n ≡ min (self.old.sink.room - length self.old.sink.taken) (length piece.now)) }
        ensures lists { (self.new.failing ≡ self.old.failing) × (self.new.source ≡ self.old.source) × (self.new.sink.room ≡ self.old.sink.room) }
    {
        let fails = self.begin_call();
        self.sink.turn(piece, fails)
    }
}

impl Link for MemLink {
    ghost one_count = { λ _. refl };

    ghost taken_aside = { λ _. refl };

    ghost left_aside = { λ _. refl };
}
