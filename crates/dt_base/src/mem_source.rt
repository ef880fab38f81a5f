ghost use Rattle.std.specs.Prelude.{◌≡◌, ℕ, ◌+◌, ◌-◌, ◌*◌, ◌^◌, ◌<◌, ◌≤◌, ◌↔◌, List, Option, Some, None, [], length, take, drop, min, IfOk, OnErr, IsErr, IsTrue, Contains};
ghost use Rattle.std.specs.Io.KnownBytes.{Consumes, IsAtEnd, Keeps};
ghost use Rattle.dt_base.specs.Faults.{Rose};
ghost use Rattle.dt_base.specs.Pieces.{piece_bound};

use crate::{Failed, List, Source};

/// A source in memory, which tells its bytes and fails where it was told to.
#[derive(Debug, Drop)]
pub struct MemSource {
    bytes: List<u8>,
    failing: List<u64>,
    pieces: List<u64>,
    taken: usize,
    reads: u64,
    faults: u64,
    ghost within: { taken ≤ length bytes },
}

impl MemSource {
    /// A source that has these bytes left. `failing` lists the reads that are to fail, counted from 1.
    /// `pieces` bounds the lengths of the reads in their order, where 0 counts as 1; reads past its end are
    /// bounded by their room alone. It takes no memory.
    pub fn new(left: List<u8>, failing: List<u64>, pieces: List<u64>) -> MemSource
        ensures left { ⟦<MemSource as Source>⟧.left result ≡ Some left }
        ensures aside { ⟦<MemSource as Source>⟧.aside result ≡ None }
        ensures faults { ⟦<MemSource as Source>⟧.faults result ≡ 0 }
        ensures failing { result.failing ≡ failing }
        ensures pieces { result.pieces ≡ pieces }
        ensures reads { result.reads ≡ 0 }
    {
        MemSource {
            bytes: left,
            failing,
            pieces,
            taken: 0,
            reads: 0,
            faults: 0,
        }
    }

    /// How many bytes the next read may move at most: one at least.
    fn piece(&self) -> usize
        ensures { result ≡ piece_bound self.now.pieces self.now.reads }
    {
        let piece = self.pieces.get(self.reads as usize).copied();
        (piece.unwrap_or(u64::MAX) as usize).max(1)
    }

    /// The next read, which fails exactly where it is to.
    pub(crate) fn turn(&mut self, into: &mut [u8], fails: bool) -> Result<usize, Failed>
        ensures moved { IfOk result (λ n. Consumes (Some (drop self.old.taken self.old.bytes)) (Some (drop self.new.taken self.new.bytes)) (take n into.new)) }
        ensures failed { OnErr result (Keeps (Some (drop self.old.taken self.old.bytes)) (Some (drop self.new.taken self.new.bytes))) }
        ensures fails { IsErr result ↔ IsTrue fails }
        ensures cause { OnErr result (Rose self.old.faults self.new.faults) }
        ensures count { self.old.faults ≤ self.new.faults }
        ensures reads { self.new.reads ≡ min (self.old.reads + 1) (2 ^ 64 - 1) }
        ensures amount { IfOk result (λ n. n ≡ min (min (piece_bound self.old.pieces self.old.reads) (length into.old)) (length self.old.bytes - self.old.taken)) }
        ensures lists { (self.new.failing ≡ self.old.failing) × (self.new.pieces ≡ self.old.pieces) }
    {
        let most = self
            .piece()
            .min(into.len())
            .min(self.bytes.len() - self.taken);
        self.reads = self.reads.saturating_add(1);
        if fails {
            self.faults = self.faults.saturating_add(1);
            return Err(Failed);
        }
        into[..most].copy_from_slice(&self.bytes.as_slice()[self.taken..self.taken + most]);
        self.taken += most;
        Ok(most)
    }
}

impl Source for MemSource {
    ghost left = { λ s. Some (drop s.taken s.bytes) };

    ghost aside = { λ _. None };

    ghost faults = { λ s. s.faults };

    /// Fails exactly at the reads that are listed.
    fn read(&mut self, into: &mut [u8]) -> Result<usize, Failed>
        requires { 0 < length into.old }
        ensures bound { IfOk result (λ n. n ≤ length into.old) }
        ensures moved { IfOk result (λ n. Consumes (Some (drop self.old.taken self.old.bytes)) (Some (drop self.new.taken self.new.bytes)) (take n into.new)) }
        ensures end { IfOk result (λ n. n ≡ 0 → IsAtEnd (Some (drop self.new.taken self.new.bytes))) }
        ensures failed { OnErr result (Keeps (Some (drop self.old.taken self.old.bytes)) (Some (drop self.new.taken self.new.bytes))) }
        ensures cause { OnErr result (Rose self.old.faults self.new.faults) }
        ensures count { self.old.faults ≤ self.new.faults }
        ensures listed { IsErr result ↔ Contains self.old.failing self.new.reads }
        ensures reads { self.new.reads ≡ min (self.old.reads + 1) (2 ^ 64 - 1) }
        ensures amount { IfOk result (λ n. n ≡ min (min (piece_bound self.old.pieces self.old.reads) (length into.old)) (length self.old.bytes - self.old.taken)) }
        ensures lists { (self.new.failing ≡ self.old.failing) × (self.new.pieces ≡ self.old.pieces) }
    {
        let fails = self
            .failing
            .as_slice()
            .contains(&self.reads.saturating_add(1));
        self.turn(into, fails)
    }
}
