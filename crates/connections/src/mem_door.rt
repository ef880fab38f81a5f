ghost use Rattle.std.specs.Prelude.{◌≡◌, ◌≢◌, ℕ, ◌+◌, ◌-◌, ◌^◌, ◌<◌, ◌≤◌, ◌↔◌, List, [], ◌++◌, length, map, reverse, replicate, Option, Some, None, Ok, IfSome, IfOk, OnErr, IsErr, All};
ghost use Rattle.std.proofs.Common.{rules, arith, length-append};
ghost use Rattle.std.proofs.lemmas.List.{length-map, length-replicate, length-reverse};
ghost use Rattle.dt_base.specs.Faults.{Rose};
ghost use Rattle.connections.specs.Turns.{turn_record, IsFresh, filled};

use crate::{Door, Gone, MemLink};
use dt_base::{Failed, List};
use std::mem;

/// A door in memory, which gives the links of its turns and keeps those that are handed back.
#[derive(Drop)]
pub struct MemDoor {
    // The turns, the last one first.
    turns: Vec<Option<MemLink>>,
    // How many turns come behind them, which fail.
    failing: u32,
    faults: u64,
    lost: u64,
    gone: Gone,
    ghost few: { length turns.items + failing < 2 ^ 32 },
    ghost fresh: { ∥ All IsFresh turns.items ∥₁ },
}

impl MemDoor {
    /// A door with these turns, of which those without a link fail. It takes no memory.
    pub fn new(turns: List<Option<MemLink>>) -> MemDoor
        requires few { length turns < 2 ^ 32 }
        requires fresh { All IsFresh turns }
        ensures ahead { ⟦<MemDoor as Door>⟧.ahead result ≡ Some (map turn_record turns) }
        ensures gone { ⟦<MemDoor as Door>⟧.gone result ≡ Some [] }
        ensures left { ⟦<MemDoor as Door>⟧.left result ≡ length turns }
        ensures lost { ⟦<MemDoor as Door>⟧.lost result ≡ 0 }
        ensures faults { ⟦<MemDoor as Door>⟧.faults result ≡ 0 }
    {
        let mut turns = turns.items;
        turns.reverse();
        MemDoor {
            turns,
            failing: 0,
            faults: 0,
            lost: 0,
            gone: Gone::new(),
        }
    }

    /// A door with so many turns, of which these are the first and the others fail.
    pub(crate) fn with_turns(turns: List<Option<MemLink>>, each: u32) -> MemDoor
        requires fresh { ∥ All IsFresh turns ∥₁ }
        ensures ahead { ⟦<MemDoor as Door>⟧.ahead result
            ≡ Some (filled None each (map turn_record turns)) }
        ensures gone { ⟦<MemDoor as Door>⟧.gone result ≡ Some [] }
        ensures left { ⟦<MemDoor as Door>⟧.left result ≡ each }
        ensures lost { ⟦<MemDoor as Door>⟧.lost result ≡ 0 }
        ensures faults { ⟦<MemDoor as Door>⟧.faults result ≡ 0 }
    {
        let mut turns = turns.items;
        turns.truncate(each as usize);
        turns.reverse();
        let failing = each - turns.len() as u32;
        MemDoor {
            turns,
            failing,
            faults: 0,
            lost: 0,
            gone: Gone::new(),
        }
    }

    fn fail(&mut self) -> Result<Option<MemLink>, Failed>
        ensures failed { IsErr result }
        ensures cause { Rose self.old.faults self.new.faults }
        ensures count { self.old.faults ≤ self.new.faults }
        ensures turns { self.new.turns ≡ self.old.turns }
        ensures failing { self.new.failing ≡ self.old.failing }
        ensures lost { self.new.lost ≡ self.old.lost }
        ensures gone { self.new.gone ≡ self.old.gone }
    {
        self.faults = self.faults.saturating_add(1);
        Err(Failed)
    }

    /// The links that were handed back.
    pub fn gone(&self) -> &Gone
        ensures { ⟦<MemDoor as Door>⟧.gone self.now ≡ Some result.now }
    {
        &self.gone
    }
}

impl Door for MemDoor {
    type Link = MemLink;

    ghost faults = { λ d. d.faults };

    ghost left = { λ d. length d.turns.items + d.failing };

    ghost lost = { λ d. d.lost };

    ghost ahead = { λ d. Some (map turn_record (reverse d.turns.items) ++ replicate d.failing None) };

    ghost gone = { λ d. Some d.gone };

    fn next(&mut self) -> Result<Option<MemLink>, Failed> {
        if let Some(turn) = self.turns.pop() {
            return match turn {
                Some(link) => Ok(Some(link)),
                None => self.fail(),
            };
        }
        if self.failing == 0 {
            return Ok(None);
        }
        self.failing -= 1;
        self.fail()
    }

    fn done(&mut self, link: MemLink) {
        if link.faults > 0 {
            self.lost = self.lost.saturating_add(1);
        }
        let before = mem::replace(&mut self.gone, Gone::new());
        self.gone = Gone::with(before, link.link, link.faults, link.room);
    }

    ghost within = { λ d. d.few };

    ghost one_each = { λ d. Prim.grind (arith, length-append, length-map, length-reverse, length-replicate) };
}
