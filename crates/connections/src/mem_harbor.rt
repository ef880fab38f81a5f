ghost use Rattle.std.specs.Prelude.{◌≡◌, ℕ, ◌+◌, ◌-◌, ◌≤◌, ◌↔◌, List, [], ◌∷◌, length, map, Option, Some, Err, IfSome, IfOk, IsTrue, All};
ghost use Rattle.dt_base.specs.Faults.{Rose};
ghost use Rattle.connections.specs.Records.{LinkRecord};
ghost use Rattle.connections.specs.Turns.{turn_record, IsFresh, asked_doors, doors_ahead};
ghost use Rattle.connections.specs.declared.harbor.HarborEnd.TheVariants.{Failed};

use crate::{Door, Harbor, HarborEnd, MemDoor, MemLink};
use dt_base::List;
use std::alloc::Global;

/// A harbor in memory, which opens doors in memory once, or fails.
#[derive(Drop)]
pub struct MemHarbor {
    alloc: Global,
    // The turns of the doors, those of the last door first.
    doors: Vec<List<Option<MemLink>>>,
    fails: bool,
    faults: u64,
    ghost fresh: { ∥ All (All IsFresh) doors.items ∥₁ },
}

impl MemHarbor {
    /// A harbor with the turns of these doors, which fails where it is told to. It takes no memory.
    ///
    /// Doors and turns that are asked for beyond the lists are turns that fail, and those that are not asked for are not
    /// given.
    pub fn new(alloc: Global, doors: List<List<Option<MemLink>>>, fails: bool) -> MemHarbor
        requires fresh { All (All IsFresh) doors }
        ensures ahead { (workers each : ℕ) → ⟦<MemHarbor as Harbor>⟧.ahead result workers each
            ≡ Some (asked_doors workers each (map (map turn_record) doors)) }
        ensures faults { ⟦<MemHarbor as Harbor>⟧.faults result ≡ 0 }
        ensures fails { result.fails ≡ fails }
    {
        let mut doors = doors.items;
        doors.reverse();
        MemHarbor {
            alloc,
            doors,
            fails,
            faults: 0,
        }
    }

    /// Opens the next door, with so many turns.
    fn next_door(&mut self, each: u32) -> MemDoor
        ensures ahead { (n : ℕ) → map Some (asked_doors (n + 1) each (doors_ahead self.old.doors.items))
            ≡ ⟦<MemDoor as Door>⟧.ahead result ∷ map Some (asked_doors n each (doors_ahead self.new.doors.items)) }
        ensures gone { ⟦<MemDoor as Door>⟧.gone result ≡ Some [] }
        ensures left { ⟦<MemDoor as Door>⟧.left result ≡ each }
        ensures lost { ⟦<MemDoor as Door>⟧.lost result ≡ 0 }
        ensures faults { ⟦<MemDoor as Door>⟧.faults result ≡ 0 }
        ensures count { self.new.faults ≡ self.old.faults }
    {
        match self.doors.pop() {
            Some(turns) => MemDoor::with_turns(turns, each),
            None => MemDoor::with_turns(List::new(self.alloc), each),
        }
    }
}

impl Harbor for MemHarbor {
    type Door = MemDoor;

    ghost faults = { λ h. h.faults };

    ghost ahead = { λ h workers each. Some (asked_doors workers each (doors_ahead h.doors.items)) };

    /// Fails exactly where the harbor was told to. What it gave is not given again.
    fn open(&mut self, _port: u16, workers: u32, each: u32) -> Result<List<MemDoor>, HarborEnd>
        ensures number { IfOk result (λ doors. length doors ≡ workers) }
        ensures left { IfOk result (All (λ door. ⟦<MemDoor as Door>⟧.left door ≡ each)) }
        ensures counts { IfOk result (All (λ door. ⟦<MemDoor as Door>⟧.faults door ≡ 0)) }
        ensures lost { IfOk result (All (λ door. ⟦<MemDoor as Door>⟧.lost door ≡ 0)) }
        ensures gone { IfOk result (All (λ door. IfSome (⟦<MemDoor as Door>⟧.gone door) (λ links. links ≡ []))) }
        ensures ahead { IfOk result (λ doors. map ⟦<MemDoor as Door>⟧.ahead doors
            ≡ map Some (asked_doors workers each (doors_ahead self.old.doors.items))) }
        ensures cause { result ≡ Err Failed → Rose self.old.faults self.new.faults }
        ensures count { self.old.faults ≤ self.new.faults }
        ensures fails { (result ≡ Err Failed) ↔ IsTrue self.old.fails }
    {
        if self.fails {
            self.faults = self.faults.saturating_add(1);
            return Err(HarborEnd::Failed);
        }
        let mut doors = Vec::with_capacity(self.alloc, workers as usize)?;
        'opening: for _ in 0..workers {
            let Ok(()) = doors.push(self.next_door(each)) else {
                return Err(HarborEnd::OutOfMemory);
            };
        }
        Ok(List::from_vec(doors))
    }
}
