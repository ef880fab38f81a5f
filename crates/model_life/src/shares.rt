//! What each interface of a set takes with all that it resolves to, kept as interfaces come and go.

ghost use Rattle.std.specs.Prelude.{◌≡◌, ◌+◌, ◌<◌, ◌≤◌, [], false, cond, IsSome, IfOk, OnOk, OnErr};
ghost use Rattle.std.specs.List.{AllByRecursion, sum_by};
ghost use Rattle.std.specs.List.Sorted.{IsStrictlySortedBy};
ghost use Rattle.std.specs.Map.{remove_entry, keys_of};
ghost use Rattle.std.specs.BTreeMap.{is_at};
ghost use Rattle.std.specs.Ordering.{is_eq};
ghost use Rattle.dt_base.specs.names.Grammar.{Identifier, id_cmp};
ghost use Rattle.dtdl_terms.specs.Sets.{InOrder, interface_at};
ghost use Rattle.extend_resolve.specs.Breaches.{BreaksNoRule};
ghost use Rattle.model_life.specs.sets.Changing.{is_one_of};
ghost use Rattle.model_life.specs.Machinery.Keeping.{AreRecorded, AreWritten, capped, share_at, written_at};

use crate::models::MOST_RESOLVED_BYTES;
use crate::records::Records;
use crate::sums::share;
use dt_base::OutOfMemory;
use dt_base::names::Dtmi;
use dtdl_terms::ModelSet;
use std::alloc::Global;
use std::collections::BTreeMap;
use std::marker::Model;

/// Numbers of bytes under identifiers, which contracts see as the list of the pairs in the order of the printed bytes of the
/// identifiers.
#[derive(Drop)]
pub struct Shares {
    alloc: Global,
    entries: BTreeMap<Dtmi, u64>,
}

impl Model for Shares {
    ghost use Rattle.std.specs.Prelude.{List, ℕ};
    ghost use Rattle.std.specs.Coded.{coded_list, coded×, coded_ℕ};
    ghost use Rattle.std.specs.BTreeMap.{IsOrdered};
    ghost use Rattle.dt_base.specs.names.Grammar.{Identifier, identifier_code, id_cmp};

    ghost Value = { List (Identifier × ℕ) };

    ghost coded = { coded_list (coded× identifier_code coded_ℕ) };

    ghost view = { λ s. s.entries.entries };

    ghost invariant = { λ s. IsOrdered id_cmp s.entries };
}

impl Shares {
    /// No numbers. Takes no memory.
    pub fn new(alloc: Global) -> Shares
        ensures { result ≡ [] }
    {
        Shares {
            alloc,
            entries: BTreeMap::new(alloc),
        }
    }

    /// The number of an identifier, 0 where there is none. Takes no memory.
    fn get(&self, id: &Dtmi) -> u64
        ensures { result ≡ written_at id.now self.now }
    {
        match self.entries.get(id) {
            Some(bytes) => *bytes,
            None => 0,
        }
    }

    /// The numbers of several identifiers together. Takes no memory.
    pub fn sum(&self, ids: &[Dtmi]) -> u64
        ensures { result ≡ capped (sum_by (λ id. written_at id self.now) ids.now) }
    {
        let mut sum: u64 = 0;
        'ids: for id in ids {
            sum = sum.saturating_add(self.get(id));
        }
        sum
    }

    /// Takes out the number of an identifier. Takes no memory.
    pub fn remove(&mut self, id: &Dtmi)
        ensures entries { self.new ≡ remove_entry (is_at (id_cmp id.now)) self.old }
        ensures ordered { IsStrictlySortedBy id_cmp (keys_of self.old) }
    {
        let _bytes = self.entries.remove(id);
    }

    /// Writes what one interface takes, in place of a number that is there.
    fn write(&mut self, set: &ModelSet, records: &Records, id: &Dtmi) -> Result<u64, OutOfMemory>
        requires sound { BreaksNoRule set.now }
        requires ordered { InOrder set.now }
        requires records { AreRecorded set.now records.now }
        requires there { IsSome (interface_at id.now set.now) }
        ensures bytes { IfOk result (λ bytes. bytes ≡ capped (share_at set.now id.now)) }
        ensures ok { OnOk result ((q : Identifier) → written_at q self.new ≡ cond (is_eq (id_cmp q id.now)) (capped (share_at set.now id.now)) (written_at q self.old)) }
        ensures err { OnErr result (self.new ≡ self.old) }
    {
        let interface = set.get(id).unwrap();
        let bytes = share(self.alloc, set, records, interface)?;
        let key = id.copy(self.alloc)?;
        self.entries.insert(key, bytes)?;
        Ok(bytes)
    }

    /// Writes what the interfaces take that came into a set that breaks no rule, and answers it together with `start`, or,
    /// past the most that models may take, with the first of them alone. After `Err`, and past the most, some may be left out.
    pub fn add(
        &mut self,
        set: &ModelSet,
        records: &Records,
        ids: &[Dtmi],
        start: u64,
    ) -> Result<u64, OutOfMemory>
        requires sound { BreaksNoRule set.now }
        requires ordered { InOrder set.now }
        requires records { AreRecorded set.now records.now }
        requires there { AllByRecursion (λ id. IsSome (interface_at id set.now)) ids.now }
        requires before { (q : Identifier) → is_one_of ids.now q ≡ false → written_at q self.old ≡ share_at set.now q }
        requires low { start ≤ 268435456 }
        ensures all { IfOk result (λ sum. sum ≤ 268435456 → AreWritten set.now self.new) }
        ensures exact { IfOk result (λ sum. sum ≤ 268435456 → sum ≡ start + sum_by (share_at set.now) ids.now) }
        ensures past { IfOk result (λ sum. 268435456 < sum → 268435456 < start + sum_by (share_at set.now) ids.now) }
        ensures others { (q : Identifier) → is_one_of ids.now q ≡ false → written_at q self.new ≡ written_at q self.old }
    {
        let mut sum = start;
        'ids: for id in ids {
            let bytes = self.write(set, records, id)?;
            sum = sum.saturating_add(bytes);
            if sum > MOST_RESOLVED_BYTES {
                return Ok(sum);
            }
        }
        Ok(sum)
    }
}
