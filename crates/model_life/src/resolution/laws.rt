//! Laws of what is inherited.

ghost use Rattle.std.specs.Prelude.{◌≡◌, ◌↔◌, List, Some};
ghost use Rattle.std.specs.List.{AllByRecursion};
ghost use Rattle.std.specs.List.Sorted.{IsStrictlySortedBy};
ghost use Rattle.std.specs.Map.{keys_of, remove_entry};
ghost use Rattle.std.specs.BTreeMap.{is_at};
ghost use Rattle.dt_base.specs.names.Grammar.{Identifier, id_cmp};
ghost use Rattle.dtdl_terms.specs.Distinct.{HasDeclaration};
ghost use Rattle.dtdl_terms.specs.Sets.{InOrder, interface_at, without_interface};
ghost use Rattle.dtdl_terms.specs.declared.interface.Interface.{Interface};
ghost use Rattle.dtdl_terms.specs.declared.resolved.Resolved.{Resolved};
ghost use Rattle.extend_resolve.specs.Breaches.{BreaksNoRule};
ghost use Rattle.model_life.specs.resolution.Resolving.{IsResolved, HoldsRight, IsWithin, LacksNone, IsFree};

/// An interface has at most one list of what it has with all that it inherits.
pub fn one_resolved()
    ensures { (set : List Interface) (i : Interface) (r s : Resolved) → IsResolved set i r → IsResolved set i s → r ≡ s }
{}

/// An interface has the same in a set that lacks nothing that it names and in a larger one.
pub fn resolved_in_both()
    ensures { (small large : List Interface) → IsWithin small large → LacksNone small → (i : Interface) (r : Resolved) → interface_at i.id small ≡ Some i → IsResolved small i r ↔ IsResolved large i r }
{}

/// Each interface of a set that breaks no rule has such a list.
pub fn some_resolved()
    ensures { (set : List Interface) → BreaksNoRule set → AllByRecursion HasDeclaration set → InOrder set → (i : Interface) → interface_at i.id set ≡ Some i → (r : Resolved) × IsResolved set i r }
{}

/// Where interfaces come into a set that lacks nothing that it names, what is held of the others stays right.
pub fn held_stay_right()
    ensures { (old new : List Interface) (table : List (Identifier × Resolved)) → IsWithin old new → LacksNone old → HoldsRight old table → HoldsRight new table }
{}

/// Where an interface goes that no other names, what is held without its own entry is right for the rest.
pub fn held_rest_right()
    ensures { (set : List Interface) (id : Identifier) (table : List (Identifier × Resolved)) → BreaksNoRule set → InOrder set → IsFree set id
        → IsStrictlySortedBy id_cmp (keys_of table) → HoldsRight set table → HoldsRight (without_interface id set) (remove_entry (is_at (id_cmp id)) table) }
{}
