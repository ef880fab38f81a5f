//! Laws of tables whose set changes.

ghost use Rattle.std.specs.Prelude.{◌≡◌, List, Bool, false, None, IsSome};
ghost use Rattle.std.specs.List.{AllByRecursion, list_any};
ghost use Rattle.std.specs.List.Sorted.{IsStrictlySortedBy};
ghost use Rattle.std.specs.Map.{keys_of, remove_entry};
ghost use Rattle.std.specs.BTreeMap.{is_at};
ghost use Rattle.dt_base.specs.names.Grammar.{Identifier, id_cmp, id_eq};
ghost use Rattle.dtdl_terms.specs.Sets.{InOrder, interface_at, without_interface};
ghost use Rattle.dtdl_terms.specs.declared.interface.Interface.{Interface};
ghost use Rattle.dtdl_terms.specs.declared.resolved.Resolved.{Resolved};
ghost use Rattle.extend_resolve.specs.Breaches.{BreaksNoRule};
ghost use Rattle.model_life.specs.resolution.Resolving.{IsWithin, IsFree};
ghost use Rattle.resolved_table.specs.Tables.{ResolvesAll, ResolvesOthers};

/// Where interfaces come into a set that breaks no rule, the entries of the others stay.
pub fn others_stay_resolved()
    ensures { (old new : List Interface) (ids : List Identifier) (table : List (Identifier × Resolved)) → BreaksNoRule old → IsWithin old new
        → AllByRecursion (λ id. IsSome (interface_at id new) × (interface_at id old ≡ None)) ids → ((id : Identifier) → list_any (id_eq id) ids ≡ false → interface_at id new ≡ interface_at id old)
        → ResolvesAll old table → ResolvesOthers new ids table }
{}

/// Where an interface goes that no other names, the entries without its own are those of the rest.
pub fn rest_stays_resolved()
    ensures { (set : List Interface) (id : Identifier) (table : List (Identifier × Resolved)) → BreaksNoRule set → InOrder set → IsFree set id
        → IsStrictlySortedBy id_cmp (keys_of table) → ResolvesAll set table → ResolvesAll (without_interface id set) (remove_entry (is_at (id_cmp id)) table) }
{}
