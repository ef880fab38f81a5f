//! Laws of sets that change.

ghost use Rattle.std.specs.Prelude.{◌≡◌, ◌↔◌, [], None, List, map};
ghost use Rattle.std.specs.List.{AllByRecursion};
ghost use Rattle.dt_base.specs.names.Grammar.{Identifier};
ghost use Rattle.dtdl_terms.specs.Sets.{InOrder, interface_at, without_interface};
ghost use Rattle.dtdl_terms.specs.declared.interface.Interface.{Interface};
ghost use Rattle.dtdl_terms.specs.declared.uploaded.Uploaded.{Uploaded};
ghost use Rattle.extend_resolve.specs.Breaches.{BreaksNoRule, IsSound};
ghost use Rattle.extend_resolve.specs.SetRules.{together};
ghost use Rattle.model_life.specs.resolution.Resolving.{IsFree};
ghost use Rattle.model_life.specs.sets.Changing.{with_uploads, without_interfaces, HaveTheSame, HaveDistinctIds, AreFree};

/// The rules depend on what stands under each identifier, and not on the order of the interfaces.
pub fn one_judgement()
    ensures { (one other : List Interface) → HaveTheSame one other → HaveDistinctIds other → BreaksNoRule one → BreaksNoRule other }
{}

/// New interfaces without an old set are sound exactly where they, as a set, break no rule.
pub fn judged_as_uploads()
    ensures { (new : List Uploaded) → IsSound [] new ↔ BreaksNoRule (map (λ u. u.interface) new) }
{}

/// Where interfaces come that are sound with a set which breaks no rule, and whose identifiers it does not have, the set
/// with all of them breaks no rule, and each stands in it at its place.
pub fn join_soundly()
    ensures rules { (set : List Interface) (new : List Uploaded) → InOrder set → BreaksNoRule set → AllByRecursion (λ u. interface_at u.interface.id set ≡ None) new → IsSound set new
        → BreaksNoRule (with_uploads new set) }
    ensures ordered { (set : List Interface) (new : List Uploaded) → InOrder set → AllByRecursion (λ u. interface_at u.interface.id set ≡ None) new → IsSound set new
        → InOrder (with_uploads new set) }
    ensures same { (set : List Interface) (new : List Uploaded) → InOrder set → AllByRecursion (λ u. interface_at u.interface.id set ≡ None) new → IsSound set new
        → HaveTheSame (together set new) (with_uploads new set) }
{}

/// Where interfaces go from a set that breaks no rule, and no other names one of them as a parent or as the interface of a
/// component, the rest breaks no rule.
pub fn rest_is_sound()
    ensures rules { (set : List Interface) (ids : List Identifier) → InOrder set → BreaksNoRule set → AreFree set ids → BreaksNoRule (without_interfaces ids set) }
    ensures ordered { (set : List Interface) (ids : List Identifier) → InOrder set → InOrder (without_interfaces ids set) }
{}

/// The same for one interface.
pub fn rest_without_one_is_sound()
    ensures { (set : List Interface) (id : Identifier) → InOrder set → BreaksNoRule set → IsFree set id → BreaksNoRule (without_interface id set) }
{}
