//! Laws of chains of extension and of breaches.

ghost use Rattle.std.specs.Prelude.{◌≡◌, ◌⊎◌, List};
ghost use Rattle.std.specs.List.{AllByRecursion};
ghost use Rattle.dt_base.specs.Existence.{IsThere};
ghost use Rattle.dtdl_terms.specs.declared.interface.Interface.{Interface};
ghost use Rattle.dtdl_terms.specs.declared.uploaded.Uploaded.{Uploaded};
ghost use Rattle.extend_resolve.specs.Chains.{IsAncestor};
ghost use Rattle.extend_resolve.specs.Breaches.{Breach, IsFirstSetBreach, IsSound, HasOrdinals};

/// The ancestors of an ancestor of an interface are ancestors of the interface.
pub fn ancestors_of_ancestors()
    ensures { (set : List Interface) (i a b : Interface) → IsAncestor set i a → IsAncestor set a b → IsAncestor set i b }
{}

/// There is at most one first breach.
pub fn one_first_breach()
    ensures { (set : List Interface) (new : List Uploaded) → AllByRecursion HasOrdinals new → (b c : Breach) → IsFirstSetBreach set new b → IsFirstSetBreach set new c → b ≡ c }
{}

/// New interfaces break no rule on sets, or have a first breach.
pub fn breach_or_none()
    ensures { (set : List Interface) (new : List Uploaded) → IsThere (IsSound set new ⊎ ((b : Breach) × IsFirstSetBreach set new b)) }
{}
