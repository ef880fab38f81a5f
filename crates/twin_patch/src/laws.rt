//! What the definitions say of patched values.

ghost use Rattle.std.specs.Prelude.{◌≡◌, ◌⊎◌, ℕ, List};
ghost use Rattle.dt_base.specs.Existence.{IsThere};
ghost use Rattle.json_tree.specs.Sorting.{IsSortedOf};
ghost use Rattle.json_tree.specs.Values.{Json, HasDistinctKeys};
ghost use Rattle.twin_patch.specs.Operations.{Operation};
ghost use Rattle.twin_patch.specs.Patched.{patched};
ghost use Rattle.twin_patch.specs.Reading.{IsPatch, IsPatchFault};
ghost use Rattle.twin_patch.specs.declared.code.PatchCode.{PatchCode};
ghost use Rattle.twin_patch.specs.declared.entry.PatchOf.{PatchOf};

/// Values that are equal but for the order of members in their objects, so that both have one sorted form, are patched
/// alike, where no object in them has two members of one key.
pub fn order_of_members()
    ensures { (v w sorted : Json) (os : List Operation) → HasDistinctKeys v → HasDistinctKeys w → IsSortedOf v sorted → IsSortedOf w sorted → patched os v ≡ patched os w }
{}

/// A value is a patch of one list of operations at most, has one fault at most, and never both.
pub fn one_answer()
    ensures patch { (of : PatchOf) (v : Json) (os ps : List Operation) → IsPatch of v os → IsPatch of v ps → os ≡ ps }
    ensures fault { (of : PatchOf) (v : Json) (i j : ℕ) (c d : PatchCode) → IsPatchFault of v i c → IsPatchFault of v j d → (i ≡ j) × (c ≡ d) }
    ensures either { (of : PatchOf) (v : Json) (os : List Operation) (i : ℕ) (c : PatchCode) → IsPatch of v os → IsPatchFault of v i c → ⊥ }
{}

/// A value is a patch of some list of operations, or has a fault.
pub fn some_answer()
    ensures { (of : PatchOf) (v : Json) → IsThere (((os : List Operation) × IsPatch of v os)
        ⊎ ((index : ℕ) × (code : PatchCode) × IsPatchFault of v index code)) }
{}
