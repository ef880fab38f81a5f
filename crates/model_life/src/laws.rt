//! Laws of what models take.

ghost use Rattle.std.specs.Prelude.{◌≡◌, ℕ, List};
ghost use Rattle.dtdl_terms.specs.declared.interface.Interface.{Interface};
ghost use Rattle.model_life.specs.Sums.{AllTake};

/// All that the interfaces of a set resolve to takes one number of bytes.
pub fn one_sum()
    ensures { (set : List Interface) (m n : ℕ) → AllTake set m → AllTake set n → m ≡ n }
{}
