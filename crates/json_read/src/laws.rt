//! What the definitions say of bytes, whatever is read.

ghost use Rattle.std.specs.Prelude.{◌≡◌, ◌≢◌, ◌⊎◌, ℕ, List};
ghost use Rattle.dt_base.specs.Existence.{IsThere};
ghost use Rattle.json_tree.specs.Values.{HasDistinctKeys, Json};
ghost use Rattle.json_tree.specs.View.{view};
ghost use Rattle.json_tree.specs.Grammar.{Spells};
ghost use Rattle.json_tree.specs.Printing.{NestsWithin, printed};
ghost use Rattle.json_read.specs.Faults.{IsFault};
ghost use Rattle.json_read.specs.declared.fault.JsonFault.{JsonFault};
ghost use Rattle.json_read.specs.declared.fault.JsonFault.TheVariants as faults;

use json_decimal::one_number;
use json_tree::{Tree, reads_back};

/// Bytes spell at most one value.
pub fn one_value()
    ensures { (bytes : List ℕ) (v w : Json) → Spells bytes v → Spells bytes w → v ≡ w }
{
    one_number();
}

/// Bytes that have a fault, want of memory aside, spell no value.
pub fn fault_or_value()
    ensures { (bytes : List ℕ) (fault : JsonFault) (value : Json) → IsFault bytes fault → fault ≢ faults.OutOfMemory → Spells bytes value → ⊥ }
{
    one_number();
}

/// Bytes have at most one fault, want of memory aside.
pub fn one_fault()
    ensures { (bytes : List ℕ) (fault other : JsonFault) → IsFault bytes fault → IsFault bytes other
        → fault ≢ faults.OutOfMemory → other ≢ faults.OutOfMemory → fault ≡ other }
{}

/// Bytes spell a value, or have a fault other than want of memory.
pub fn value_or_fault()
    ensures { (bytes : List ℕ) → IsThere (((value : Json) × Spells bytes value)
        ⊎ ((fault : JsonFault) × (fault ≢ faults.OutOfMemory) × IsFault bytes fault)) }
{}

/// A value that some text spells is spelled by the text that it prints as.
pub fn printed_again()
    ensures { (bytes : List ℕ) (v : Json) → Spells bytes v → Spells (printed v) v }
{}

/// Two trees that nest at most 64 deep, and in which no object has two members of one key, print the same text only
/// where they are equal. The call walks over both, and takes no memory. Where they are printed anyway, `one_value` and
/// what `print` says of its text give the same.
pub fn one_printed(one: &Tree, other: &Tree)
    ensures { NestsWithin 64 (view one.now) → NestsWithin 64 (view other.now)
        → HasDistinctKeys (view one.now) → HasDistinctKeys (view other.now)
        → printed (view one.now) ≡ printed (view other.now) → view one.now ≡ view other.now }
{
    one_value();
    reads_back(one);
    reads_back(other);
}
