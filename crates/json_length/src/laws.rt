//! What the definitions say of the lengths of texts.

ghost use Rattle.std.specs.Prelude.{◌≡◌, ◌+◌, ℕ, List, length};
ghost use Rattle.json_decimal.specs.Number.{Number};
ghost use Rattle.json_tree.specs.Values.{Json, object, Members, no_members, member};
ghost use Rattle.json_tree.specs.Printing.{printed};
ghost use Rattle.json_tree.specs.Sorting.{IsSortedOf};
ghost use Rattle.json_length.specs.Lengths.{members_length};

/// The text of an object without members has two bytes. That of another one has the brace and its members, of which the
/// last has the closing brace in place of the comma.
pub fn one_object_length()
    ensures empty { length (printed (object no_members)) ≡ 2 }
    ensures some { (key : List ℕ) (v : Json) (ms : Members Number)
        → length (printed (object (member key v ms))) ≡ 1 + members_length (member key v ms) }
{}

/// To sort the members of objects leaves the length of the text as it is.
pub fn one_length_sorted()
    ensures { (v w : Json) → IsSortedOf v w → length (printed v) ≡ length (printed w) }
{}
