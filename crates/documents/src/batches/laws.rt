//! What batches say of the array.

ghost use Rattle.std.specs.Prelude.{◌≡◌, ◌≢◌, ◌<◌, ◌≤◌, ◌+◌, ◌++◌, [], ℕ, List, length, slice_index};
ghost use Rattle.json_tree.specs.Grammar.{Spells};
ghost use Rattle.json_tree.specs.Values.{Json, array, elements_of};
ghost use Rattle.documents.specs.batches.Batches.{batch_text, rest_text};

/// Where the text of a batch and the text of what follows behind a comma spell arrays with elements (RFC 8259, section 5), the text
/// of both together spells the array of all of these.
pub fn joined()
    ensures { (bytes : List ℕ) (at end : ℕ) (vs ws : List Json) → at ≤ end → end < length bytes → slice_index bytes end ≡ 44
        → vs ≢ [] → ws ≢ []
        → Spells (batch_text bytes at end) (array (elements_of vs)) → Spells (rest_text bytes (end + 1)) (array (elements_of ws))
        → Spells (rest_text bytes at) (array (elements_of (vs ++ ws))) }
{}
