//! What the definitions say of documents, whatever is judged.

ghost use Rattle.std.specs.Prelude.{◌⊎◌, ℕ, List};
ghost use Rattle.dt_base.specs.Existence.{IsThere};
ghost use Rattle.dtdl_terms.specs.declared.uploaded.Uploaded.{Uploaded};
ghost use Rattle.documents.specs.FirstFaults.{Declare, HasFirstFault};

use json_read::value_or_fault;
use model_read::declaration_is_there;

/// Documents declare interfaces together, or have a first fault, which has a line.
pub fn declaration_or_fault()
    ensures { (documents : List (List ℕ)) → IsThere (((uploads : List Uploaded) × Declare documents uploads)
        ⊎ ((line : List ℕ) × HasFirstFault documents line)) }
{
    value_or_fault();
    local_faults::breach_or_none();
    extend_resolve::breach_or_none();
    declaration_is_there();
}
