//! Whether a value fits its schema.

ghost use Rattle.std.specs.Prelude.{◌≡◌, ◌↔◌, ℕ, List, None, map, reverse, IfOk, MatchOption};
ghost use Rattle.json_tree.specs.View.{view};
ghost use Rattle.dtdl_terms.specs.TermViews.{schema_term};
ghost use Rattle.twin_value.specs.Fits.{Fits};
ghost use Rattle.twin_value.specs.Breaches.{IsValueBreach, IsFirstBodyBreach};
ghost use Rattle.twin_value.specs.declared.code.BodyCode.{BodyCode};

use crate::code::BodyCode;
use crate::index::Index;
use crate::role::value_of;
use crate::walk::{Found, first_in};
use dt_base::{List, OutOfMemory};
use dtdl_terms::Schema;
use json_tree::{Place, Tree};
use std::alloc::Global;

/// The breach to which a way up leads down.
pub fn breach_of(found: Found) -> (Place, BodyCode)
    ensures place { result.0.steps ≡ reverse found.steps.items }
    ensures code { result.1 ≡ found.code }
{
    let Found { mut steps, code } = found;
    steps.reverse();
    let place = Place {
        steps: List::from_vec(steps),
    };
    (place, code)
}

/// The first breach of a value that is to fit a schema, in preorder; None exactly where it fits (DTDL v2, "Schemas";
/// which texts are dates, times and durations, and that a number may have any size or precision where no integer is
/// asked for, is this project's own). It is `UnknownMember` at a member of an object whose key no field has, and
/// `BadValue` at the innermost value that shows by itself that it does not fit. References name schemas of `named` by
/// their identifiers; where one names none, nothing fits. Fails only for want of memory.
pub fn fit_value(
    alloc: Global,
    tree: &Tree,
    schema: &Schema,
    named: &[Schema],
) -> Result<Option<(Place, BodyCode)>, OutOfMemory>
    ensures fits { IfOk result (λ found. (found ≡ None) ↔ Fits (view tree.now) (schema_term schema.now) (map schema_term named.now)) }
    ensures first { IfOk result (λ found. MatchOption found
        ((place : List ℕ) (broken : BodyCode) → IsValueBreach named.now schema.now (view tree.now) place broken → ⊥)
        (λ b. IsFirstBodyBreach (IsValueBreach named.now schema.now (view tree.now)) b.0.steps b.1)) }
{
    let index = Index::of(alloc, named)?;
    let found = first_in(tree, alloc, value_of(&index, schema));
    drop(index);
    match found? {
        Some(found) => Ok(Some(breach_of(found))),
        None => Ok(None),
    }
}
