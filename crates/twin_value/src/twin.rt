//! Twins, and the bodies that they are read from.

ghost use Rattle.std.specs.Prelude.{◌≡◌, IfOk, IsSome, Some, MatchResult};
ghost use Rattle.std.specs.Option.{IsSomeAnd};
ghost use Rattle.dt_base.specs.names.Grammar.{OwnDtmiText};
ghost use Rattle.json_tree.specs.Sorting.{IsSortedOf};
ghost use Rattle.json_tree.specs.Values.{object};
ghost use Rattle.json_tree.specs.View.{view};
ghost use Rattle.twin_value.specs.Breaches.{IsModelId, IsBodyBreach, IsTwinBreach, HasNoBreach, EndsBy, twin_role_of};
ghost use Rattle.twin_value.specs.Machinery.Views.{role_view};
ghost use Rattle.twin_value.specs.Roles.{twin_body};
ghost use Rattle.twin_value.specs.Twins.{IsTwinOf, component_members, model_text, property_members};

use crate::end::{BodyEnd, judge_body, text_under, want_of_memory};
use crate::gather::values_and_parts;
use crate::keys::Keys;
use crate::library::Library;
use crate::role::Role;
use dt_base::names::Dtmi;
use dt_base::{OutOfMemory, Text};
use dtdl_terms::{Resolved, ResolvedContent};
use json_tree::{Tree, members_in, value_in};
use std::alloc::Global;

/// A twin: its identifier, its model, the values of its properties, and its components by their names, each with the
/// values of its properties. `values` and `parts` are objects whose members are sorted at every depth.
#[derive(Debug, Drop)]
pub struct Twin {
    pub id: Text,
    pub model: Dtmi,
    pub values: Tree,
    pub parts: Tree,
}

impl Twin {
    /// An equal twin in memory of its own. Fails only for want of memory.
    pub fn copy(&self, alloc: Global) -> Result<Twin, OutOfMemory>
        ensures { IfOk result (λ twin. twin ≡ self.now) }
    {
        let id = self.id.copy(alloc)?;
        let Ok(model) = self.model.copy(alloc) else {
            drop(id);
            return Err(OutOfMemory);
        };
        let Ok(values) = self.values.copy(alloc) else {
            drop((id, model));
            return Err(OutOfMemory);
        };
        let Ok(parts) = self.parts.copy(alloc) else {
            drop((id, model, values));
            return Err(OutOfMemory);
        };
        Ok(Twin {
            id,
            model,
            values,
            parts,
        })
    }
}

/// The `$model` of a body's `$metadata`.
fn model_text(tree: &Tree) -> &str
    requires { IsSome (model_text (view tree.now)) }
    ensures { model_text (view tree.now) ≡ Some result.now }
{
    match value_in(tree, "$metadata") {
        Some(metadata) => text_under(metadata, "$model"),
        None => unreachable!(),
    }
}

/// The model of a body that names one.
fn model_of(alloc: Global, tree: &Tree) -> Result<Dtmi, OutOfMemory>
    requires { IsSomeAnd (model_text (view tree.now)) (λ model. (IsModelId model → ⊥) → ⊥) }
    ensures { IfOk result (λ model. IsSomeAnd (model_text (view tree.now)) (λ text. OwnDtmiText text model)) }
{
    let text = model_text(tree);
    match Dtmi::read(alloc, text) {
        Ok(model) => Ok(model),
        Err(fault) => Err(want_of_memory(fault)),
    }
}

/// The values of the properties, and the components, of a body in a role.
fn values_in(alloc: Global, tree: &Tree, role: Role) -> Result<(Tree, Tree), OutOfMemory>
    ensures { IfOk result (λ made. IsSortedOf (object (property_members (role_view role.entry) (view tree.now))) (view made.0)
        × IsSortedOf (object (component_members (role_view role.entry) (view tree.now))) (view made.1)) }
{
    let keys = Keys::of(alloc, role)?;
    let made = values_and_parts(alloc, members_in(tree), &keys);
    drop(keys);
    made
}

/// The same of the body of a twin that may have a breach.
fn values_by(
    alloc: Global,
    tree: &Tree,
    library: &Library,
    contents: &[ResolvedContent],
) -> Result<(Tree, Tree), BodyEnd>
    ensures { MatchResult result
        (λ made. HasNoBreach (IsBodyBreach (twin_body library.now contents.now) (view tree.now))
        × IsSortedOf (object (property_members (twin_body library.now contents.now) (view tree.now))) (view made.0)
        × IsSortedOf (object (component_members (twin_body library.now contents.now) (view tree.now))) (view made.1))
        (EndsBy (IsBodyBreach (twin_body library.now contents.now) (view tree.now))) }
{
    let role = Role::Twin { library, contents };
    judge_body(alloc, tree, role)?;
    let made = values_in(alloc, tree, role)?;
    Ok(made)
}

/// The twin of an identifier and of the model that a body names, with these values and components.
fn twin_with(
    alloc: Global,
    id: &str,
    tree: &Tree,
    values: Tree,
    parts: Tree,
) -> Result<Twin, OutOfMemory>
    requires { IsSomeAnd (model_text (view tree.now)) (λ model. (IsModelId model → ⊥) → ⊥) }
    ensures { IfOk result (λ twin. (twin.id ≡ id.now) × IsSomeAnd (model_text (view tree.now)) (λ text. OwnDtmiText text twin.model)
        × (twin.values ≡ values) × (twin.parts ≡ parts)) }
{
    let Ok(id) = Text::from_str(alloc, id) else {
        drop((values, parts));
        return Err(OutOfMemory);
    };
    let Ok(model) = model_of(alloc, tree) else {
        drop((id, values, parts));
        return Err(OutOfMemory);
    };
    Ok(Twin {
        id,
        model,
        values,
        parts,
    })
}

/// The values of the properties, and the components by their names, each with the values of its properties, of a twin for
/// which the body of a request stands (this project's own), for a caller who knows the identifier and the model. They are
/// objects whose members are sorted at every depth. The body is judged as by `read_twin`, and fails as there: by the first
/// breach, in preorder and at one place by the number of its code, or for want of memory.
pub fn read_values(alloc: Global, tree: &Tree, resolved: &Resolved) -> Result<(Tree, Tree), BodyEnd>
    ensures { MatchResult result
        (λ made. HasNoBreach (IsTwinBreach resolved.now (view tree.now))
        × IsSortedOf (object (property_members (twin_role_of resolved.now) (view tree.now))) (view made.0)
        × IsSortedOf (object (component_members (twin_role_of resolved.now) (view tree.now))) (view made.1))
        (EndsBy (IsTwinBreach resolved.now (view tree.now))) }
{
    let library = Library::of(alloc, resolved)?;
    let made = values_by(alloc, tree, &library, resolved.contents.as_slice());
    drop(library);
    made
}

/// The twin of an identifier for which the body of a request stands (this project's own): `$metadata` names its model by
/// `$model`, `$dtId` is a text, `$etag` may be anything, and every other member is a property or a component of the
/// resolved model with a value that fits. Whether `$dtId` is the identifier is for the caller to say. Fails by the first
/// breach, in preorder and at one place by the number of its code, or for want of memory.
pub fn read_twin(alloc: Global, id: &str, tree: &Tree, resolved: &Resolved) -> Result<Twin, BodyEnd>
    ensures { MatchResult result
        (λ twin. HasNoBreach (IsTwinBreach resolved.now (view tree.now)) × IsTwinOf (twin_role_of resolved.now) id.now (view tree.now) twin)
        (EndsBy (IsTwinBreach resolved.now (view tree.now))) }
{
    let (values, parts) = read_values(alloc, tree, resolved)?;
    let twin = twin_with(alloc, id, tree, values, parts)?;
    Ok(twin)
}
