//! Interfaces.

ghost use Rattle.std.specs.Prelude.{Some, IfOk, codes};
ghost use Rattle.std.specs.List.{AllZip};
ghost use Rattle.json_tree.specs.View.{view, members_view, elements_view};
ghost use Rattle.json_tree.specs.Members.{list_of, value_at};
ghost use Rattle.dtdl_terms.specs.TermViews.{schema_term};
ghost use Rattle.local_rules.specs.Declarations.{DeclaresInterface, HasParents, HasSchemas, IsIdentifier, IsSchema};
ghost use Rattle.model_read.specs.Machinery.Shapes.{CanBeId, EachIs, InterfaceShape, IsListOf, IsParents, IsValidSchema, MayHave};

use crate::contents::contents_at;
use crate::localized::localized_at;
use crate::parts::{entries_at, entries_of, list_of_one};
use crate::schemas::schema_of;
use crate::texts::{id_at, id_of, optional_text};
use dt_base::names::Dtmi;
use dt_base::{List, OutOfMemory};
use dtdl_terms::{Interface, Schema};
use json_tree::{Member, Tree, value_at};
use std::alloc::Global;

/// The identifiers that the entries of a list are.
fn ids_of(alloc: Global, trees: &[Tree]) -> Result<List<Dtmi>, OutOfMemory>
    requires { EachIs CanBeId (elements_view trees.now) }
    ensures { IfOk result (λ ids. AllZip IsIdentifier (list_of (elements_view trees.now)) ids) }
{
    let mut ids = Vec::with_capacity(alloc, trees.len())?;
    for tree in trees {
        ids.push(id_of(alloc, tree)?)?;
    }
    Ok(List::from_vec(ids))
}

/// The parents that a list names.
fn listed_parents(alloc: Global, tree: &Tree) -> Result<List<Dtmi>, OutOfMemory>
    requires { IsListOf CanBeId (view tree.now) }
    ensures { IfOk result (λ ids. HasParents (Some (view tree.now)) ids) }
{
    let entries = entries_of(tree);
    ids_of(alloc, entries)
}

/// The one parent that a text names.
fn one_parent(alloc: Global, tree: &Tree) -> Result<List<Dtmi>, OutOfMemory>
    requires { CanBeId (view tree.now) }
    ensures { IfOk result (λ ids. HasParents (Some (view tree.now)) ids) }
{
    let id = id_of(alloc, tree)?;
    list_of_one(alloc, id)
}

/// The parents that a value of `extends` names.
fn parents_of(alloc: Global, tree: &Tree) -> Result<List<Dtmi>, OutOfMemory>
    requires { IsParents (view tree.now) }
    ensures { IfOk result (λ ids. HasParents (Some (view tree.now)) ids) }
{
    match tree {
        Tree::List(_) => listed_parents(alloc, tree),
        _ => one_parent(alloc, tree),
    }
}

/// The parents of an interface.
fn parents_at(alloc: Global, members: &[Member]) -> Result<List<Dtmi>, OutOfMemory>
    requires { MayHave IsParents (codes "extends") (members_view members.now) }
    ensures { IfOk result (λ ids. HasParents (value_at (codes "extends") (members_view members.now)) ids) }
{
    match value_at(members, "extends") {
        Some(value) => parents_of(alloc, value),
        None => Ok(List::new(alloc)),
    }
}

/// The schemas that the entries of a list are.
fn schemas_of(alloc: Global, trees: &[Tree]) -> Result<List<Schema>, OutOfMemory>
    requires { EachIs IsValidSchema (elements_view trees.now) }
    ensures { IfOk result (λ ss. AllZip (λ v s. IsSchema (schema_term s) v) (list_of (elements_view trees.now)) ss) }
{
    let mut schemas = Vec::with_capacity(alloc, trees.len())?;
    for tree in trees {
        schemas.push(schema_of(alloc, tree)?)?;
    }
    Ok(List::from_vec(schemas))
}

/// The schemas that an interface declares for use by their identifiers.
fn schemas_at(alloc: Global, members: &[Member]) -> Result<List<Schema>, OutOfMemory>
    requires { MayHave (IsListOf IsValidSchema) (codes "schemas") (members_view members.now) }
    ensures { IfOk result (λ ss. HasSchemas (value_at (codes "schemas") (members_view members.now)) ss) }
{
    let entries = entries_at(members, "schemas");
    schemas_of(alloc, entries)
}

/// The interface that members declare.
pub fn interface_in(alloc: Global, members: &[Member]) -> Result<Interface, OutOfMemory>
    requires { InterfaceShape (members_view members.now) }
    ensures { IfOk result (λ i. DeclaresInterface (members_view members.now) i) }
{
    let id = id_at(alloc, members, "@id")?;
    let Ok(comment) = optional_text(alloc, members, "comment") else {
        drop(id);
        return Err(OutOfMemory);
    };
    let Ok(description) = localized_at(alloc, members, "description") else {
        drop((id, comment));
        return Err(OutOfMemory);
    };
    let Ok(display_name) = localized_at(alloc, members, "displayName") else {
        drop((id, comment, description));
        return Err(OutOfMemory);
    };
    let Ok(parents) = parents_at(alloc, members) else {
        drop((id, comment, description, display_name));
        return Err(OutOfMemory);
    };
    let Ok(contents) = contents_at(alloc, members) else {
        drop((id, comment, description, display_name, parents));
        return Err(OutOfMemory);
    };
    let Ok(schemas) = schemas_at(alloc, members) else {
        drop((id, comment, description, display_name, parents, contents));
        return Err(OutOfMemory);
    };
    Ok(Interface {
        id,
        comment,
        description,
        display_name,
        parents,
        contents,
        schemas,
    })
}
