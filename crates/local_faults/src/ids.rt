//! The `@id`s of one interface, and the first rule that one value breaks.

ghost use Rattle.std.specs.Prelude.{◌≡◌, IfOk};
ghost use Rattle.std.specs.Option.{option_map};
ghost use Rattle.json_tree.specs.View.{view, members_view};
ghost use Rattle.local_faults.specs.Machinery.Walks.{NotesId, JudgesMarked, JudgesId, id_in_role};

use crate::schemas::NamedSchemas;
use dt_base::OutOfMemory;
use json_tree::{Tree, text_in};
use local_rules::{LocalRule, MarkedRole, Role, earlier, marked_rule};
use std::collections::BTreeSet;

/// The text that a value is as an `@id`.
fn id_in(role: Role, tree: &Tree) -> Option<&str>
    ensures { option_map (λ t. t.now) result ≡ id_in_role role (view tree.now) }
{
    match role {
        Role::InterfaceId | Role::ElementId => text_in(tree),
        _ => None,
    }
}

/// Puts an `@id` into the set, or says that it is there.
fn add_id<'a>(id: &'a str, ids: &mut BTreeSet<&'a str>) -> Result<Option<LocalRule>, OutOfMemory>
    ensures { IfOk result (NotesId ids.old ids.new id.now) }
{
    if ids.insert(id)? {
        Ok(None)
    } else {
        Ok(Some(LocalRule::RepeatedId))
    }
}

/// Whether the value is an `@id` that stands in the set; another `@id` is put into it.
fn judge_id<'a>(
    role: Role,
    tree: &'a Tree,
    ids: &mut BTreeSet<&'a str>,
) -> Result<Option<LocalRule>, OutOfMemory>
    ensures { IfOk result (JudgesId ids.old ids.new role (view tree.now)) }
{
    match id_in(role, tree) {
        Some(id) => add_id(id, ids),
        None => Ok(None),
    }
}

/// The first rule that the value itself breaks. An `@id` that is new is put into the set.
pub fn judge<'a>(
    schemas: &NamedSchemas<'a>,
    marked: MarkedRole,
    tree: &'a Tree,
    ids: &mut BTreeSet<&'a str>,
) -> Result<Option<LocalRule>, OutOfMemory>
    ensures { IfOk result (JudgesMarked (members_view schemas.now) ids.old ids.new marked (view tree.now)) }
{
    let by_itself = marked_rule(marked, tree);
    let by_schemas = schemas.rule(marked.role, tree);
    let by_id = judge_id(marked.role, tree, ids)?;
    Ok(earlier(by_itself, earlier(by_schemas, by_id)))
}
