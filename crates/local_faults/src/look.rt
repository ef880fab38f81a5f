//! Looking into the entries of `schemas`.

ghost use Rattle.std.specs.Prelude.{◌≡◌, ◌↔◌, IsTrue, map};
ghost use Rattle.std.specs.Option.{option_map};
ghost use Rattle.json_tree.specs.Values.{object};
ghost use Rattle.json_tree.specs.View.{view, members_view};
ghost use Rattle.local_rules.specs.Levels.{IsPrimitiveName, entries_at, id_in};

use dtdl_terms::primitive_named;
use json_tree::{Member, Tree, entries_in, text_in, value_at, value_in};

/// The text `@id` of a value.
pub fn id_in(tree: &Tree) -> Option<&str>
    ensures { option_map (λ t. t.now) result ≡ id_in (view tree.now) }
{
    match value_in(tree, "@id") {
        Some(id) => text_in(id),
        None => None,
    }
}

/// The elements of the list under a key.
pub fn entries_at<'a>(members: &'a [Member], key: &str) -> &'a [Tree]
    ensures { map view result.now ≡ entries_at key.now (object (members_view members.now)) }
{
    match value_at(members, key) {
        Some(list) => entries_in(list),
        None => &[],
    }
}

/// Whether a text is the name of a primitive schema.
pub fn is_primitive(name: &str) -> bool
    ensures { IsTrue result ↔ IsPrimitiveName name.now }
{
    match primitive_named(name) {
        Some(_) => true,
        None => false,
    }
}
