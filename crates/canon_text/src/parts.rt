//! Objects by a table of their keys.

ghost use Rattle.std.specs.Prelude.{◌≡◌, ◌∷◌, [], ◌++◌, ℕ, List, map, Option, Some, IfOk, OnOk};
ghost use Rattle.std.specs.Option.{option_map};
ghost use Rattle.json_tree.specs.Values.{Json, text, object, members_of};
ghost use Rattle.json_tree.specs.View.{view, member_view};
ghost use Rattle.canon_text.specs.Objects.{present};
ghost use Rattle.canon_text.specs.Canonical.{id_value, localized_value, element_parts};
ghost use Rattle.canon_text.specs.Machinery.Pairs.{IsPut};

use crate::common::{localized, optional_id, optional_name, optional_text, text};
use dt_base::names::{Dtmi, Name};
use dt_base::{List, OutOfMemory, Text};
use dtdl_terms::{Common, Localized};
use json_tree::{Member, Tree};
use std::alloc::Global;

/// Adds a value under its name.
pub(crate) fn push_named(
    alloc: Global,
    members: &mut Vec<Member>,
    name: &str,
    value: Tree,
) -> Result<(), OutOfMemory>
    ensures { OnOk result (map member_view members.new.items ≡ map member_view members.old.items ++ (name.now, view value) ∷ []) }
{
    let key = Text::from_str(alloc, name)?;
    members.push(Member { key, value })?;
    Ok(())
}

/// Adds a member, where it has a value.
pub(crate) fn put(
    alloc: Global,
    members: &mut Vec<Member>,
    key: &str,
    value: Option<Tree>,
) -> Result<(), OutOfMemory>
    ensures { OnOk result ((parts : List (List ℕ × Option Json)) (v : Option Json) → option_map view value ≡ v
        → map member_view members.old.items ≡ present parts → map member_view members.new.items ≡ present (parts ++ (key.now, v) ∷ [])) }
{
    match value {
        Some(value) => {
            let key = Text::from_str(alloc, key)?;
            members.push(Member { key, value })?;
            Ok(())
        }
        None => Ok(()),
    }
}

/// Adds a member with a text.
pub(crate) fn put_text(
    alloc: Global,
    members: &mut Vec<Member>,
    key: &str,
    content: &str,
) -> Result<(), OutOfMemory>
    ensures { OnOk result (IsPut (map member_view members.old.items) (map member_view members.new.items) key.now (Some (text content.now))) }
{
    let value = text(alloc, content)?;
    put(alloc, members, key, Some(value))?;
    Ok(())
}

/// Adds a member with a text, where there is one.
pub(crate) fn put_optional_text(
    alloc: Global,
    members: &mut Vec<Member>,
    key: &str,
    content: &Option<Text>,
) -> Result<(), OutOfMemory>
    ensures { OnOk result (IsPut (map member_view members.old.items) (map member_view members.new.items) key.now (option_map text content.now)) }
{
    let value = optional_text(alloc, content)?;
    put(alloc, members, key, value)?;
    Ok(())
}

/// Adds a member with the text of a name, where there is one.
pub(crate) fn put_optional_name(
    alloc: Global,
    members: &mut Vec<Member>,
    key: &str,
    name: &Option<Name>,
) -> Result<(), OutOfMemory>
    ensures { OnOk result (IsPut (map member_view members.old.items) (map member_view members.new.items) key.now (option_map text name.now)) }
{
    let value = optional_name(alloc, name)?;
    put(alloc, members, key, value)?;
    Ok(())
}

/// Adds a member with an identifier, where there is one.
pub(crate) fn put_optional_id(
    alloc: Global,
    members: &mut Vec<Member>,
    key: &str,
    id: &Option<Dtmi>,
) -> Result<(), OutOfMemory>
    ensures { OnOk result (IsPut (map member_view members.old.items) (map member_view members.new.items) key.now (option_map id_value id.now)) }
{
    let value = optional_id(alloc, id)?;
    put(alloc, members, key, value)?;
    Ok(())
}

/// Adds a member with a localized text, where it has a text in some language.
pub(crate) fn put_localized(
    alloc: Global,
    members: &mut Vec<Member>,
    key: &str,
    content: &Localized,
) -> Result<(), OutOfMemory>
    ensures { OnOk result (IsPut (map member_view members.old.items) (map member_view members.new.items) key.now (localized_value content.now)) }
{
    let value = localized(alloc, content)?;
    put(alloc, members, key, value)?;
    Ok(())
}

/// The object of some members.
pub(crate) fn object(members: Vec<Member>) -> Tree
    ensures { view result ≡ object (members_of (map member_view members.items)) }
{
    Tree::Members(List::from_vec(members))
}

/// The members that every element may have, with its type where it has one.
pub(crate) fn element(
    alloc: Global,
    kind: Option<Tree>,
    common: &Common,
) -> Result<Vec<Member>, OutOfMemory>
    ensures { IfOk result (λ members. (type : Option Json) → option_map view kind ≡ type → map member_view members.items ≡ present (element_parts type common.now)) }
{
    let mut members = Vec::with_capacity(alloc, 10)?;
    put_optional_id(alloc, &mut members, "@id", &common.id)?;
    put(alloc, &mut members, "@type", kind)?;
    put_optional_text(alloc, &mut members, "comment", &common.comment)?;
    put_localized(alloc, &mut members, "description", &common.description)?;
    put_localized(alloc, &mut members, "displayName", &common.display_name)?;
    Ok(members)
}

/// The members that an element of this type may have as every element.
pub(crate) fn typed_element(
    alloc: Global,
    kind: &str,
    common: &Common,
) -> Result<Vec<Member>, OutOfMemory>
    ensures { IfOk result (λ members. map member_view members.items ≡ present (element_parts (Some (text kind.now)) common.now)) }
{
    let kind = text(alloc, kind)?;
    let members = element(alloc, Some(kind), common)?;
    Ok(members)
}
