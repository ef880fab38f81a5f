//! The entries of enumerations, as trees.

ghost use Rattle.std.specs.Prelude.{◌≡◌, map, IfOk};
ghost use Rattle.json_tree.specs.View.{view, member_view};
ghost use Rattle.canon_text.specs.Canonical.{enum_value, enum_entry_value, enum_entry_pair, value_schema_json};
ghost use Rattle.canon_text.specs.Objects.{list_in_order};

use crate::common::text;
use crate::numbers::of_integer;
use crate::parts::{element, object, push_named, put, put_text};
use crate::sorting::list_in_order;
use dt_base::OutOfMemory;
use dtdl_terms::{EnumEntry, EnumValue};
use json_tree::{Member, Tree};
use std::alloc::Global;

/// The value of an entry.
fn enum_value(alloc: Global, value: &EnumValue) -> Result<Tree, OutOfMemory>
    ensures { IfOk result (λ tree. view tree ≡ enum_value value.now) }
{
    match value {
        EnumValue::Number(number) => Ok(Tree::Number(of_integer(*number))),
        EnumValue::Word(word) => text(alloc, word.as_str()),
    }
}

/// An entry of an enumeration.
fn enum_entry(alloc: Global, entry: &EnumEntry) -> Result<Tree, OutOfMemory>
    ensures { IfOk result (λ tree. view tree ≡ enum_entry_value entry.now) }
{
    let mut members = element(alloc, None, &entry.common)?;
    let value = enum_value(alloc, &entry.value)?;
    put(alloc, &mut members, "enumValue", Some(value))?;
    put_text(alloc, &mut members, "name", entry.name.as_str())?;
    Ok(object(members))
}

/// The entries of an enumeration by their names.
fn named_entries(alloc: Global, entries: &[EnumEntry]) -> Result<Vec<Member>, OutOfMemory>
    ensures { IfOk result (λ members. map member_view members.items ≡ map enum_entry_pair entries.now) }
{
    let mut members = Vec::with_capacity(alloc, entries.len())?;
    for entry in entries {
        let value = enum_entry(alloc, entry)?;
        push_named(alloc, &mut members, entry.name.as_str(), value)?;
    }
    Ok(members)
}

/// The entries of an enumeration, in the order of their names.
pub(crate) fn enum_entries(alloc: Global, entries: &[EnumEntry]) -> Result<Tree, OutOfMemory>
    ensures { IfOk result (λ tree. view tree ≡ list_in_order (map enum_entry_pair entries.now)) }
{
    let members = named_entries(alloc, entries)?;
    list_in_order(alloc, members)
}

/// The name of the schema of an enumeration's values.
pub(crate) fn value_schema(alloc: Global, of_text: bool) -> Result<Tree, OutOfMemory>
    ensures { IfOk result (λ tree. view tree ≡ value_schema_json of_text) }
{
    if of_text {
        text(alloc, "string")
    } else {
        text(alloc, "integer")
    }
}
