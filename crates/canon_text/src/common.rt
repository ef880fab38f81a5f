//! What every element may have, as trees.

ghost use Rattle.std.specs.Prelude.{◌≡◌, map, IfOk};
ghost use Rattle.std.specs.Option.{option_map};
ghost use Rattle.json_tree.specs.Values.{text};
ghost use Rattle.json_tree.specs.View.{view, member_view};
ghost use Rattle.canon_text.specs.Canonical.{id_value, localized_value, entry_pair};

use crate::parts::push_named;
use crate::sorting::optional_object;
use dt_base::names::{Dtmi, Name};
use dt_base::{OutOfMemory, Text};
use dtdl_terms::{Entry, Localized};
use json_tree::{Member, Tree};
use std::alloc::Global;

/// A text.
pub(crate) fn text(alloc: Global, content: &str) -> Result<Tree, OutOfMemory>
    ensures { IfOk result (λ tree. view tree ≡ text content.now) }
{
    let content = Text::from_str(alloc, content)?;
    Ok(Tree::Text(content))
}

/// The text of an identifier.
pub(crate) fn id(alloc: Global, value: &Dtmi) -> Result<Tree, OutOfMemory>
    ensures { IfOk result (λ tree. view tree ≡ id_value value.now) }
{
    text(alloc, value.as_str())
}

/// The text of an identifier, where there is one.
pub(crate) fn optional_id(alloc: Global, value: &Option<Dtmi>) -> Result<Option<Tree>, OutOfMemory>
    ensures { IfOk result (λ tree. option_map view tree ≡ option_map id_value value.now) }
{
    match value {
        Some(value) => Ok(Some(id(alloc, value)?)),
        None => Ok(None),
    }
}

/// A text, where there is one.
pub(crate) fn optional_text(
    alloc: Global,
    value: &Option<Text>,
) -> Result<Option<Tree>, OutOfMemory>
    ensures { IfOk result (λ tree. option_map view tree ≡ option_map text value.now) }
{
    match value {
        Some(value) => Ok(Some(text(alloc, value.as_str())?)),
        None => Ok(None),
    }
}

/// The text of a name, where there is one.
pub(crate) fn optional_name(
    alloc: Global,
    value: &Option<Name>,
) -> Result<Option<Tree>, OutOfMemory>
    ensures { IfOk result (λ tree. option_map view tree ≡ option_map text value.now) }
{
    match value {
        Some(value) => Ok(Some(text(alloc, value.as_str())?)),
        None => Ok(None),
    }
}

/// The texts of some entries by their languages.
fn entries(alloc: Global, entries: &[Entry]) -> Result<Vec<Member>, OutOfMemory>
    ensures { IfOk result (λ members. map member_view members.items ≡ map entry_pair entries.now) }
{
    let mut members = Vec::with_capacity(alloc, entries.len())?;
    for entry in entries {
        let value = text(alloc, entry.text.as_str())?;
        push_named(alloc, &mut members, entry.language.as_str(), value)?;
    }
    Ok(members)
}

/// A localized text, where it has a text in some language.
pub(crate) fn localized(alloc: Global, value: &Localized) -> Result<Option<Tree>, OutOfMemory>
    ensures { IfOk result (λ tree. option_map view tree ≡ localized_value value.now) }
{
    let members = entries(alloc, value.entries.as_slice())?;
    optional_object(members)
}
