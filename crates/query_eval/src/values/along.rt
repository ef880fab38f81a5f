//! Paths from values: from one that the graph holds, and from those that are made for a row.

ghost use Rattle.std.specs.Prelude.{◌≡◌, codes, IfOk};
ghost use Rattle.std.specs.Option.{option_map};
ghost use Rattle.dt_base.specs.names.Grammar.{dtmi_text};
ghost use Rattle.json_tree.specs.Values.{text, object, member, no_members};
ghost use Rattle.json_tree.specs.View.{view};
ghost use Rattle.graph_steps.specs.Conditions.{value_along};
ghost use Rattle.query_eval.specs.values.Found.{found_value};

use crate::values::found::Found;
use dt_base::names::Dtmi;
use dt_base::{List, OutOfMemory, Text};
use json_tree::{Member, Tree, value_in};
use std::alloc::Global;

/// What a path leads to in a tree that the graph holds. Takes no memory.
pub fn along_held<'a>(tree: &'a Tree, names: &[Text]) -> Option<Found<'a>>
    ensures { option_map found_value result ≡ value_along names.now (view tree.now) }
{
    let mut at = tree;
    'names: for name in names {
        let Some(value) = value_in(at, name.as_str()) else {
            return None;
        };
        at = value;
    }
    Some(Found::Held(at))
}

/// What a path leads to in a text: a text has no members.
pub fn along_text<'a>(
    alloc: Global,
    bytes: &str,
    names: &[Text],
) -> Result<Option<Found<'a>>, OutOfMemory>
    ensures { IfOk result (λ found. option_map found_value found ≡ value_along names.now (text bytes.now)) }
{
    match names.split_first() {
        Some((_further, _names)) => Ok(None),
        None => {
            let text = Text::from_str(alloc, bytes)?;
            Ok(Some(Found::Made(Tree::Text(text))))
        }
    }
}

/// What a path leads to in an object without members. Takes no memory.
pub fn along_empty<'a>(alloc: Global, names: &[Text]) -> Option<Found<'a>>
    ensures { option_map found_value result ≡ value_along names.now (object no_members) }
{
    match names.split_first() {
        Some((_further, _names)) => None,
        None => Some(Found::Made(Tree::Members(List::new(alloc)))),
    }
}

/// The `$metadata` of a twin of a model.
fn metadata(alloc: Global, model: &Dtmi) -> Result<Tree, OutOfMemory>
    ensures { IfOk result (λ tree. view tree ≡ object (member (codes "$model") (text (dtmi_text model.now)) no_members)) }
{
    let key = Text::from_str(alloc, "$model")?;
    let Ok(id) = Text::from_str(alloc, model.as_str()) else {
        drop(key);
        return Err(OutOfMemory);
    };
    let mut members = List::new(alloc);
    members.push(Member {
        key,
        value: Tree::Text(id),
    })?;
    Ok(Tree::Members(members))
}

/// What a path leads to in the `$metadata` of a twin of a model.
pub fn along_metadata<'a>(
    alloc: Global,
    model: &Dtmi,
    names: &[Text],
) -> Result<Option<Found<'a>>, OutOfMemory>
    ensures { IfOk result (λ found. option_map found_value found ≡ value_along names.now (object (member (codes "$model") (text (dtmi_text model.now)) no_members))) }
{
    let Some((name, rest)) = names.split_first() else {
        let whole = metadata(alloc, model)?;
        return Ok(Some(Found::Made(whole)));
    };
    if name.as_str() == "$model" {
        return along_text(alloc, model.as_str(), rest);
    }
    Ok(None)
}
