//! Paths from twins and from their components.

ghost use Rattle.std.specs.Prelude.{◌≡◌, IfOk};
ghost use Rattle.std.specs.Option.{option_and_then, option_map};
ghost use Rattle.json_tree.specs.View.{view};
ghost use Rattle.json_tree.specs.Members.{value_in};
ghost use Rattle.graph_steps.specs.bodies.Kept.{twin_view, IsKeptTwin, IsKeptPart};
ghost use Rattle.graph_steps.specs.Conditions.{value_along};
ghost use Rattle.graph_steps.specs.States.{part_value, twin_value};
ghost use Rattle.query_eval.specs.values.Found.{found_value};
ghost use Rattle.query_eval.specs.values.Machinery.Members.{content_in};

use crate::values::along::{along_empty, along_held, along_metadata, along_text};
use crate::values::found::Found;
use dt_base::{OutOfMemory, Text};
use graph_steps::bodies::{kept_part, part_tree};
use json_tree::{Tree, value_in};
use std::alloc::Global;
use twin_value::Twin;

/// What a path leads to in a component with these values, as it is printed.
fn along_part<'a>(
    alloc: Global,
    values: &'a Tree,
    names: &[Text],
) -> Result<Option<Found<'a>>, OutOfMemory>
    requires { IsKeptPart (view values.now) }
    ensures { IfOk result (λ found. option_map found_value found ≡ value_along names.now (part_value (view values.now))) }
{
    let Some((name, rest)) = names.split_first() else {
        let whole = part_tree(alloc, values)?;
        return Ok(Some(Found::Made(whole)));
    };
    if name.as_str() == "$metadata" {
        return Ok(along_empty(alloc, rest));
    }
    match value_in(values, name.as_str()) {
        Some(value) => Ok(along_held(value, rest)),
        None => Ok(None),
    }
}

/// What a path leads to from a member of a twin that is a property or a component.
fn along_content<'a>(
    alloc: Global,
    twin: &'a Twin,
    name: &Text,
    rest: &[Text],
) -> Result<Option<Found<'a>>, OutOfMemory>
    requires { IsKeptTwin (twin_view twin.now) }
    ensures { IfOk result (λ found. option_map found_value found ≡ option_and_then (value_along rest.now) (content_in name.now (twin_view twin.now))) }
{
    if let Some(value) = value_in(&twin.values, name.as_str()) {
        return Ok(along_held(value, rest));
    }
    kept_part();
    match value_in(&twin.parts, name.as_str()) {
        Some(values) => along_part(alloc, values, rest),
        None => Ok(None),
    }
}

/// What a path leads to from a member of a twin, as it is printed.
pub fn along_twin<'a>(
    alloc: Global,
    twin: &'a Twin,
    name: &Text,
    rest: &[Text],
) -> Result<Option<Found<'a>>, OutOfMemory>
    requires { IsKeptTwin (twin_view twin.now) }
    ensures { IfOk result (λ found. option_map found_value found ≡ option_and_then (value_along rest.now) (value_in name.now (twin_value (twin_view twin.now)))) }
{
    if name.as_str() == "$dtId" {
        return along_text(alloc, twin.id.as_str(), rest);
    }
    if name.as_str() == "$metadata" {
        return along_metadata(alloc, &twin.model, rest);
    }
    along_content(alloc, twin, name, rest)
}
