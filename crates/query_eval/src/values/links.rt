//! Paths from relationships.

ghost use Rattle.std.specs.Prelude.{◌≡◌, IfOk};
ghost use Rattle.std.specs.Option.{option_and_then, option_copied, option_map};
ghost use Rattle.json_tree.specs.Members.{value_in};
ghost use Rattle.graph_steps.specs.bodies.Kept.{IsKeptLink};
ghost use Rattle.graph_steps.specs.held.Held.{link_of};
ghost use Rattle.graph_steps.specs.Conditions.{value_along};
ghost use Rattle.graph_steps.specs.States.{link_value};
ghost use Rattle.query_eval.specs.values.Found.{found_value};
ghost use Rattle.query_eval.specs.values.Machinery.Members.{member_text_of};

use crate::values::along::{along_held, along_text};
use crate::values::found::Found;
use dt_base::{OutOfMemory, Text};
use graph_steps::held::Stored;
use json_tree::value_in;
use rel_graph::Edge;
use std::alloc::Global;

/// The identifier or the name that a member of a relationship is, as it is printed.
fn text_of<'a>(link: &'a Edge<Stored>, name: &Text) -> Option<&'a Text>
    ensures { option_copied result ≡ member_text_of name.now (link_of link.now) }
{
    match name.as_str() {
        "$relationshipId" => Some(&link.id),
        "$relationshipName" => Some(&link.name),
        "$sourceId" => Some(&link.source),
        "$targetId" => Some(&link.target),
        _ => None,
    }
}

/// What a path leads to from a member of a relationship, as it is printed.
pub fn along_link<'a>(
    alloc: Global,
    link: &'a Edge<Stored>,
    name: &Text,
    rest: &[Text],
) -> Result<Option<Found<'a>>, OutOfMemory>
    requires { IsKeptLink (link_of link.now) }
    ensures { IfOk result (λ found. option_map found_value found ≡ option_and_then (value_along rest.now) (value_in name.now (link_value (link_of link.now)))) }
{
    if let Some(text) = text_of(link, name) {
        return along_text(alloc, text.as_str(), rest);
    }
    match value_in(&link.payload.values, name.as_str()) {
        Some(value) => Ok(along_held(value, rest)),
        None => Ok(None),
    }
}
