//! The identifiers in bodies that have to be those of the path.

ghost use Rattle.std.specs.Prelude.{◌≡◌, ℕ, List, None, Some, IfOk, MatchOption};
ghost use Rattle.std.specs.Option.{option_map};
ghost use Rattle.json_tree.specs.View.{view, members_view};
ghost use Rattle.json_tree.specs.Members.{members_in, text_in};
ghost use Rattle.graph_asks.specs.declared.refusal.Refusal.TheVariants as refusals;
ghost use Rattle.graph_routes.specs.Identifiers.{difference, first_difference};
ghost use Rattle.graph_routes.specs.Machinery.Found.{path_ids};

use dt_base::{OutOfMemory, Text};
use graph_asks::Refusal;
use json_tree::{Member, Tree, members_in, text_in};
use std::alloc::Global;

/// The identifiers of a path.
#[derive(Clone, Copy)]
pub enum PathIds<'a> {
    /// Of a twin.
    Twin { id: &'a str },
    /// Of a relationship.
    Link { source: &'a str, id: &'a str },
}

/// The identifier of the path that a member with this key has to give.
fn wanted<'a>(ids: PathIds<'a>, key: &str) -> Option<&'a str>
    ensures { option_map (λ t. t.now) result ≡ path_ids ids.entry key.now }
{
    match ids {
        PathIds::Twin { id } => {
            if key == "$dtId" {
                return Some(id);
            }
            None
        }
        PathIds::Link { source, id } => {
            if key == "$relationshipId" {
                return Some(id);
            }
            if key == "$sourceId" {
                return Some(source);
            }
            None
        }
    }
}

/// The text of a member and that of the path, where they differ.
fn difference<'a>(member: &'a Member, ids: PathIds<'a>) -> Option<(&'a str, &'a str)>
    ensures { option_map (λ p. (p.0.now, p.1.now)) result ≡ difference (text_in (view member.now.value)) (path_ids ids.entry member.now.key) }
{
    let given = text_in(&member.value)?;
    let path = wanted(ids, member.key.as_str())?;
    if given == path {
        return None;
    }
    Some((given, path))
}

/// The first difference among members.
fn first_difference<'a>(members: &'a [Member], ids: PathIds<'a>) -> Option<(&'a str, &'a str)>
    ensures { option_map (λ p. (p.0.now, p.1.now)) result ≡ first_difference (path_ids ids.entry) (members_view members.now) }
{
    'members: for member in members {
        if let Some(found) = difference(member, ids) {
            return Some(found);
        }
    }
    None
}

/// The refusal of a body that gives another identifier than the path; none where it gives none. Only want of memory makes
/// it fail.
pub fn difference_refusal(
    alloc: Global,
    tree: &Tree,
    ids: PathIds<'_>,
) -> Result<Option<Refusal>, OutOfMemory>
    ensures { IfOk result (λ refusal. MatchOption refusal (first_difference (path_ids ids.entry) (members_in (view tree.now)) ≡ None)
        (λ r. (given path : List ℕ) × (first_difference (path_ids ids.entry) (members_in (view tree.now)) ≡ Some (given, path)) × (r ≡ refusals.IdDiffers given path))) }
{
    match first_difference(members_in(tree), ids) {
        Some((given, path)) => {
            let given = Text::from_str(alloc, given)?;
            let path = Text::from_str(alloc, path)?;
            Ok(Some(Refusal::IdDiffers { given, path }))
        }
        None => Ok(None),
    }
}
