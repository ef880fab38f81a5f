//! The walk over one interface, in preorder.

ghost use Rattle.std.specs.Prelude.{◌≡◌, [], ◌∷◌, ◌++◌, IfOk, Some};
ghost use Rattle.json_tree.specs.Values.{array, object};
ghost use Rattle.json_tree.specs.View.{view, elements_view, members_view};
ghost use Rattle.local_faults.specs.Machinery.Walks.{Walks, WalksClear, WalksPart, found_by};

use crate::ids::judge;
use crate::schemas::NamedSchemas;
use dt_base::OutOfMemory;
use json_tree::{Member, Tree};
use local_rules::{EntryMarks, LocalRule, MarkedRole, element_of};
use std::alloc::Global;
use std::collections::BTreeSet;

/// The way up from a breach, and its rule.
#[derive(Drop)]
pub struct Found {
    pub steps: Vec<u64>,
    pub rule: LocalRule,
}

impl Found {
    /// The same breach, seen from the value in which this part stands.
    pub fn up(mut self, at: usize) -> Result<Found, OutOfMemory>
        ensures { IfOk result (λ found. (found.steps.items ≡ self.steps.items ++ at ∷ []) × (found.rule ≡ self.rule)) }
    {
        self.steps.push(at as u64)?;
        Ok(self)
    }
}

/// The rule of a breach, where `steps` has the way up from it to a part: it leads to the value with the part now.
#[inline(never)]
fn way_up(
    steps: &mut Vec<u64>,
    at: usize,
    rule: LocalRule,
) -> Result<Option<LocalRule>, OutOfMemory>
    ensures { IfOk result (λ found. (found ≡ Some rule) × (steps.new.items ≡ steps.old.items ++ at ∷ [])) }
{
    steps.push(at as u64)?;
    Ok(Some(rule))
}

/// The rule of the first breach in a value that stands in a marked role, where the set has the `@id`s before it.
/// `steps` has the way up from the breach then.
#[cycle(walk)]
pub fn first_in<'a>(
    tree: &'a Tree,
    alloc: Global,
    schemas: &NamedSchemas<'a>,
    steps: &mut Vec<u64>,
    marked: MarkedRole,
    ids: &mut BTreeSet<&'a str>,
) -> Result<Option<LocalRule>, OutOfMemory>
    ensures { IfOk result (λ rule. Walks (members_view schemas.now) ids.old ids.new marked (view tree.now) (found_by steps.new rule)) }
{
    if let Some(rule) = judge(schemas, marked, tree, ids)? {
        steps.clear();
        return Ok(Some(rule));
    }
    match tree {
        Tree::Null | Tree::Bool(_) | Tree::Number(_) | Tree::Text(_) => Ok(None),
        Tree::List(entries) => {
            first_in_entries(entries.as_slice(), alloc, schemas, steps, marked, ids)
        }
        Tree::Members(members) => {
            first_in_members(members.as_slice(), alloc, schemas, steps, marked, ids)
        }
    }
}

/// The same in a part; what has no role breaks nothing.
#[cycle(walk)]
fn first_in_part<'a>(
    tree: &'a Tree,
    alloc: Global,
    schemas: &NamedSchemas<'a>,
    steps: &mut Vec<u64>,
    marked: Option<MarkedRole>,
    ids: &mut BTreeSet<&'a str>,
) -> Result<Option<LocalRule>, OutOfMemory>
    ensures { IfOk result (λ rule. WalksPart (members_view schemas.now) ids.old ids.new marked (view tree.now) (found_by steps.new rule)) }
{
    match marked {
        Some(marked) => first_in(tree, alloc, schemas, steps, marked, ids),
        None => Ok(None),
    }
}

/// The same in the members of an object that breaks no rule itself.
#[cycle(walk)]
#[inline(never)]
fn first_in_members<'a>(
    members: &'a [Member],
    alloc: Global,
    schemas: &NamedSchemas<'a>,
    steps: &mut Vec<u64>,
    marked: MarkedRole,
    ids: &mut BTreeSet<&'a str>,
) -> Result<Option<LocalRule>, OutOfMemory>
    ensures { IfOk result (λ rule. WalksClear (members_view schemas.now) ids.old ids.new marked (object (members_view members.now)) (found_by steps.new rule)) }
{
    let element = element_of(marked.role, members);
    for (at, member) in members.iter().enumerate() {
        let part = marked.of_member(element, members, member.key.as_str());
        if let Some(rule) = first_in_part(&member.value, alloc, schemas, steps, part, ids)? {
            return way_up(steps, at, rule);
        }
    }
    Ok(None)
}

/// The same in the entries of a list that breaks no rule itself.
#[cycle(walk)]
#[inline(never)]
fn first_in_entries<'a>(
    entries: &'a [Tree],
    alloc: Global,
    schemas: &NamedSchemas<'a>,
    steps: &mut Vec<u64>,
    marked: MarkedRole,
    ids: &mut BTreeSet<&'a str>,
) -> Result<Option<LocalRule>, OutOfMemory>
    ensures { IfOk result (λ rule. WalksClear (members_view schemas.now) ids.old ids.new marked (array (elements_view entries.now)) (found_by steps.new rule)) }
{
    let marks = EntryMarks::of(alloc, marked.role, entries)?;
    for (at, entry) in entries.iter().enumerate() {
        let part = marks.at(at);
        if let Some(rule) = first_in_part(entry, alloc, schemas, steps, part, ids)? {
            return way_up(steps, at, rule);
        }
    }
    Ok(None)
}
