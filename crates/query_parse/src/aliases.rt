//! Whether names are bound, and whether they are bound twice.

ghost use Rattle.std.specs.Prelude.{◌≡◌, ℕ, min, List, ◌++◌, []};
ghost use Rattle.query_terms.specs.Queries.{asked};
ghost use Rattle.query_grammar.specs.Bindings.{is_name_among, is_target, is_source_alias, is_twin, is_bound, place_if, repeats_behind, repeated_places, unbound};
ghost use Rattle.query_parse.specs.Machinery.Reached.{LeastOf};

use dt_base::Text;
use query_grammar::{Notes, PlacedName, Referent, Use};
use query_terms::{Join, Query};

/// The lesser of two bytes.
fn lesser(one: u32, other: u32) -> u32
    ensures { result ≡ min one other }
{
    if one < other { one } else { other }
}

/// The least of two bytes, where there are any.
fn least(one: Option<u32>, other: Option<u32>) -> Option<u32>
    ensures { (xs ys : List ℕ) → LeastOf xs one → LeastOf ys other → LeastOf (xs ++ ys) result }
{
    match (one, other) {
        (Some(one), Some(other)) => Some(lesser(one, other)),
        (Some(one), None) => Some(one),
        (None, other) => other,
    }
}

fn is_among(names: &[PlacedName], name: &Text) -> bool
    ensures { result ≡ is_name_among names.now name.now }
{
    names.iter().any(|placed| placed.name == *name)
}

/// The byte, where the test holds.
fn only(holds: bool, at: u32) -> Option<u32>
    ensures { LeastOf (place_if holds at) result }
{
    if holds { Some(at) } else { None }
}

/// The least byte of a name that an earlier one of the list is.
fn first_repeat(names: &[PlacedName]) -> Option<u32>
    ensures { LeastOf (repeats_behind [] names.now) result }
{
    let mut found = None;
    'names: for (position, placed) in names.iter().enumerate() {
        let repeated = is_among(&names[..position], &placed.name);
        found = least(found, only(repeated, placed.at));
    }
    found
}

/// The least byte of an alias or of an item's name that stands twice.
pub(crate) fn twice(notes: &Notes) -> Option<u32>
    ensures { LeastOf (repeated_places notes.now) result }
{
    least(
        first_repeat(notes.aliases.as_slice()),
        first_repeat(notes.outputs.as_slice()),
    )
}

/// Whether a join's target has the name.
fn is_target(joins: &[Join], name: &Text) -> bool
    ensures { result ≡ is_target joins.now name.now }
{
    joins.iter().any(|join| join.target == *name)
}

/// Whether the alias is there and the name.
fn is_source(alias: &Option<Text>, name: &Text) -> bool
    ensures { result ≡ is_source_alias alias.now name.now }
{
    match alias {
        Some(alias) => *alias == *name,
        None => false,
    }
}

/// Whether a name is bound to a twin by the source or by one of so many joins.
fn is_twin(query: &Query, joins: usize, name: &Text) -> bool
    ensures { result ≡ is_twin (asked query.now) joins name.now }
{
    if query.relationships {
        return false;
    }
    if is_source(&query.alias, name) {
        return true;
    }
    let all = query.joins.as_slice();
    let count = joins.min(all.len());
    is_target(&all[..count], name)
}

/// Whether a use of a name is bound as it has to be.
fn is_bound(query: &Query, aliases: &[PlacedName], used: &Use) -> bool
    ensures { result ≡ is_bound (asked query.now) aliases.now used.now }
{
    let name = &used.placed.name;
    match used.referent {
        Referent::Path => {
            if query.alias.is_none() {
                return true;
            }
            is_among(aliases, name)
        }
        Referent::Source(before) => {
            if query.alias.is_none() {
                return false;
            }
            is_twin(query, before, name)
        }
        Referent::Model => is_twin(query, query.joins.len(), name),
        Referent::Bare => !query.relationships,
    }
}

/// The least byte of a use of a name that is not bound.
pub(crate) fn unknown(query: &Query, notes: &Notes) -> Option<u32>
    ensures { LeastOf (unbound (asked query.now) notes.now) result }
{
    let mut found = None;
    'uses: for used in notes.uses.as_slice() {
        let bound = is_bound(query, notes.aliases.as_slice(), used);
        found = least(found, only(!bound, used.placed.at));
    }
    found
}
