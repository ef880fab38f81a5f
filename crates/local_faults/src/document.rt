//! The first breach in a document.

ghost use Rattle.std.specs.Prelude.{◌≡◌, ℕ, List, IfOk, MatchOption, reverse};
ghost use Rattle.json_tree.specs.Values.{array};
ghost use Rattle.json_tree.specs.View.{view, elements_view};
ghost use Rattle.local_rules.specs.Breaches.{IsBreach, IsBroken, IsFirstBreach};
ghost use Rattle.local_rules.specs.declared.rule.LocalRule.{LocalRule};
ghost use Rattle.local_faults.specs.Machinery.Walks.{FindsFirst};

use crate::schemas::NamedSchemas;
use crate::walk::{Found, first_in};
use dt_base::{List, OutOfMemory};
use json_tree::{Place, Tree, members_in};
use local_rules::{LocalRule, MarkedRole};
use std::alloc::Global;
use std::collections::BTreeSet;

/// A breach of a local rule, at a place of a document.
#[derive(Debug, Drop)]
pub struct Breach {
    pub place: Place,
    pub rule: LocalRule,
}

/// The first breach of the local rules in a document, in preorder and at one place in the order of the rules; None
/// where it has none. The document is an interface or a list of interfaces. Takes memory for the `@id`s of one
/// interface at a time, and for the names of long lists.
pub fn first_breach(alloc: Global, tree: &Tree) -> Result<Option<Breach>, OutOfMemory>
    ensures { IfOk result (λ found. MatchOption found
        ((place : List ℕ) (broken : LocalRule) → IsBreach (view tree.now) place broken → ⊥)
        (λ b. IsFirstBreach (view tree.now) b.place.steps b.rule)) }
{
    match first_in_document(alloc, tree)? {
        Some(found) => Ok(Some(breach_of(found))),
        None => Ok(None),
    }
}

/// The breach to which a way up leads down.
fn breach_of(found: Found) -> Breach
    ensures place { result.place.steps ≡ reverse found.steps.items }
    ensures rule { result.rule ≡ found.rule }
{
    let Found { mut steps, rule } = found;
    steps.reverse();
    Breach {
        place: Place {
            steps: List::from_vec(steps),
        },
        rule,
    }
}

/// The same by the way up.
fn first_in_document(alloc: Global, tree: &Tree) -> Result<Option<Found>, OutOfMemory>
    ensures { IfOk result (FindsFirst (IsBreach (view tree.now))) }
{
    match tree {
        Tree::Members(_) => first_in_interface(alloc, tree),
        Tree::List(interfaces) => first_in_interfaces(alloc, interfaces.as_slice()),
        Tree::Null | Tree::Bool(_) | Tree::Number(_) | Tree::Text(_) => Ok(Some(Found {
            steps: Vec::new(alloc),
            rule: LocalRule::WrongKind,
        })),
    }
}

/// The same in an interface.
fn first_in_interface(alloc: Global, tree: &Tree) -> Result<Option<Found>, OutOfMemory>
    ensures { IfOk result (FindsFirst (IsBroken (view tree.now))) }
{
    let schemas = NamedSchemas::of(alloc, members_in(tree))?;
    let mut ids = BTreeSet::new(alloc);
    let mut steps = Vec::new(alloc);
    match first_in(
        tree,
        alloc,
        &schemas,
        &mut steps,
        MarkedRole::of_interface(),
        &mut ids,
    )? {
        Some(rule) => Ok(Some(Found { steps, rule })),
        None => Ok(None),
    }
}

/// The same in a list of interfaces.
fn first_in_interfaces(alloc: Global, interfaces: &[Tree]) -> Result<Option<Found>, OutOfMemory>
    ensures { IfOk result (FindsFirst (IsBreach (array (elements_view interfaces.now)))) }
{
    for (at, interface) in interfaces.iter().enumerate() {
        if let Some(found) = first_in_interface(alloc, interface)? {
            let found = found.up(at)?;
            return Ok(Some(found));
        }
    }
    Ok(None)
}
