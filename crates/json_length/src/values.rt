//! The lengths of the texts of values.

ghost use Rattle.std.specs.Prelude.{◌≡◌, ◌+◌, ◌<◌, length, MatchOption};
ghost use Rattle.json_tree.specs.Printing.{printed, printed_elements, printed_members};
ghost use Rattle.json_tree.specs.View.{view, elements_view, members_view};
ghost use Rattle.json_length.specs.Lengths.{elements_length, members_length};

use crate::numbers::number_length;
use crate::spending::spent;
use crate::texts::left_after_text;
use json_tree::{Member, Tree};

/// What is left of so many bytes behind the text of a value as `json_tree::print` writes it; None exactly where the text
/// has more. Takes no memory. The call goes down as deep as the tree nests.
#[cycle(counts)]
pub fn left_after(left: u64, tree: &Tree) -> Option<u64>
    ensures { MatchOption result (left < length (printed (view tree.now))) (λ rest. rest + length (printed (view tree.now)) ≡ left) }
{
    match tree {
        Tree::Null | Tree::Bool(true) => spent(left, 4),
        Tree::Bool(false) => spent(left, 5),
        Tree::Number(decimal) => spent(left, number_length(decimal)),
        Tree::Text(text) => left_after_text(left, text.as_str()),
        Tree::List(items) => left_after_array(left, items.as_slice()),
        Tree::Members(members) => left_after_object(left, members.as_slice()),
    }
}

/// The same of an array. Behind the last element the bracket stands for its comma.
#[cycle(counts)]
fn left_after_array(left: u64, items: &[Tree]) -> Option<u64>
    ensures { MatchOption result
        (left < 1 + length (printed_elements (elements_view items.now)))
        (λ rest. rest + (1 + length (printed_elements (elements_view items.now))) ≡ left) }
{
    if items.is_empty() {
        return spent(left, 2);
    }
    left_after_elements(spent(left, 1)?, items)
}

/// The same of an object.
#[cycle(counts)]
fn left_after_object(left: u64, members: &[Member]) -> Option<u64>
    ensures { MatchOption result
        (left < 1 + length (printed_members (members_view members.now)))
        (λ rest. rest + (1 + length (printed_members (members_view members.now))) ≡ left) }
{
    if members.is_empty() {
        return spent(left, 2);
    }
    left_after_members(spent(left, 1)?, members)
}

/// What is left of so many bytes behind elements, each with one comma.
#[cycle(counts)]
fn left_after_elements(left: u64, items: &[Tree]) -> Option<u64>
    ensures { MatchOption result
        (left < elements_length (elements_view items.now))
        (λ rest. rest + elements_length (elements_view items.now) ≡ left) }
{
    let mut rest = left;
    for item in items {
        rest = spent(left_after(rest, item)?, 1)?;
    }
    Some(rest)
}

/// What is left of so many bytes behind members, each with its colon and one comma; None exactly where these have more.
/// Takes no memory. The call goes down as deep as the values nest.
#[cycle(counts)]
pub fn left_after_members(left: u64, members: &[Member]) -> Option<u64>
    ensures { MatchOption result
        (left < members_length (members_view members.now))
        (λ rest. rest + members_length (members_view members.now) ≡ left) }
{
    let mut rest = left;
    for member in members {
        let behind_key = left_after_text(rest, member.key.as_str())?;
        let behind_value = left_after(behind_key, &member.value)?;
        rest = spent(behind_value, 2)?;
    }
    Some(rest)
}
