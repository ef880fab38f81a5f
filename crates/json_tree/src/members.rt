//! Looking into JSON values.

ghost use Rattle.std.specs.Prelude.{◌≡◌, bytes_eq, map, option_and_then};
ghost use Rattle.std.specs.Option.{option_map};
ghost use Rattle.json_tree.specs.View.{view, members_view};
ghost use Rattle.json_tree.specs.Members.{entries_in, members_in, text_in, value_at, value_in};

use crate::tree::{Member, Tree};

/// The text that a value is.
#[tactic(auto, using(crate::proofs::Views::views))]
pub fn text_in(tree: &Tree) -> Option<&str>
    ensures { option_map (λ t. t.now) result ≡ text_in (view tree.now) }
{
    match tree {
        Tree::Text(text) => Some(text.as_str()),
        Tree::Null | Tree::Bool(_) | Tree::Number(_) | Tree::List(_) | Tree::Members(_) => None,
    }
}

/// The members that a value has: none where it is no object.
#[tactic(auto, using(crate::proofs::Views::views))]
pub fn members_in(tree: &Tree) -> &[Member]
    ensures { members_view result.now ≡ members_in (view tree.now) }
{
    match tree {
        Tree::Members(members) => members.as_slice(),
        Tree::Null | Tree::Bool(_) | Tree::Number(_) | Tree::Text(_) | Tree::List(_) => &[],
    }
}

/// The elements that a value has: none where it is no array.
#[tactic(auto, using(crate::proofs::Views::views, crate::proofs::Views::lists))]
pub fn entries_in(tree: &Tree) -> &[Tree]
    ensures { map view result.now ≡ entries_in (view tree.now) }
{
    match tree {
        Tree::List(elements) => elements.as_slice(),
        Tree::Null | Tree::Bool(_) | Tree::Number(_) | Tree::Text(_) | Tree::Members(_) => &[],
    }
}

/// Whether two texts are the same. Their lengths tell most of them apart. Takes no memory.
#[tactic(auto, using(crate::proofs::Keyed::other_lengths))]
pub fn is_same(one: &str, other: &str) -> bool
    ensures { result ≡ bytes_eq one.now other.now }
{
    if one.len() != other.len() {
        return false;
    }
    one == other
}

/// The value of the first member with this key.
#[inline]
pub fn value_at<'a>(members: &'a [Member], key: &str) -> Option<&'a Tree>
    ensures { option_map (λ t. view t.now) result ≡ value_at key.now (members_view members.now) }
{
    for member in members {
        if is_same(member.key.as_str(), key) {
            return Some(&member.value);
        }
    }
    None
}

/// The text of the first member with this key.
#[inline]
pub fn text_at<'a>(members: &'a [Member], key: &str) -> Option<&'a str>
    ensures { option_map (λ t. t.now) result ≡ option_and_then text_in (value_at key.now (members_view members.now)) }
{
    match value_at(members, key) {
        Some(value) => text_in(value),
        None => None,
    }
}

/// What a value has under a key: nothing where it is no object or has no such member.
pub fn value_in<'a>(tree: &'a Tree, key: &str) -> Option<&'a Tree>
    ensures { option_map (λ t. view t.now) result ≡ value_in key.now (view tree.now) }
{
    value_at(members_in(tree), key)
}
