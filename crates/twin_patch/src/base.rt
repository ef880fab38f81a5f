//! The members that an object had before it was changed.

ghost use Rattle.std.specs.Prelude.{◌≡◌, ◌<◌, ℕ, List, length, Some, true};
ghost use Rattle.std.specs.List.Sorted.{IsSearchInRange};
ghost use Rattle.json_tree.specs.Values.{null};
ghost use Rattle.json_tree.specs.Places.{member_at};
ghost use Rattle.json_tree.specs.View.{view, members_view};
ghost use Rattle.twin_patch.specs.Machinery.Orders.{KeysRise, rises, Stands, put_at};

use json_tree::{Member, Tree};
use std::mem::replace;

/// The members that an object had, in the order of their keys.
#[derive(Drop)]
pub struct Base {
    pub members: Vec<Member>,
    pub ghost rise: { rises (members_view members.items) ≡ true },
}

/// Where the member of this key stands, or where it would stand.
pub fn place_of(members: &[Member], key: &str) -> Result<usize, usize>
    requires { KeysRise (members_view members.now) }
    ensures within { IsSearchInRange result (length members.now) }
    ensures stands { Stands key.now (members_view members.now) result }
{
    members.binary_search_by(|member| member.key.as_str().cmp(key))
}

/// Takes the value of the member at this position, which is null afterwards.
pub fn taken_at(members: &mut Vec<Member>, at: usize) -> Tree
    requires { at < length members.old.items }
    ensures left { members_view members.new.items ≡ put_at at null (members_view members.old.items) }
    ensures value { (key : List ℕ) × (member_at (members_view members.old.items) at ≡ Some (key, view result)) }
{
    replace(&mut members[at].value, Tree::Null)
}
