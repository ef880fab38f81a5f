//! Where the members of an interface stand.

ghost use Rattle.std.specs.Prelude.{◌≡◌, ◌≢◌, ◌↔◌, ℕ, List, Some, None, IsTrue, codes};
ghost use Rattle.json_tree.specs.Values.{text};
ghost use Rattle.json_tree.specs.View.{members_view};
ghost use Rattle.json_tree.specs.Members.{value_at};
ghost use Rattle.model_read.specs.Uploads.{HasOrdinal};

use json_tree::{Member, text_at};

/// The ordinal of the member with this key, where there is one.
pub fn ordinal_at(members: &[Member], key: &str) -> Option<u64>
    ensures { HasOrdinal key.now (members_view members.now) result }
{
    for (at, member) in members.iter().enumerate() {
        if member.key.as_str() == key {
            return Some(at as u64);
        }
    }
    None
}

/// The ordinal of a member that each such object has.
pub fn wanted_ordinal(members: &[Member], key: &str) -> u64
    requires { value_at key.now (members_view members.now) ≢ None }
    ensures { HasOrdinal key.now (members_view members.now) (Some result) }
{
    match ordinal_at(members, key) {
        Some(at) => at,
        None => unreachable!(),
    }
}

/// Whether the value under a key is a text.
pub fn has_text(members: &[Member], key: &str) -> bool
    ensures { IsTrue result ↔ ((bytes : List ℕ) × (value_at key.now (members_view members.now) ≡ Some (text bytes))) }
{
    text_at(members, key).is_some()
}
