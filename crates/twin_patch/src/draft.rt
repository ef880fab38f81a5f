//! A value under changes, of which each object keeps what was changed beside what it had.

ghost use Rattle.std.specs.Prelude.{◌≡◌, ℕ, List, Some, false, is_some, bytes_eq, IfOk};
ghost use Rattle.json_tree.specs.Values.{Json, object};
ghost use Rattle.json_tree.specs.View.{members_view};
ghost use Rattle.twin_patch.specs.Objects.{value_under, with_member};
ghost use Rattle.twin_patch.specs.Machinery.Drafts.{put_entry, draft_view, both};

use crate::base::{Base, place_of, taken_at};
use dt_base::{OutOfMemory, Text};
use json_tree::Tree;
use std::alloc::Global;
use std::collections::BTreeMap;

/// A value under changes.
#[derive(Drop)]
#[cycle(draft)]
pub enum Draft {
    /// No value.
    Absent,
    /// A value that is as it was.
    Whole(Tree),
    /// An object that had these members, and what the changed ones have now.
    Edited(Base, BTreeMap<Text, Draft>),
}

/// Whether there is a value.
pub fn is_there(draft: &Draft) -> bool
    ensures { result ≡ is_some (draft_view draft.now) }
{
    match draft {
        Draft::Absent => false,
        Draft::Whole(_) | Draft::Edited(_, _) => true,
    }
}

/// Takes the value that a key had, which no one looks at any more.
fn taken_from_base(base: Base, key: &Text) -> (Base, Draft)
    ensures value { draft_view result.1 ≡ value_under key.now (members_view base.members.items) }
    ensures others { (k : List ℕ) → bytes_eq key.now k ≡ false → value_under k (members_view result.0.members.items) ≡ value_under k (members_view base.members.items) }
{
    let mut members = base.members;
    match place_of(members.as_slice(), key.as_str()) {
        Ok(at) => {
            let tree = taken_at(&mut members, at);
            (Base { members }, Draft::Whole(tree))
        }
        Err(_) => (Base { members }, Draft::Absent),
    }
}

/// Takes the value of a key, which has to be set again.
pub fn taken(base: Base, edits: &mut BTreeMap<Text, Draft>, key: &Text) -> (Base, Draft)
    ensures value { draft_view result.1 ≡ value_under key.now (both base edits.old) }
    ensures rest { (v : Json) → with_member key.now v (both result.0 edits.new) ≡ with_member key.now v (both base edits.old) }
{
    match edits.remove(key) {
        Some(entry) => (base, entry),
        None => taken_from_base(base, key),
    }
}

/// Whether a key has a value.
pub fn has(base: &Base, edits: &BTreeMap<Text, Draft>, key: &Text) -> bool
    ensures { result ≡ is_some (value_under key.now (both base.now edits.now)) }
{
    match edits.get(key) {
        Some(entry) => is_there(entry),
        None => place_of(base.members.as_slice(), key.as_str()).is_ok(),
    }
}

/// The object in which a key has this value, or none.
pub fn set(
    alloc: Global,
    base: Base,
    mut edits: BTreeMap<Text, Draft>,
    key: &Text,
    entry: Draft,
) -> Result<Draft, OutOfMemory>
    ensures { IfOk result (λ d. draft_view d ≡ Some (object (put_entry key.now (draft_view entry) (both base edits)))) }
{
    let key = key.copy(alloc)?;
    let _old = edits.insert(key, entry)?;
    Ok(Draft::Edited(base, edits))
}
