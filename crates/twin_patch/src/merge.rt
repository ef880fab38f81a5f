//! The tree of a value under changes.

ghost use Rattle.std.specs.Prelude.{◌≡◌, ◌↔◌, ◌∷◌, List, ℕ, Some, IfOk, OnOk, IsTrue};
ghost use Rattle.json_tree.specs.Values.{Json, Members, object};
ghost use Rattle.json_decimal.specs.Number.{Number};
ghost use Rattle.json_tree.specs.View.{view, members_view};
ghost use Rattle.twin_patch.specs.declared.draft.Draft.{Draft};
ghost use Rattle.twin_patch.specs.Machinery.Orders.{IsBeforeAll, KeysRise};
ghost use Rattle.twin_patch.specs.Machinery.Drafts.{overlaid, draft_view, both, members_behind, front, IsFrontBefore, IsFrontAt, IsPast, AreAfter};

use crate::base::Base;
use crate::draft::Draft;
use dt_base::{List, OutOfMemory, Text};
use json_tree::{Member, Tree};
use std::alloc::Global;
use std::cmp::Ordering;
use std::collections::{BTreeMap, VecDeque};

/// Whether the first of some members comes before a key.
fn is_front_before(members: &VecDeque<Member>, key: &Text) -> bool
    ensures { IsTrue result ↔ IsFrontBefore key.now (members_view members.now.items) }
{
    match members.front() {
        Some(member) => member.key.as_str().cmp(key.as_str()) == Ordering::Less,
        None => false,
    }
}

/// Whether the first of some members is that of a key.
fn is_front_at(members: &VecDeque<Member>, key: &Text) -> bool
    ensures { IsTrue result ↔ IsFrontAt key.now (members_view members.now.items) }
{
    match members.front() {
        Some(member) => member.key == *key,
        None => false,
    }
}

/// Moves the members that come before a key.
fn pass(
    members: &mut VecDeque<Member>,
    out: &mut Vec<Member>,
    key: &Text,
) -> Result<(), OutOfMemory>
    requires { KeysRise (members_view members.old.items) }
    ensures rise { KeysRise (members_view members.new.items) }
    ensures past { OnOk result (IsPast key.now (members_view members.new.items)) }
    ensures same { OnOk result ((x : Draft) (more : List (List ℕ × Draft)) → AreAfter key.now more
        → members_behind out.new.items (overlaid draft_view ((key.now, x) ∷ more) (members_view members.new.items)) ≡ members_behind out.old.items (overlaid draft_view ((key.now, x) ∷ more) (members_view members.old.items))) }
{
    'moves: while is_front_before(members, key) {
        match members.pop_front() {
            Some(member) => out.push(member)?,
            None => return Ok(()),
        }
    }
    Ok(())
}

/// Drops the first of some members where it is that of a key.
fn skip(members: &mut VecDeque<Member>, key: &Text)
    requires rise { KeysRise (members_view members.old.items) }
    requires past { IsPast key.now (members_view members.old.items) }
    ensures rise { KeysRise (members_view members.new.items) }
    ensures before { IsBeforeAll key.now (members_view members.new.items) }
    ensures same { (x : Draft) (more : List (List ℕ × Draft)) → AreAfter key.now more
        → overlaid draft_view ((key.now, x) ∷ more) (members_view members.old.items) ≡ front key.now (draft_view x) (overlaid draft_view more (members_view members.new.items)) }
{
    if is_front_at(members, key) {
        let _member = members.pop_front();
    }
}

/// The object of these members.
#[tactic(auto, using(crate::proofs::Steps::view_object))]
fn object_of(members: Vec<Member>) -> Tree
    ensures { view result ≡ object (members_view members.items) }
{
    Tree::Members(List::from_vec(members))
}

/// The tree of a value under changes; where there is no value, any.
pub fn closed(alloc: Global, draft: Draft) -> Result<Tree, OutOfMemory>
    ensures { IfOk result (λ t. (v : Json) → draft_view draft ≡ Some v → view t ≡ v) }
{
    match draft {
        Draft::Absent => Ok(Tree::Null),
        Draft::Whole(tree) => Ok(tree),
        Draft::Edited(base, edits) => {
            let members = merged(alloc, base, edits)?;
            Ok(object_of(members))
        }
    }
}

/// The members of an object, with what was changed among them.
#[cycle(closes)]
fn merged(
    alloc: Global,
    base: Base,
    edits: BTreeMap<Text, Draft>,
) -> Result<Vec<Member>, OutOfMemory>
    ensures { IfOk result (λ ms. members_view ms.items ≡ both base edits) }
{
    let mut out = Vec::with_capacity(alloc, base.members.len().saturating_add(edits.len()))?;
    let mut members = VecDeque::from(base.members);
    'edits: for (key, entry) in edits {
        pass(&mut members, &mut out, &key)?;
        skip(&mut members, &key);
        close_into(alloc, &mut out, key, entry)?;
    }
    let mut rest = Vec::from(members);
    out.append(&mut rest)?;
    Ok(out)
}

/// Adds the member of this key, where it has a value.
#[cycle(closes)]
fn close_into(
    alloc: Global,
    out: &mut Vec<Member>,
    key: Text,
    entry: Draft,
) -> Result<(), OutOfMemory>
    ensures { OnOk result ((ms : Members Number) → members_behind out.new.items ms ≡ members_behind out.old.items (front key (draft_view entry) ms)) }
{
    match entry {
        Draft::Absent => Ok(()),
        Draft::Whole(value) => {
            out.push(Member { key, value })?;
            Ok(())
        }
        Draft::Edited(base, edits) => {
            let members = merged(alloc, base, edits)?;
            let value = object_of(members);
            out.push(Member { key, value })?;
            Ok(())
        }
    }
}
