//! Applying a patch to a tree.

ghost use Rattle.std.specs.Prelude.{◌≡◌, ◌∷◌, Some, All, IfOk, IfSome, option_and_then};
ghost use Rattle.std.specs.Option.{option_map};
ghost use Rattle.json_tree.specs.Values.{Json, object, HasDistinctKeys};
ghost use Rattle.json_tree.specs.View.{view};
ghost use Rattle.twin_patch.specs.Objects.{with_member, sorted_value};
ghost use Rattle.twin_patch.specs.Operations.{replace, remove, change_of, operation_of, operations_of, BringsDistinctKeys};
ghost use Rattle.twin_patch.specs.Patched.{edited, changed_value, applied, patched, patched_from, GivesPatched};
ghost use Rattle.twin_patch.specs.declared.application.ApplyEnd.TheVariants as ends;
ghost use Rattle.twin_patch.specs.Machinery.Orders.{IsInOrder, AreInOrder};
ghost use Rattle.twin_patch.specs.Machinery.Drafts.{draft_view, both};

use crate::base::Base;
use crate::draft::{Draft, has, is_there, set, taken};
use crate::merge::closed;
use crate::patch::{Op, OpKind, Patch};
use dt_base::{OutOfMemory, Text};
use json_tree::{Tree, sorted};
use std::alloc::Global;
use std::collections::BTreeMap;
use thiserror::Error;

/// Why a patch was not applied.
#[derive(Clone, Copy, Debug, PartialEq, Eq, Hash, Error)]
pub enum ApplyEnd {
    /// The first operation whose need is not met stands at this index of the patch, counted from 0.
    #[error("operation {index} has no target")]
    NoTarget { index: u64 },
    #[error("out of memory")]
    OutOfMemory,
}

impl From<OutOfMemory> for ApplyEnd {
    ghost from_gives = { λ _ end. end ≡ ends.OutOfMemory };

    fn from(_error: OutOfMemory) -> ApplyEnd {
        ApplyEnd::OutOfMemory
    }
}

/// A copy of a tree with the members of each object in order.
#[tactic(auto, using(crate::proofs::Sorted::sorted_is))]
fn sorted_copy(alloc: Global, tree: &Tree) -> Result<Tree, OutOfMemory>
    requires { HasDistinctKeys (view tree.now) }
    ensures { IfOk result (λ t. view t ≡ sorted_value (view tree.now)) }
{
    sorted(alloc, tree)
}

/// The object in which a key has a value that is brought, sorted.
fn brought(
    alloc: Global,
    base: Base,
    edits: BTreeMap<Text, Draft>,
    key: &Text,
    value: &Tree,
) -> Result<Draft, OutOfMemory>
    requires { HasDistinctKeys (view value.now) }
    ensures { IfOk result (λ d. draft_view d ≡ Some (object (with_member key.now (sorted_value (view value.now)) (both base edits)))) }
{
    let value = sorted_copy(alloc, value)?;
    set(alloc, base, edits, key, Draft::Whole(value))
}

/// An object in which a key that has a value has another one; none where it has no value.
fn replaced(
    alloc: Global,
    base: Base,
    edits: BTreeMap<Text, Draft>,
    key: &Text,
    value: &Tree,
) -> Result<Draft, OutOfMemory>
    requires { HasDistinctKeys (view value.now) }
    ensures { IfOk result (λ d. draft_view d ≡ option_map object (edited (replace (view value.now)) key.now (both base edits))) }
{
    if has(&base, &edits, key) {
        return brought(alloc, base, edits, key, value);
    }
    Ok(Draft::Absent)
}

/// An object in which a key that has a value has none; none where it has no value.
fn removed(
    alloc: Global,
    base: Base,
    edits: BTreeMap<Text, Draft>,
    key: &Text,
) -> Result<Draft, OutOfMemory>
    ensures { IfOk result (λ d. draft_view d ≡ option_map object (edited remove key.now (both base edits))) }
{
    if has(&base, &edits, key) {
        return set(alloc, base, edits, key, Draft::Absent);
    }
    Ok(Draft::Absent)
}

/// An object after a change of the member of this key; none where what it needs is not met.
fn edited(
    alloc: Global,
    base: Base,
    edits: BTreeMap<Text, Draft>,
    key: &Text,
    kind: &OpKind,
) -> Result<Draft, OutOfMemory>
    requires { BringsDistinctKeys (change_of kind.now) }
    ensures { IfOk result (λ d. draft_view d ≡ option_map object (edited (change_of kind.now) key.now (both base edits))) }
{
    match kind {
        OpKind::Add(value) => brought(alloc, base, edits, key, value),
        OpKind::Replace(value) => replaced(alloc, base, edits, key, value),
        OpKind::Remove => removed(alloc, base, edits, key),
    }
}

/// A value after a change at the path that begins with this key; none where what it needs is not met.
#[cycle(changes)]
fn changed(
    alloc: Global,
    draft: Draft,
    key: &Text,
    rest: &[Text],
    kind: &OpKind,
) -> Result<Draft, OutOfMemory>
    requires order { IfSome (draft_view draft) IsInOrder }
    requires distinct { BringsDistinctKeys (change_of kind.now) }
    ensures { IfOk result (λ d. draft_view d ≡ option_and_then (changed_value (change_of kind.now) key.now rest.now) (draft_view draft)) }
{
    match draft {
        Draft::Absent => Ok(Draft::Absent),
        Draft::Whole(tree) => changed_tree(alloc, tree, key, rest, kind),
        Draft::Edited(base, edits) => changed_object(alloc, base, edits, key, rest, kind),
    }
}

/// A value that was whole, after such a change.
#[cycle(changes)]
fn changed_tree(
    alloc: Global,
    tree: Tree,
    key: &Text,
    rest: &[Text],
    kind: &OpKind,
) -> Result<Draft, OutOfMemory>
    requires order { IsInOrder (view tree) }
    requires distinct { BringsDistinctKeys (change_of kind.now) }
    ensures { IfOk result (λ d. draft_view d ≡ changed_value (change_of kind.now) key.now rest.now (view tree)) }
{
    match tree {
        Tree::Members(members) => {
            let base = Base {
                members: members.items,
            };
            changed_object(alloc, base, BTreeMap::new(alloc), key, rest, kind)
        }
        Tree::Null | Tree::Bool(_) | Tree::Number(_) | Tree::Text(_) | Tree::List(_) => Ok(
            Draft::Absent,
        ),
    }
}

/// An object after such a change.
#[cycle(changes)]
fn changed_object(
    alloc: Global,
    base: Base,
    edits: BTreeMap<Text, Draft>,
    key: &Text,
    rest: &[Text],
    kind: &OpKind,
) -> Result<Draft, OutOfMemory>
    requires order { AreInOrder (both base edits) }
    requires distinct { BringsDistinctKeys (change_of kind.now) }
    ensures { IfOk result (λ d. draft_view d ≡ changed_value (change_of kind.now) key.now rest.now (object (both base edits))) }
{
    match rest.split_first() {
        None => edited(alloc, base, edits, key, kind),
        Some((next, rest)) => changed_below(alloc, base, edits, key, next, rest, kind),
    }
}

/// An object after a change below the member of this key.
#[cycle(changes)]
fn changed_below(
    alloc: Global,
    base: Base,
    mut edits: BTreeMap<Text, Draft>,
    key: &Text,
    next: &Text,
    rest: &[Text],
    kind: &OpKind,
) -> Result<Draft, OutOfMemory>
    requires order { AreInOrder (both base edits) }
    requires distinct { BringsDistinctKeys (change_of kind.now) }
    ensures { IfOk result (λ d. draft_view d ≡ changed_value (change_of kind.now) key.now (next.now ∷ rest.now) (object (both base edits))) }
{
    let (base, part) = taken(base, &mut edits, key);
    let part = changed(alloc, part, next, rest, kind)?;
    if !is_there(&part) {
        return Ok(Draft::Absent);
    }
    set(alloc, base, edits, key, part)
}

/// A value after an operation; none where what it needs is not met.
fn applied(alloc: Global, draft: Draft, op: &Op) -> Result<Draft, OutOfMemory>
    requires order { IfSome (draft_view draft) IsInOrder }
    requires distinct { BringsDistinctKeys (change_of op.now.kind) }
    ensures { IfOk result (λ d. draft_view d ≡ option_and_then (applied (operation_of op.now)) (draft_view draft)) }
{
    match op.path.as_slice().split_first() {
        None => Ok(Draft::Absent),
        Some((key, rest)) => changed(alloc, draft, key, rest, &op.kind),
    }
}

/// The tree that a patch makes of another, with the members of each object, at every depth, in the order of the bytes of
/// their keys. The operations are made one after another, on objects as finite maps (RFC 6902, sections 3 to 5): `add` needs
/// its parent to be an object and sets the member, `replace` and `remove` need the member. A list is no target, which is
/// this project's own, and a path without parts has none.
///
/// The tree that was lent stays as it was, whatever is answered: the operations are made on one sorted copy, and what comes,
/// goes or changes in an object is kept beside its members until the end. So the copy is made once, each operation costs what
/// the way down its path costs, and an object that was changed is written anew once.
pub fn apply(alloc: Global, tree: &Tree, patch: &Patch) -> Result<Tree, ApplyEnd>
    requires distinct { HasDistinctKeys (view tree.now) }
    requires brought { All (λ (op : Op). BringsDistinctKeys (change_of op.kind)) patch.now.ops }
    ensures { GivesPatched result (patched (operations_of patch.now.ops) (view tree.now)) }
{
    let copy = sorted_copy(alloc, tree)?;
    apply_in_order(alloc, copy, patch)
}

/// The same of a tree whose members stand in that order already, at every depth: it is the sorted form of some value. The
/// tree is taken, and changed in place of a copy; where an operation has no target, and for want of memory, it is let go.
pub fn apply_in_order(alloc: Global, tree: Tree, patch: &Patch) -> Result<Tree, ApplyEnd>
    requires order { (v : Json) × (view tree ≡ sorted_value v) }
    requires brought { All (λ (op : Op). BringsDistinctKeys (change_of op.kind)) patch.now.ops }
    ensures { GivesPatched result (patched_from 0 (operations_of patch.now.ops) (view tree)) }
{
    let mut patched = Draft::Whole(tree);
    'operations: for (index, op) in patch.ops.as_slice().iter().enumerate() {
        patched = applied(alloc, patched, op)?;
        if !is_there(&patched) {
            return Err(ApplyEnd::NoTarget {
                index: index as u64,
            });
        }
    }
    let tree = closed(alloc, patched)?;
    Ok(tree)
}
