//! Reading a patch from a tree.

ghost use Rattle.std.specs.Prelude.{◌≡◌, ◌↔◌, ◌∷◌, [], codes, All, IfOk, IsTrue};
ghost use Rattle.json_tree.specs.Values.{array, HasDistinctKeys};
ghost use Rattle.json_tree.specs.View.{view, elements_view};
ghost use Rattle.twin_patch.specs.Operations.{change_of, operations_of, BringsDistinctKeys};
ghost use Rattle.twin_patch.specs.declared.patch.Op.{Op};
ghost use Rattle.twin_patch.specs.Reading.{IsJsonTruth, SetsTruth, IsMark, ReadsOps, ReadsPatch, end_at};
ghost use Rattle.twin_patch.specs.declared.reading.PatchEnd.TheVariants as ends;

use crate::code::PatchCode;
use crate::entry::{OpEnd, PatchOf, is_only, read_op};
use crate::patch::{Op, OpKind, Patch};
use dt_base::{List, OutOfMemory, Text};
use json_tree::Tree;
use std::alloc::{AllocError, AllocFailed, Global};
use thiserror::Error;

/// Why no patch was read.
#[derive(Clone, Copy, Debug, PartialEq, Eq, Hash, Error)]
pub enum PatchEnd {
    /// The tree is no patch: at the operation with this index, counted from 0, this code stands first, and none stands at an
    /// earlier one. `NotAList` and `NotAMark` stand at index 0.
    #[error("a patch is wrong")]
    Fault { index: u64, code: PatchCode },
    /// No memory was found, which says nothing of the tree.
    #[error("out of memory")]
    OutOfMemory,
}

impl From<OutOfMemory> for PatchEnd {
    ghost from_gives = { λ _ end. end ≡ ends.OutOfMemory };

    fn from(_error: OutOfMemory) -> PatchEnd {
        PatchEnd::OutOfMemory
    }
}

impl From<AllocError> for PatchEnd {
    ghost from_gives = { λ _ end. end ≡ ends.OutOfMemory };

    fn from(_error: AllocError) -> PatchEnd {
        PatchEnd::OutOfMemory
    }
}

impl<T: Drop> From<AllocFailed<T>> for PatchEnd {
    ghost from_gives = { λ _ end. end ≡ ends.OutOfMemory };

    fn from(_error: AllocFailed<T>) -> PatchEnd {
        PatchEnd::OutOfMemory
    }
}

/// Why the operation at an index was not read.
fn end_of(index: u64, end: OpEnd) -> PatchEnd
    ensures { result ≡ end_at index end }
{
    match end {
        OpEnd::Code(code) => PatchEnd::Fault { index, code },
        OpEnd::OutOfMemory => PatchEnd::OutOfMemory,
    }
}

/// The operations that entries are.
fn read_ops(alloc: Global, entries: &[Tree], of: PatchOf) -> Result<List<Op>, PatchEnd>
    ensures { ReadsOps of (elements_view entries.now) result }
{
    let mut ops = Vec::with_capacity(alloc, entries.len())?;
    'entries: for (index, entry) in entries.iter().enumerate() {
        match read_op(alloc, entry, of) {
            Ok(op) => ops.push(op)?,
            Err(end) => return Err(end_of(index as u64, end)),
        }
    }
    Ok(List::from_vec(ops))
}

/// Whether a member is set to a truth value.
fn sets_truth(kind: &OpKind) -> bool
    ensures { IsTrue result ↔ SetsTruth (change_of kind.now) }
{
    match kind {
        OpKind::Add(value) | OpKind::Replace(value) => is_truth(value),
        OpKind::Remove => false,
    }
}

/// Whether a value is a truth value.
fn is_truth(tree: &Tree) -> bool
    ensures { IsTrue result ↔ IsJsonTruth (view tree.now) }
{
    match tree {
        Tree::Bool(_) => true,
        Tree::Null | Tree::Number(_) | Tree::Text(_) | Tree::List(_) | Tree::Members(_) => false,
    }
}

/// Whether a path is `/decommissioned`.
fn is_mark_path(path: &[Text]) -> bool
    ensures { IsTrue result ↔ (path.now ≡ codes "decommissioned" ∷ []) }
{
    is_only(path, "decommissioned")
}

/// Whether these operations set the mark of a model.
fn is_mark(ops: &[Op]) -> bool
    ensures { IsTrue result ↔ IsMark (operations_of ops.now) }
{
    match ops {
        [op] => is_mark_path(op.path.as_slice()) && sets_truth(&op.kind),
        _ => false,
    }
}

/// The patch that a list of entries is.
fn list_patch(alloc: Global, entries: &[Tree], of: PatchOf) -> Result<Patch, PatchEnd>
    ensures { ReadsPatch of (array (elements_view entries.now)) result }
{
    let ops = read_ops(alloc, entries, of)?;
    if of == PatchOf::Model && !is_mark(ops.as_slice()) {
        return Err(PatchEnd::Fault {
            index: 0,
            code: PatchCode::NotAMark,
        });
    }
    Ok(Patch { ops })
}

/// The patch that a tree says (RFC 6902, sections 3 and 4, with `add`, `replace` and `remove` alone), or its least fault: by
/// index, and at one index in the order of the codes, which are this project's own. Other members of an operation than `op`,
/// `path` and `value` are ignored, and of equal keys the first counts. The values are copied.
#[tactic(auto, using(crate::proofs::Distinct::patch_distinct))]
pub fn read_patch(alloc: Global, tree: &Tree, of: PatchOf) -> Result<Patch, PatchEnd>
    ensures reads { ReadsPatch of (view tree.now) result }
    // What `apply` asks of a patch holds of one that was read from a tree in which no object has two members of one key.
    ensures distinct { HasDistinctKeys (view tree.now) → IfOk result (λ patch. All (λ (op : Op). BringsDistinctKeys (change_of op.kind)) patch.ops) }
{
    match tree {
        Tree::List(entries) => list_patch(alloc, entries.as_slice(), of),
        Tree::Null | Tree::Bool(_) | Tree::Number(_) | Tree::Text(_) | Tree::Members(_) => Err(
            PatchEnd::Fault {
                index: 0,
                code: PatchCode::NotAList,
            },
        ),
    }
}
