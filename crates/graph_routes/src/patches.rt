//! Patches in bodies.

ghost use Rattle.std.specs.Prelude.{IfOk, MatchResult};
ghost use Rattle.json_tree.specs.View.{view};
ghost use Rattle.twin_patch.specs.Operations.{operations_of};
ghost use Rattle.twin_patch.specs.Reading.{IsPatch};
ghost use Rattle.graph_routes.specs.Bodies.{RefusesPatch};
ghost use Rattle.graph_routes.specs.Machinery.Found.{ReadsPatchBody};

use crate::bodies::fault_refusal;
use dt_base::{OutOfMemory, Text};
use graph_asks::Refusal;
use json_read::read;
use json_tree::Tree;
use std::alloc::Global;
use twin_patch::{Patch, PatchEnd, PatchOf, read_patch};

/// The patch that a value is, or the refusal of one that is none.
fn patch_of(alloc: Global, tree: &Tree, of: PatchOf) -> Result<Result<Patch, Refusal>, OutOfMemory>
    ensures { IfOk result (λ found. MatchResult found (λ patch. IsPatch of (view tree.now) (operations_of patch.ops)) (RefusesPatch of (view tree.now))) }
{
    match read_patch(alloc, tree, of) {
        Ok(patch) => Ok(Ok(patch)),
        Err(PatchEnd::Fault { index, code }) => Ok(Err(Refusal::PatchFault {
            fault: Text::from_str(alloc, code.text())?,
            index,
        })),
        Err(PatchEnd::OutOfMemory) => Err(OutOfMemory),
    }
}

/// The patch that a body is, or the refusal of one that is none. Only want of memory makes it fail.
pub fn patch_in(
    alloc: Global,
    body: &[u8],
    of: PatchOf,
) -> Result<Result<Patch, Refusal>, OutOfMemory>
    ensures { IfOk result (ReadsPatchBody of body.now) }
{
    match read(alloc, body) {
        Ok(tree) => patch_of(alloc, &tree, of),
        Err(fault) => Ok(Err(fault_refusal(alloc, body, &fault)?)),
    }
}
