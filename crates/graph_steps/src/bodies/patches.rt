//! Patches of what is printed.

ghost use Rattle.std.specs.Prelude.{◌≡◌, Ok, codes, IfOk, MatchResult};
ghost use Rattle.json_tree.specs.Values.{HasDistinctKeys};
ghost use Rattle.json_tree.specs.View.{view};
ghost use Rattle.twin_patch.specs.Operations.{operations_of};
ghost use Rattle.twin_patch.specs.Patched.{patched_from};
ghost use Rattle.twin_patch.specs.declared.entry.PatchOf.{PatchOf};
ghost use Rattle.graph_asks.specs.declared.refusal.Refusal.TheVariants as refusals;
ghost use Rattle.graph_steps.specs.Soundness.{IsReadPatch};
ghost use Rattle.graph_steps.specs.TwinAsks.{PatchFault};
ghost use Rattle.graph_steps.specs.bodies.Bodies.{FailsBy};
ghost use Rattle.graph_steps.specs.bodies.Kept.{IsSorted};

use crate::bodies::failure::BodyFailure;
use dt_base::{OutOfMemory, Text};
use graph_asks::Refusal;
use json_tree::Tree;
use std::alloc::Global;
use twin_patch::{ApplyEnd, Patch, apply_in_order};

/// The refusal of a patch of which this operation has no target.
fn no_target(alloc: Global, index: u64) -> Result<Refusal, OutOfMemory>
    ensures { IfOk result (λ refusal. refusal ≡ refusals.PatchFault (codes "NoTarget") index) }
{
    let fault = Text::from_str(alloc, "NoTarget")?;
    Ok(Refusal::PatchFault { fault, index })
}

/// What a patch that was read makes of a tree whose members stand in the order of their keys, as what is printed of twins,
/// components and relationships; the result is sorted too. The tree is taken, and changed in place of a copy. Fails by the
/// refusal that names the first operation whose need is not met, or for want of memory; the tree is let go then.
pub fn patched(alloc: Global, tree: Tree, patch: &Patch) -> Result<Tree, BodyFailure>
    requires sorted { IsSorted (view tree) }
    requires read { (of : PatchOf) × IsReadPatch of patch.now }
    ensures patched { MatchResult result
        (λ new. patched_from 0 (operations_of patch.now.ops) (view tree) ≡ Ok (view new))
        (FailsBy (PatchFault (operations_of patch.now.ops) (view tree))) }
    ensures sorted { IfOk result (λ new. IsSorted (view new)) }
    ensures distinct { IfOk result (λ new. HasDistinctKeys (view new)) }
{
    match apply_in_order(alloc, tree, patch) {
        Ok(new) => Ok(new),
        Err(ApplyEnd::NoTarget { index }) => {
            let refusal = no_target(alloc, index)?;
            Err(BodyFailure::Refused(refusal))
        }
        Err(ApplyEnd::OutOfMemory) => Err(BodyFailure::OutOfMemory),
    }
}
