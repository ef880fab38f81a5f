//! What bodies say.

ghost use Rattle.std.specs.Prelude.{◌≡◌, ◌↔◌, IfOk, IsTrue};
ghost use Rattle.json_tree.specs.Values.{Raw};
ghost use Rattle.json_tree.specs.Grammar.{IsText, Spells};
ghost use Rattle.json_tree.specs.Places.{StandsAt};
ghost use Rattle.json_tree.specs.View.{view};
ghost use Rattle.json_read.specs.Faults.{IsFault};
ghost use Rattle.local_rules.specs.Breaches.{IsFirstBreach};
ghost use Rattle.twin_patch.specs.Operations.{operations_of};
ghost use Rattle.twin_patch.specs.Reading.{IsMark};
ghost use Rattle.graph_routes.specs.Bodies.{IsTooMany, RefusesFor, RefusesModels, RefusesPlace, SetsOne};
ghost use Rattle.graph_routes.specs.ModelRequests.{Marks, PutsModels};
ghost use Rattle.graph_routes.specs.Outcomes.{WithBody};
ghost use Rattle.graph_asks.specs.declared.refusal.Refusal.TheVariants as refusals;

use crate::prepared::Prepared;
use dt_base::names::Dtmi;
use dt_base::{OutOfMemory, Text};
use graph_asks::{Ask, At, Refusal};
use json_read::{JsonFault, pointer_in, read};
use json_tree::{Place, Tree, pointer_of};
use local_rules::LocalRule;
use model_read::{LocalEnd, read_interfaces};
use std::alloc::Global;
use twin_patch::{OpKind, Patch, PatchEnd, PatchOf, read_patch};

/// The most models that a body lists (this project's own).
const MOST_MODELS: usize = 250;

/// The number of the one document that a body is.
const DOCUMENT: u32 = 1;

fn json_refusal(alloc: Global, at: At, code: &str) -> Result<Refusal, OutOfMemory>
    ensures { IfOk result (λ refusal. refusal ≡ refusals.JsonFault at code.now) }
{
    Ok(Refusal::JsonFault {
        at,
        fault: Text::from_str(alloc, code)?,
    })
}

/// The refusal of a body with a fault at a place of its value.
fn refusal_at(alloc: Global, body: &[u8], place: &Place, code: &str) -> Result<Refusal, OutOfMemory>
    requires { (raw : Raw) × IsText body.now raw × ((part : Raw) × StandsAt raw place.now.steps part) }
    ensures { IfOk result (RefusesPlace body.now place.now code.now) }
{
    let pointer = pointer_in(alloc, body, place)?;
    json_refusal(alloc, At::Pointer(pointer.text), code)
}

/// The refusal of a body that is no JSON text of the profile.
pub fn fault_refusal(alloc: Global, body: &[u8], fault: &JsonFault) -> Result<Refusal, OutOfMemory>
    requires { IsFault body.now fault.now }
    ensures { IfOk result (RefusesFor body.now fault.now) }
{
    match fault {
        JsonFault::Byte { at } => json_refusal(alloc, At::Number(*at), "Byte"),
        JsonFault::Ends { at } => json_refusal(alloc, At::Number(*at), "Ends"),
        JsonFault::Duplicate { place } => refusal_at(alloc, body, place, "Duplicate"),
        JsonFault::Range { place } => refusal_at(alloc, body, place, "Range"),
        JsonFault::OutOfMemory => Err(OutOfMemory),
    }
}

/// Whether a value is a list of too many entries.
#[tactic(auto, using(json_tree::proofs::Views::views))]
fn is_too_many(tree: &Tree) -> bool
    ensures { IsTrue result ↔ IsTooMany (view tree.now) }
{
    match tree {
        Tree::List(entries) => entries.len() > MOST_MODELS,
        Tree::Null | Tree::Bool(_) | Tree::Number(_) | Tree::Text(_) | Tree::Members(_) => false,
    }
}

/// The refusal of a document that breaks a local rule.
fn breach_refusal(
    alloc: Global,
    tree: &Tree,
    place: &Place,
    rule: LocalRule,
) -> Result<Refusal, OutOfMemory>
    requires { IsFirstBreach (view tree.now) place.now.steps rule }
    ensures { IfOk result (RefusesModels (view tree.now)) }
{
    let pointer = pointer_of(alloc, tree, place)?;
    Ok(Refusal::ModelFault {
        at: At::Pointer(pointer.text),
        fault: Text::from_str(alloc, rule.text())?,
    })
}

/// The models that a value declares, to be put.
fn models_of(alloc: Global, tree: &Tree) -> Result<Prepared, OutOfMemory>
    ensures { IfOk result (PutsModels (view tree.now)) }
{
    if is_too_many(tree) {
        return Ok(Prepared::Own(Refusal::TooManyModels {
            limit: MOST_MODELS as u64,
        }));
    }
    match read_interfaces(alloc, tree, DOCUMENT) {
        Ok(models) => Ok(Prepared::Ask(Ask::PutModels { models })),
        Err(LocalEnd::Fault { place, rule }) => Ok(Prepared::Own(breach_refusal(
            alloc, tree, &place, rule,
        )?)),
        Err(LocalEnd::OutOfMemory) => Err(OutOfMemory),
    }
}

/// What a body of models comes to.
pub fn puts_models(alloc: Global, body: &[u8]) -> Result<Prepared, OutOfMemory>
    ensures { IfOk result (WithBody body.now PutsModels) }
{
    match read(alloc, body) {
        Ok(tree) => models_of(alloc, &tree),
        Err(fault) => Ok(Prepared::Own(fault_refusal(alloc, body, &fault)?)),
    }
}

/// The truth value that a patch of a model sets.
fn mark_in(patch: &Patch) -> bool
    requires { IsMark (operations_of patch.now.ops) }
    ensures { SetsOne (operations_of patch.now.ops) result }
{
    match patch.ops.as_slice() {
        [op] => match &op.kind {
            OpKind::Add(Tree::Bool(on)) | OpKind::Replace(Tree::Bool(on)) => *on,
            _ => unreachable!(),
        },
        _ => unreachable!(),
    }
}

/// The mark that a value says, to be set.
fn mark_of(alloc: Global, id: Dtmi, tree: &Tree) -> Result<Prepared, OutOfMemory>
    ensures { IfOk result (Marks id (view tree.now)) }
{
    match read_patch(alloc, tree, PatchOf::Model) {
        Ok(patch) => Ok(Prepared::Ask(Ask::Mark {
            id,
            on: mark_in(&patch),
        })),
        Err(PatchEnd::Fault { index, code }) => Ok(Prepared::Own(Refusal::PatchFault {
            fault: Text::from_str(alloc, code.text())?,
            index,
        })),
        Err(PatchEnd::OutOfMemory) => Err(OutOfMemory),
    }
}

/// What a body of a patch of a model comes to.
pub fn marks(alloc: Global, id: Dtmi, body: &[u8]) -> Result<Prepared, OutOfMemory>
    ensures { IfOk result (WithBody body.now (Marks id)) }
{
    match read(alloc, body) {
        Ok(tree) => mark_of(alloc, id, &tree),
        Err(fault) => Ok(Prepared::Own(fault_refusal(alloc, body, &fault)?)),
    }
}
