//! What is asked of the paths of twins and their components.

ghost use Rattle.std.specs.Prelude.{◌≡◌, Some, ℕ, List, IfOk};
ghost use Rattle.dt_base.specs.names.Grammar.{dtmi_text};
ghost use Rattle.json_tree.specs.View.{view};
ghost use Rattle.twin_value.specs.Breaches.{HasNoBreach, IsOuterBreach};
ghost use Rattle.twin_value.specs.Twins.{model_text};
ghost use Rattle.graph_steps.specs.Soundness.{IsModelOf};
ghost use Rattle.graph_routes.specs.Outcomes.{WithBody};
ghost use Rattle.graph_routes.specs.TwinRequests.{AsksPart, AsksTwin, PatchesPart, PatchesTwin, PutsTwin};

use crate::asks::{bad_id, not_allowed};
use crate::bodies::fault_refusal;
use crate::differences::{PathIds, difference_refusal};
use crate::method::Method;
use crate::outer::twin_refusal;
use crate::parts::{component_named, read_model};
use crate::patches::patch_in;
use crate::prepared::Prepared;
use crate::route::Route;
use dt_base::names::Dtmi;
use dt_base::{OutOfMemory, Text};
use graph_asks::Ask;
use json_read::read;
use json_tree::{Tree, members_in, text_at, value_in};
use page_tokens::id_named;
use std::alloc::Global;
use twin_patch::PatchOf;

/// The model that a body without breach names.
fn model_in(alloc: Global, tree: &Tree) -> Result<Dtmi, OutOfMemory>
    requires { HasNoBreach (IsOuterBreach (view tree.now)) }
    ensures { IfOk result (λ id. IsModelOf id × (model_text (view tree.now) ≡ Some (dtmi_text id))) }
{
    let Some(metadata) = value_in(tree, "$metadata") else {
        unreachable!();
    };
    let Some(text) = text_at(members_in(metadata), "$model") else {
        unreachable!();
    };
    match read_model(alloc, text)? {
        Some(id) => Ok(id),
        None => unreachable!(),
    }
}

/// The ask with a value as a twin of this id, or the refusal of one that is none.
fn twin_of(alloc: Global, id: Text, tree: Tree) -> Result<Prepared, OutOfMemory>
    ensures { IfOk result (PutsTwin id (view tree)) }
{
    if let Some(refusal) = twin_refusal(alloc, &tree)? {
        return Ok(Prepared::Own(refusal));
    }
    if let Some(refusal) = difference_refusal(alloc, &tree, PathIds::Twin { id: id.as_str() })? {
        return Ok(Prepared::Own(refusal));
    }
    let model = model_in(alloc, &tree)?;
    Ok(Prepared::Ask(Ask::PutTwin {
        id,
        model,
        body: tree,
    }))
}

/// What a body of a twin of this id comes to.
fn puts_twin(alloc: Global, id: Text, body: &[u8]) -> Result<Prepared, OutOfMemory>
    ensures { IfOk result (WithBody body.now (PutsTwin id)) }
{
    match read(alloc, body) {
        Ok(tree) => twin_of(alloc, id, tree),
        Err(fault) => Ok(Prepared::Own(fault_refusal(alloc, body, &fault)?)),
    }
}

/// What a body of a patch of a twin comes to.
fn patches_twin(alloc: Global, id: Text, body: &[u8]) -> Result<Prepared, OutOfMemory>
    ensures { IfOk result (WithBody body.now (PatchesTwin id)) }
{
    match patch_in(alloc, body, PatchOf::Twin)? {
        Ok(patch) => Ok(Prepared::Ask(Ask::PatchTwin { id, patch })),
        Err(refusal) => Ok(Prepared::Own(refusal)),
    }
}

fn get_twin(alloc: Global, part: &str) -> Result<Prepared, OutOfMemory>
    ensures { (body : List ℕ) → IfOk result (AsksTwin Method.Get part.now body) }
{
    match id_named(alloc, part)? {
        Some(id) => Ok(Prepared::Ask(Ask::GetTwin { id })),
        None => Ok(bad_id(0)),
    }
}

fn put_twin(alloc: Global, part: &str, body: &[u8]) -> Result<Prepared, OutOfMemory>
    ensures { IfOk result (AsksTwin Method.Put part.now body.now) }
{
    match id_named(alloc, part)? {
        Some(id) => puts_twin(alloc, id, body),
        None => Ok(bad_id(0)),
    }
}

fn patch_twin(alloc: Global, part: &str, body: &[u8]) -> Result<Prepared, OutOfMemory>
    ensures { IfOk result (AsksTwin Method.Patch part.now body.now) }
{
    match id_named(alloc, part)? {
        Some(id) => patches_twin(alloc, id, body),
        None => Ok(bad_id(0)),
    }
}

fn drop_twin(alloc: Global, part: &str) -> Result<Prepared, OutOfMemory>
    ensures { (body : List ℕ) → IfOk result (AsksTwin Method.Delete part.now body) }
{
    match id_named(alloc, part)? {
        Some(id) => Ok(Prepared::Ask(Ask::DropTwin { id })),
        None => Ok(bad_id(0)),
    }
}

/// What a method asks of `/digitaltwins/{id}`, where `part` is the text for the id. Only want of memory makes it fail.
pub fn asked_of_twin(
    alloc: Global,
    method: Method,
    part: &str,
    body: &[u8],
) -> Result<Prepared, OutOfMemory>
    ensures { IfOk result (AsksTwin method part.now body.now) }
{
    match method {
        Method::Get => get_twin(alloc, part),
        Method::Put => put_twin(alloc, part, body),
        Method::Patch => patch_twin(alloc, part, body),
        Method::Delete => drop_twin(alloc, part),
        Method::Post => not_allowed(alloc, Route::Twin),
    }
}

/// What a body of a patch of a component comes to.
fn patches_part(alloc: Global, id: Text, name: Text, body: &[u8]) -> Result<Prepared, OutOfMemory>
    ensures { IfOk result (WithBody body.now (PatchesPart id name)) }
{
    match patch_in(alloc, body, PatchOf::Part)? {
        Ok(patch) => Ok(Prepared::Ask(Ask::PatchPart { id, name, patch })),
        Err(refusal) => Ok(Prepared::Own(refusal)),
    }
}

fn get_part(alloc: Global, part: &str, second: &str) -> Result<Prepared, OutOfMemory>
    ensures { (body : List ℕ) → IfOk result (AsksPart Method.Get part.now second.now body) }
{
    let Some(id) = id_named(alloc, part)? else {
        return Ok(bad_id(0));
    };
    match component_named(alloc, second)? {
        Some(name) => Ok(Prepared::Ask(Ask::GetPart { id, name })),
        None => Ok(bad_id(1)),
    }
}

fn patch_part(alloc: Global, part: &str, second: &str, body: &[u8]) -> Result<Prepared, OutOfMemory>
    ensures { IfOk result (AsksPart Method.Patch part.now second.now body.now) }
{
    let Some(id) = id_named(alloc, part)? else {
        return Ok(bad_id(0));
    };
    match component_named(alloc, second)? {
        Some(name) => patches_part(alloc, id, name, body),
        None => Ok(bad_id(1)),
    }
}

/// What a method asks of `/digitaltwins/{id}/components/{name}`, where `part` and `second` are the texts for the id and the
/// name. Only want of memory makes it fail.
pub fn asked_of_part(
    alloc: Global,
    method: Method,
    part: &str,
    second: &str,
    body: &[u8],
) -> Result<Prepared, OutOfMemory>
    ensures { IfOk result (AsksPart method part.now second.now body.now) }
{
    match method {
        Method::Get => get_part(alloc, part, second),
        Method::Patch => patch_part(alloc, part, second, body),
        Method::Delete | Method::Post | Method::Put => not_allowed(alloc, Route::Component),
    }
}
