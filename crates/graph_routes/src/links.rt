//! What is asked of the paths of relationships.

ghost use Rattle.std.specs.Prelude.{◌≡◌, Some, ℕ, List, IfOk, codes};
ghost use Rattle.dt_base.specs.names.Grammar.{NameText};
ghost use Rattle.json_tree.specs.View.{view};
ghost use Rattle.twin_value.specs.Breaches.{HasNoBreach, IsOuterLinkBreach, IsTwinId, text_under};
ghost use Rattle.graph_routes.specs.Outcomes.{WithBody};
ghost use Rattle.graph_routes.specs.LinkRequests.{AsksIncoming, AsksLink, AsksLinks, PatchesLink, PutsLink};

use crate::asks::{bad_id, not_allowed};
use crate::bodies::fault_refusal;
use crate::differences::{PathIds, difference_refusal};
use crate::method::Method;
use crate::outer::link_refusal;
use crate::parameters::{Page, PairPage, begins_past, begins_past_pair, name_asked};
use crate::patches::patch_in;
use crate::prepared::Prepared;
use crate::route::Route;
use dt_base::names::is_name;
use dt_base::{OutOfMemory, Text};
use graph_asks::{Ask, Refusal};
use json_read::read;
use json_tree::{Tree, members_in, text_at};
use page_tokens::id_named;
use std::alloc::Global;
use twin_patch::PatchOf;
use twin_value::is_twin_id;

/// The name that a body without breach gives.
fn name_in(alloc: Global, tree: &Tree) -> Result<Text, OutOfMemory>
    requires { HasNoBreach (IsOuterLinkBreach (view tree.now)) }
    ensures { IfOk result (λ name. NameText name × (text_under (codes "$relationshipName") (view tree.now) ≡ Some name)) }
{
    match text_at(members_in(tree), "$relationshipName") {
        Some(name) if is_name(name) => Ok(Text::from_str(alloc, name)?),
        _ => unreachable!(),
    }
}

/// The id of the target that a body without breach gives.
fn target_in(alloc: Global, tree: &Tree) -> Result<Text, OutOfMemory>
    requires { HasNoBreach (IsOuterLinkBreach (view tree.now)) }
    ensures { IfOk result (λ target. IsTwinId target × (text_under (codes "$targetId") (view tree.now) ≡ Some target)) }
{
    match text_at(members_in(tree), "$targetId") {
        Some(target) if is_twin_id(target) => Ok(Text::from_str(alloc, target)?),
        _ => unreachable!(),
    }
}

/// The ask with a value as a relationship of this source and id, or the refusal of one that is none.
fn link_of(alloc: Global, source: Text, id: Text, tree: Tree) -> Result<Prepared, OutOfMemory>
    ensures { IfOk result (PutsLink source id (view tree)) }
{
    if let Some(refusal) = link_refusal(alloc, &tree)? {
        return Ok(Prepared::Own(refusal));
    }
    let ids = PathIds::Link {
        source: source.as_str(),
        id: id.as_str(),
    };
    if let Some(refusal) = difference_refusal(alloc, &tree, ids)? {
        return Ok(Prepared::Own(refusal));
    }
    let name = name_in(alloc, &tree)?;
    let target = target_in(alloc, &tree)?;
    Ok(Prepared::Ask(Ask::PutRel {
        source,
        id,
        name,
        target,
        body: tree,
    }))
}

/// What a body of a relationship of this source and id comes to.
fn puts_link(alloc: Global, source: Text, id: Text, body: &[u8]) -> Result<Prepared, OutOfMemory>
    ensures { IfOk result (WithBody body.now (PutsLink source id)) }
{
    match read(alloc, body) {
        Ok(tree) => link_of(alloc, source, id, tree),
        Err(fault) => Ok(Prepared::Own(fault_refusal(alloc, body, &fault)?)),
    }
}

/// What a body of a patch of a relationship comes to.
fn patches_link(alloc: Global, source: Text, id: Text, body: &[u8]) -> Result<Prepared, OutOfMemory>
    ensures { IfOk result (WithBody body.now (PatchesLink source id)) }
{
    match patch_in(alloc, body, PatchOf::Rel)? {
        Ok(patch) => Ok(Prepared::Ask(Ask::PatchRel { source, id, patch })),
        Err(refusal) => Ok(Prepared::Own(refusal)),
    }
}

fn get_link(alloc: Global, part: &str, second: &str) -> Result<Prepared, OutOfMemory>
    ensures { (body : List ℕ) → IfOk result (AsksLink Method.Get part.now second.now body) }
{
    let Some(source) = id_named(alloc, part)? else {
        return Ok(bad_id(0));
    };
    match id_named(alloc, second)? {
        Some(id) => Ok(Prepared::Ask(Ask::GetRel { source, id })),
        None => Ok(bad_id(1)),
    }
}

fn put_link(alloc: Global, part: &str, second: &str, body: &[u8]) -> Result<Prepared, OutOfMemory>
    ensures { IfOk result (AsksLink Method.Put part.now second.now body.now) }
{
    let Some(source) = id_named(alloc, part)? else {
        return Ok(bad_id(0));
    };
    match id_named(alloc, second)? {
        Some(id) => puts_link(alloc, source, id, body),
        None => Ok(bad_id(1)),
    }
}

fn patch_link(alloc: Global, part: &str, second: &str, body: &[u8]) -> Result<Prepared, OutOfMemory>
    ensures { IfOk result (AsksLink Method.Patch part.now second.now body.now) }
{
    let Some(source) = id_named(alloc, part)? else {
        return Ok(bad_id(0));
    };
    match id_named(alloc, second)? {
        Some(id) => patches_link(alloc, source, id, body),
        None => Ok(bad_id(1)),
    }
}

fn drop_link(alloc: Global, part: &str, second: &str) -> Result<Prepared, OutOfMemory>
    ensures { (body : List ℕ) → IfOk result (AsksLink Method.Delete part.now second.now body) }
{
    let Some(source) = id_named(alloc, part)? else {
        return Ok(bad_id(0));
    };
    match id_named(alloc, second)? {
        Some(id) => Ok(Prepared::Ask(Ask::DropRel { source, id })),
        None => Ok(bad_id(1)),
    }
}

/// What a method asks of `/digitaltwins/{id}/relationships/{rid}`, where `part` and `second` are the texts for the ids. Only
/// want of memory makes it fail.
pub fn asked_of_link(
    alloc: Global,
    method: Method,
    part: &str,
    second: &str,
    body: &[u8],
) -> Result<Prepared, OutOfMemory>
    ensures { IfOk result (AsksLink method part.now second.now body.now) }
{
    match method {
        Method::Get => get_link(alloc, part, second),
        Method::Put => put_link(alloc, part, second, body),
        Method::Patch => patch_link(alloc, part, second, body),
        Method::Delete => drop_link(alloc, part, second),
        Method::Post => not_allowed(alloc, Route::Relationship),
    }
}

fn list_links(alloc: Global, part: &str, query: &str) -> Result<Prepared, OutOfMemory>
    ensures { IfOk result (AsksLinks Method.Get part.now query.now) }
{
    let Some(source) = id_named(alloc, part)? else {
        return Ok(bad_id(0));
    };
    match begins_past(alloc, query)? {
        Page::Past(after) => Ok(Prepared::Ask(Ask::ListOut {
            source,
            name: name_asked(alloc, query)?,
            after,
        })),
        Page::BadToken => Ok(Prepared::Own(Refusal::BadToken)),
    }
}

/// What a method asks of `/digitaltwins/{id}/relationships`, where `part` is the text for the id. Only want of memory makes
/// it fail.
pub fn asked_of_links(
    alloc: Global,
    method: Method,
    part: &str,
    query: &str,
) -> Result<Prepared, OutOfMemory>
    ensures { IfOk result (AsksLinks method part.now query.now) }
{
    match method {
        Method::Get => list_links(alloc, part, query),
        Method::Delete | Method::Patch | Method::Post | Method::Put => {
            not_allowed(alloc, Route::Relationships)
        }
    }
}

fn list_incoming(alloc: Global, part: &str, query: &str) -> Result<Prepared, OutOfMemory>
    ensures { IfOk result (AsksIncoming Method.Get part.now query.now) }
{
    let Some(target) = id_named(alloc, part)? else {
        return Ok(bad_id(0));
    };
    match begins_past_pair(alloc, query)? {
        PairPage::Past(after) => Ok(Prepared::Ask(Ask::ListIn { target, after })),
        PairPage::BadToken => Ok(Prepared::Own(Refusal::BadToken)),
    }
}

/// What a method asks of `/digitaltwins/{id}/incomingrelationships`, where `part` is the text for the id. Only want of memory
/// makes it fail.
pub fn asked_of_incoming(
    alloc: Global,
    method: Method,
    part: &str,
    query: &str,
) -> Result<Prepared, OutOfMemory>
    ensures { IfOk result (AsksIncoming method part.now query.now) }
{
    match method {
        Method::Get => list_incoming(alloc, part, query),
        Method::Delete | Method::Patch | Method::Post | Method::Put => {
            not_allowed(alloc, Route::IncomingRelationships)
        }
    }
}
