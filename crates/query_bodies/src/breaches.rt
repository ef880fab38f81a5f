//! Bodies of queries that are refused whatever the text of the query is.

ghost use Rattle.std.specs.Prelude.{◌≡◌, IfOk, MatchOption};
ghost use Rattle.std.specs.Option.{option_map};
ghost use Rattle.json_tree.specs.View.{view, members_view};
ghost use Rattle.twin_value.specs.Breaches.{HasNoBreach};
ghost use Rattle.twin_value.specs.Codes.{code_name};
ghost use Rattle.graph_asks.specs.declared.refusal.At.TheVariants as places;
ghost use Rattle.graph_asks.specs.declared.refusal.Refusal.TheVariants as refusals;
ghost use Rattle.graph_steps.specs.TwinAsks.{BodyFault};
ghost use Rattle.query_bodies.specs.Breaches.{IsQueryBreach, is_text_or_null};
ghost use Rattle.query_bodies.specs.Machinery.Firsts.{first_breach, first_of_members, first_wrong, wrong_pointer};

use dt_base::{OutOfMemory, Text};
use graph_asks::{At, Refusal};
use json_tree::{Member, Tree, text_in, value_at};
use std::alloc::Global;
use twin_value::BodyCode;

/// Whether a value is a text or null.
#[tactic(auto, using(json_tree::proofs::Views::views))]
fn is_text_or_null(tree: &Tree) -> bool
    ensures { result ≡ is_text_or_null (view tree.now) }
{
    match tree {
        Tree::Null | Tree::Text(_) => true,
        Tree::Bool(_) | Tree::Number(_) | Tree::List(_) | Tree::Members(_) => false,
    }
}

/// The pointer to a member that is not of the kind that its key asks for.
fn wrong_pointer(member: &Member) -> Option<&'static str>
    ensures { option_map (λ p. p.now) result ≡ wrong_pointer member.now.key (view member.now.value) }
{
    let key = member.key.as_str();
    if key == "query" {
        return match text_in(&member.value) {
            Some(_) => None,
            None => Some("/query"),
        };
    }
    if key == "continuationToken" {
        if is_text_or_null(&member.value) {
            return None;
        }
        return Some("/continuationToken");
    }
    None
}

/// The pointer to the first such member.
fn first_wrong(members: &[Member]) -> Option<&'static str>
    ensures { option_map (λ p. p.now) result ≡ first_wrong (members_view members.now) }
{
    'members: for member in members {
        if let Some(pointer) = wrong_pointer(member) {
            return Some(pointer);
        }
    }
    None
}

/// The first breach of an object with these members.
fn first_of_members(members: &[Member]) -> Option<(&'static str, BodyCode)>
    ensures { option_map (λ b. (b.0.now, b.1)) result ≡ first_of_members (members_view members.now) }
{
    if value_at(members, "query").is_none() {
        return Some(("", BodyCode::MissingKey));
    }
    match first_wrong(members) {
        Some(pointer) => Some((pointer, BodyCode::WrongKind)),
        None => None,
    }
}

/// The first breach of a body: the pointer to it, and its code.
#[tactic(auto, using(json_tree::proofs::Views::views))]
fn first_breach(tree: &Tree) -> Option<(&'static str, BodyCode)>
    ensures { option_map (λ b. (b.0.now, b.1)) result ≡ first_breach (view tree.now) }
{
    match tree {
        Tree::Members(members) => first_of_members(members.as_slice()),
        Tree::Null | Tree::Bool(_) | Tree::Number(_) | Tree::Text(_) | Tree::List(_) => {
            Some(("", BodyCode::WrongKind))
        }
    }
}

/// The refusal of a body with a breach at this pointer.
fn fault_at(alloc: Global, pointer: &str, code: BodyCode) -> Result<Refusal, OutOfMemory>
    ensures { IfOk result (λ refusal. refusal ≡ refusals.BodyFault (places.Pointer pointer.now) (code_name code)) }
{
    let pointer = Text::from_str(alloc, pointer)?;
    let fault = Text::from_str(alloc, code.text())?;
    Ok(Refusal::BodyFault {
        at: At::Pointer(pointer),
        fault,
    })
}

/// The refusal of the body of a query that names its first breach; none where there is none. Only want of memory makes it
/// fail.
pub fn body_refusal(alloc: Global, tree: &Tree) -> Result<Option<Refusal>, OutOfMemory>
    ensures { IfOk result (λ refusal. MatchOption refusal (HasNoBreach (IsQueryBreach (view tree.now))) (BodyFault (IsQueryBreach (view tree.now)) (view tree.now))) }
{
    match first_breach(tree) {
        Some((pointer, code)) => {
            let refusal = fault_at(alloc, pointer, code)?;
            Ok(Some(refusal))
        }
        None => Ok(None),
    }
}
