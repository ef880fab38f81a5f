//! Trees of replies.

ghost use Rattle.std.specs.Prelude.{◌≡◌, ◌∷◌, [], ◌++◌, map, codes, IfOk, OnOk};
ghost use Rattle.dt_base.specs.names.Grammar.{dtmi_text};
ghost use Rattle.json_tree.specs.Values.{text, truth, array, object, elements_of, members_of, member, no_members};
ghost use Rattle.json_tree.specs.View.{view, member_view};
ghost use Rattle.model_life.specs.Models.{model_of};
ghost use Rattle.graph_steps.specs.ModelAsks.{model_value};
ghost use Rattle.graph_machine.specs.Machinery.Marks.{mark_json};

use canon_text::canon_tree;
use dt_base::names::Dtmi;
use dt_base::{List, OutOfMemory, Text};
use dtdl_terms::Interface;
use json_tree::{Member, Tree};
use std::alloc::Global;

/// Adds a member.
fn put(alloc: Global, members: &mut Vec<Member>, key: &str, value: Tree) -> Result<(), OutOfMemory>
    ensures { OnOk result (map member_view members.new.items ≡ map member_view members.old.items ++ (key.now, view value) ∷ []) }
{
    let key = Text::from_str(alloc, key)?;
    members.push(Member { key, value })?;
    Ok(())
}

/// The object of some members.
fn object(members: Vec<Member>) -> Tree
    ensures { view result ≡ object (members_of (map member_view members.items)) }
{
    Tree::Members(List::from_vec(members))
}

/// The members of a model with its mark: its mark and its identifier.
fn marked(alloc: Global, id: &Dtmi, on: bool) -> Result<Vec<Member>, OutOfMemory>
    ensures { IfOk result (λ members. map member_view members.items ≡ (codes "decommissioned", truth on) ∷ (codes "id", text (dtmi_text id.now)) ∷ []) }
{
    let text = Text::from_str(alloc, id.as_str())?;
    let mut members = Vec::with_capacity(alloc, 3)?;
    put(alloc, &mut members, "decommissioned", Tree::Bool(on))?;
    put(alloc, &mut members, "id", Tree::Text(text))?;
    Ok(members)
}

/// The identifier of a model, with its mark.
pub(crate) fn mark_tree(alloc: Global, id: &Dtmi, on: bool) -> Result<Tree, OutOfMemory>
    ensures { IfOk result (λ tree. view tree ≡ mark_json (dtmi_text id.now) on) }
{
    Ok(object(marked(alloc, id, on)?))
}

/// A model with its mark.
pub(crate) fn model_tree(
    alloc: Global,
    interface: &Interface,
    on: bool,
) -> Result<Tree, OutOfMemory>
    ensures { IfOk result (λ tree. view tree ≡ model_value (model_of interface.now on)) }
{
    let mut members = marked(alloc, &interface.id, on)?;
    put(alloc, &mut members, "model", canon_tree(alloc, interface)?)?;
    Ok(object(members))
}

/// The object whose member `value` is a list of these trees.
pub(crate) fn list_tree(alloc: Global, trees: Vec<Tree>) -> Result<Tree, OutOfMemory>
    ensures { IfOk result (λ tree. view tree ≡ object (member (codes "value") (array (elements_of (map view trees.items))) no_members)) }
{
    let mut members = Vec::with_capacity(alloc, 1)?;
    put(
        alloc,
        &mut members,
        "value",
        Tree::List(List::from_vec(trees)),
    )?;
    Ok(object(members))
}
