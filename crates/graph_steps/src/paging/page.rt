//! The tree of a page.

ghost use Rattle.std.specs.Prelude.{◌≡◌, ◌++◌, ◌∷◌, [], ℕ, List, map, IfOk, OnOk};
ghost use Rattle.json_tree.specs.Values.{Json, object, array, elements_of, members_of};
ghost use Rattle.json_tree.specs.View.{view, member_view};
ghost use Rattle.graph_steps.specs.Pages.{on_page, page_value, token};
ghost use Rattle.graph_steps.specs.paging.Rows.{page_of};
ghost use Rattle.graph_steps.specs.paging.Machinery.Joining.{opening};

use dt_base::{List, OutOfMemory, Text};
use json_tree::{Member, Tree};
use std::alloc::Global;

/// Adds a member.
fn put(alloc: Global, members: &mut Vec<Member>, key: &str, value: Tree) -> Result<(), OutOfMemory>
    ensures { OnOk result (map member_view members.new.items ≡ map member_view members.old.items ++ (key.now, view value) ∷ []) }
{
    let Ok(key) = Text::from_str(alloc, key) else {
        drop(value);
        return Err(OutOfMemory);
    };
    members.push(Member { key, value })?;
    Ok(())
}

/// The object of some members.
fn object(members: Vec<Member>) -> Tree
    ensures { view result ≡ object (members_of (map member_view members.items)) }
{
    Tree::Members(List::from_vec(members))
}

/// The list of some rows.
fn list(rows: Vec<Tree>) -> Tree
    ensures { view result ≡ array (elements_of (map view rows.items)) }
{
    Tree::List(List::from_vec(rows))
}

/// The members before the rows: the token, where there is one.
fn opening(alloc: Global, next: Option<Text>) -> Result<Vec<Member>, OutOfMemory>
    ensures { IfOk result (λ members. map member_view members.items ≡ opening next) }
{
    let mut members = Vec::with_capacity(alloc, 2)?;
    let Some(token) = next else {
        return Ok(members);
    };
    put(alloc, &mut members, "continuationToken", Tree::Text(token))?;
    Ok(members)
}

/// The tree of a page of these rows, with its token where there is one. Fails only for want of memory.
pub fn page_tree(alloc: Global, rows: Vec<Tree>, next: Option<Text>) -> Result<Tree, OutOfMemory>
    ensures page { IfOk result (λ tree. view tree ≡ page_of next (map view rows.items)) }
    ensures of_entries { IfOk result (λ tree. (entries : List (List (List ℕ) × Json)) → map view rows.items ≡ map (λ e. e.1) (on_page entries) → next ≡ token entries → view tree ≡ page_value entries) }
{
    let mut members = opening(alloc, next)?;
    put(alloc, &mut members, "value", list(rows))?;
    Ok(object(members))
}
