//! What is printed of twins, relationships and components.

ghost use Rattle.std.specs.Prelude.{◌≡◌, ◌<◌, ◌≤◌, length, IfOk, MatchOption};
ghost use Rattle.json_tree.specs.View.{view};
ghost use Rattle.graph_steps.specs.States.{twin_value, link_value, part_value, twin_text, link_text};
ghost use Rattle.graph_steps.specs.bodies.Kept.{twin_view, link_view, IsKeptTwin, IsKeptLink, IsKeptPart};

use dt_base::OutOfMemory;
use json_tree::Tree;
use std::alloc::Global;
use twin_value::{
    Relationship, Twin, left_after_link, left_after_twin, print_part, print_rel, print_twin,
};

/// The tree of a twin, as it is printed. Fails only for want of memory.
pub fn twin_tree(alloc: Global, t: &Twin) -> Result<Tree, OutOfMemory>
    requires { IsKeptTwin (twin_view t.now) }
    ensures { IfOk result (λ tree. view tree ≡ twin_value (twin_view t.now)) }
{
    print_twin(alloc, t)
}

/// The tree of a relationship, as it is printed. Fails only for want of memory.
pub fn link_tree(alloc: Global, r: &Relationship) -> Result<Tree, OutOfMemory>
    requires { IsKeptLink (link_view r.now) }
    ensures { IfOk result (λ tree. view tree ≡ link_value (link_view r.now)) }
{
    print_rel(alloc, r)
}

/// The tree of a component with these values, as it is printed. Fails only for want of memory.
pub fn part_tree(alloc: Global, values: &Tree) -> Result<Tree, OutOfMemory>
    requires { IsKeptPart (view values.now) }
    ensures { IfOk result (λ tree. view tree ≡ part_value (view values.now)) }
{
    print_part(alloc, values)
}

/// How many bytes the text of a twin has, where it has no more than so many; None exactly where it has more. Takes no memory.
pub fn twin_bytes(most: u64, t: &Twin) -> Option<u64>
    requires { IsKeptTwin (twin_view t.now) }
    ensures { MatchOption result (most < length (twin_text (twin_view t.now))) (λ bytes. (bytes ≡ length (twin_text (twin_view t.now))) × (bytes ≤ most)) }
{
    match left_after_twin(most, t) {
        Some(rest) => Some(most - rest),
        None => None,
    }
}

/// How many bytes the text of a relationship has, where it has no more than so many; None exactly where it has more. Takes no
/// memory.
pub fn link_bytes(most: u64, r: &Relationship) -> Option<u64>
    requires { IsKeptLink (link_view r.now) }
    ensures { MatchOption result (most < length (link_text (link_view r.now))) (λ bytes. (bytes ≡ length (link_text (link_view r.now))) × (bytes ≤ most)) }
{
    match left_after_link(most, r) {
        Some(rest) => Some(most - rest),
        None => None,
    }
}
