//! Elements as they are printed.

ghost use Rattle.std.specs.Prelude.{◌≡◌, IfOk};
ghost use Rattle.json_tree.specs.View.{view};
ghost use Rattle.graph_steps.specs.Conditions.{element_value};
ghost use Rattle.query_eval.specs.values.Rows.{element_view, IsKeptElement};

use crate::values::binding::Element;
use dt_base::OutOfMemory;
use graph_steps::bodies::twin_tree;
use graph_steps::held::stored_tree;
use json_tree::Tree;
use std::alloc::Global;

/// The tree of an element, as it is printed. Fails only for want of memory.
pub fn whole_value(alloc: Global, element: Element<'_>) -> Result<Tree, OutOfMemory>
    requires { IsKeptElement (element_view element) }
    ensures { IfOk result (λ tree. view tree ≡ element_value (element_view element.entry)) }
{
    match element {
        Element::Twin(twin) => twin_tree(alloc, twin),
        Element::Link(link) => stored_tree(alloc, link),
    }
}
