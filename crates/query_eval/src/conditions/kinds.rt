//! What kind of value one is.

ghost use Rattle.std.specs.Prelude.{◌≡◌, Some};
ghost use Rattle.std.specs.Option.{option_copied, option_map};
ghost use Rattle.json_tree.specs.View.{view};
ghost use Rattle.graph_steps.specs.Conditions.{is_of_query_kind};

use json_tree::Tree;
use query_terms::Kind;

/// Whether a value that is there is of a kind.
#[tactic(auto, using(json_tree::proofs::Views::views))]
fn tree_is(kind: Kind, tree: &Tree) -> bool
    ensures { result ≡ is_of_query_kind kind (Some (view tree.now)) }
{
    match kind {
        Kind::Defined => true,
        Kind::Null => false,
        Kind::Number => matches!(tree, Tree::Number(_)),
        Kind::Word => matches!(tree, Tree::Text(_)),
        Kind::Truth => matches!(tree, Tree::Bool(_)),
        Kind::Object => matches!(tree, Tree::Members(_)),
        Kind::Primitive => matches!(tree, Tree::Number(_) | Tree::Text(_) | Tree::Bool(_)),
    }
}

/// Whether what a path leads to, if anything, is of a kind.
pub(crate) fn is_of_kind(kind: Kind, value: Option<&Tree>) -> bool
    ensures { result ≡ is_of_query_kind kind (option_map view (option_copied value.entry)) }
{
    match value {
        Some(tree) => tree_is(kind, tree),
        None => kind == Kind::Null,
    }
}
