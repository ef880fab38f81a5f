//! What a path leads to.

ghost use Rattle.std.specs.Prelude.{◌≡◌, IfOk};
ghost use Rattle.json_tree.specs.View.{view};
ghost use Rattle.query_eval.specs.values.Found.{found_value};

use dt_base::OutOfMemory;
use json_tree::Tree;
use std::alloc::Global;

/// A value of a row: one that the graph holds, or one that was made for the row, such as the text of an id.
#[derive(Drop)]
pub enum Found<'a> {
    Held(&'a Tree),
    Made(Tree),
}

impl<'a> Found<'a> {
    /// The value.
    pub fn tree(&self) -> &Tree
        ensures { view result.now ≡ found_value self.now }
    {
        match self {
            Found::Held(tree) => tree,
            Found::Made(tree) => tree,
        }
    }

    /// The value in memory of its own. Fails only for want of memory.
    pub fn into_tree(self, alloc: Global) -> Result<Tree, OutOfMemory>
        ensures { IfOk result (λ tree. view tree ≡ found_value self.entry) }
    {
        match self {
            Found::Held(tree) => tree.copy(alloc),
            Found::Made(tree) => Ok(tree),
        }
    }
}
