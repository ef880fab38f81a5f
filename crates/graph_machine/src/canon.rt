//! The ask for the canonical text of all models.

ghost use Rattle.std.specs.Prelude.{◌≡◌, map, IfOk};
ghost use Rattle.json_tree.specs.View.{view};
ghost use Rattle.dtdl_terms.specs.Sets.{keyed, InOrder};
ghost use Rattle.canon_text.specs.Canonical.{interface_value, set_value, set_text};
ghost use Rattle.graph_steps.specs.Steps.{Allows, follows};
ghost use Rattle.graph_steps.specs.held.Held.{state_of};

use crate::machine::Machine;
use canon_text::canon_tree;
use dt_base::{List, OutOfMemory};
use dtdl_terms::ModelSet;
use graph_asks::{Ask, Reply};
use json_tree::{Tree, print};
use std::alloc::Global;

/// The canonical trees of a set of interfaces, in their order.
fn canon_trees(alloc: Global, set: &ModelSet) -> Result<Vec<Tree>, OutOfMemory>
    ensures { IfOk result (λ trees. map view trees.items ≡ map (λ e. interface_value e.1) (keyed set.now)) }
{
    let mut trees = Vec::new(alloc);
    'interfaces: for (_, interface) in set.entries() {
        trees.push(canon_tree(alloc, interface)?)?;
    }
    Ok(trees)
}

/// The canonical tree of a set of interfaces.
fn set_tree(alloc: Global, set: &ModelSet) -> Result<Tree, OutOfMemory>
    requires { InOrder set.now }
    ensures { IfOk result (λ tree. view tree ≡ set_value set.now) }
{
    let trees = canon_trees(alloc, set)?;
    Ok(Tree::List(List::from_vec(trees)))
}

/// The canonical text of a set of interfaces.
fn set_text(alloc: Global, set: &ModelSet) -> Result<List<u8>, OutOfMemory>
    requires { InOrder set.now }
    ensures { IfOk result (λ bytes. bytes ≡ set_text set.now) }
{
    let tree = set_tree(alloc, set)?;
    let printed = print(alloc, &tree);
    drop(tree);
    let mut text = printed?.into_string(alloc)?;
    text.push_str("\n")?;
    Ok(List::from_vec(text.into_bytes()))
}

impl Machine {
    /// The canonical text of all models. `Err` is want of memory.
    pub fn canon(&self) -> Result<Reply, OutOfMemory>
        ensures allowed { IfOk result (Allows (state_of self.now) Ask.Canon) }
        ensures follows { IfOk result (λ reply. follows (state_of self.now) Ask.Canon reply ≡ state_of self.now) }
    {
        self.models.sound();
        Ok(Reply::Canon(set_text(self.alloc, self.models.set())?))
    }
}
