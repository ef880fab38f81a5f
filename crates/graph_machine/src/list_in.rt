//! The ask for the relationships into a twin.

ghost use Rattle.std.specs.Prelude.{◌≡◌, ◌∷◌, [], map, take, IfOk};
ghost use Rattle.std.specs.List.{AllByRecursion};
ghost use Rattle.json_tree.specs.View.{view};
ghost use Rattle.graph_asks.specs.Answers.{body};
ghost use Rattle.graph_steps.specs.bodies.Kept.{IsKeptLink};
ghost use Rattle.graph_steps.specs.ListAsks.{listed_in, into_links};
ghost use Rattle.graph_steps.specs.Pages.{page_value};
ghost use Rattle.graph_steps.specs.States.{link_value};
ghost use Rattle.graph_steps.specs.Steps.{Allows, follows};
ghost use Rattle.graph_steps.specs.held.Held.{state_of, link_of};
ghost use Rattle.graph_machine.specs.Machinery.Listings.{raw_into};

use crate::answers::twin_not_found;
use crate::machine::Machine;
use crate::rows::rows;
use dt_base::{OutOfMemory, Text};
use graph_asks::{Ask, Reply};
use graph_steps::held::Stored;
use graph_steps::paging::{first_called, into_token, page_tree};
use json_tree::Tree;
use rel_graph::{Edge, Into, Rels};
use std::alloc::Global;

impl Machine {
    /// A page of the relationships into a twin, past a source and an id where they are given; refused where there is no
    /// such twin. `Err` is want of memory.
    pub fn list_in(&self, target: &Text, after: &Option<(Text, Text)>) -> Result<Reply, OutOfMemory>
        ensures allowed { IfOk result (Allows (state_of self.now) (Ask.ListIn target.now after.now)) }
        ensures follows { IfOk result (λ reply. follows (state_of self.now) (Ask.ListIn target.now after.now) reply ≡ state_of self.now) }
    {
        if self.has_twin(target) {
            return Ok(Reply::Body(self.into_page(target, after)?));
        }
        twin_not_found(self.alloc, target)
    }

    /// The page of the relationships into a twin.
    fn into_page(&self, target: &Text, after: &Option<(Text, Text)>) -> Result<Tree, OutOfMemory>
        ensures { IfOk result (λ tree. body (view tree) ≡ listed_in (state_of self.now) target.now after.now) }
    {
        let first = self.first_into(target, after)?;
        into_tree(self.alloc, first.as_slice())
    }

    /// The relationships that decide the page.
    fn first_into(
        &self,
        target: &Text,
        after: &Option<(Text, Text)>,
    ) -> Result<Vec<&Edge<Stored>>, OutOfMemory>
        ensures edges { IfOk result (λ first. map (λ e. link_of e.now) first.items ≡ take 101 (into_links (state_of self.now) target.now after.now)) }
        ensures kept { IfOk result (λ first. AllByRecursion (λ e. IsKeptLink (link_of e.now)) first.items) }
    {
        first_called(self.alloc, self.all_into(target, after), None)
    }

    /// The relationships into a twin, past a source and an id where they are given.
    fn all_into(&self, target: &Text, after: &Option<(Text, Text)>) -> Into<'_, Stored>
        ensures { result ≡ raw_into target.now after.now self.now.links }
    {
        match after {
            Some(past) => self.links.into_after(target, past),
            None => Rels::into(&self.links, target),
        }
    }
}

/// The page that these relationships decide.
fn into_tree(alloc: Global, first: &[&Edge<Stored>]) -> Result<Tree, OutOfMemory>
    requires { AllByRecursion (λ e. IsKeptLink (link_of e.now)) first.now }
    ensures { IfOk result (λ tree. view tree ≡ page_value (map (λ e. (e.now.source ∷ e.now.id ∷ [], link_value (link_of e.now))) first.now)) }
{
    let rows = rows(alloc, first)?;
    let next = into_token(alloc, first)?;
    page_tree(alloc, rows, next)
}
