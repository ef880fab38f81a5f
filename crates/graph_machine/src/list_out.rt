//! The ask for the relationships out of a twin.

ghost use Rattle.std.specs.Prelude.{◌≡◌, ◌∷◌, [], map, take, IfOk};
ghost use Rattle.std.specs.List.{AllByRecursion, filter};
ghost use Rattle.json_tree.specs.View.{view};
ghost use Rattle.graph_asks.specs.Answers.{body};
ghost use Rattle.graph_steps.specs.bodies.Kept.{IsKeptLink};
ghost use Rattle.graph_steps.specs.ListAsks.{is_link_called, listed_out, out_links};
ghost use Rattle.graph_steps.specs.Pages.{page_value};
ghost use Rattle.graph_steps.specs.States.{link_value};
ghost use Rattle.graph_steps.specs.Steps.{Allows, follows};
ghost use Rattle.graph_steps.specs.held.Held.{state_of, link_of};
ghost use Rattle.graph_machine.specs.Machinery.Listings.{raw_out};

use crate::answers::twin_not_found;
use crate::machine::Machine;
use crate::rows::rows;
use dt_base::{OutOfMemory, Text};
use graph_asks::{Ask, Reply};
use graph_steps::held::Stored;
use graph_steps::paging::{first_called, out_token, page_tree};
use json_tree::Tree;
use rel_graph::{Edge, Out};
use std::alloc::Global;

impl Machine {
    /// A page of the relationships out of a twin, of one name where one is given, past an id where one is given; refused where
    /// there is no such twin. `Err` is want of memory.
    pub fn list_out(
        &self,
        source: &Text,
        name: &Option<Text>,
        after: &Option<Text>,
    ) -> Result<Reply, OutOfMemory>
        ensures allowed { IfOk result (Allows (state_of self.now) (Ask.ListOut source.now name.now after.now)) }
        ensures follows { IfOk result (λ reply. follows (state_of self.now) (Ask.ListOut source.now name.now after.now) reply ≡ state_of self.now) }
    {
        if self.has_twin(source) {
            return Ok(Reply::Body(self.out_page(source, name, after)?));
        }
        twin_not_found(self.alloc, source)
    }

    /// The page of the relationships out of a twin.
    fn out_page(
        &self,
        source: &Text,
        name: &Option<Text>,
        after: &Option<Text>,
    ) -> Result<Tree, OutOfMemory>
        ensures { IfOk result (λ tree. body (view tree) ≡ listed_out (state_of self.now) source.now name.now after.now) }
    {
        let first = self.first_out(source, name, after)?;
        out_tree(self.alloc, first.as_slice())
    }

    /// The relationships that decide the page.
    fn first_out(
        &self,
        source: &Text,
        name: &Option<Text>,
        after: &Option<Text>,
    ) -> Result<Vec<&Edge<Stored>>, OutOfMemory>
        ensures edges { IfOk result (λ first. map (λ e. link_of e.now) first.items ≡ take 101 (filter (is_link_called name.now) (out_links (state_of self.now) source.now after.now))) }
        ensures kept { IfOk result (λ first. AllByRecursion (λ e. IsKeptLink (link_of e.now)) first.items) }
    {
        first_called(self.alloc, self.all_out(source, after), name.as_ref())
    }

    /// The relationships out of a twin, past an id where one is given.
    fn all_out(&self, source: &Text, after: &Option<Text>) -> Out<'_, Stored>
        ensures { result ≡ raw_out source.now after.now self.now.links }
    {
        match after {
            Some(id) => self.links.out_after(source, id),
            None => self.links.out(source),
        }
    }
}

/// The page that these relationships decide.
fn out_tree(alloc: Global, first: &[&Edge<Stored>]) -> Result<Tree, OutOfMemory>
    requires { AllByRecursion (λ e. IsKeptLink (link_of e.now)) first.now }
    ensures { IfOk result (λ tree. view tree ≡ page_value (map (λ e. (e.now.id ∷ [], link_value (link_of e.now))) first.now)) }
{
    let rows = rows(alloc, first)?;
    let next = out_token(alloc, first)?;
    page_tree(alloc, rows, next)
}
