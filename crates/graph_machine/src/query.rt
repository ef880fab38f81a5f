//! The ask for a page of the rows of a query.

ghost use Rattle.std.specs.Prelude.{◌≡◌, IfOk};
ghost use Rattle.std.specs.Option.{option_copied};
ghost use Rattle.json_tree.specs.View.{view};
ghost use Rattle.query_terms.specs.Queries.{asked};
ghost use Rattle.graph_asks.specs.Answers.{body};
ghost use Rattle.graph_steps.specs.QueryAsks.{answer_page};
ghost use Rattle.graph_steps.specs.Steps.{Allows, follows};
ghost use Rattle.graph_steps.specs.held.Held.{state_of};

use crate::machine::Machine;
use dt_base::{List, OutOfMemory, Text};
use graph_asks::{Ask, Reply};
use graph_steps::paging::page_tree;
use json_tree::Tree;
use query_eval::{Rows, page};
use query_terms::Query;

/// The ids of a key, where one is given.
fn ids_of(after: &Option<List<Text>>) -> Option<&[Text]>
    ensures { option_copied result ≡ after.now }
{
    match after {
        Some(ids) => Some(ids.as_slice()),
        None => None,
    }
}

impl Machine {
    /// A page of the rows of a query, past a key where one is given. `Err` is want of memory.
    pub fn query(&self, query: &Query, after: &Option<List<Text>>) -> Result<Reply, OutOfMemory>
        ensures allowed { IfOk result (Allows (state_of self.now) (Ask.Query query.now after.now)) }
        ensures follows { IfOk result (λ reply. follows (state_of self.now) (Ask.Query query.now after.now) reply ≡ state_of self.now) }
    {
        Ok(Reply::Body(self.query_page(query, after)?))
    }

    /// The page of the rows of a query.
    fn query_page(&self, query: &Query, after: &Option<List<Text>>) -> Result<Tree, OutOfMemory>
        ensures { IfOk result (λ tree. body (view tree) ≡ answer_page (state_of self.now) (asked query.now) after.now) }
    {
        let Rows { rows, token } = page(self.alloc, self, query, ids_of(after))?;
        page_tree(self.alloc, rows.items, token)
    }
}
