//! The ask that lets a twin go.

ghost use Rattle.std.specs.Prelude.{◌≡◌, IfOk, IsOk, OnErr, None, Some, slice_get, true};
ghost use Rattle.std.specs.List.{find};
ghost use Rattle.std.specs.Option.{is_some, option_copied, option_map};
ghost use Rattle.std.specs.Ordering.{is_lt};
ghost use Rattle.rel_graph.specs.Edges.{key_cmp, key};
ghost use Rattle.graph_asks.specs.Answers.{done};
ghost use Rattle.graph_steps.specs.States.{is_end, twin_at, without_twin};
ghost use Rattle.graph_steps.specs.Steps.{Allows, Answers, follows};
ghost use Rattle.graph_steps.specs.held.Held.{state_of, link_of};
ghost use Rattle.graph_machine.specs.Machinery.Least.{least_of};

use crate::answers::twin_not_found;
use crate::machine::Machine;
use dt_base::{OutOfMemory, Text};
use graph_asks::{Ask, Refusal, Reply};
use graph_steps::held::Stored;
use rel_graph::{Edge, Listing, Rels};
use std::alloc::Global;
use std::cmp::Ordering;

/// Whether an edge stands before another one.
fn is_before(a: &Edge<Stored>, b: &Edge<Stored>) -> bool
    ensures { result ≡ is_lt (key_cmp (key a.now) (key b.now)) }
{
    match a.source.cmp(&b.source) {
        Ordering::Less => true,
        Ordering::Equal => a.id < b.id,
        Ordering::Greater => false,
    }
}

/// The lesser of two edges, or the one that there is.
fn least_of<'a>(
    out: Option<&'a Edge<Stored>>,
    into: Option<&'a Edge<Stored>>,
) -> Option<&'a Edge<Stored>>
    ensures { option_copied result ≡ least_of (option_copied out.entry) (option_copied into.entry) }
{
    let Some(first) = out else {
        return into;
    };
    let Some(other) = into else {
        return out;
    };
    if is_before(other, first) {
        return into;
    }
    out
}

/// The first relationship of a listing.
fn first_of<'a, K>(mut listing: Listing<'a, K, Stored>) -> Option<&'a Edge<Stored>>
    ensures { option_copied result ≡ slice_get listing.entry 0 }
{
    listing.next()
}

/// A twin is an end of this relationship.
fn twin_in_use(alloc: Global, by: &Edge<Stored>) -> Result<Reply, OutOfMemory>
    ensures { IfOk result (λ reply. reply ≡ Reply.Refused (Refusal.TwinInUse by.now.id by.now.source)) }
{
    let id = by.id.copy(alloc)?;
    let source = by.source.copy(alloc)?;
    Ok(Reply::Refused(Refusal::TwinInUse { id, source }))
}

impl Machine {
    /// Lets a twin go; refused where there is no such twin, and where it is an end of a relationship. Takes no memory where it
    /// is done; else `Err` is want of memory, and nothing changes.
    pub fn drop_twin(&mut self, id: &Text) -> Result<Reply, OutOfMemory>
        ensures allowed { IfOk result (Allows (state_of self.old) (Ask.DropTwin id.now)) }
        ensures follows { IfOk result (λ reply. state_of self.new ≡ follows (state_of self.old) (Ask.DropTwin id.now) reply) }
        ensures unchanged { OnErr result (self.new ≡ self.old) }
        ensures free { Answers (state_of self.old) (Ask.DropTwin id.now) done → IsOk result }
    {
        if self.has_twin(id) {
            return self.drop_there(id);
        }
        twin_not_found(self.alloc, id)
    }

    /// Lets a twin that is there go.
    fn drop_there(&mut self, id: &Text) -> Result<Reply, OutOfMemory>
        requires there { is_some (twin_at id.now (state_of self.old)) ≡ true }
        ensures allowed { IfOk result (Allows (state_of self.old) (Ask.DropTwin id.now)) }
        ensures follows { IfOk result (λ reply. state_of self.new ≡ follows (state_of self.old) (Ask.DropTwin id.now) reply) }
        ensures unchanged { OnErr result (self.new ≡ self.old) }
        ensures free { Answers (state_of self.old) (Ask.DropTwin id.now) done → IsOk result }
    {
        if let Some(by) = self.user_of(id) {
            return twin_in_use(self.alloc, by);
        }
        self.take_twin(id);
        Ok(Reply::Done)
    }

    /// The least relationship with a twin as an end. Takes no memory.
    fn user_of(&self, id: &Text) -> Option<&Edge<Stored>>
        ensures { option_map link_of (option_copied result) ≡ find (is_end id.now) (state_of self.now).links }
    {
        let _many = self.links.len();
        let out = first_of(self.links.out(id));
        let into = first_of(Rels::into(&self.links, id));
        least_of(out, into)
    }

    /// Takes out a twin that is an end of no relationship. Takes no memory.
    fn take_twin(&mut self, id: &Text)
        requires there { is_some (twin_at id.now (state_of self.old)) ≡ true }
        requires unused { find (is_end id.now) (state_of self.old).links ≡ None }
        ensures { state_of self.new ≡ without_twin id.now (state_of self.old) }
    {
        let _twin = self.twins.remove(id);
    }
}
