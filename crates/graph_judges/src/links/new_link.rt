//! Relationships that come.

ghost use Rattle.std.specs.Prelude.{◌≡◌, IfOk, MatchResult};
ghost use Rattle.graph_asks.specs.declared.refusal.Refusal.TheVariants as refusals;
ghost use Rattle.graph_steps.specs.bodies.Bodies.{FailsBy};
ghost use Rattle.graph_steps.specs.bodies.Kept.{link_view, IsKeptLink};
ghost use Rattle.graph_steps.specs.declared.bodies.failure.BodyFailure.TheVariants as failures;
ghost use Rattle.graph_steps.specs.held.Held.{state_of, link_of, IsHeldLink};
ghost use Rattle.graph_steps.specs.LinkAsks.{LinkFull, with_link};
ghost use Rattle.graph_steps.specs.States.{link_value};
ghost use Rattle.graph_steps.specs.Typed.{WellTyped};
ghost use Rattle.json_tree.specs.View.{view};
ghost use Rattle.graph_steps.specs.held.Judged.{Unrefused};

use crate::links::limits::{MOST_LINK_BYTES, limit_passed};
use dtdl_terms::Limit;
use graph_asks::Refusal;
use graph_steps::bodies::{BodyFailure, link_bytes, link_tree};
use graph_steps::held::{Lent, Stored};
use json_tree::Tree;
use rel_graph::Edge;
use twin_value::Relationship;

/// A relationship that comes, with the tree that is printed of it.
#[derive(Debug, Drop)]
pub struct NewLink {
    pub edge: Edge<Stored>,
    pub tree: Tree,
}

/// The refusal of a relationship with which a limit would be passed.
fn full(limit: Limit) -> BodyFailure
    ensures { result ≡ failures.Refused (refusals.Full limit) }
{
    BodyFailure::Refused(Refusal::Full { limit })
}

/// The relationship with the size of its text.
fn sized(link: Relationship, bytes: u64) -> Edge<Stored>
    ensures link { link_of result ≡ link_view link }
    ensures bytes { result.payload.bytes ≡ bytes }
{
    let Edge {
        source,
        id,
        name,
        target,
        payload,
    } = link;
    Edge {
        source,
        id,
        name,
        target,
        payload: Stored {
            values: payload,
            bytes,
        },
    }
}

/// The relationship with what is printed of it, where no limit is passed with it. Fails by the refusal that names the first
/// limit that is passed, or for want of memory.
pub(crate) fn admitted(lent: &Lent<'_>, link: Relationship) -> Result<NewLink, BodyFailure>
    requires typed { WellTyped (state_of lent.now) }
    requires kept { IsKeptLink (link_view link) }
    ensures judged { MatchResult result
        (λ new. Unrefused (LinkFull (with_link (link_view link) (state_of lent.now)) (link_view link)) × (link_of new.edge ≡ link_view link))
        (FailsBy (LinkFull (with_link (link_view link) (state_of lent.now)) (link_view link))) }
    ensures held { IfOk result (λ new. IsHeldLink new.edge) }
    ensures tree { IfOk result (λ new. view new.tree ≡ link_value (link_of new.edge)) }
{
    let Some(bytes) = link_bytes(MOST_LINK_BYTES, &link) else {
        drop(link);
        return Err(full(Limit::RelationshipBytes));
    };
    match limit_passed(lent, &link, bytes) {
        Some(limit) => {
            drop(link);
            Err(full(limit))
        }
        None => {
            let tree = link_tree(lent.alloc(), &link)?;
            Ok(NewLink {
                edge: sized(link, bytes),
                tree,
            })
        }
    }
}
