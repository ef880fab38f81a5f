//! Limits on relationships.

ghost use Rattle.std.specs.Prelude.{◌≡◌, ◌≤◌, IfSome, MatchOption, length};
ghost use Rattle.std.specs.Option.{option_copied, option_map, unwrap_or};
ghost use Rattle.graph_steps.specs.bodies.Kept.{link_view};
ghost use Rattle.graph_steps.specs.held.Held.{state_of, link_of};
ghost use Rattle.graph_steps.specs.LinkAsks.{LinkFull, link_at, with_link};
ghost use Rattle.graph_steps.specs.States.{Link, link_text};
ghost use Rattle.graph_steps.specs.Typed.{WellTyped};
ghost use Rattle.graph_steps.specs.held.Judged.{Unrefused};

use dtdl_terms::Limit;
use graph_asks::Refusal;
use graph_steps::held::{Lent, Stored};
use rel_graph::Edge;
use twin_value::Relationship;

/// The most bytes of a relationship's text (this project's own).
pub(crate) const MOST_LINK_BYTES: u64 = 4_096;

/// The most relationships that there are (this project's own).
const MOST_LINKS: u64 = 400_000;

/// The most bytes of the texts of all twins and relationships together (this project's own).
const MOST_GRAPH_BYTES: u64 = 268_435_456;

/// How many relationships there are with one that comes in the place of the one that there may be. Takes no memory.
fn links_with(lent: &Lent<'_>, there: Option<&Edge<Stored>>) -> u64
    requires typed { WellTyped (state_of lent.now) }
    ensures { (l : Link) → option_map link_of (option_copied there.entry) ≡ link_at l.source l.id (state_of lent.now) → result ≡ length (with_link l (state_of lent.now)).links }
{
    let links = lent.links().len();
    match there {
        Some(_) => links,
        None => links + 1,
    }
}

/// How many bytes the text of the relationship has that there may be, 0 where there is none. Takes no memory.
fn bytes_before(there: Option<&Edge<Stored>>) -> u64
    requires { IfSome (option_copied there) (λ e. e.payload.bytes ≡ length (link_text (link_of e))) }
    ensures { result ≡ unwrap_or (option_map (λ l. length (link_text l)) (option_map link_of (option_copied there.entry))) 0 }
{
    match there {
        Some(edge) => edge.payload.bytes,
        None => 0,
    }
}

/// The first limit of the graph that is passed with this relationship, whose text has so many bytes. Takes no memory.
pub(crate) fn limit_passed(lent: &Lent<'_>, link: &Relationship, bytes: u64) -> Option<Limit>
    requires typed { WellTyped (state_of lent.now) }
    requires bytes { bytes ≡ length (link_text (link_view link.now)) }
    requires short { bytes ≤ 4096 }
    ensures { MatchOption result
        (Unrefused (LinkFull (with_link (link_view link.now) (state_of lent.now)) (link_view link.now)))
        (λ limit. LinkFull (with_link (link_view link.now) (state_of lent.now)) (link_view link.now) (Refusal.Full limit)) }
{
    let there = lent.link(&link.source, &link.id);
    if links_with(lent, there) > MOST_LINKS {
        return Some(Limit::Relationships);
    }
    let before = bytes_before(there);
    if lent.bytes() + bytes - before > MOST_GRAPH_BYTES {
        return Some(Limit::GraphBytes);
    }
    None
}
