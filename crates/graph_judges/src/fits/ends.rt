//! The relationships that have a twin as an end.

ghost use Rattle.std.specs.Prelude.{◌≡◌, IfOk};
ghost use Rattle.std.specs.List.{AllByRecursion};
ghost use Rattle.std.specs.Option.{option_copied};
ghost use Rattle.std.specs.Ordering.{is_lt};
ghost use Rattle.model_life.specs.resolution.Resolving.{HoldsRight};
ghost use Rattle.rel_graph.specs.Edges.{key_cmp, key};
ghost use Rattle.graph_steps.specs.bodies.Kept.{twin_view, IsKeptLink};
ghost use Rattle.graph_steps.specs.States.{set_of, with_twin};
ghost use Rattle.graph_steps.specs.Typed.{LinkIsTyped};
ghost use Rattle.graph_steps.specs.held.Held.{link_of, state_of};
ghost use Rattle.graph_judges.specs.fits.Ill.{IsLeastIll};
ghost use Rattle.graph_judges.specs.fits.Machinery.Firsts.{IsFirstOf, lesser};
ghost use Rattle.graph_judges.specs.fits.Machinery.Judged.{with_given};

use crate::fits::links::link_fits;
use dt_base::OutOfMemory;
use graph_steps::held::{Lent, Stored};
use model_life::resolution::Resolutions;
use rel_graph::{Edge, Listing, Rels};
use std::cmp::Ordering;
use twin_value::Twin;

/// Whether a relationship stands before another one.
fn is_before(a: &Edge<Stored>, b: &Edge<Stored>) -> bool
    ensures { result ≡ is_lt (key_cmp (key a.now) (key b.now)) }
{
    match a.source.cmp(&b.source) {
        Ordering::Less => true,
        Ordering::Equal => a.id < b.id,
        Ordering::Greater => false,
    }
}

/// The lesser of two relationships, or the one that there is.
fn lesser_edge<'a>(
    out: Option<&'a Edge<Stored>>,
    into: Option<&'a Edge<Stored>>,
) -> Option<&'a Edge<Stored>>
    ensures { option_copied result ≡ lesser (λ a b. key_cmp (key a) (key b)) (option_copied out.entry) (option_copied into.entry) }
{
    let Some(first) = out else {
        return into;
    };
    let Some(other) = into else {
        return out;
    };
    if is_before(other, first) {
        return into;
    }
    out
}

/// The first of a listing that is not well typed, where a twin stands in the place of the one with its id. Fails only for
/// want of memory.
fn first_ill<'a, K>(
    lent: &Lent<'a>,
    resolutions: &mut Resolutions,
    twin: &Twin,
    listing: Listing<'a, K, Stored>,
) -> Result<Option<&'a Edge<Stored>>, OutOfMemory>
    requires kept { AllByRecursion (λ e. IsKeptLink (link_of e)) listing }
    requires right { HoldsRight (set_of (state_of lent.now)) resolutions.old }
    ensures right { HoldsRight (set_of (state_of lent.now)) resolutions.new }
    ensures first { IfOk result (λ first. IsFirstOf (λ e. LinkIsTyped (with_given twin.now lent.now) (link_of e) → ⊥) listing.entry (option_copied first)) }
{
    'edges: for edge in listing {
        let fits = link_fits(lent, resolutions, twin, edge)?;
        if !fits {
            return Ok(Some(edge));
        }
    }
    Ok(None)
}

/// The least relationship with a twin as an end that would not be well typed if the twin stood in the place of the one with
/// its id. Fails only for want of memory.
pub fn least_ill<'a>(
    lent: &Lent<'a>,
    resolutions: &mut Resolutions,
    twin: &Twin,
) -> Result<Option<&'a Edge<Stored>>, OutOfMemory>
    requires right { HoldsRight (set_of (state_of lent.now)) resolutions.old }
    ensures right { HoldsRight (set_of (state_of lent.now)) resolutions.new }
    ensures least { IfOk result (λ least. IsLeastIll (with_twin (twin_view twin.now) (state_of lent.now)) twin.now.id (option_copied least)) }
{
    lent.right();
    let links = lent.links();
    let _many = links.len();
    let out = first_ill(lent, resolutions, twin, links.out(&twin.id))?;
    let into = first_ill(lent, resolutions, twin, Rels::into(links, &twin.id))?;
    Ok(lesser_edge(out, into))
}
