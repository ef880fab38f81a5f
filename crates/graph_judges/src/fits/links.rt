//! One relationship, judged by what its source's model declares.

ghost use Rattle.std.specs.Prelude.{◌≡◌, ◌↔◌, IfOk, IsTrue, Some};
ghost use Rattle.std.specs.Option.{option_copied, option_map};
ghost use Rattle.dtdl_terms.specs.TermViews.{kind_term};
ghost use Rattle.model_life.specs.resolution.Resolving.{HoldsRight};
ghost use Rattle.rel_graph.specs.Edges.{named};
ghost use Rattle.twin_value.specs.Breaches.{HasNoBreach, IsLinkBreach};
ghost use Rattle.graph_steps.specs.bodies.Kept.{twin_view, IsKeptLink};
ghost use Rattle.graph_steps.specs.Inherited.{contents, inherited};
ghost use Rattle.graph_steps.specs.States.{interface_of, link_value, set_of, twin_at};
ghost use Rattle.graph_steps.specs.Typed.{target_of, IsAtMost, FitsSource, LinkIsTyped};
ghost use Rattle.graph_steps.specs.held.Held.{link_of, state_of};
ghost use Rattle.graph_judges.specs.fits.Machinery.Judged.{with_given, SuitsAmong, SuitsDeclared, SuitsKind};

use crate::fits::refused::refused;
use dt_base::names::Dtmi;
use dt_base::{OutOfMemory, Text};
use dtdl_terms::{ContentKind, Interface, Resolved};
use graph_steps::bodies::is_model_a;
use graph_steps::held::{Lent, Stored, judged_link, link_called, most_of, stored_tree, target_of};
use model_life::resolution::Resolutions;
use rel_graph::Edge;
use twin_value::Twin;

/// The twin with an id, where a twin stands in the place of the one with its id. Takes no memory.
fn standing<'t>(lent: &Lent<'t>, twin: &'t Twin, id: &Text) -> Option<&'t Twin>
    ensures { option_map twin_view (option_copied result) ≡ twin_at id.now (with_given twin.now lent.now) }
{
    if *id == twin.id {
        return Some(twin);
    }
    lent.twin(id)
}

/// Whether the twin with an id is or extends this model, or is frozen, or is not there. Takes no memory.
fn suits_model(lent: &Lent<'_>, twin: &Twin, declared: &Dtmi, target: &Text) -> bool
    ensures { IsTrue result ↔ SuitsDeclared (with_given twin.now lent.now) target.now (Some declared.now) }
{
    let Some(there) = standing(lent, twin, target) else {
        return true;
    };
    let Some(interface) = lent.interface(&there.model) else {
        return true;
    };
    lent.models().sound();
    is_model_a(lent.models().set(), interface, declared)
}

/// Whether the twin with an id suits the target that a relationship declares. Takes no memory.
fn suits_target(lent: &Lent<'_>, twin: &Twin, kind: &ContentKind, target: &Text) -> bool
    ensures { IsTrue result ↔ SuitsDeclared (with_given twin.now lent.now) target.now (target_of (kind_term kind.now)) }
{
    match target_of(kind) {
        Some(declared) => suits_model(lent, twin, declared, target),
        None => true,
    }
}

/// Whether there are not more of a relationship's name than its kind declares. Takes no memory.
fn are_few(lent: &Lent<'_>, most: Option<u32>, edge: &Edge<Stored>) -> bool
    ensures { IsTrue result ↔ IsAtMost most (named edge.now.source edge.now.name (state_of lent.now).links) }
{
    match most {
        Some(most) => lent.links().count(&edge.source, &edge.name) <= most as u64,
        None => true,
    }
}

/// Whether a relationship suits what is declared of its kind. Takes no memory.
fn suits_kind(lent: &Lent<'_>, twin: &Twin, kind: &ContentKind, edge: &Edge<Stored>) -> bool
    ensures { IsTrue result ↔ SuitsKind (with_given twin.now lent.now) (kind_term kind.now) (link_of edge.now) }
{
    if suits_target(lent, twin, kind, &edge.target) {
        return are_few(lent, most_of(kind), edge);
    }
    false
}

/// Whether a relationship of its name is declared among contents, and suits this. Takes no memory.
fn suits_among(lent: &Lent<'_>, twin: &Twin, resolved: &Resolved, edge: &Edge<Stored>) -> bool
    ensures { IsTrue result ↔ SuitsAmong (with_given twin.now lent.now) resolved.now.contents (link_of edge.now) }
{
    match link_called(resolved.contents.as_slice(), &edge.name) {
        Some(content) => suits_kind(lent, twin, &content.content.kind, edge),
        None => false,
    }
}

/// Whether an interface of a model declares a relationship of its name, and it suits this. Fails only for want of memory.
fn suits_declared(
    lent: &Lent<'_>,
    resolutions: &mut Resolutions,
    twin: &Twin,
    interface: &Interface,
    edge: &Edge<Stored>,
) -> Result<bool, OutOfMemory>
    requires there { interface_of (state_of lent.now) interface.now.id ≡ Some interface.now }
    requires right { HoldsRight (set_of (state_of lent.now)) resolutions.old }
    ensures right { HoldsRight (set_of (state_of lent.now)) resolutions.new }
    ensures suits { IfOk result (λ suits. IsTrue suits ↔ SuitsAmong (with_given twin.now lent.now) (contents (set_of (state_of lent.now)) interface.now) (link_of edge.now)) }
{
    lent.models().sound();
    resolutions.ready(lent.models().set(), &interface.id)?;
    match resolutions.get(&interface.id) {
        Some(resolved) => Ok(suits_among(lent, twin, resolved, edge)),
        None => unreachable!(),
    }
}

/// Whether what is printed of a relationship has no breach as a body out of a twin of an interface. Fails only for want of
/// memory.
fn is_unbroken(
    lent: &Lent<'_>,
    resolutions: &mut Resolutions,
    interface: &Interface,
    edge: &Edge<Stored>,
) -> Result<bool, OutOfMemory>
    requires there { interface_of (state_of lent.now) interface.now.id ≡ Some interface.now }
    requires kept { IsKeptLink (link_of edge.now) }
    requires right { HoldsRight (set_of (state_of lent.now)) resolutions.old }
    ensures right { HoldsRight (set_of (state_of lent.now)) resolutions.new }
    ensures unbroken { IfOk result (λ clear. IsTrue clear ↔ HasNoBreach (IsLinkBreach (inherited (set_of (state_of lent.now)) interface.now) (link_value (link_of edge.now)))) }
{
    let tree = stored_tree(lent.alloc(), edge)?;
    let judged = judged_link(
        lent,
        resolutions,
        &edge.source,
        &edge.id,
        &edge.name,
        &edge.target,
        interface,
        &tree,
    );
    drop(tree);
    match judged {
        Ok(link) => {
            drop(link);
            Ok(true)
        }
        Err(failure) => {
            refused(failure)?;
            Ok(false)
        }
    }
}

/// Whether a relationship out of a twin of an interface fits it. Fails only for want of memory.
fn fits_source(
    lent: &Lent<'_>,
    resolutions: &mut Resolutions,
    twin: &Twin,
    interface: &Interface,
    edge: &Edge<Stored>,
) -> Result<bool, OutOfMemory>
    requires there { interface_of (state_of lent.now) interface.now.id ≡ Some interface.now }
    requires kept { IsKeptLink (link_of edge.now) }
    requires right { HoldsRight (set_of (state_of lent.now)) resolutions.old }
    ensures right { HoldsRight (set_of (state_of lent.now)) resolutions.new }
    ensures fits { IfOk result (λ fits. IsTrue fits ↔ FitsSource (with_given twin.now lent.now) interface.now (link_of edge.now)) }
{
    if is_unbroken(lent, resolutions, interface, edge)? {
        return suits_declared(lent, resolutions, twin, interface, edge);
    }
    Ok(false)
}

/// Whether a relationship is well typed, where a twin stands in the place of the one with its id. Fails only for want of
/// memory.
pub(crate) fn link_fits(
    lent: &Lent<'_>,
    resolutions: &mut Resolutions,
    twin: &Twin,
    edge: &Edge<Stored>,
) -> Result<bool, OutOfMemory>
    requires kept { IsKeptLink (link_of edge.now) }
    requires right { HoldsRight (set_of (state_of lent.now)) resolutions.old }
    ensures right { HoldsRight (set_of (state_of lent.now)) resolutions.new }
    ensures fits { IfOk result (λ fits. IsTrue fits ↔ LinkIsTyped (with_given twin.now lent.now) (link_of edge.now)) }
{
    let Some(source) = standing(lent, twin, &edge.source) else {
        return Ok(true);
    };
    let Some(interface) = lent.interface(&source.model) else {
        return Ok(true);
    };
    fits_source(lent, resolutions, twin, interface, edge)
}
