//! What the source's model declares of a relationship's name.

ghost use Rattle.std.specs.Prelude.{◌≡◌, IfOk, Some};
ghost use Rattle.std.specs.Option.{option_copied};
ghost use Rattle.graph_steps.specs.bodies.Kept.{link_view, twin_view};
ghost use Rattle.graph_steps.specs.held.Held.{state_of};
ghost use Rattle.graph_steps.specs.Inherited.{contents};
ghost use Rattle.graph_steps.specs.States.{interface_of, set_of, twin_at};
ghost use Rattle.model_life.specs.resolution.Resolving.{HoldsRight};
ghost use Rattle.twin_value.specs.Breaches.{link_called};
ghost use Rattle.graph_judges.specs.links.Machinery.Refused.{RefusesDeclared, TellsRefusal};

use crate::links::counting::count_refusal;
use crate::links::targets::target_refusal;
use dt_base::OutOfMemory;
use dtdl_terms::{Interface, ResolvedContent};
use graph_asks::Refusal;
use graph_steps::bodies::judged_alike;
use graph_steps::held::{Lent, link_called};
use model_life::resolution::Resolutions;
use twin_value::{Relationship, Twin};

/// The refusal of a relationship to this twin by what is declared of its name. Fails only for want of memory.
fn content_refusal(
    lent: &Lent<'_>,
    content: Option<&ResolvedContent>,
    twin: &Twin,
    link: &Relationship,
) -> Result<Option<Refusal>, OutOfMemory>
    requires { twin_at link.now.target (state_of lent.now) ≡ Some (twin_view twin.now) }
    ensures { IfOk result (TellsRefusal (RefusesDeclared (state_of lent.now) (option_copied content.entry) (link_view link.now))) }
{
    let Some(content) = content else {
        return Ok(None);
    };
    if let Some(refusal) = target_refusal(lent, content, &link.target, twin)? {
        return Ok(Some(refusal));
    }
    Ok(count_refusal(lent, content, &link.source, &link.id, &link.name))
}

/// The refusal of a relationship to this twin by what an interface, which is the source's, declares of its name. Fails only
/// for want of memory.
pub(crate) fn declared_refusal(
    lent: &Lent<'_>,
    resolutions: &mut Resolutions,
    interface: &Interface,
    twin: &Twin,
    link: &Relationship,
) -> Result<Option<Refusal>, OutOfMemory>
    requires there { interface_of (state_of lent.now) interface.now.id ≡ Some interface.now }
    requires target { twin_at link.now.target (state_of lent.now) ≡ Some (twin_view twin.now) }
    requires right { HoldsRight (set_of (state_of lent.now)) resolutions.old }
    ensures right { HoldsRight (set_of (state_of lent.now)) resolutions.new }
    ensures refusal { IfOk result (TellsRefusal (RefusesDeclared (state_of lent.now) (link_called link.now.name (contents (set_of (state_of lent.now)) interface.now)) (link_view link.now))) }
{
    let models = lent.models();
    models.sound();
    judged_alike();
    resolutions.ready(models.set(), &interface.id)?;
    let Some(resolved) = resolutions.get(&interface.id) else {
        unreachable!();
    };
    let content = link_called(resolved.contents.as_slice(), &link.name);
    content_refusal(lent, content, twin, link)
}
