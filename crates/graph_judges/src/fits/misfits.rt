//! Twins that would be live again, and would not fit.

ghost use Rattle.std.specs.Prelude.{◌≡◌, ◌↔◌, IfOk, IsTrue, Some};
ghost use Rattle.std.specs.List.{AllByRecursion};
ghost use Rattle.std.specs.Option.{option_copied};
ghost use Rattle.std.specs.Ordering.{nat_cmp};
ghost use Rattle.std.specs.Cmp.Lexicographic.{slice_cmp};
ghost use Rattle.model_life.specs.Refusals.{AreNew};
ghost use Rattle.model_life.specs.resolution.Resolving.{HoldsRight};
ghost use Rattle.graph_steps.specs.bodies.Kept.{twin_view};
ghost use Rattle.graph_steps.specs.ModelAsks.{after_uploads};
ghost use Rattle.graph_steps.specs.States.{State, set_of};
ghost use Rattle.graph_steps.specs.held.Held.{state_of};
ghost use Rattle.graph_judges.specs.fits.Ill.{IsLeastMisfit};
ghost use Rattle.graph_judges.specs.fits.Machinery.Firsts.{IsFirstOf, IsLeastOf, lesser};
ghost use Rattle.graph_judges.specs.fits.Machinery.Judged.{Misfits, MisfitsOf, MisfitsAmong, StandsLive};

use crate::fits::ends::least_ill;
use crate::fits::twins::twin_fits;
use dt_base::names::Dtmi;
use dt_base::{OutOfMemory, Text};
use dtdl_terms::{Interface, Uploaded};
use graph_steps::held::Lent;
use graph_steps::twins::OfModel;
use model_life::resolution::Resolutions;
use twin_value::Twin;

/// The lesser of two twins, or the one that there is.
fn lesser_twin<'a>(least: Option<&'a Twin>, found: Option<&'a Twin>) -> Option<&'a Twin>
    ensures { option_copied result ≡ lesser (λ a b. slice_cmp nat_cmp a.id b.id) (option_copied least.entry) (option_copied found.entry) }
{
    let Some(first) = least else {
        return found;
    };
    let Some(other) = found else {
        return least;
    };
    if other.id < first.id {
        return found;
    }
    least
}

/// Whether a twin of a model that is there does not fit it, or is an end of a relationship that is not well typed. Fails only
/// for want of memory.
fn misfits(
    lent: &Lent<'_>,
    resolutions: &mut Resolutions,
    interface: &Interface,
    twin: &Twin,
) -> Result<bool, OutOfMemory>
    requires stands { StandsLive lent.now interface.now twin.now }
    requires right { HoldsRight (set_of (state_of lent.now)) resolutions.old }
    ensures right { HoldsRight (set_of (state_of lent.now)) resolutions.new }
    ensures misfits { IfOk result (λ bad. IsTrue bad ↔ Misfits (state_of lent.now) (twin_view twin.now)) }
{
    if twin_fits(lent, resolutions, interface, twin)? {
        let ill = least_ill(lent, resolutions, twin)?;
        return Ok(ill.is_some());
    }
    Ok(true)
}

/// The first twin of a listing that does not fit. Fails only for want of memory.
fn first_misfit<'a>(
    lent: &Lent<'a>,
    resolutions: &mut Resolutions,
    interface: &Interface,
    listing: OfModel<'a>,
) -> Result<Option<&'a Twin>, OutOfMemory>
    requires stand { AllByRecursion (StandsLive lent.now interface.now) listing }
    requires right { HoldsRight (set_of (state_of lent.now)) resolutions.old }
    ensures right { HoldsRight (set_of (state_of lent.now)) resolutions.new }
    ensures first { IfOk result (λ first. IsFirstOf (λ t. Misfits (state_of lent.now) (twin_view t)) listing.entry (option_copied first)) }
{
    'twins: for twin in listing {
        let bad = misfits(lent, resolutions, interface, twin)?;
        if bad {
            return Ok(Some(twin));
        }
    }
    Ok(None)
}

/// The least twin of a model that does not fit. Fails only for want of memory.
fn model_misfit<'a>(
    lent: &Lent<'a>,
    resolutions: &mut Resolutions,
    model: &Dtmi,
) -> Result<Option<&'a Twin>, OutOfMemory>
    requires right { HoldsRight (set_of (state_of lent.now)) resolutions.old }
    ensures right { HoldsRight (set_of (state_of lent.now)) resolutions.new }
    ensures least { IfOk result (λ least. IsLeastOf (λ a b. slice_cmp nat_cmp a.id b.id) (MisfitsOf lent.now model.now) (option_copied least)) }
{
    let Some(interface) = lent.interface(model) else {
        return Ok(None);
    };
    lent.right();
    let twins = lent.twins();
    let _many = twins.len();
    first_misfit(lent, resolutions, interface, twins.of_model(model))
}

/// The least twin of any of these models that does not fit. Fails only for want of memory.
fn least_among<'a>(
    lent: &Lent<'a>,
    resolutions: &mut Resolutions,
    new: &[Uploaded],
) -> Result<Option<&'a Twin>, OutOfMemory>
    requires right { HoldsRight (set_of (state_of lent.now)) resolutions.old }
    ensures right { HoldsRight (set_of (state_of lent.now)) resolutions.new }
    ensures least { IfOk result (λ least. IsLeastOf (λ a b. slice_cmp nat_cmp a.id b.id) (MisfitsAmong lent.now new.now) (option_copied least)) }
{
    let mut least = None;
    'uploads: for upload in new {
        let found = model_misfit(lent, resolutions, &upload.interface.id)?;
        least = lesser_twin(least, found);
    }
    Ok(least)
}

/// The id of the least twin that the models that came made live again, and that does not fit its model or is an end of a
/// relationship that is not well typed. Fails only for want of memory.
pub fn least_misfit(
    lent: &Lent<'_>,
    resolutions: &mut Resolutions,
    new: &[Uploaded],
) -> Result<Option<Text>, OutOfMemory>
    requires right { HoldsRight (set_of (state_of lent.now)) resolutions.old }
    ensures right { HoldsRight (set_of (state_of lent.now)) resolutions.new }
    ensures least { (old : State) → after_uploads old new.now ≡ state_of lent.now → AreNew old.models new.now → IfOk result (IsLeastMisfit old new.now) }
{
    match least_among(lent, resolutions, new)? {
        Some(twin) => Ok(Some(twin.id.copy(lent.alloc())?)),
        None => Ok(None),
    }
}
