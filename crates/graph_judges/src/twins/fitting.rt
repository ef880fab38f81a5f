//! Relationships that would not be well typed with a twin that comes.

ghost use Rattle.std.specs.Prelude.{◌≡◌, ◌↔◌, IsTrue, IsSome, MatchResult, Some, None};
ghost use Rattle.std.specs.Option.{IsSomeAnd, option_copied, option_map};
ghost use Rattle.graph_steps.specs.bodies.Bodies.{FailsBy};
ghost use Rattle.graph_steps.specs.bodies.Kept.{twin_view};
ghost use Rattle.graph_steps.specs.held.Held.{state_of, twin_of};
ghost use Rattle.graph_steps.specs.States.{set_of, twin_at, with_twin};
ghost use Rattle.graph_steps.specs.TwinAsks.{DoesNotFit};
ghost use Rattle.graph_steps.specs.Typed.{WellTyped};
ghost use Rattle.model_life.specs.resolution.Resolving.{HoldsRight};
ghost use Rattle.graph_steps.specs.held.Judged.{Unrefused};

use crate::fits::least_ill;
use crate::twins::refusals::does_not_fit;
use dt_base::names::{Dtmi, order};
use graph_steps::bodies::BodyFailure;
use graph_steps::held::Lent;
use graph_steps::twins::Held;
use model_life::resolution::Resolutions;
use std::cmp::Ordering;
use twin_value::Twin;

/// Whether two identifiers are one.
fn is_one(a: &Dtmi, b: &Dtmi) -> bool
    ensures { IsTrue result ↔ (a.now ≡ b.now) }
{
    order(a, b) == Ordering::Equal
}

/// Refuses where a relationship would not be well typed with a twin of another model in the place of the one with its id,
/// or for want of memory.
fn unless_ill(
    lent: &Lent<'_>,
    resolutions: &mut Resolutions,
    twin: &Twin,
) -> Result<(), BodyFailure>
    requires typed { WellTyped (state_of lent.now) }
    requires there { IsSome (twin_at twin.now.id (state_of lent.now)) }
    requires right { HoldsRight (set_of (state_of lent.now)) resolutions.old }
    ensures right { HoldsRight (set_of (state_of lent.now)) resolutions.new }
    ensures fits { MatchResult result
        (λ _. Unrefused (DoesNotFit (with_twin (twin_view twin.now) (state_of lent.now)) twin.now.id))
        (FailsBy (DoesNotFit (with_twin (twin_view twin.now) (state_of lent.now)) twin.now.id)) }
{
    let Some(link) = least_ill(lent, resolutions, twin)? else {
        return Ok(());
    };
    let refusal = does_not_fit(lent.alloc(), link)?;
    Err(BodyFailure::Refused(refusal))
}

/// Refuses where a relationship would not be well typed with a twin that comes in the place of the one that there may be, or
/// for want of memory. It can only be so where one is there and is of another model.
pub(crate) fn unless_unfit(
    lent: &Lent<'_>,
    resolutions: &mut Resolutions,
    there: Option<&Held>,
    twin: &Twin,
) -> Result<(), BodyFailure>
    requires typed { WellTyped (state_of lent.now) }
    requires there { option_map twin_of (option_copied there) ≡ twin_at twin.now.id (state_of lent.now) }
    requires right { HoldsRight (set_of (state_of lent.now)) resolutions.old }
    ensures right { HoldsRight (set_of (state_of lent.now)) resolutions.new }
    ensures fits { MatchResult result
        (λ _. Unrefused (DoesNotFit (with_twin (twin_view twin.now) (state_of lent.now)) twin.now.id))
        (FailsBy (DoesNotFit (with_twin (twin_view twin.now) (state_of lent.now)) twin.now.id)) }
{
    let Some(old) = there else {
        return Ok(());
    };
    if is_one(&old.twin.model, &twin.model) {
        return Ok(());
    }
    unless_ill(lent, resolutions, twin)
}
