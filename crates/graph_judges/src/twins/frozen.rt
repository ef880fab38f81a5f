//! Twins whose model is not there.

ghost use Rattle.std.specs.Prelude.{◌≡◌, IfOk, IfSome, MatchResult};
ghost use Rattle.std.specs.Option.{option_copied, option_map};
ghost use Rattle.graph_steps.specs.bodies.Bodies.{FailsBy};
ghost use Rattle.graph_steps.specs.held.Held.{state_of, twin_of, IsHeldTwin};
ghost use Rattle.graph_steps.specs.States.{twin_at};
ghost use Rattle.graph_steps.specs.TwinAsks.{Frozen};
ghost use Rattle.graph_steps.specs.held.Judged.{Unrefused};

use crate::twins::refusals::frozen;
use dt_base::Text;
use graph_steps::bodies::BodyFailure;
use graph_steps::held::Lent;
use graph_steps::twins::Held;

/// The twin that there is with an id, and its size; refused where it is frozen. Fails for want of memory too.
pub(crate) fn unless_frozen<'t>(lent: &Lent<'t>, id: &Text) -> Result<Option<&'t Held>, BodyFailure>
    ensures frozen { MatchResult result (λ _. Unrefused (Frozen (state_of lent.now) id.now)) (FailsBy (Frozen (state_of lent.now) id.now)) }
    ensures there { IfOk result (λ there. option_map twin_of (option_copied there) ≡ twin_at id.now (state_of lent.now)) }
    ensures held { IfOk result (λ there. IfSome (option_copied there) IsHeldTwin) }
{
    let Some(held) = lent.held(id) else {
        return Ok(None);
    };
    if lent.is_live(&held.twin) {
        return Ok(Some(held));
    }
    let refusal = frozen(lent.alloc(), &held.twin.model)?;
    Err(BodyFailure::Refused(refusal))
}
