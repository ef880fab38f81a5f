//! The ask that puts a twin.

ghost use Rattle.std.specs.Prelude.{◌≡◌, IfOk, MatchResult};
ghost use Rattle.graph_asks.specs.declared.refusal.Refusal.{Refusal};
ghost use Rattle.graph_steps.specs.bodies.Bodies.{FailsBy};
ghost use Rattle.graph_steps.specs.bodies.Kept.{twin_view};
ghost use Rattle.graph_steps.specs.held.Held.{state_of, IsHeldTwin};
ghost use Rattle.graph_steps.specs.Soundness.{IsSoundAsk};
ghost use Rattle.graph_steps.specs.States.{set_of, with_twin};
ghost use Rattle.graph_steps.specs.TwinAsks.{RefusesPutTwin, after_put_twin};
ghost use Rattle.graph_steps.specs.Typed.{WellTyped};
ghost use Rattle.json_tree.specs.View.{view};
ghost use Rattle.model_life.specs.resolution.Resolving.{HoldsRight};

use crate::twins::body::judged_body;
use crate::twins::frozen::unless_frozen;
use crate::twins::new_twin::NewTwin;
use dt_base::Text;
use dt_base::names::Dtmi;
use graph_asks::Ask;
use graph_steps::bodies::BodyFailure;
use graph_steps::held::Lent;
use json_tree::Tree;
use model_life::resolution::Resolutions;

/// The twin that an ask to put one brings. Fails by the first reason why it is refused, or for want of memory. What is lent
/// stays as it is.
pub fn judged_put(
    lent: &Lent<'_>,
    resolutions: &mut Resolutions,
    id: &Text,
    model: &Dtmi,
    tree: &Tree,
) -> Result<NewTwin, BodyFailure>
    requires typed { WellTyped (state_of lent.now) }
    requires sound { IsSoundAsk (Ask.PutTwin id.now model.now tree.now) }
    requires right { HoldsRight (set_of (state_of lent.now)) resolutions.old }
    ensures right { HoldsRight (set_of (state_of lent.now)) resolutions.new }
    ensures judged { MatchResult result
        (λ new. ((r : Refusal) → RefusesPutTwin (state_of lent.now) id.now model.now (view tree.now) r → ⊥)
        × (with_twin (twin_view new.twin) (state_of lent.now) ≡ after_put_twin (state_of lent.now) id.now model.now (view tree.now)))
        (FailsBy (RefusesPutTwin (state_of lent.now) id.now model.now (view tree.now))) }
    ensures id { IfOk result (λ new. new.twin.id ≡ id.now) }
    ensures held { IfOk result (λ new. IsHeldTwin (record { twin = new.twin; bytes = new.bytes })) }
{
    let there = unless_frozen(lent, id)?;
    judged_body(lent, resolutions, there, id, model, tree)
}
