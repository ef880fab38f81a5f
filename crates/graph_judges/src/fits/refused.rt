//! Judgements that failed.

ghost use Rattle.std.specs.Prelude.{◌≡◌, IfOk, IsTrue};
ghost use Rattle.graph_asks.specs.declared.refusal.Refusal.{Refusal};
ghost use Rattle.graph_steps.specs.declared.bodies.failure.BodyFailure.TheVariants as failures;

use dt_base::OutOfMemory;
use graph_steps::bodies::BodyFailure;

fn is_refusal(failure: &BodyFailure) -> bool
    ensures { IsTrue result → (r : Refusal) × (failure.now ≡ failures.Refused r) }
{
    match failure {
        BodyFailure::Refused(_) => true,
        BodyFailure::OutOfMemory => false,
    }
}

/// That a body was refused is an answer. Fails where memory was wanting.
pub(crate) fn refused(failure: BodyFailure) -> Result<(), OutOfMemory>
    ensures { IfOk result (λ _. (r : Refusal) × (failure ≡ failures.Refused r)) }
{
    let is_refused = is_refusal(&failure);
    drop(failure);
    if is_refused {
        return Ok(());
    }
    Err(OutOfMemory)
}
