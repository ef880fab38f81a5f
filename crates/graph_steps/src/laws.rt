//! Laws of the step.

ghost use Rattle.graph_steps.specs.States.{empty};
ghost use Rattle.graph_steps.specs.Typed.{WellTyped};

/// The empty state is well typed.
pub fn empty_is_typed()
    ensures { WellTyped empty }
{}
