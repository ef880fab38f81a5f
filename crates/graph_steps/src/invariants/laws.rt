//! Laws of the step.

ghost use Rattle.graph_asks.specs.Answers.{Answer};
ghost use Rattle.graph_asks.specs.declared.ask.Ask.{Ask};
ghost use Rattle.graph_steps.specs.invariants.Frozen.{FrozenStay};
ghost use Rattle.graph_steps.specs.Soundness.{IsSoundAsk};
ghost use Rattle.graph_steps.specs.States.{State};
ghost use Rattle.graph_steps.specs.Steps.{Answers, followed};
ghost use Rattle.graph_steps.specs.Typed.{WellTyped};

/// Whatever a sound ask is answered, the state that follows a well-typed one is well typed.
pub fn keeps_typed()
    ensures { (s : State) (ask : Ask) (answer : Answer) → WellTyped s → IsSoundAsk ask → Answers s ask answer
        → WellTyped (followed s ask answer) }
{}

/// A twin whose model is not there stays as it is through any step, and so do the relationships out of it, unless the ask
/// drops the twin or the relationship; it becomes live only where models come.
pub fn stays_frozen()
    ensures { (s : State) (ask : Ask) (answer : Answer) → WellTyped s → Answers s ask answer
        → FrozenStay s ask (followed s ask answer) }
{}
