//! Laws of answers. Each function does nothing, and its contract is the law.

ghost use Rattle.std.specs.Prelude.{◌≡◌};
ghost use Rattle.graph_asks.specs.Answers.{Answer};
ghost use Rattle.graph_asks.specs.Asks.{AreOneAsk};
ghost use Rattle.graph_asks.specs.declared.ask.Ask.{Ask};
ghost use Rattle.graph_steps.specs.Soundness.{IsSoundAsk};
ghost use Rattle.graph_steps.specs.States.{State};
ghost use Rattle.graph_steps.specs.Steps.{Answers, followed};

/// Two asks that are one, of which the first is sound, have at most one answer in a state, and one state follows it.
pub fn one_step()
    ensures answer { (s : State) (ask other : Ask) (a b : Answer) → IsSoundAsk ask → AreOneAsk ask other → Answers s ask a → Answers s other b → a ≡ b }
    ensures state { (s : State) (ask other : Ask) (a : Answer) → AreOneAsk ask other → followed s ask a ≡ followed s other a }
{}
