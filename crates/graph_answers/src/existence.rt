//! That there is an answer. The function does nothing, and its contract is the law.

ghost use Rattle.dt_base.specs.Existence.{IsThere};
ghost use Rattle.graph_asks.specs.Answers.{Answer};
ghost use Rattle.graph_asks.specs.declared.ask.Ask.{Ask};
ghost use Rattle.graph_steps.specs.States.{State};
ghost use Rattle.graph_steps.specs.Steps.{Answers};

/// Each ask has an answer in each state: a refusal, or what is given where nothing refuses it.
pub fn some_answer()
    ensures { (s : State) (ask : Ask) → IsThere ((answer : Answer) × Answers s ask answer) }
{}
