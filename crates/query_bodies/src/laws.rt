//! What is made of the bodies of queries, whatever they are. Each function does nothing, and its contract is the law.

ghost use Rattle.std.specs.Prelude.{◌≡◌, ◌<◌, ℕ, List, length, Result, Ok};
ghost use Rattle.std.specs.List.{AllByRecursion};
ghost use Rattle.dt_base.specs.Existence.{IsThere};
ghost use Rattle.json_tree.specs.Values.{Json};
ghost use Rattle.twin_value.specs.Breaches.{IsTwinId};
ghost use Rattle.page_tokens.specs.Tokens.{IsPageToken};
ghost use Rattle.graph_asks.specs.declared.ask.Ask.{Ask};
ghost use Rattle.graph_asks.specs.declared.refusal.Refusal.{Refusal};
ghost use Rattle.graph_steps.specs.Pages.{token_of};
ghost use Rattle.graph_steps.specs.Soundness.{IsSoundAsk};
ghost use Rattle.query_bodies.specs.Outcomes.{AreOneOutcome, IsMadeOfBody};

/// A value makes at most one ask or decides at most one refusal, and never both. Two asks are one but for where their queries
/// lie in memory.
pub fn one_outcome()
    ensures { (v : Json) (one other : Result Ask Refusal) → IsMadeOfBody v one → IsMadeOfBody v other → AreOneOutcome one other }
{}

/// A value makes an ask or decides a refusal.
pub fn some_outcome()
    ensures { (v : Json) → IsThere ((outcome : Result Ask Refusal) × IsMadeOfBody v outcome) }
{}

/// The token that is given out for ids of twins and relationships is the token of these ids, and of no others.
pub fn token_as_ids()
    ensures own { (ids : List (List ℕ)) → 0 < length ids → AllByRecursion IsTwinId ids
        → IsPageToken (token_of ids) (length ids) ids }
    ensures only { (ids others : List (List ℕ)) (count : ℕ) → 0 < length ids → AllByRecursion IsTwinId ids
        → IsPageToken (token_of ids) count others → (count ≡ length ids) × (others ≡ ids) }
{}

/// An ask that a value makes is sound: its query is one that the text in the value is, and there is an id for each part of the key of its rows.
pub fn sound_ask()
    ensures { (v : Json) (ask : Ask) → IsMadeOfBody v (Ok ask) → IsSoundAsk ask }
{}
