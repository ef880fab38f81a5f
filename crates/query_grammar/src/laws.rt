//! What the grammar says of tokens. Each function does nothing, and its contract is the law.

ghost use Rattle.std.specs.Prelude.{◌≡◌, ◌↔◌, ℕ, List, [], ◌∷◌, ◌++◌, Some};
ghost use Rattle.query_terms.specs.Queries.{Asked};
ghost use Rattle.query_terms.specs.declared.tokens.token.Token.{Token};
ghost use Rattle.query_grammar.specs.Phrases.{Placed};
ghost use Rattle.query_grammar.specs.Grammar.{IsQuery};
ghost use Rattle.query_grammar.specs.Machinery.Steps.{end, step};
ghost use Rattle.query_grammar.specs.Machinery.Remains.{Follows, Remains};
ghost use Rattle.query_grammar.specs.Machinery.Runs.{asked_by, state_behind};
ghost use Rattle.query_grammar.specs.declared.names.Notes.{Notes};
ghost use Rattle.query_grammar.specs.declared.state.State.{State};
ghost use Rattle.query_grammar.specs.declared.state.State.TheVariants as states;

/// Tokens ask for at most one thing, with one list of each kind of names.
pub fn one_query()
    ensures { (tokens : List Placed) (whole other : Asked × Notes) → IsQuery tokens whole → IsQuery tokens other → whole ≡ other }
{}

/// Tokens are a query exactly where taking one at a time comes to an end that asks for the same.
pub fn query_as_run()
    ensures { (tokens : List Placed) (whole : Asked × Notes) → IsQuery tokens whole ↔ (asked_by states.Start tokens ≡ Some whole) }
{}

/// Some query's tokens begin with these exactly where taking one at a time leads to a state. So the first token with which
/// no query goes on is the first that no state takes.
pub fn begins_as_run()
    ensures { (tokens : List Placed) → ((rest : List Placed) × ((whole : Asked × Notes) × IsQuery (tokens ++ rest) whole))
        ↔ ((state : State) × (state_behind states.Start tokens ≡ Some state)) }
{}

/// Tokens may remain in a state exactly where all but the first of them may in the state behind the first.
pub fn steps_as_remains()
    ensures { (state : State) (at : ℕ) (token : Token) (rest : List Placed) (whole : Asked × Notes)
        → Remains state ((at, token) ∷ rest) whole ↔ Follows (step state at token) rest whole }
{}

/// No tokens need remain in a state exactly where the query may end in it, and it then asks for the same.
pub fn ends_as_nothing_remains()
    ensures { (state : State) (whole : Asked × Notes) → Remains state [] whole ↔ (end state ≡ Some whole) }
{}

/// In each state some tokens may remain: no state is one from which no query can be reached.
pub fn each_state_goes_on()
    ensures { (state : State) → (tokens : List Placed) × ((whole : Asked × Notes) × Remains state tokens whole) }
{}
