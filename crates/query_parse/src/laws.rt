//! What the refusals say of texts. Each function does nothing, and its contract is the law.

ghost use Rattle.std.specs.Prelude.{◌≡◌, ◌≢◌, ◌⊎◌, ℕ, List};
ghost use Rattle.dt_base.specs.Existence.{IsThere};
ghost use Rattle.query_terms.specs.Queries.{Asked};
ghost use Rattle.query_grammar.specs.Spelled.{SpellsQuery};
ghost use Rattle.query_parse.specs.Faults.{RefusesQuery};
ghost use Rattle.query_parse.specs.declared.fault.QueryFault.{QueryFault};
ghost use Rattle.query_parse.specs.declared.fault.QueryFault.TheVariants as faults;

/// A text is at most one query.
pub fn one_query()
    ensures { (text : List ℕ) (one other : Asked) → SpellsQuery text one → SpellsQuery text other → one ≡ other }
{}

/// A text that is a query is refused for want of memory alone.
pub fn query_or_fault()
    ensures { (text : List ℕ) (query : Asked) (fault : QueryFault) → SpellsQuery text query → RefusesQuery text fault → fault ≡ faults.OutOfMemory }
{}

/// A text is refused for one fault at one byte, or for want of memory.
pub fn one_fault()
    ensures { (text : List ℕ) (one other : QueryFault) → RefusesQuery text one → RefusesQuery text other
        → (one ≡ other) ⊎ ((one ≡ faults.OutOfMemory) ⊎ (other ≡ faults.OutOfMemory)) }
{}

/// A text is a query, or is refused for something other than want of memory.
pub fn some_query_or_fault()
    ensures { (text : List ℕ) → IsThere (((query : Asked) × SpellsQuery text query)
        ⊎ ((fault : QueryFault) × (fault ≢ faults.OutOfMemory) × RefusesQuery text fault)) }
{}
