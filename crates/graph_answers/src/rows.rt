//! Laws of the rows of queries. Each function does nothing, and its contract is the law.

ghost use Rattle.std.specs.Prelude.{◌≡◌, ◌<◌, ◌≤◌, ◌↔◌, ◌∷◌, [], ℕ, List, Option, None, Some, Contains, length, map};
ghost use Rattle.std.specs.List.{flat_map};
ghost use Rattle.graph_answers.specs.Paging.{ArePages, IsFollowed, IsLast};
ghost use Rattle.graph_answers.specs.Rows.{Fulfils, IsRow, KeysAscend};
ghost use Rattle.graph_steps.specs.Conditions.{Row};
ghost use Rattle.graph_steps.specs.QueryAsks.{all_rows, count_value, kept_rows};
ghost use Rattle.graph_steps.specs.States.{State};
ghost use Rattle.graph_steps.specs.Typed.{WellTyped};
ghost use Rattle.json_tree.specs.Values.{Json};
ghost use Rattle.query_eval.specs.Entries.{entries_past};
ghost use Rattle.query_terms.specs.Queries.{Asked};
ghost use Rattle.query_terms.specs.declared.query.Projection.TheVariants.{Count};

/// The keys of the rows of a query ascend, and so do those of the rows that its condition keeps.
pub fn rows_in_order()
    ensures all { (s : State) (q : Asked) → WellTyped s
        → KeysAscend (map (λ row. row.key) (all_rows s q)) }
    ensures kept { (s : State) (q : Asked) → WellTyped s
        → KeysAscend (map (λ row. row.key) (kept_rows s q)) }
{}

/// The rows of a query are the tuples of twins and relationships that meet it, and those that are kept are the ones of which
/// its condition holds.
pub fn rows_are_tuples()
    ensures all { (s : State) (q : Asked) (row : Row) → WellTyped s
        → Contains (all_rows s q) row ↔ IsRow s q row }
    ensures kept { (s : State) (q : Asked) (row : Row) → WellTyped s
        → Contains (kept_rows s q) row ↔ (IsRow s q row × Fulfils s q.where_ row) }
{}

/// Pages lose and repeat nothing: of more than 100 entries past a key, or of all, the first 100 are on the page and those past
/// the key of the hundredth follow, for which the token is given; of no more all are on the page, and no token is given.
/// What counts the rows is one entry, with the empty key, and nothing is past any key.
pub fn pages_follow()
    ensures followed { (s : State) (q : Asked) (after : Option (List (List ℕ))) → WellTyped s
        → 100 < length (entries_past s q after) → IsFollowed s q after }
    ensures last { (s : State) (q : Asked) (after : Option (List (List ℕ)))
        → length (entries_past s q after) ≤ 100 → IsLast s q after }
    ensures count { (s : State) (q : Asked) → q.select ≡ Count
        → entries_past s q None ≡ ([], count_value (kept_rows s q)) ∷ [] }
    ensures past_count { (s : State) (q : Asked) (key : List (List ℕ)) → q.select ≡ Count
        → entries_past s q (Some key) ≡ [] }
{}

/// All pages of a query, one after another, are its entries, each once and in their order.
pub fn pages_are_whole()
    ensures { (s : State) (q : Asked) (after : Option (List (List ℕ)))
        (pages : List (List (List (List ℕ) × Json))) → WellTyped s → ArePages s q after pages
        → flat_map (λ page. page) pages ≡ entries_past s q after }
{}
