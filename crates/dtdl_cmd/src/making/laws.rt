//! Laws of graphs that are made. Each function does nothing but name laws, and its contract is the law.

ghost use Rattle.std.specs.Prelude.{◌≡◌, ℕ, List};
ghost use Rattle.dtdl_cmd.specs.making.Made.{IsMade};

use graph_server::one_answer;
use query_parse::one_query;

/// So many rooms have one text.
pub fn one_text()
    ensures { (n : ℕ) (text other : List ℕ) → IsMade n text → IsMade n other → text ≡ other }
{
    one_answer();
    one_query();
}
