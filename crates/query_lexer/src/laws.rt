//! What spellings say of tokens. Each function does nothing, and its contract is the law.

ghost use Rattle.std.specs.Prelude.{◌≡◌, ℕ, List};
ghost use Rattle.query_terms.specs.declared.tokens.token.Token.{Token};
ghost use Rattle.query_terms.specs.tokens.Spellings.{IsLongest, IsSpelling};

/// Bytes spell at most one token.
pub fn one_token()
    ensures { (bytes : List ℕ) (one other : Token) → IsSpelling one bytes → IsSpelling other bytes → one ≡ other }
{}

/// At most one token is the longest that bytes begin with, and one list of bytes follows it.
pub fn one_longest()
    ensures { (from to behind : List ℕ) (one other : Token) → IsLongest from one to → IsLongest from other behind
        → (one ≡ other) × (to ≡ behind) }
{}
