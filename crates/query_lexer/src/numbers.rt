//! Numbers.

ghost use Rattle.std.specs.Prelude.{◌≡◌, ◌<◌, ◌^◌, true, slice_index, take, MatchOption};
ghost use Rattle.json_decimal.specs.Decimals.{number_of};
ghost use Rattle.json_decimal.specs.Literal.{IsLiteralOf};
ghost use Rattle.query_terms.specs.tokens.Spellings.{is_number_start, IsLongest, BeginsNone};
ghost use Rattle.query_lexer.specs.Machinery.Spans.{IsBound, NoneLonger};

use crate::bytes::number_len;
use json_decimal::Decimal;
use query_terms::tokens::Token;

/// The most bytes of a literal: a minus, 38 digits, a point, and an exponent with a sign and 3 digits.
const LONGEST_LITERAL: usize = 45;

/// How many bytes in front a literal has at most.
fn most_bytes(bytes: &[u8]) -> usize
    ensures { IsBound bytes.now result }
{
    let len = number_len(bytes);
    if len < LONGEST_LITERAL {
        return len;
    }
    LONGEST_LITERAL
}

/// The longest literal in front that is within its range, and how many bytes it has.
fn longest_literal(bytes: &[u8]) -> Option<(Decimal, usize)>
    ensures { MatchOption result (NoneLonger bytes.now 0)
        (λ p. IsBound bytes.now p.1 × IsLiteralOf (take p.1 bytes.now) (number_of p.0) × (p.0.low < 2 ^ 64)) }
{
    let mut end = most_bytes(bytes);
    'lengths: while end > 0 {
        if let Ok(number) = Decimal::read(&bytes[..end]) {
            return Some((number, end));
        }
        end -= 1;
    }
    None
}

/// The number in front: the longest literal within its range.
pub(crate) fn number_of<'a>(text: &'a str) -> Option<(Token, &'a str)>
    requires { is_number_start (slice_index text.now 0) ≡ true }
    ensures { MatchOption result (BeginsNone text.now) (λ p. IsLongest text.now p.0 p.1.now) }
{
    match longest_literal(text.as_bytes()) {
        Some((number, end)) => {
            let (_, rest) = text.split_at(end);
            Some((Token::Number(number), rest))
        }
        None => None,
    }
}
