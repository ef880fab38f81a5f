//! Decimals from the literals of JSON.
ghost use Rattle.std.specs.Prelude.{◌≡◌, ◌^◌, ◌<◌, pos, neg_ℤ, ◌<ℤ◌, MatchOption, List, ℕ};
ghost use Rattle.json_decimal.specs.Number.{Number, IsNormalForm, IsOutOfRange};
ghost use Rattle.json_decimal.specs.Literal.{Literal, IsLiteral, IsLiteralOf, StandsFor, spelling};
ghost use Rattle.json_decimal.specs.Decimals.{number_of, ReadsDecimal, IsReadingOf};

use crate::DecimalFault;
use crate::decimal::Decimal;
use crate::digits::without_trailing_zeros;
use crate::reading::{Scanned, scan};

impl Decimal {
    /// The decimal of a number literal of RFC 8259, section 6, which is all the bytes. At most 38 digits
    /// stand before its exponent mark, zeros and those of the fraction counted, and at most 3 behind it.
    /// Takes no memory.
    ///
    /// `NotALiteral` comes exactly where the bytes are no such literal. `Range` comes exactly where they
    /// are one of a number other than zero whose exponent, once trailing zeros are taken off the
    /// coefficient, is outside -900 to 900. The bounds on digits and exponents are this project's own.
    pub fn read(literal: &[u8]) -> Result<Decimal, DecimalFault>
        // What the answer says of the bytes.
        ensures reads { ReadsDecimal literal.now result }
        // Which answer a literal gets.
        ensures exact { (n : Number) → IsLiteralOf literal.now n → IsReadingOf n result }
    {
        let Some(scanned) = scan(literal) else {
            return Err(DecimalFault::NotALiteral);
        };
        match normal_form(scanned) {
            Some(decimal) => Ok(decimal),
            None => Err(DecimalFault::Range),
        }
    }
}

/// Bytes are a literal of at most one number.
pub fn one_number()
    ensures { (bytes : List ℕ) (m n : Number) → IsLiteralOf bytes m → IsLiteralOf bytes n → m ≡ n }
{}

/// A literal stands for the number that its bytes are a literal of.
pub fn same_number()
    ensures { (l : Literal) (n : Number) → IsLiteral l → IsLiteralOf (spelling l) n → StandsFor l n }
{}

/// The normal form of a number. None where its exponent is out of range.
fn normal_form(scanned: Scanned) -> Option<Decimal>
    requires value { scanned.value < 10 ^ 38 }
    requires low { neg_ℤ (pos 1100) <ℤ scanned.scale }
    requires high { scanned.scale <ℤ pos 1100 }
    ensures { MatchOption result
        ((n : Number) × IsNormalForm scanned.negative scanned.value scanned.scale n × IsOutOfRange n)
        (λ d. IsNormalForm scanned.negative scanned.value scanned.scale (number_of d)) }
{
    let Scanned {
        negative,
        value,
        scale,
    } = scanned;
    if value == 0 {
        return Some(Decimal::of(false, 0, 0));
    }
    let (coefficient, zeros) = without_trailing_zeros(value);
    let exponent = scale + zeros as i32;
    if exponent < -900 {
        return None;
    }
    if exponent > 900 {
        return None;
    }
    Some(Decimal::of(negative, coefficient, exponent))
}
