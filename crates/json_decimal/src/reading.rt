//! The parts of a literal, read from the front: a sign, integer digits, a fraction and an exponent.
ghost use Rattle.std.specs.Prelude.{◌≡◌, ◌+◌, ◌<◌, ◌≤◌, ◌^◌, pos, neg_ℤ, ◌<ℤ◌, ◌++◌, length, MatchOption, IfSome, ℕ, ℤ};
ghost use Rattle.json_decimal.specs.Literal.{Literal, IsLiteral, IsInteger, AreDigits, value_after, spelling, fraction_bytes};
ghost use Rattle.json_decimal.specs.Machinery.Digits.{digits_at_front, after, fraction_at, rest_at, HasNoFraction, unsigned, starts_with_minus};
ghost use Rattle.json_decimal.specs.Machinery.Reading.{IsSignedPower, IsExponentOf, IsTail, IsScanned};

use crate::digits::{Run, digits_at, front, power_of};

/// What a literal says: the digits before the exponent mark as one number, and the power of ten that the
/// last of them counts.
#[derive(Clone, Copy)]
pub(crate) struct Scanned {
    pub(crate) negative: bool,
    pub(crate) value: u128,
    pub(crate) scale: i32,
}

/// Reads a whole literal. None where the bytes are none.
pub(crate) fn scan(literal: &[u8]) -> Option<Scanned>
    ensures cases { MatchOption result
        ((l : Literal) → IsLiteral l → literal.now ≡ spelling l → ⊥)
        (λ s. IsScanned literal.now s.negative s.value s.scale) }
    ensures bound { IfSome result
        (λ s. (s.value < 10 ^ 38)
        × (neg_ℤ (pos 1100) <ℤ s.scale)
        × (s.scale <ℤ pos 1100)) }
{
    let (negative, unsigned) = sign_of(literal);
    let Some((Run { value, count }, rest)) = integer_of(unsigned) else {
        return None;
    };
    let Some((value, scale)) = tail_of(rest, Run { value, count }) else {
        return None;
    };
    Some(Scanned {
        negative,
        value,
        scale,
    })
}

/// Whether a minus stands first, and the bytes behind it.
fn sign_of(bytes: &[u8]) -> (bool, &[u8])
    ensures negative { result.0 ≡ starts_with_minus bytes.now }
    ensures rest { result.1.now ≡ unsigned bytes.now }
{
    match front(bytes) {
        Some((b'-', rest)) => (true, rest),
        _ => (false, bytes),
    }
}

/// The integer digits at the front. None where there are none, or a `0` stands before others, or they
/// are more than 38.
fn integer_of(bytes: &[u8]) -> Option<(Run, &[u8])>
    ensures cases { MatchOption result
        (IsInteger (digits_at_front bytes.now) → length (digits_at_front bytes.now) ≤ 38 → ⊥)
        (λ p. IsInteger (digits_at_front bytes.now)
        × (p.0.value ≡ value_after 0 (digits_at_front bytes.now))
        × (p.0.count ≡ length (digits_at_front bytes.now))
        × (p.1.now ≡ after bytes.now)) }
    ensures bound { IfSome result (λ p. (p.0.count ≤ 38) × (p.0.value < 10 ^ p.0.count)) }
{
    let Some((Run { value, count }, rest)) = digits_at(bytes, Run { value: 0, count: 0 }) else {
        return None;
    };
    if count == 0 {
        return None;
    }
    if bytes[0] == b'0' && count > 1 {
        return None;
    }
    Some((Run { value, count }, rest))
}

/// The rest of a literal behind its integer digits, whose number and count are given.
fn tail_of(bytes: &[u8], integer: Run) -> Option<(u128, i32)>
    requires count { integer.count ≤ 38 }
    requires value { integer.value < 10 ^ integer.count }
    ensures cases { MatchOption result
        ((value : ℕ) (power : ℤ) → IsTail bytes.now integer.count integer.value value power → ⊥)
        (λ p. IsTail bytes.now integer.count integer.value p.0 p.1) }
    ensures bound { IfSome result
        (λ p. (p.0 < 10 ^ 38) × (neg_ℤ (pos 1100) <ℤ p.1) × (p.1 <ℤ pos 1100)) }
{
    let Some((Run { value, count }, rest)) = fraction_of(bytes, integer) else {
        return None;
    };
    let Some(power) = exponent_of(rest) else {
        return None;
    };
    Some((value, power - (count - integer.count) as i32))
}

/// Goes on over a fraction, if a point stands first. None where no digit stands behind the point, or the
/// digits are more than 38 together.
fn fraction_of(bytes: &[u8], integer: Run) -> Option<(Run, &[u8])>
    requires count { integer.count ≤ 38 }
    requires value { integer.value < 10 ^ integer.count }
    ensures cases { MatchOption result
        (HasNoFraction integer.count bytes.now)
        (λ p. (p.0.value ≡ value_after integer.value (fraction_at bytes.now))
        × (p.0.count ≡ integer.count + length (fraction_at bytes.now))
        × (p.1.now ≡ rest_at bytes.now)
        × AreDigits (fraction_at bytes.now)
        × (bytes.now ≡ fraction_bytes (fraction_at bytes.now) ++ rest_at bytes.now)) }
    ensures bound { IfSome result (λ p. (p.0.count ≤ 38) × (p.0.value < 10 ^ p.0.count)) }
{
    let Some((b'.', behind)) = front(bytes) else {
        return Some((integer, bytes));
    };
    let Some((Run { value, count }, rest)) = digits_at(behind, integer) else {
        return None;
    };
    if count == integer.count {
        return None;
    }
    Some((Run { value, count }, rest))
}

/// The power of ten of an exponent, which is all the bytes, or 0 where there are none.
fn exponent_of(bytes: &[u8]) -> Option<i32>
    ensures cases { MatchOption result
        ((power : ℤ) → IsExponentOf bytes.now power → ⊥)
        (λ power. IsExponentOf bytes.now power) }
    ensures bound { IfSome result (λ power. (neg_ℤ (pos 1000) <ℤ power) × (power <ℤ pos 1000)) }
{
    match front(bytes) {
        None => Some(0),
        Some((b'e' | b'E', rest)) => signed_power_of(rest),
        Some(_) => None,
    }
}

/// The power of ten behind the exponent mark: a sign, if any, and digits.
fn signed_power_of(bytes: &[u8]) -> Option<i32>
    ensures cases { MatchOption result
        ((power : ℤ) → IsSignedPower bytes.now power → ⊥)
        (λ power. IsSignedPower bytes.now power) }
    ensures bound { IfSome result (λ power. (neg_ℤ (pos 1000) <ℤ power) × (power <ℤ pos 1000)) }
{
    match front(bytes) {
        Some((b'-', digits)) => {
            let Some(power) = power_of(digits) else {
                return None;
            };
            Some(-power)
        }
        Some((b'+', digits)) => power_of(digits),
        _ => power_of(bytes),
    }
}
