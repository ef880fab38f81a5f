//! The order of decimals, and those that are whole numbers.
ghost use Rattle.std.specs.Prelude.{◌≡◌, ◌↔◌, ℕ, ◌-◌, ◌*◌, ◌^◌, ◌<◌, ◌≤◌, ℤ, FitsSigned, IsTrue, MatchOption};
ghost use Rattle.std.specs.Int.{w32, w64};
ghost use Rattle.std.specs.Ordering.{nat_cmp};
ghost use Rattle.std.specs.declared.cmp.Ordering.TheVariants.{Equal};
ghost use Rattle.json_decimal.specs.declared.decimal.Decimal.{Decimal};
ghost use Rattle.json_decimal.specs.Decimals.{number_of};
ghost use Rattle.json_decimal.specs.Number.{zero_number};
ghost use Rattle.json_decimal.specs.Comparing.{order_of, IsWhole, above};
ghost use Rattle.json_decimal.specs.Machinery.Sizes.{IsSize};

use crate::decimal::Decimal;
use crate::digits::digit_count;
use std::cmp::Ordering;

impl Decimal {
    /// How the number compares with the other. Takes no memory.
    pub fn order(&self, other: &Decimal) -> Ordering
        ensures { result ≡ order_of (number_of self.now) (number_of other.now) }
    {
        match (self.negative, other.negative) {
            (false, false) => order_of_sizes(self, other),
            (true, true) => order_of_sizes(other, self),
            (true, false) => Ordering::Less,
            (false, true) => Ordering::Greater,
        }
    }

    /// Whether the number is zero. Takes no memory.
    pub fn is_zero(&self) -> bool
        ensures { IsTrue result ↔ (number_of self.now ≡ zero_number) }
    {
        self.coefficient() == 0
    }

    /// The number, where it is whole and fits 32 bits; None exactly where it does not. Takes no memory.
    pub fn as_i32(&self) -> Option<i32>
        ensures { MatchOption result
            ((z : ℤ) → FitsSigned w32 z → IsWhole (number_of self.now) z → ⊥)
            (λ z. IsWhole (number_of self.now) z) }
    {
        let Some(whole) = self.as_i64() else {
            return None;
        };
        i32::try_from(whole).ok()
    }

    /// The number, where it is whole and fits 64 bits; None exactly where it does not. Takes no memory.
    pub fn as_i64(&self) -> Option<i64>
        ensures { MatchOption result
            ((z : ℤ) → FitsSigned w64 z → IsWhole (number_of self.now) z → ⊥)
            (λ z. IsWhole (number_of self.now) z) }
    {
        let Some(size) = whole_size(self) else {
            return None;
        };
        if self.negative {
            Some(-(size as i128) as i64)
        } else {
            i64::try_from(size).ok()
        }
    }
}

/// Decimals that compare as equal are one number, in one form.
pub fn one_decimal()
    ensures { (a b : Decimal) → order_of (number_of a) (number_of b) ≡ Equal → number_of a ≡ number_of b }
{}

/// How two numbers compare, but for their signs.
fn order_of_sizes(left: &Decimal, right: &Decimal) -> Ordering
    ensures { result ≡ nat_cmp
        ((number_of left.now).coefficient * 10 ^ above right.now.exponent left.now.exponent)
        ((number_of right.now).coefficient * 10 ^ above left.now.exponent right.now.exponent) }
{
    let a = left.coefficient();
    let b = right.coefficient();
    if a == 0 || b == 0 {
        return a.cmp(&b);
    }
    let (count_a, count_b) = (digit_count(a), digit_count(b));
    let top_a = left.exponent + count_a as i32;
    let top_b = right.exponent + count_b as i32;
    match top_a.cmp(&top_b) {
        Ordering::Equal => order_of_digits(a, count_a, b, count_b),
        unequal => unequal,
    }
}

/// How two numbers compare once zeros behind the one with fewer digits give both the same count.
fn order_of_digits(a: u128, count_a: u32, b: u128, count_b: u32) -> Ordering
    requires a { a < 10 ^ count_a }
    requires b { b < 10 ^ count_b }
    requires few_a { count_a ≤ 38 }
    requires few_b { count_b ≤ 38 }
    ensures { result ≡ nat_cmp (a * 10 ^ (count_b - count_a)) (b * 10 ^ (count_a - count_b)) }
{
    if count_a < count_b {
        (a * 10u128.pow(count_b - count_a)).cmp(&b)
    } else {
        a.cmp(&(b * 10u128.pow(count_a - count_b)))
    }
}

/// The size of a number, where it is whole and at most 2 ^ 63.
fn whole_size(decimal: &Decimal) -> Option<u64>
    ensures { MatchOption result
        ((n : ℕ) → n ≤ 2 ^ 63 → IsSize (number_of decimal.now) n → ⊥)
        (λ n. (n ≤ 2 ^ 63) × IsSize (number_of decimal.now) n) }
{
    let exponent = decimal.exponent;
    let coefficient = decimal.coefficient();
    if exponent < 0 || exponent > 18 {
        return None;
    }
    if coefficient > LEAST_I64_SIZE {
        return None;
    }
    let size = coefficient * 10u128.pow(exponent as u32);
    if size > LEAST_I64_SIZE {
        return None;
    }
    Some(size as u64)
}

/// The size of the least number of 64 bits.
const LEAST_I64_SIZE: u128 = 1 << 63;
