//! The coefficient of a decimal and its halves.
ghost use Rattle.std.specs.Prelude.{◌≡◌, ◌%◌, ◌^◌, ◌<◌, ◌≤ℤ◌, pos, neg_ℤ, false};
ghost use Rattle.json_decimal.specs.Decimals.{number_of};

use crate::decimal::Decimal;

/// How many numbers a half holds.
const HALF: u128 = 1 << 64;

impl Decimal {
    /// The decimal with these parts.
    pub(crate) fn of(negative: bool, coefficient: u128, exponent: i32) -> Decimal
        requires bounded { coefficient < 10 ^ 38 }
        requires trimmed { coefficient % 10 ≡ 0 → coefficient ≡ 0 }
        requires least { neg_ℤ (pos 900) ≤ℤ exponent }
        requires most { exponent ≤ℤ pos 900 }
        requires zero { coefficient ≡ 0 → (negative ≡ false) × (exponent ≡ pos 0) }
        ensures { number_of result ≡ record { negative = negative; coefficient = coefficient; exponent = exponent } }
    {
        Decimal {
            high: (coefficient / HALF) as u64,
            low: (coefficient % HALF) as u64,
            exponent,
            negative,
        }
    }

    /// The digits as a whole number. Takes no memory.
    pub fn coefficient(&self) -> u128
        ensures { result ≡ (number_of self.now).coefficient }
    {
        self.high as u128 * HALF + self.low as u128
    }
}
