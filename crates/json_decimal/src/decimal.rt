//! A decimal number in normal form.
ghost use Rattle.std.specs.Prelude.{◌≡◌, ◌%◌, ◌^◌, ◌<◌, ◌≤ℤ◌, pos, neg_ℤ, false};
ghost use Rattle.json_decimal.specs.Halves.{joined_halves};

/// The number `coefficient * 10 ^ exponent`, or its negative, each number in one form. The coefficient is the digits
/// as a whole number, below 10 ^ 38 and, unless zero, without trailing zeros.
///
/// The coefficient stands in two halves, which keep a JSON tree small: one number of 128 bits would add 16 bytes to each
/// of its values. Decimals are equal where their numbers are; `order` is the order of the numbers.
#[derive(Clone, Copy, Debug, PartialEq, Eq)]
pub struct Decimal {
    /// The coefficient without its lower 64 bits.
    pub high: u64,
    /// The lower 64 bits of the coefficient.
    pub low: u64,
    /// The power of ten that the last digit counts, from -900 to 900; 0 where the coefficient is zero.
    pub exponent: i32,
    /// Whether the number is below zero.
    pub negative: bool,
    // Below 10 ^ 38.
    pub ghost bounded: { joined_halves high low < 10 ^ 38 },
    // No trailing zero, unless the number is zero.
    pub ghost trimmed: { joined_halves high low % 10 ≡ 0 → joined_halves high low ≡ 0 },
    // From -900 to 900.
    pub ghost least: { neg_ℤ (pos 900) ≤ℤ exponent },
    pub ghost most: { exponent ≤ℤ pos 900 },
    // Zero is positive, with exponent 0.
    pub ghost zero: { joined_halves high low ≡ 0 → (negative ≡ false) × (exponent ≡ pos 0) },
}

// In each value of a JSON tree.
const _: () = prove!(size_of::<Decimal>() == 24);
