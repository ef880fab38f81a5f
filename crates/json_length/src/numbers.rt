//! The lengths of the texts of numbers.

ghost use Rattle.std.specs.Prelude.{◌≡◌, ℕ, ◌+◌, ◌^◌, ◌<◌, ◌≤◌, List, length, decimal};
ghost use Rattle.json_decimal.specs.Decimals.{number_of};
ghost use Rattle.json_decimal.specs.Printing.{whole_text, fraction_text, size_text, text_of};

use json_decimal::Decimal;

/// How many digits may stand before the exponent mark.
const MOST_DIGITS: u32 = 38;

/// How many digits a number is written with.
fn digit_count(value: u128) -> u32
    requires { value < 10 ^ 38 }
    ensures count { result ≡ length (decimal value) }
    ensures few { result ≤ 38 }
{
    if value == 0 { 1 } else { value.ilog10() + 1 }
}

/// The length of so many digits whose last counts this power of ten.
fn whole_length(count: u32, power: u32) -> u32
    requires { count ≤ 38 }
    ensures text { (digits : List ℕ) → length digits ≡ count → result ≡ length (whole_text digits power) }
    ensures few { result ≤ 80 }
{
    if power <= MOST_DIGITS - count {
        count + power
    } else {
        count + 1 + digit_count(power as u128)
    }
}

/// The length of so many digits of which these stand behind the point.
fn fraction_length(count: u32, places: u32) -> u32
    requires { count ≤ 38 }
    ensures text { (digits : List ℕ) → length digits ≡ count → result ≡ length (fraction_text digits places) }
    ensures few { result ≤ 80 }
{
    if places < count {
        count + 1
    } else if places < MOST_DIGITS {
        places + 2
    } else {
        count + 2 + digit_count(places as u128)
    }
}

/// The length of `coefficient * 10 ^ exponent`.
fn size_length(coefficient: u128, exponent: i32) -> u32
    requires { coefficient < 10 ^ 38 }
    ensures text { result ≡ length (size_text (decimal coefficient) exponent) }
    ensures few { result ≤ 80 }
{
    let count = digit_count(coefficient);
    if exponent < 0 {
        fraction_length(count, exponent.unsigned_abs())
    } else {
        whole_length(count, exponent as u32)
    }
}

/// How many bytes `Decimal::print` writes.
pub(crate) fn number_length(decimal: &Decimal) -> u64
    ensures { result ≡ length (text_of (number_of decimal.now)) }
{
    let size = size_length(decimal.coefficient(), decimal.exponent) as u64;
    if decimal.negative { size + 1 } else { size }
}
