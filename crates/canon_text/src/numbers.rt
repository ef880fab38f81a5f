//! Whole numbers as decimals.

ghost use Rattle.std.specs.Prelude.{◌≡◌, ◌≢◌, ◌%◌, ◌<◌, ◌≤◌, pos};
ghost use Rattle.json_decimal.specs.Decimals.{number_of};
ghost use Rattle.canon_text.specs.Numbers.{without_zeros, sized, whole};

use json_decimal::Decimal;

/// A number above zero without the zeros at its end, and how many these are.
fn without_zeros(size: u32) -> (u32, u8)
    requires { 0 < size }
    ensures value { result ≡ without_zeros size size 0 }
    ensures some { 0 < result.0 }
    ensures trimmed { result.0 % 10 ≢ 0 }
    ensures few { result.1 ≤ 9 }
{
    let mut digits = size;
    let mut zeros = 0u8;
    'zeros: while zeros < 9 && digits % 10 == 0 {
        digits /= 10;
        zeros += 1;
    }
    (digits, zeros)
}

/// The decimal of this size, below zero where the sign is true.
fn sized(negative: bool, size: u32) -> Decimal
    ensures { number_of result ≡ sized negative size }
{
    if size == 0 {
        return Decimal {
            high: 0,
            low: 0,
            exponent: 0,
            negative: false,
        };
    }
    let (digits, zeros) = without_zeros(size);
    Decimal {
        high: 0,
        low: digits as u64,
        exponent: zeros as i32,
        negative,
    }
}

/// The decimal of an integer.
pub fn of_integer(number: i32) -> Decimal
    ensures { number_of result ≡ whole number }
{
    sized(number < 0, number.unsigned_abs())
}

/// The decimal of a number that is not below zero.
pub fn of_size(number: u32) -> Decimal
    ensures { number_of result ≡ whole (pos number) }
{
    sized(false, number)
}
