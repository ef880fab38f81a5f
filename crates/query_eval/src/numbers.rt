//! Counts as decimals.

ghost use Rattle.std.specs.Prelude.{◌≡◌, ◌≢◌, ◌%◌, ◌<◌, ◌≤◌, pos};
ghost use Rattle.json_decimal.specs.Decimals.{number_of};
ghost use Rattle.canon_text.specs.Numbers.{without_zeros, whole};

use json_decimal::Decimal;

/// A number above zero without the zeros at its end, and how many these are.
fn without_zeros(size: u64) -> (u64, u8)
    requires { 0 < size }
    ensures value { result ≡ without_zeros size size 0 }
    ensures some { 0 < result.0 }
    ensures trimmed { result.0 % 10 ≢ 0 }
    ensures few { result.1 ≤ 19 }
{
    let mut digits = size;
    let mut zeros = 0u8;
    'zeros: while zeros < 19 && digits % 10 == 0 {
        digits /= 10;
        zeros += 1;
    }
    (digits, zeros)
}

/// The decimal of a count. Takes no memory.
pub fn of_count(count: u64) -> Decimal
    ensures { number_of result ≡ whole (pos count) }
{
    if count == 0 {
        return Decimal {
            high: 0,
            low: 0,
            exponent: 0,
            negative: false,
        };
    }
    let (digits, zeros) = without_zeros(count);
    Decimal {
        high: 0,
        low: digits,
        exponent: i32::from(zeros),
        negative: false,
    }
}
