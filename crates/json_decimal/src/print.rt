//! The text of a decimal.
ghost use Rattle.std.specs.Prelude.{◌≡◌, ◌+◌, ◌^◌, ◌<◌, ◌++◌, length, replicate, string_bytes, decimal, IfOk, OnOk};
ghost use Rattle.json_decimal.specs.Literal.{IsLiteralOf};
ghost use Rattle.json_decimal.specs.declared.decimal.Decimal.{Decimal};
ghost use Rattle.json_decimal.specs.Decimals.{number_of};
ghost use Rattle.json_decimal.specs.Printing.{size_text, whole_text, fraction_text, pointed_text, text_of};

use crate::decimal::Decimal;
use crate::digits::{MOST_DIGITS, digit_count};
use std::alloc::{AllocError, Global};

/// The room that the longest text takes: a minus, 38 digits and an exponent of three digits.
const LONGEST: usize = 44;

impl Decimal {
    /// The decimal as a literal of JSON, the same text for equal decimals. For n digits and the
    /// exponent e it is
    /// - the digits and e zeros, where e >= 0 and n + e <= 38,
    /// - the digits with a point before the last -e, where e < 0 and -e < n,
    /// - `0.`, -e - n zeros and the digits, where e < 0 and n <= -e <= 37,
    /// - the digits, `e` and the exponent, else,
    ///
    /// with a minus in front of a negative number. The layout is this project's own.
    ///
    /// Fails only for want of memory.
    pub fn print(&self, alloc: Global) -> Result<String, AllocError>
        ensures text { IfOk result (λ text. string_bytes text ≡ text_of (number_of self.now)) }
        // The text reads back.
        ensures literal { IfOk result (λ text. IsLiteralOf (string_bytes text) (number_of self.now)) }
    {
        let mut text = String::with_capacity(alloc, LONGEST)?;
        self.push(&mut text)?;
        Ok(text)
    }

    /// Appends the text that `print` gives. Fails only for want of memory.
    pub fn push(&self, text: &mut String) -> Result<(), AllocError>
        ensures { OnOk result (string_bytes text.new ≡ string_bytes text.old ++ text_of (number_of self.now)) }
    {
        if self.negative {
            text.push('-')?;
        }
        push_size(text, self.coefficient(), self.exponent)
    }
}

/// The text of a decimal is a literal of this very decimal.
pub fn reads_back()
    ensures { (d : Decimal) → IsLiteralOf (text_of (number_of d)) (number_of d) }
{}

/// Writes `coefficient * 10 ^ exponent`.
fn push_size(text: &mut String, coefficient: u128, exponent: i32) -> Result<(), AllocError>
    requires { coefficient < 10 ^ 38 }
    ensures { OnOk result
        (string_bytes text.new ≡ string_bytes text.old ++ size_text (decimal coefficient) exponent) }
{
    if exponent < 0 {
        push_fraction(text, coefficient, exponent.unsigned_abs())
    } else {
        push_whole(text, coefficient, exponent as u32)
    }
}

/// Writes a number whose last digit counts this power of ten.
fn push_whole(text: &mut String, coefficient: u128, power: u32) -> Result<(), AllocError>
    requires { coefficient < 10 ^ 38 }
    ensures { OnOk result
        (string_bytes text.new ≡ string_bytes text.old ++ whole_text (decimal coefficient) power) }
{
    if power <= MOST_DIGITS - digit_count(coefficient) {
        push_digits(text, coefficient)?;
        push_zeros(text, power)
    } else {
        write!(text, "{coefficient}e{power}")
    }
}

/// Writes a number of which so many digits stand behind the point.
fn push_fraction(text: &mut String, coefficient: u128, places: u32) -> Result<(), AllocError>
    requires { coefficient < 10 ^ 38 }
    ensures { OnOk result
        (string_bytes text.new ≡ string_bytes text.old ++ fraction_text (decimal coefficient) places) }
{
    let count = digit_count(coefficient);
    if places < count {
        return push_pointed(text, coefficient, places);
    }
    if places < MOST_DIGITS {
        text.push_str("0.")?;
        push_zeros(text, places - count)?;
        push_digits(text, coefficient)
    } else {
        write!(text, "{coefficient}e-{places}")
    }
}

/// Writes the digits with a point before the last of them.
fn push_pointed(text: &mut String, coefficient: u128, places: u32) -> Result<(), AllocError>
    requires below { coefficient < 10 ^ 38 }
    requires some { places < length (decimal coefficient) }
    ensures { OnOk result
        (string_bytes text.new ≡ string_bytes text.old ++ pointed_text (decimal coefficient) places) }
{
    push_digits(text, coefficient)?;
    let end = text.as_str().len();
    text.insert(end - places as usize, '.')
}

/// Writes the digits of a whole number. One of 64 bits is divided as such, and not as one of 128.
fn push_digits(text: &mut String, coefficient: u128) -> Result<(), AllocError>
    ensures { OnOk result (string_bytes text.new ≡ string_bytes text.old ++ decimal coefficient) }
{
    if coefficient <= u64::MAX as u128 {
        let short = coefficient as u64;
        write!(text, "{short}")
    } else {
        write!(text, "{coefficient}")
    }
}

fn push_zeros(text: &mut String, count: u32) -> Result<(), AllocError>
    ensures { OnOk result (string_bytes text.new ≡ string_bytes text.old ++ replicate count 48) }
{
    for _ in 0..count {
        text.push('0')?;
    }
    Ok(())
}
