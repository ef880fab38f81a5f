//! Digits: runs of them in a text, and the zeros at the end of a number.
ghost use Rattle.std.specs.Prelude.{◌≡◌, ◌≢◌, ◌+◌, ◌*◌, ◌%◌, ◌^◌, ◌<◌, ◌≤◌, pos, ◌<ℤ◌, [], ◌∷◌, length, MatchOption, IfSome, decimal};
ghost use Rattle.json_decimal.specs.Literal.{IsPower, value_after};
ghost use Rattle.json_decimal.specs.Machinery.Digits.{digits_at_front, after, StartsNoDigit};

/// How many digits may stand before the exponent mark.
pub(crate) const MOST_DIGITS: u32 = 38;

/// How many digits always make a number of 64 bits.
const MOST_SHORT_DIGITS: u32 = 19;

/// Digits that were read: the number that they make, and how many they are.
#[derive(Clone, Copy)]
pub(crate) struct Run {
    pub(crate) value: u128,
    pub(crate) count: u32,
}

/// The first byte, and the bytes after it.
pub(crate) fn front(bytes: &[u8]) -> Option<(u8, &[u8])>
    ensures { MatchOption result (bytes.now ≡ []) (λ p. bytes.now ≡ p.0 ∷ p.1.now) }
{
    match bytes {
        [] => None,
        [first, rest @ ..] => Some((*first, rest)),
    }
}

/// The value of the digit that stands first, and the bytes after it.
fn front_digit(bytes: &[u8]) -> Option<(u8, &[u8])>
    ensures { MatchOption result
        (StartsNoDigit bytes.now)
        (λ p. (p.0 < 10) × (bytes.now ≡ (48 + p.0) ∷ p.1.now)) }
{
    match front(bytes) {
        Some((first, rest)) if b'0' <= first && first <= b'9' => Some((first - b'0', rest)),
        _ => None,
    }
}

/// Goes on over the digits at the front, behind those that were read before. None where they are more
/// than 38 together.
pub(crate) fn digits_at(bytes: &[u8], before: Run) -> Option<(Run, &[u8])>
    requires count { before.count ≤ 38 }
    requires value { before.value < 10 ^ before.count }
    ensures cases { MatchOption result
        (38 < before.count + length (digits_at_front bytes.now))
        (λ p. (p.0.value ≡ value_after before.value (digits_at_front bytes.now))
        × (p.0.count ≡ before.count + length (digits_at_front bytes.now))
        × (p.1.now ≡ after bytes.now)) }
    ensures bound { IfSome result (λ p. (p.0.count ≤ 38) × (p.0.value < 10 ^ p.0.count)) }
{
    if before.count > MOST_SHORT_DIGITS {
        return long_digits_at(bytes, before.value, before.count);
    }
    let (value, count, rest) = short_digits_at(bytes, before.value as u64, before.count);
    long_digits_at(rest, value as u128, count)
}

/// The same over the first digits, as long as 64 bits hold their value: the value, how many they are and
/// the bytes after them.
fn short_digits_at(bytes: &[u8], value: u64, count: u32) -> (u64, u32, &[u8])
    requires count { count ≤ 19 }
    requires value { value < 10 ^ count }
    ensures value { value_after result.0 (digits_at_front result.2.now) ≡ value_after value (digits_at_front bytes.now) }
    ensures count { result.1 + length (digits_at_front result.2.now) ≡ count + length (digits_at_front bytes.now) }
    ensures rest { after result.2.now ≡ after bytes.now }
    ensures few { result.1 ≤ 19 }
    ensures below { result.0 < 10 ^ result.1 }
{
    let mut value = value;
    let mut count = count;
    let mut rest = bytes;
    while let Some((digit, tail)) = front_digit(rest) {
        if count == MOST_SHORT_DIGITS {
            break;
        }
        value = value * 10 + digit as u64;
        count += 1;
        rest = tail;
    }
    (value, count, rest)
}

/// The same over all digits.
fn long_digits_at(bytes: &[u8], value: u128, count: u32) -> Option<(Run, &[u8])>
    requires count { count ≤ 38 }
    requires value { value < 10 ^ count }
    ensures cases { MatchOption result
        (38 < count + length (digits_at_front bytes.now))
        (λ p. (p.0.value ≡ value_after value (digits_at_front bytes.now))
        × (p.0.count ≡ count + length (digits_at_front bytes.now))
        × (p.1.now ≡ after bytes.now)) }
    ensures bound { IfSome result (λ p. (p.0.count ≤ 38) × (p.0.value < 10 ^ p.0.count)) }
{
    let mut value = value;
    let mut count = count;
    let mut rest = bytes;
    while let Some((digit, tail)) = front_digit(rest) {
        if count == MOST_DIGITS {
            return None;
        }
        value = value * 10 + digit as u128;
        count += 1;
        rest = tail;
    }
    Some((Run { value, count }, rest))
}

/// The number that one to three digits make, which are all the bytes.
pub(crate) fn power_of(digits: &[u8]) -> Option<i32>
    ensures { MatchOption result
        (IsPower digits.now → ⊥)
        (λ n. IsPower digits.now
        × (n ≡ pos (value_after 0 digits.now))
        × (n <ℤ pos 1000)) }
{
    if digits.len() > 3 {
        return None;
    }
    let Some((Run { value, count }, rest)) = digits_at(digits, Run { value: 0, count: 0 }) else {
        return None;
    };
    if count == 0 {
        return None;
    }
    if !rest.is_empty() {
        return None;
    }
    Some(value as i32)
}

/// Takes the trailing zeros off: what is left, and how many there were.
pub(crate) fn without_trailing_zeros(value: u128) -> (u128, u32)
    requires some { 0 < value }
    requires below { value < 10 ^ 38 }
    ensures value { result.0 * 10 ^ result.1 ≡ value }
    ensures trimmed { result.0 % 10 ≢ 0 }
    ensures few { result.1 < 38 }
{
    let mut left = value;
    let mut zeros = 0;
    while left > u64::MAX as u128 && left % 10 == 0 {
        left /= 10;
        zeros += 1;
    }
    if left > u64::MAX as u128 {
        return (left, zeros);
    }
    let (left, more) = without_trailing_zeros_short(left as u64);
    (left as u128, zeros + more)
}

/// The same of a number of 64 bits.
fn without_trailing_zeros_short(value: u64) -> (u64, u32)
    requires { 0 < value }
    ensures value { result.0 * 10 ^ result.1 ≡ value }
    ensures trimmed { result.0 % 10 ≢ 0 }
    ensures few { result.1 < 20 }
{
    let mut left = value;
    let mut zeros = 0;
    while left % 10 == 0 {
        left /= 10;
        zeros += 1;
    }
    (left, zeros)
}

/// How many digits a number is written with.
pub(crate) fn digit_count(value: u128) -> u32
    requires { value < 10 ^ 38 }
    ensures count { result ≡ length (decimal value) }
    ensures some { 1 ≤ result }
    ensures few { result ≤ 38 }
{
    if value == 0 { 1 } else { value.ilog10() + 1 }
}
