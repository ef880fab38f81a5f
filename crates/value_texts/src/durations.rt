//! Durations.

ghost use Rattle.std.specs.Prelude.{◌≡◌, ◌↔◌, IsTrue};
ghost use Rattle.std.specs.Option.{option_map};
ghost use Rattle.value_texts.specs.Durations.{IsDuration};
ghost use Rattle.value_texts.specs.Machinery.Reading.{after_count, after_number, after_part, after_fine, after_seconds, after_clock, after_days, is_time_part, ends_with_time, are_parts, is_rest, is_duration};

use crate::clock::{is_whole, lead};
use crate::readers::after_byte;

/// The most digits of a number in a duration.
const MOST_DIGITS: usize = 9;

/// Whether a text is a duration: `P[nY][nM][nD][T[nH][nM][nS]]` with at least one part, and at least one behind a
/// `T`, or `PnW`. Each n has one digit to nine, and that of the seconds may have a point and one digit to nine more
/// (RFC 3339, appendix A; the count of digits, the fraction and the parts that may be left out are this project's own).
/// Takes no memory.
pub fn is_duration(text: &str) -> bool
    ensures { IsTrue result ↔ IsDuration text.now }
{
    reads_duration(text.as_bytes())
}

#[tactic(auto, unfolding(crate::specs::Machinery::Reading::is_duration))]
fn reads_duration(bytes: &[u8]) -> bool
    ensures { result ≡ is_duration bytes.now }
{
    match after_byte(bytes, b'P') {
        Some(rest) => is_rest(rest),
        None => false,
    }
}

/// What follows the `P`.
fn is_rest(bytes: &[u8]) -> bool
    ensures { result ≡ is_rest (Some bytes.now) }
{
    is_whole(after_number(bytes, b'W')) || are_parts(bytes)
}

fn are_parts(bytes: &[u8]) -> bool
    ensures { result ≡ are_parts bytes.now }
{
    if bytes.is_empty() {
        return false;
    }
    ends_with_time(after_days(bytes))
}

#[tactic(auto, unfolding(crate::specs::Machinery::Reading::ends_with_time))]
fn ends_with_time(bytes: &[u8]) -> bool
    ensures { result ≡ ends_with_time bytes.now }
{
    if bytes.is_empty() {
        return true;
    }
    match after_byte(bytes, b'T') {
        Some(rest) => is_time_part(rest),
        None => false,
    }
}

/// What follows the `T`.
fn is_time_part(bytes: &[u8]) -> bool
    ensures { result ≡ is_time_part (Some bytes.now) }
{
    if bytes.is_empty() {
        return false;
    }
    after_clock(bytes).is_empty()
}

/// Behind one digit to nine.
#[tactic(auto, unfolding(crate::specs::Machinery::Reading::after_count))]
fn after_count(bytes: &[u8]) -> Option<&[u8]>
    ensures { option_map (λ r. r.now) result ≡ after_count bytes.now }
{
    let count = lead(bytes);
    if 1 <= count && count <= MOST_DIGITS {
        Some(&bytes[count..])
    } else {
        None
    }
}

/// Behind a number and a mark.
#[tactic(auto, unfolding(crate::specs::Machinery::Reading::after_number))]
fn after_number(bytes: &[u8], mark: u8) -> Option<&[u8]>
    ensures { option_map (λ r. r.now) result ≡ after_number mark bytes.now }
{
    after_byte(after_count(bytes)?, mark)
}

/// The same, and all of it where these do not stand there.
#[tactic(auto, unfolding(crate::specs::Machinery::Reading::after_part))]
fn after_part(bytes: &[u8], mark: u8) -> &[u8]
    ensures { result.now ≡ after_part mark bytes.now }
{
    match after_number(bytes, mark) {
        Some(rest) => rest,
        None => bytes,
    }
}

/// Behind a number of seconds with a fraction.
#[tactic(auto, unfolding(crate::specs::Machinery::Reading::after_fine))]
fn after_fine(bytes: &[u8]) -> Option<&[u8]>
    ensures { option_map (λ r. r.now) result ≡ after_fine bytes.now }
{
    let rest = after_count(bytes)?;
    let rest = after_byte(rest, b'.')?;
    after_number(rest, b'S')
}

#[tactic(auto, unfolding(crate::specs::Machinery::Reading::after_seconds))]
fn after_seconds(bytes: &[u8]) -> &[u8]
    ensures { result.now ≡ after_seconds bytes.now }
{
    if let Some(rest) = after_number(bytes, b'S') {
        return rest;
    }
    match after_fine(bytes) {
        Some(rest) => rest,
        None => bytes,
    }
}

/// Behind hours, minutes and seconds.
#[tactic(auto, unfolding(crate::specs::Machinery::Reading::after_clock))]
fn after_clock(bytes: &[u8]) -> &[u8]
    ensures { result.now ≡ after_clock bytes.now }
{
    after_seconds(after_part(after_part(bytes, b'H'), b'M'))
}

/// Behind years, months and days.
#[tactic(auto, unfolding(crate::specs::Machinery::Reading::after_days))]
fn after_days(bytes: &[u8]) -> &[u8]
    ensures { result.now ≡ after_days bytes.now }
{
    after_part(after_part(after_part(bytes, b'Y'), b'M'), b'D')
}
