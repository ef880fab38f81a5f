//! Dates and times (RFC 3339, section 5.6).

ghost use Rattle.std.specs.Prelude.{◌≡◌, ◌<◌, ◌≤◌, ◌↔◌, IsTrue, length};
ghost use Rattle.std.specs.Option.{option_map, IfSome};
ghost use Rattle.value_texts.specs.Clock.{IsDate, IsTime, IsDateTime};
ghost use Rattle.value_texts.specs.Machinery.Reading.{is_day, is_whole, after_hyphen, after_date, after_within, after_colon, leading_digits, after_digits, after_fraction, after_offset, after_time, after_date_time};

use crate::calendar::has_day;
use crate::readers::{after_byte, after_either, read_four, read_two};

/// Whether a text is a `full-date` of RFC 3339, section 5.6, of a day that there is. The years are 0000 to 9999, and
/// 0000 is a leap year. Takes no memory.
pub fn is_date(text: &str) -> bool
    ensures { IsTrue result ↔ IsDate text.now }
{
    is_whole(after_date(text.as_bytes()))
}

/// Whether a text is a `full-time` of RFC 3339, section 5.6. A second 60 is taken at any minute, and so is the offset
/// `-00:00` (both this project's own). Takes no memory.
pub fn is_time(text: &str) -> bool
    ensures { IsTrue result ↔ IsTime text.now }
{
    is_whole(after_time(text.as_bytes()))
}

/// Whether a text is a `date-time` of RFC 3339, section 5.6: a date, `T` or `t`, and a time, each as `is_date` and
/// `is_time` take them. Takes no memory.
pub fn is_date_time(text: &str) -> bool
    ensures { IsTrue result ↔ IsDateTime text.now }
{
    is_whole(after_date_time(text.as_bytes()))
}

/// Whether something was read and nothing is left.
pub fn is_whole(rest: Option<&[u8]>) -> bool
    ensures { result ≡ is_whole (option_map (λ r. r.now) rest.entry) }
{
    match rest {
        Some(bytes) => bytes.is_empty(),
        None => false,
    }
}

fn is_day(year: u16, month: u8, day: u8) -> bool
    requires year { year ≤ 9999 }
    requires month { month < 100 }
    requires day { day < 100 }
    ensures { result ≡ is_day year month day }
{
    has_day(year, month, day)
}

/// Behind a hyphen and a number of two digits.
#[tactic(auto, unfolding(crate::specs::Machinery::Reading::after_hyphen))]
fn after_hyphen(bytes: &[u8]) -> Option<(u8, &[u8])>
    ensures read { option_map (λ p. (p.0, p.1.now)) result ≡ after_hyphen bytes.now }
    ensures small { IfSome result (λ p. p.0 < 100) }
{
    read_two(after_byte(bytes, b'-')?)
}

#[tactic(auto, unfolding(crate::specs::Machinery::Reading::after_date))]
fn after_date(bytes: &[u8]) -> Option<&[u8]>
    ensures { option_map (λ r. r.now) result ≡ after_date bytes.now }
{
    let (year, rest) = read_four(bytes)?;
    let (month, rest) = after_hyphen(rest)?;
    let (day, rest) = after_hyphen(rest)?;
    if is_day(year, month, day) {
        Some(rest)
    } else {
        None
    }
}

/// Behind a number of two digits that is at most this.
#[tactic(auto, unfolding(crate::specs::Machinery::Reading::after_within))]
fn after_within(bytes: &[u8], most: u8) -> Option<&[u8]>
    ensures { option_map (λ r. r.now) result ≡ after_within most bytes.now }
{
    let (number, rest) = read_two(bytes)?;
    if number <= most { Some(rest) } else { None }
}

/// The same behind a colon.
#[tactic(auto, unfolding(crate::specs::Machinery::Reading::after_colon))]
fn after_colon(bytes: &[u8], most: u8) -> Option<&[u8]>
    ensures { option_map (λ r. r.now) result ≡ after_colon most bytes.now }
{
    after_within(after_byte(bytes, b':')?, most)
}

/// How many digits stand at the front.
pub fn lead(bytes: &[u8]) -> usize
    ensures count { result ≡ leading_digits bytes.now }
    ensures within { result ≤ length bytes.now }
{
    let mut count = 0;
    'digits: while count < bytes.len() && bytes[count].is_ascii_digit() {
        count += 1;
    }
    count
}

/// Behind the digits that follow a point.
fn after_digits(bytes: &[u8]) -> Option<&[u8]>
    ensures { option_map (λ r. r.now) result ≡ after_digits bytes.now }
{
    let count = lead(bytes);
    if 1 <= count {
        Some(&bytes[count..])
    } else {
        None
    }
}

#[tactic(auto, unfolding(crate::specs::Machinery::Reading::after_fraction))]
fn after_fraction(bytes: &[u8]) -> Option<&[u8]>
    ensures { option_map (λ r. r.now) result ≡ after_fraction bytes.now }
{
    match after_byte(bytes, b'.') {
        Some(rest) => after_digits(rest),
        None => Some(bytes),
    }
}

#[tactic(auto, unfolding(crate::specs::Machinery::Reading::after_offset))]
fn after_offset(bytes: &[u8]) -> Option<&[u8]>
    ensures { option_map (λ r. r.now) result ≡ after_offset bytes.now }
{
    if let Some(rest) = after_either(bytes, b'Z', b'z') {
        return Some(rest);
    }
    let rest = after_either(bytes, b'+', b'-')?;
    let rest = after_within(rest, 23)?;
    after_colon(rest, 59)
}

#[tactic(auto, unfolding(crate::specs::Machinery::Reading::after_time))]
fn after_time(bytes: &[u8]) -> Option<&[u8]>
    ensures { option_map (λ r. r.now) result ≡ after_time bytes.now }
{
    let rest = after_within(bytes, 23)?;
    let rest = after_colon(rest, 59)?;
    let rest = after_colon(rest, 60)?;
    let rest = after_fraction(rest)?;
    after_offset(rest)
}

#[tactic(auto, unfolding(crate::specs::Machinery::Reading::after_date_time))]
fn after_date_time(bytes: &[u8]) -> Option<&[u8]>
    ensures { option_map (λ r. r.now) result ≡ after_date_time bytes.now }
{
    let rest = after_date(bytes)?;
    let rest = after_either(rest, b'T', b't')?;
    after_time(rest)
}
