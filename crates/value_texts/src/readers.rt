//! Readers of what stands at the front of some bytes. Each gives what follows it.

ghost use Rattle.std.specs.Prelude.{◌≡◌, ◌<◌};
ghost use Rattle.std.specs.Option.{option_map, IfSome};
ghost use Rattle.value_texts.specs.Machinery.Reading.{after_byte, after_either, read_digit, read_two, read_four};

/// Behind a byte.
pub fn after_byte(bytes: &[u8], byte: u8) -> Option<&[u8]>
    ensures { option_map (λ r. r.now) result ≡ after_byte byte bytes.now }
{
    let (first, rest) = bytes.split_first()?;
    if *first == byte { Some(rest) } else { None }
}

/// Behind one of two bytes.
pub fn after_either(bytes: &[u8], one: u8, other: u8) -> Option<&[u8]>
    ensures { option_map (λ r. r.now) result ≡ after_either one other bytes.now }
{
    let (first, rest) = bytes.split_first()?;
    if *first == one {
        return Some(rest);
    }
    if *first == other { Some(rest) } else { None }
}

/// A digit.
pub fn read_digit(bytes: &[u8]) -> Option<(u8, &[u8])>
    ensures read { option_map (λ p. (p.0, p.1.now)) result ≡ read_digit bytes.now }
    ensures small { IfSome result (λ p. p.0 < 10) }
{
    let (first, rest) = bytes.split_first()?;
    if first.is_ascii_digit() {
        Some((*first - b'0', rest))
    } else {
        None
    }
}

/// A number of two digits.
#[tactic(auto, unfolding(crate::specs::Machinery::Reading::read_two))]
pub fn read_two(bytes: &[u8]) -> Option<(u8, &[u8])>
    ensures read { option_map (λ p. (p.0, p.1.now)) result ≡ read_two bytes.now }
    ensures small { IfSome result (λ p. p.0 < 100) }
{
    let (tens, rest) = read_digit(bytes)?;
    let (ones, rest) = read_digit(rest)?;
    Some((tens * 10 + ones, rest))
}

/// A number of four digits.
#[tactic(auto, unfolding(crate::specs::Machinery::Reading::read_four))]
pub fn read_four(bytes: &[u8]) -> Option<(u16, &[u8])>
    ensures read { option_map (λ p. (p.0, p.1.now)) result ≡ read_four bytes.now }
    ensures small { IfSome result (λ p. p.0 < 10000) }
{
    let (high, rest) = read_two(bytes)?;
    let (low, rest) = read_two(rest)?;
    Some((high as u16 * 100 + low as u16, rest))
}
