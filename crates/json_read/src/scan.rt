//! Where tokens end. Each function takes a position in the bytes and gives the one behind what it went over, or the
//! fault that stands there.

ghost use Rattle.std.specs.Prelude.{◌≡◌, ◌+◌, ◌<◌, ◌≤◌, ◌↔◌, ◌⊎◌, ℕ, suc, List, length, None, Some, IfOk, Ok, Err, IsTrue, slice_index};
ghost use Rattle.std.specs.List.{slice_range};
ghost use Rattle.json_tree.specs.Values.{Raw, number};
ghost use Rattle.json_tree.specs.Grammar.{IsSpace, IsNumber};
ghost use Rattle.json_read.specs.Machinery.Automaton.{Frame, Part, State, after, value, behind_minus, at_mark, word_next, step, reading};
ghost use Rattle.json_read.specs.Machinery.Leads.{Leads};
ghost use Rattle.json_read.specs.Machinery.Spans.{Faults, Fails, NumberReaches, Continues, MayEndOrGoOn, CountsDown, point_or_mark, none_follows, IsMinusEnd, IsIntegerEnd, IsSignEnd};

use crate::fault::JsonFault;

/// How many digits a number may have before its exponent mark, and behind it.
const MAX_DIGITS: usize = 38;

const MAX_POWER_DIGITS: usize = 3;

/// The fault of a byte that nothing may follow, or of an end where a byte must follow.
pub fn fault_at(bytes: &[u8], at: usize) -> JsonFault
    requires { at ≤ length bytes.now }
    ensures { Faults bytes.now at result }
{
    if at < bytes.len() {
        JsonFault::Byte { at: at as u64 }
    } else {
        JsonFault::Ends {
            at: bytes.len() as u64,
        }
    }
}

/// The byte at a position, and 0, which no token has, at the end.
pub fn byte_at(bytes: &[u8], at: usize) -> u8
    ensures value { result ≡ slice_index bytes.now at }
    ensures within { 0 < result → at < length bytes.now }
{
    if at < bytes.len() { bytes[at] } else { 0 }
}

fn is_space(byte: u8) -> bool
    ensures { IsTrue result ↔ IsSpace byte }
{
    // Most bytes take the first test alone.
    byte <= b' ' && (byte == b' ' || byte == b'\t' || byte == b'\n' || byte == b'\r')
}

/// Behind white space.
pub fn spaces_end(bytes: &[u8], at: usize) -> usize
    requires { at ≤ length bytes.now }
    ensures forward { at ≤ result }
    ensures within { result ≤ length bytes.now }
    // What white space does not change goes on behind it.
    ensures same { (s : State) → step s 32 ≡ Some s → step s 9 ≡ Some s → step s 10 ≡ Some s → step s 13 ≡ Some s
        → reading bytes.now s at ≡ reading bytes.now s result }
    ensures all { IsSpace (slice_index bytes.now result) → ⊥ }
{
    let mut at = at;
    'spaces: while is_space(byte_at(bytes, at)) {
        at += 1;
    }
    at
}

/// Behind a word, which stands here from its second byte on.
pub fn word_end(bytes: &[u8], at: usize, word: &[u8]) -> Result<usize, JsonFault>
    requires { at ≤ length bytes.now }
    ensures forward { IfOk result (λ end. at ≤ end) }
    ensures within { IfOk result (λ end. end ≤ length bytes.now) }
    ensures read { (v : Raw) (d : ℕ) (k : List Frame) → Leads bytes.now
        (λ end o. o ≡ reading bytes.now (after d k v) end) result (reading bytes.now (word_next word.now v d k) at) }
{
    let mut at = at;
    'word: for byte in word {
        if at >= bytes.len() || bytes[at] != *byte {
            return Err(fault_at(bytes, at));
        }
        at += 1;
    }
    Ok(at)
}

fn is_digit(byte: u8) -> bool
    ensures { IsTrue result ↔ (48 ≤ byte) × (byte ≤ 57) }
{
    b'0' <= byte && byte <= b'9'
}

/// Behind at most so many digits, and how many may still come.
fn digits_end(bytes: &[u8], at: usize, most: usize) -> (usize, usize)
    requires { at ≤ length bytes.now }
    ensures forward { at ≤ result.0 }
    ensures within { result.0 ≤ length bytes.now }
    ensures fewer { result.1 ≤ most }
    ensures reaches { (part : ℕ → Part) → CountsDown part
        → NumberReaches bytes.now (part most) at (part result.1) result.0 }
    ensures all { 0 < result.1 → 48 ≤ slice_index bytes.now result.0 → slice_index bytes.now result.0 ≤ 57 → ⊥ }
{
    let mut end = at;
    let mut left = most;
    'digits: while left > 0 && is_digit(byte_at(bytes, end)) {
        end += 1;
        left -= 1;
    }
    (end, left)
}

/// Behind a number's integer, and how many digits may still come.
fn integer_end(bytes: &[u8], at: usize) -> Result<(usize, usize), JsonFault>
    requires { at ≤ length bytes.now }
    ensures within { IfOk result (λ p. p.0 ≤ length bytes.now) }
    ensures read { IsIntegerEnd bytes.now at result }
{
    let first = byte_at(bytes, at);
    if first == b'0' {
        return Ok((at + 1, MAX_DIGITS - 1));
    }
    if !is_digit(first) {
        return Err(fault_at(bytes, at));
    }
    Ok(digits_end(bytes, at + 1, MAX_DIGITS - 1))
}

/// Behind a point and its digits, where there is one and a digit may still come.
fn fraction_end(bytes: &[u8], at: usize, left: usize) -> Result<usize, JsonFault>
    requires { at ≤ length bytes.now }
    ensures within { IfOk result (λ end. end ≤ length bytes.now) }
    ensures read { (from : Part) → MayEndOrGoOn from (point_or_mark left) (slice_index bytes.now at)
        → Continues bytes.now from at (λ to b. MayEndOrGoOn to at_mark b) result }
{
    if left == 0 || byte_at(bytes, at) != b'.' {
        return Ok(at);
    }
    if !is_digit(byte_at(bytes, at + 1)) {
        return Err(fault_at(bytes, at + 1));
    }
    Ok(digits_end(bytes, at + 2, left - 1).0)
}

/// Behind an exponent's sign, where there is one.
fn sign_end(bytes: &[u8], at: usize) -> usize
    requires { at ≤ length bytes.now }
    ensures within { result ≤ length bytes.now }
    ensures read { IsSignEnd bytes.now at result }
{
    let sign = byte_at(bytes, at);
    if sign == b'+' || sign == b'-' {
        at + 1
    } else {
        at
    }
}

/// Behind an exponent, where there is one.
fn exponent_end(bytes: &[u8], at: usize) -> Result<usize, JsonFault>
    requires { at ≤ length bytes.now }
    ensures within { IfOk result (λ end. end ≤ length bytes.now) }
    ensures read { (from : Part) → MayEndOrGoOn from at_mark (slice_index bytes.now at)
        → Continues bytes.now from at (λ to b. MayEndOrGoOn to none_follows b) result }
{
    let mark = byte_at(bytes, at);
    if mark != b'e' && mark != b'E' {
        return Ok(at);
    }
    let start = sign_end(bytes, at + 1);
    if !is_digit(byte_at(bytes, start)) {
        return Err(fault_at(bytes, start));
    }
    Ok(digits_end(bytes, start + 1, MAX_POWER_DIGITS - 1).0)
}

/// Behind a number's minus, where there is one.
fn minus_end(bytes: &[u8], at: usize) -> usize
    requires { (slice_index bytes.now at ≡ 45)
        ⊎ (48 ≤ slice_index bytes.now at) × (slice_index bytes.now at ≤ 57) }
    ensures read { IsMinusEnd bytes.now at result }
{
    if byte_at(bytes, at) == b'-' {
        at + 1
    } else {
        at
    }
}

/// Behind a number, whose first byte stands here.
pub fn number_end(bytes: &[u8], at: usize) -> Result<usize, JsonFault>
    requires { (slice_index bytes.now at ≡ 45)
        ⊎ (48 ≤ slice_index bytes.now at) × (slice_index bytes.now at ≤ 57) }
    ensures forward { IfOk result (λ end. at ≤ end) }
    ensures within { IfOk result (λ end. end ≤ length bytes.now) }
    ensures number { IfOk result (λ end. IsNumber (slice_range bytes.now at end)) }
    ensures read { (d : ℕ) (k : List Frame) → Leads bytes.now
        (λ end o. o ≡ reading bytes.now (after d k (number (slice_range bytes.now at end))) end)
        result (reading bytes.now (value d k) at) }
{
    let start = minus_end(bytes, at);
    let (end, left) = integer_end(bytes, start)?;
    let end = fraction_end(bytes, end, left)?;
    exponent_end(bytes, end)
}
