//! Texts, each read from the byte behind its quotation mark.

ghost use Rattle.std.specs.Prelude.{◌≡◌, ◌+◌, ◌*◌, ◌<◌, ◌≤◌, ◌↔◌, ◌⊎◌, ◌∷◌, ◌++◌, [], ℕ, List, length, None, Some, IfOk, Ok, Err, IsTrue, MatchOption, slice_index, encode_utf8};
ghost use Rattle.std.specs.List.{slice_range, AllByRecursion};
ghost use Rattle.std.specs.Str.{IsUtf8};
ghost use Rattle.std.specs.Char.{IsScalar};
ghost use Rattle.json_tree.specs.Grammar.{IsPlainByte, IsHexDigit, IsShortEscape, tail, paired};
ghost use Rattle.json_read.specs.Machinery.Automaton.{Frame, Use, Sequence, one_tail, two_tails, three_tails, Point, escaped, first_digit, low_escape, Move, on_with, done, in_text, in_character, in_sequence, used, reading, behind_d, low_first};
ghost use Rattle.json_read.specs.Machinery.Leads.{Leads};
ghost use Rattle.json_read.specs.Machinery.Spans.{Faults, Copies, CopiesTo, StopsRun, IsByteWithin, EndsSequence, Narrows, IsHexAt, AfterMove, ReadsUnit};

use crate::fault::JsonFault;
use crate::scan::{byte_at, fault_at};
use dt_base::Text;
use std::alloc::Global;

/// A byte of a text that stands for itself.
fn is_plain(byte: u8) -> bool
    ensures { IsTrue result ↔ IsPlainByte byte }
{
    // Letters, which come most, take the first test alone.
    b'\\' < byte && byte <= 127 || 32 <= byte && byte < b'\\' && byte != b'"'
}

/// Behind bytes that stand for themselves, gone over by fours.
fn plain_end(bytes: &[u8], at: usize) -> usize
    requires { at ≤ length bytes.now }
    ensures forward { at ≤ result }
    ensures within { result ≤ length bytes.now }
    ensures plain { AllByRecursion IsPlainByte (slice_range bytes.now at result) }
    ensures all { IsPlainByte (slice_index bytes.now result) → ⊥ }
{
    let mut at = at;
    'fours: while at + 4 <= bytes.len() {
        if !is_plain(bytes[at]) {
            return at;
        }
        if !is_plain(bytes[at + 1]) {
            return at + 1;
        }
        if !is_plain(bytes[at + 2]) {
            return at + 2;
        }
        if !is_plain(bytes[at + 3]) {
            return at + 3;
        }
        at += 4;
    }
    last_plain_end(bytes, at)
}

/// The same, byte by byte.
#[inline(never)]
fn last_plain_end(bytes: &[u8], at: usize) -> usize
    requires { at ≤ length bytes.now }
    ensures forward { at ≤ result }
    ensures within { result ≤ length bytes.now }
    ensures plain { AllByRecursion IsPlainByte (slice_range bytes.now at result) }
    ensures all { IsPlainByte (slice_index bytes.now result) → ⊥ }
{
    let mut at = at;
    'plain: while is_plain(byte_at(bytes, at)) {
        at += 1;
    }
    at
}

/// Behind a byte in a range.
fn range_end(bytes: &[u8], at: usize, low: u8, high: u8) -> Result<usize, JsonFault>
    requires at { at ≤ length bytes.now }
    requires low { 0 < low }
    ensures { IsByteWithin bytes.now at low high result }
{
    let byte = byte_at(bytes, at);
    if byte < low || high < byte {
        return Err(fault_at(bytes, at));
    }
    Ok(at + 1)
}

/// Behind a byte from 0x80 to 0xBF that ends a character.
fn tail_end(bytes: &[u8], at: usize) -> Result<usize, JsonFault>
    requires { at ≤ length bytes.now }
    ensures forward { IfOk result (λ end. at ≤ end) }
    ensures within { IfOk result (λ end. end ≤ length bytes.now) }
    ensures read { EndsSequence bytes.now one_tail (tail ∷ []) at result }
{
    range_end(bytes, at, 0x80, 0xBF)
}

/// Behind a byte in a range and another that ends the character.
fn second_end(bytes: &[u8], at: usize, low: u8, high: u8) -> Result<usize, JsonFault>
    requires at { at ≤ length bytes.now }
    requires low { 0 < low }
    ensures forward { IfOk result (λ end. at ≤ end) }
    ensures within { IfOk result (λ end. end ≤ length bytes.now) }
    ensures read { (s : Sequence) → Narrows s low high (λ b. on_with b (in_sequence one_tail))
        → EndsSequence bytes.now s ((low, high) ∷ tail ∷ []) at result }
{
    let next = range_end(bytes, at, low, high)?;
    tail_end(bytes, next)
}

/// Behind a byte in a range and two others that end the character.
fn third_end(bytes: &[u8], at: usize, low: u8, high: u8) -> Result<usize, JsonFault>
    requires at { at ≤ length bytes.now }
    requires low { 0 < low }
    ensures forward { IfOk result (λ end. at ≤ end) }
    ensures within { IfOk result (λ end. end ≤ length bytes.now) }
    ensures read { (s : Sequence) → Narrows s low high (λ b. on_with b (in_sequence two_tails))
        → EndsSequence bytes.now s ((low, high) ∷ tail ∷ tail ∷ []) at result }
{
    let next = range_end(bytes, at, low, high)?;
    second_end(bytes, next, 0x80, 0xBF)
}

/// Behind a character of two to four bytes (RFC 3629, section 4).
fn multibyte_end(bytes: &[u8], at: usize) -> Result<usize, JsonFault>
    requires { 128 ≤ slice_index bytes.now at }
    ensures forward { IfOk result (λ end. at < end) }
    ensures within { IfOk result (λ end. end ≤ length bytes.now) }
    ensures read { CopiesTo bytes.now at result }
{
    match byte_at(bytes, at) {
        0xC2..=0xDF => tail_end(bytes, at + 1),
        0xE0 => second_end(bytes, at + 1, 0xA0, 0xBF),
        0xE1..=0xEC => second_end(bytes, at + 1, 0x80, 0xBF),
        0xED => second_end(bytes, at + 1, 0x80, 0x9F),
        0xEE..=0xEF => second_end(bytes, at + 1, 0x80, 0xBF),
        0xF0 => third_end(bytes, at + 1, 0x90, 0xBF),
        0xF1..=0xF3 => third_end(bytes, at + 1, 0x80, 0xBF),
        0xF4 => third_end(bytes, at + 1, 0x80, 0x8F),
        _ => Err(fault_at(bytes, at)),
    }
}

/// Behind characters that stand for themselves.
#[inline(always)]
fn run_end(bytes: &[u8], at: usize) -> Result<usize, JsonFault>
    requires { at ≤ length bytes.now }
    ensures forward { IfOk result (λ end. at ≤ end) }
    ensures within { IfOk result (λ end. end ≤ length bytes.now) }
    ensures read { CopiesTo bytes.now at result }
    ensures all { IfOk result (λ end. StopsRun (slice_index bytes.now end)) }
{
    let mut at = plain_end(bytes, at);
    'run: while byte_at(bytes, at) >= 0x80 {
        at = plain_end(bytes, multibyte_end(bytes, at)?);
    }
    Ok(at)
}

/// The value of a hexadecimal digit of either case.
fn hex_value(byte: u8) -> Option<u32>
    ensures { MatchOption result ((x : ℕ) → IsHexDigit byte x → ⊥) (λ x. IsHexDigit byte x) }
{
    match byte {
        b'0'..=b'9' => Some((byte - b'0') as u32),
        b'A'..=b'F' => Some((byte - b'A') as u32 + 10),
        b'a'..=b'f' => Some((byte - b'a') as u32 + 10),
        _ => None,
    }
}

/// The hexadecimal digit at a position.
fn hex_at(bytes: &[u8], at: usize) -> Result<u32, JsonFault>
    requires { at ≤ length bytes.now }
    ensures { IsHexAt bytes.now at result }
{
    match hex_value(byte_at(bytes, at)) {
        Some(value) => Ok(value),
        None => Err(fault_at(bytes, at)),
    }
}

/// The value of the last two digits of a unit behind that of the first two.
fn unit_of(bytes: &[u8], at: usize, front: u32) -> Result<u32, JsonFault>
    requires at { at ≤ length bytes.now }
    requires front { front ≤ 255 }
    ensures within { IfOk result (λ unit. at + 2 ≤ length bytes.now) }
    ensures low { IfOk result (λ unit. front * 256 ≤ unit) }
    ensures high { IfOk result (λ unit. unit ≤ front * 256 + 255) }
    ensures read { (p : Point) (point : ℕ → Point) (last : ℕ → Move) → ReadsUnit p front point last
        → (u : Use) (content : List ℕ) (d : ℕ) (k : List Frame) → Leads bytes.now
        (λ unit o. AfterMove bytes.now u content d k (last unit) (at + 2) o)
        result (reading bytes.now (in_character p u content d k) at) }
{
    let third = hex_at(bytes, at)?;
    let fourth = hex_at(bytes, at + 1)?;
    Ok((front * 16 + third) * 16 + fourth)
}

/// The low surrogate behind a high one: `\u` and then D and C to F.
fn low_of(bytes: &[u8], at: usize) -> Result<u32, JsonFault>
    requires { at ≤ length bytes.now }
    ensures within { IfOk result (λ low. at + 6 ≤ length bytes.now) }
    ensures low { IfOk result (λ low. 0xDC00 ≤ low) }
    ensures high { IfOk result (λ low. low ≤ 0xDFFF) }
    ensures read { (high : ℕ) (u : Use) (content : List ℕ) (d : ℕ) (k : List Frame) → Leads bytes.now
        (λ low o. o ≡ reading bytes.now (in_text u (content ++ paired high low) d k) (at + 6))
        result (reading bytes.now (in_character (low_escape high) u content d k) at) }
{
    if byte_at(bytes, at) != b'\\' {
        return Err(fault_at(bytes, at));
    }
    if byte_at(bytes, at + 1) != b'u' {
        return Err(fault_at(bytes, at + 1));
    }
    low_digits_of(bytes, at + 2)
}

/// The low surrogate with these digits: D and then C to F.
fn low_digits_of(bytes: &[u8], at: usize) -> Result<u32, JsonFault>
    requires { at ≤ length bytes.now }
    ensures within { IfOk result (λ low. at + 4 ≤ length bytes.now) }
    ensures low { IfOk result (λ low. 0xDC00 ≤ low) }
    ensures high { IfOk result (λ low. low ≤ 0xDFFF) }
    ensures read { (high : ℕ) (u : Use) (content : List ℕ) (d : ℕ) (k : List Frame) → Leads bytes.now
        (λ low o. o ≡ reading bytes.now (in_text u (content ++ paired high low) d k) (at + 4))
        result (reading bytes.now (in_character (low_first high) u content d k) at) }
{
    let first = hex_at(bytes, at)?;
    if first != 13 {
        return Err(fault_at(bytes, at));
    }
    let second = hex_at(bytes, at + 1)?;
    if second < 12 {
        return Err(fault_at(bytes, at + 1));
    }
    unit_of(bytes, at + 2, 13 * 16 + second)
}

/// The code of the character behind `\u`, and the position behind it.
fn unicode_of(bytes: &[u8], at: usize) -> Result<(u32, usize), JsonFault>
    requires { at ≤ length bytes.now }
    ensures forward { IfOk result (λ p. at < p.1) }
    ensures within { IfOk result (λ p. p.1 ≤ length bytes.now) }
    ensures scalar { IfOk result (λ p. IsScalar p.0) }
    ensures read { (u : Use) (content : List ℕ) (d : ℕ) (k : List Frame) → Leads bytes.now
        (λ p o. o ≡ reading bytes.now (in_text u (content ++ encode_utf8 p.0) d k) p.1)
        result (reading bytes.now (in_character first_digit u content d k) at) }
{
    let first = hex_at(bytes, at)?;
    if first == 13 {
        return behind_d_of(bytes, at + 1);
    }
    let second = hex_at(bytes, at + 1)?;
    let unit = unit_of(bytes, at + 2, first * 16 + second)?;
    Ok((unit, at + 4))
}

/// The same behind `\uD`, where a surrogate may stand.
fn behind_d_of(bytes: &[u8], at: usize) -> Result<(u32, usize), JsonFault>
    requires { at ≤ length bytes.now }
    ensures forward { IfOk result (λ p. at < p.1) }
    ensures within { IfOk result (λ p. p.1 ≤ length bytes.now) }
    ensures scalar { IfOk result (λ p. IsScalar p.0) }
    ensures read { (u : Use) (content : List ℕ) (d : ℕ) (k : List Frame) → Leads bytes.now
        (λ p o. o ≡ reading bytes.now (in_text u (content ++ encode_utf8 p.0) d k) p.1)
        result (reading bytes.now (in_character behind_d u content d k) at) }
{
    let second = hex_at(bytes, at)?;
    if second > 11 {
        return Err(fault_at(bytes, at));
    }
    let unit = unit_of(bytes, at + 1, 13 * 16 + second)?;
    if second <= 7 {
        return Ok((unit, at + 3));
    }
    let low = low_of(bytes, at + 3)?;
    Ok((0x10000 + (unit - 0xD800) * 0x400 + (low - 0xDC00), at + 9))
}

/// The code that a short escape stands for.
fn short_of(byte: u8) -> Option<u32>
    ensures { MatchOption result ((code : ℕ) → IsShortEscape byte code → ⊥) (λ code. IsShortEscape byte code) }
{
    match byte {
        b'"' => Some(34),
        b'\\' => Some(92),
        b'/' => Some(47),
        b'b' => Some(8),
        b'f' => Some(12),
        b'n' => Some(10),
        b'r' => Some(13),
        b't' => Some(9),
        _ => None,
    }
}

/// The code of the character behind a backslash, and the position behind it.
fn code_of(bytes: &[u8], at: usize) -> Result<(u32, usize), JsonFault>
    requires { at ≤ length bytes.now }
    ensures forward { IfOk result (λ p. at < p.1) }
    ensures within { IfOk result (λ p. p.1 ≤ length bytes.now) }
    ensures scalar { IfOk result (λ p. IsScalar p.0) }
    ensures read { (u : Use) (content : List ℕ) (d : ℕ) (k : List Frame) → Leads bytes.now
        (λ p o. o ≡ reading bytes.now (in_text u (content ++ encode_utf8 p.0) d k) p.1)
        result (reading bytes.now (in_character escaped u content d k) at) }
{
    let mark = byte_at(bytes, at);
    if mark == b'u' {
        return unicode_of(bytes, at + 1);
    }
    match short_of(mark) {
        Some(code) => Ok((code, at + 1)),
        None => Err(fault_at(bytes, at)),
    }
}

/// The character behind a backslash, and the position behind it.
fn escape_of(bytes: &[u8], at: usize) -> Result<(char, usize), JsonFault>
    requires { at ≤ length bytes.now }
    ensures forward { IfOk result (λ p. at < p.1) }
    ensures within { IfOk result (λ p. p.1 ≤ length bytes.now) }
    ensures read { (u : Use) (content : List ℕ) (d : ℕ) (k : List Frame) → Leads bytes.now
        (λ p o. o ≡ reading bytes.now (in_text u (content ++ encode_utf8 p.0) d k) p.1)
        result (reading bytes.now (in_character escaped u content d k) at) }
{
    let (code, end) = code_of(bytes, at)?;
    // The escapes stand for no surrogate.
    Ok((unsafe { char::from_u32_unchecked(code) }, end))
}

/// Characters that stand for themselves, as text.
fn run_of(bytes: &[u8], at: usize, end: usize) -> &str
    requires { Copies bytes.now at end }
    ensures { result.now ≡ slice_range bytes.now at end }
{
    // They are in UTF-8, as the `requires` says.
    unsafe { str::from_utf8_unchecked(&bytes[at..end]) }
}

/// A text from its first byte on, and the position behind its second quotation mark.
#[inline(always)]
pub fn text_of(alloc: Global, bytes: &[u8], at: usize) -> Result<(Text, usize), JsonFault>
    requires { at ≤ length bytes.now }
    ensures forward { IfOk result (λ p. at ≤ p.1) }
    ensures within { IfOk result (λ p. p.1 ≤ length bytes.now) }
    ensures read { (u : Use) (d : ℕ) (k : List Frame) → Leads bytes.now
        (λ p o. o ≡ reading bytes.now (used u p.0 d k) p.1)
        result (reading bytes.now (in_text u [] d k) at) }
{
    // Most texts are plain up to that mark.
    let end = plain_end(bytes, at);
    if byte_at(bytes, end) == b'"' {
        let run = run_of(bytes, at, end);
        return Ok((Text::from_str(alloc, run)?, end + 1));
    }
    mixed_text_of(alloc, bytes, at)
}

/// The same of a text in which characters of several bytes or escapes may stand.
#[inline(never)]
fn mixed_text_of(alloc: Global, bytes: &[u8], at: usize) -> Result<(Text, usize), JsonFault>
    requires { at ≤ length bytes.now }
    ensures forward { IfOk result (λ p. at ≤ p.1) }
    ensures within { IfOk result (λ p. p.1 ≤ length bytes.now) }
    ensures read { (u : Use) (d : ℕ) (k : List Frame) → Leads bytes.now
        (λ p o. o ≡ reading bytes.now (used u p.0 d k) p.1)
        result (reading bytes.now (in_text u [] d k) at) }
{
    let end = run_end(bytes, at)?;
    let run = run_of(bytes, at, end);
    if byte_at(bytes, end) == b'"' {
        return Ok((Text::from_str(alloc, run)?, end + 1));
    }
    escaped_text_of(alloc, bytes, end, run)
}

/// A text of which this run was read, and that goes on with an escape here.
fn escaped_text_of(
    alloc: Global,
    bytes: &[u8],
    at: usize,
    run: &str,
) -> Result<(Text, usize), JsonFault>
    requires at { at ≤ length bytes.now }
    requires stops { StopsRun (slice_index bytes.now at) }
    ensures forward { IfOk result (λ p. at ≤ p.1) }
    ensures within { IfOk result (λ p. p.1 ≤ length bytes.now) }
    ensures read { (u : Use) (d : ℕ) (k : List Frame) → Leads bytes.now
        (λ p o. o ≡ reading bytes.now (used u p.0 d k) p.1)
        result (reading bytes.now (in_text u run.now d k) at) }
{
    let mut content = String::from_str(alloc, run)?;
    let mut at = at;
    'escapes: while byte_at(bytes, at) == b'\\' {
        let (character, start) = escape_of(bytes, at + 1)?;
        content.push(character)?;
        at = run_end(bytes, start)?;
        content.push_str(run_of(bytes, start, at))?;
    }
    if byte_at(bytes, at) == b'"' {
        return Ok((Text::from_string(content), at + 1));
    }
    Err(fault_at(bytes, at))
}
