//! The longest token at a place.

ghost use Rattle.std.specs.Prelude.{◌≡◌, ◌≢◌, true, false, None, slice_index, IfOk, MatchOption};
ghost use Rattle.query_terms.specs.tokens.Spellings.{is_space, is_name_start, is_number_start, SkipsSpaces, IsLongest, BeginsNone};
ghost use Rattle.query_lexer.specs.Machinery.Spans.{mark_at};

use crate::bytes::{byte_at, is_name_start, is_number_start, name_len, space_len};
use crate::marks::{mark_at, mark_len};
use crate::numbers::number_of;
use crate::texts::text_of;
use dt_base::{OutOfMemory, Text};
use query_terms::tokens::{Token, word_of};
use std::alloc::Global;

/// The text behind white space.
pub fn behind_spaces(text: &str) -> &str
    ensures spaces { SkipsSpaces text.now result.now }
    ensures stops { is_space (slice_index result.now 0) ≡ false }
{
    let (_, rest) = text.split_at(space_len(text.as_bytes()));
    rest
}

/// The name in front, whose first byte stands here.
fn name_in_front<'a>(alloc: Global, text: &'a str) -> Result<(Token, &'a str), OutOfMemory>
    requires { is_name_start (slice_index text.now 0) ≡ true }
    ensures { IfOk result (λ p. IsLongest text.now p.0 p.1.now) }
{
    let (name, rest) = text.split_at(name_len(text.as_bytes()));
    let word = word_of(name);
    let name = Text::from_str(alloc, name)?;
    Ok((Token::Name(word, name), rest))
}

/// The mark in front, where nothing else begins here.
fn mark_in_front(text: &str) -> Option<(Token, &str)>
    requires name { is_name_start (slice_index text.now 0) ≡ false }
    requires number { is_number_start (slice_index text.now 0) ≡ false }
    requires quote { slice_index text.now 0 ≢ 39 }
    ensures { MatchOption result (BeginsNone text.now) (λ p. IsLongest text.now p.0 p.1.now) }
{
    let bytes = text.as_bytes();
    match mark_at(byte_at(bytes, 0), byte_at(bytes, 1)) {
        Some(mark) => {
            let (_, rest) = text.split_at(mark_len(mark));
            Some((Token::Mark(mark), rest))
        }
        None => None,
    }
}

/// The longest token in front, and what follows it; none exactly where no token begins here.
pub fn token_of<'a>(alloc: Global, text: &'a str) -> Result<Option<(Token, &'a str)>, OutOfMemory>
    ensures { IfOk result (λ o. MatchOption o (BeginsNone text.now) (λ p. IsLongest text.now p.0 p.1.now)) }
{
    let first = byte_at(text.as_bytes(), 0);
    if is_name_start(first) {
        return Ok(Some(name_in_front(alloc, text)?));
    }
    if is_number_start(first) {
        return Ok(number_of(text));
    }
    if first == b'\'' {
        return text_of(alloc, text);
    }
    Ok(mark_in_front(text))
}
