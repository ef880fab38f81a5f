//! Texts in quotes.

ghost use Rattle.std.specs.Prelude.{◌≡◌, ◌<◌, ◌≤◌, ◌++◌, ◌∷◌, [], length, slice_index, false, None, Some, IfOk, IfSome, MatchOption};
ghost use Rattle.query_terms.specs.tokens.Spellings.{IsLongest, BeginsNone, IsModel, escape};
ghost use Rattle.query_lexer.specs.Machinery.Spans.{is_plain, quoted_content, prepend};

use crate::bytes::{byte_at, plain_len};
use dt_base::names::{Dtmi, NameFault};
use dt_base::{OutOfMemory, Text};
use query_terms::tokens::Token;
use std::alloc::Global;

/// What a character behind a backslash stands for.
fn escape_of(character: u8) -> Option<char>
    ensures { result ≡ escape character }
{
    if character == b'\\' {
        return Some('\\');
    }
    if character == b'\'' {
        return Some('\'');
    }
    if character == b'"' {
        return Some('"');
    }
    if character == b'n' {
        return Some('\n');
    }
    if character == b'r' {
        return Some('\r');
    }
    if character == b't' {
        return Some('\t');
    }
    None
}

/// The bytes in front that stand for themselves, and what follows them.
fn plain_run(text: &str) -> (&str, &str)
    ensures same { quoted_content text.now ≡ prepend result.0.now (quoted_content result.1.now) }
    ensures stops { is_plain (slice_index result.1.now 0) ≡ false }
    ensures shorter { length result.1.now ≤ length text.now }
{
    text.split_at(plain_len(text.as_bytes()))
}

/// What the escape in front stands for, and what follows it.
fn escaped(text: &str) -> Option<(char, &str)>
    requires { slice_index text.now 0 ≡ 92 }
    ensures same { MatchOption result (quoted_content text.now ≡ None) (λ p. quoted_content text.now ≡ prepend (p.0 ∷ []) (quoted_content p.1.now)) }
    ensures ascii { IfSome result (λ p. p.0 < 128) }
    ensures shorter { IfSome result (λ p. length p.1.now < length text.now) }
{
    match escape_of(byte_at(text.as_bytes(), 1)) {
        Some(character) => {
            let (_, rest) = text.split_at(2);
            Some((character, rest))
        }
        None => None,
    }
}

/// The content of a text behind its opening quote, and what follows the closing one.
fn content_of<'a>(alloc: Global, text: &'a str) -> Result<Option<(Text, &'a str)>, OutOfMemory>
    ensures { IfOk result (λ o. MatchOption o (quoted_content text.now ≡ None) (λ p. quoted_content text.now ≡ Some (p.0, p.1.now))) }
{
    let mut content = String::new(alloc);
    let (run, mut rest) = plain_run(text);
    content.push_str(run)?;
    'escapes: while byte_at(rest.as_bytes(), 0) == b'\\' {
        let Some((character, behind)) = escaped(rest) else {
            return Ok(None);
        };
        content.push(character)?;
        let (next, after) = plain_run(behind);
        content.push_str(next)?;
        rest = after;
    }
    if byte_at(rest.as_bytes(), 0) == b'\'' {
        let (_, behind) = rest.split_at(1);
        return Ok(Some((Text::from_string(content), behind)));
    }
    Ok(None)
}

/// The identifier of a model that a text is, if it is one.
fn model_of(alloc: Global, text: &str) -> Result<Option<Dtmi>, OutOfMemory>
    ensures { IfOk result (λ model. IsModel text.now model) }
{
    match Dtmi::read(alloc, text) {
        Ok(model) => Ok(Some(model)),
        Err(fault) => match fault {
            NameFault::OutOfMemory => Err(OutOfMemory),
            _ => Ok(None),
        },
    }
}

/// The text in quotes in front, whose opening quote stands here.
pub(crate) fn text_of<'a>(
    alloc: Global,
    text: &'a str,
) -> Result<Option<(Token, &'a str)>, OutOfMemory>
    requires { slice_index text.now 0 ≡ 39 }
    ensures { IfOk result (λ o. MatchOption o (BeginsNone text.now) (λ p. IsLongest text.now p.0 p.1.now)) }
{
    let (_, behind) = text.split_at(1);
    match content_of(alloc, behind)? {
        Some((content, rest)) => {
            let model = model_of(alloc, content.as_str())?;
            Ok(Some((Token::Text(content, model), rest)))
        }
        None => Ok(None),
    }
}
