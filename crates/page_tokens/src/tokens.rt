//! The ids that a token names.

ghost use Rattle.std.specs.Prelude.{◌≡◌, ◌==◌, List, ℕ, map, count_by, IfOk, MatchOption};
ghost use Rattle.page_tokens.specs.Tokens.{NameIds, IsPageToken, token_parts};

use crate::named::id_named;
use dt_base::{OutOfMemory, Text};
use std::alloc::{AllocError, Global};

/// How many `/` a text has.
fn slashes(text: &str) -> usize
    ensures { result ≡ count_by (λ b. b == 47) text.now }
{
    text.as_bytes().iter().filter(|byte| **byte == b'/').count()
}

/// The parts of a text that a `/` stands between.
fn parts_of(alloc: Global, text: &str) -> Result<Vec<&str>, AllocError>
    ensures { IfOk result (λ parts. map (λ p. p.now) parts.items ≡ token_parts text.now) }
{
    text.split('/').collect(alloc)
}

/// The ids that parts name, where each names one.
fn ids_of_parts(alloc: Global, parts: &[&str]) -> Result<Option<Vec<Text>>, OutOfMemory>
    ensures { IfOk result (λ found. MatchOption found ((ids : List (List ℕ)) → NameIds (map (λ p. p.now) parts.now) ids → ⊥) (λ ids. NameIds (map (λ p. p.now) parts.now) ids.items)) }
{
    let mut ids = Vec::with_capacity(alloc, parts.len())?;
    'parts: for part in parts {
        match id_named(alloc, part)? {
            Some(id) => ids.push(id)?,
            None => return Ok(None),
        }
    }
    Ok(Some(ids))
}

/// The ids that the token of a page names; `None` exactly where the text is no token of as many ids. Only want of memory
/// makes it fail.
pub fn ids_of_token(
    alloc: Global,
    text: &str,
    count: usize,
) -> Result<Option<Vec<Text>>, OutOfMemory>
    ensures { IfOk result (λ found. MatchOption found ((ids : List (List ℕ)) → IsPageToken text.now count ids → ⊥) (λ ids. IsPageToken text.now count ids.items)) }
{
    if count == 0 {
        return Ok(None);
    }
    if slashes(text) != count - 1 {
        return Ok(None);
    }
    let parts = parts_of(alloc, text)?;
    ids_of_parts(alloc, &parts)
}
