//! The id that one part names.

ghost use Rattle.std.specs.Prelude.{◌≡◌, ℕ, List, IfOk, MatchOption};
ghost use Rattle.twin_value.specs.Breaches.{IsTwinId};
ghost use Rattle.page_tokens.specs.Tokens.{NamesId};

use dt_base::{OutOfMemory, Text};
use percent_encoding::{DecodeError, percent_decode};
use std::alloc::Global;
use twin_value::is_twin_id;

/// The text, where it is an id.
fn read_id(alloc: Global, text: &str) -> Result<Option<Text>, OutOfMemory>
    ensures { IfOk result (λ found. MatchOption found (IsTwinId text.now → ⊥) (λ id. (id ≡ text.now) × IsTwinId text.now)) }
{
    if !is_twin_id(text) {
        return Ok(None);
    }
    let id = Text::from_str(alloc, text)?;
    Ok(Some(id))
}

/// The id of a twin or a relationship that a part of a path or of a token names, in memory of its own; `None` exactly where
/// it names none. Only want of memory makes it fail.
pub fn id_named(alloc: Global, part: &str) -> Result<Option<Text>, OutOfMemory>
    ensures { IfOk result (λ found. MatchOption found ((id : List ℕ) → NamesId part.now id → ⊥) (λ id. NamesId part.now id)) }
{
    match percent_decode(part.as_bytes()).decode_utf8(alloc) {
        Ok(text) => read_id(alloc, &text),
        Err(DecodeError::Utf8(_)) => Ok(None),
        Err(DecodeError::OutOfMemory) => Err(OutOfMemory),
    }
}
